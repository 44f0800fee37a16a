//! How the lines of a text are found, one after another.
ghost use Rattle.std.specs.Prelude.{◌≡◌, ◌+◌};
ghost use Rattle.std.specs.Iterator.{item_count};
ghost use Rattle.rowtext.specs.Lines.{counts as does_count, counted, end_of, left, end, Gives};
ghost use Rattle.rowtext.specs.Text.{lines, words};

use crate::lines::{Entry, Lines};
use crate::parts::{Parts, Words};

// Whether a line counts: it has a word, and the first one opens no comment.
fn counts(line: &[u8]) -> bool
    ensures { result ≡ does_count (words line.now) }
{
    !matches!(Words::of(line).next(), None | Some([b'#', ..]))
}

impl<'a> Lines<'a> {
    // All lines of a text.
    pub(crate) fn new(text: &'a [u8]) -> Lines<'a>
        ensures left { left result ≡ counted 0 (lines text.now) }
        ensures end { end result ≡ end_of text.now }
    {
        Lines {
            lines: Parts::lines(text),
            read: 0,
        }
    }

    // The number of the line after those that were read.
    pub(crate) fn next_number(&self) -> u64
        ensures { result ≡ self.now.read + 1 }
    {
        self.read + 1
    }
}

impl<'a> Iterator for Lines<'a> {
    type Item = Entry<'a>;

    ghost next_gives = { Gives };

    ghost remaining = { item_count left };

    fn next(&mut self) -> Option<Entry<'a>> {
        while let Some(line) = self.lines.next() {
            self.read += 1;
            if counts(line) {
                return Some(Entry {
                    number: self.read,
                    line,
                });
            }
        }
        None
    }
}
