//! How bytes fall into parts: a text into lines, a line into words.
ghost use Rattle.std.specs.Prelude.{◌≡◌};
ghost use Rattle.std.specs.Iterator.{YieldsFirstRef, item_count};
ghost use Rattle.std.specs.List.{before_first, after_first};
ghost use Rattle.rowtext.specs.Parts.{first_mark, marks_of, parts_left, words_left};
ghost use Rattle.rowtext.specs.Text.{among, lines, words};

// What ends a part: the line end, or a blank.
#[derive(Clone, Copy)]
enum Marks {
    LineEnd,
    Blanks,
}

impl Marks {
    // The place of the first mark. A search of its own for each kind, and not one that goes through a
    // list of marks at each byte, which takes two to three times as long on blank lines.
    fn first_in(self, bytes: &[u8]) -> Option<usize>
        ensures { result ≡ first_mark (marks_of self) bytes.now }
    {
        match self {
            Marks::LineEnd => bytes.iter().position(|byte| *byte == b'\n'),
            Marks::Blanks => bytes
                .iter()
                .position(|byte| matches!(*byte, b' ' | b'\t' | b'\r')),
        }
    }
}

// What stands before the first mark, and what stands behind it; all and nothing if there is none.
fn cut_at_mark(bytes: &[u8], marks: Marks) -> (&[u8], &[u8])
    ensures before { result.0.now ≡ before_first (among (marks_of marks)) bytes.now }
    ensures after { result.1.now ≡ after_first (among (marks_of marks)) bytes.now }
{
    match marks.first_in(bytes) {
        Some(mark) => (&bytes[..mark], &bytes[mark + 1..]),
        None => (bytes, &[]),
    }
}

// The parts of the bytes that are left, each of which ends with one of the marks.
// Neither `split` nor `split_inclusive`: both take a closure, whose type a field cannot name, so
// that each user of lines or words would carry a type parameter. And behind a last mark `split`
// gives one part more, while `split_inclusive` leaves the marks in the parts.
#[derive(Drop)]
pub(crate) struct Parts<'a> {
    rest: &'a [u8],
    marks: Marks,
}

impl<'a> Parts<'a> {
    // The lines of a text.
    pub(crate) fn lines(text: &'a [u8]) -> Parts<'a>
        ensures { parts_left result ≡ lines text.now }
    {
        Parts {
            rest: text,
            marks: Marks::LineEnd,
        }
    }
}

impl<'a> Iterator for Parts<'a> {
    type Item = &'a [u8];

    ghost next_gives = { YieldsFirstRef parts_left };

    ghost remaining = { item_count parts_left };

    fn next(&mut self) -> Option<&'a [u8]> {
        if self.rest.is_empty() {
            return None;
        }
        let (part, rest) = cut_at_mark(self.rest, self.marks);
        self.rest = rest;
        Some(part)
    }
}

// The words of what is left of a line.
#[derive(Drop)]
pub(crate) struct Words<'a>(Parts<'a>);

impl<'a> Words<'a> {
    // The words of a line.
    pub(crate) fn of(line: &'a [u8]) -> Words<'a>
        ensures { words_left result ≡ words line.now }
    {
        Words(Parts {
            rest: line,
            marks: Marks::Blanks,
        })
    }
}

impl<'a> Iterator for Words<'a> {
    type Item = &'a [u8];

    ghost next_gives = { YieldsFirstRef words_left };

    ghost remaining = { item_count words_left };

    fn next(&mut self) -> Option<&'a [u8]> {
        self.0.find(|part| !part.is_empty())
    }
}
