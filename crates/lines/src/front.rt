// The front of a lent buffer, filled from its first byte on.
// It is not filled by `write!`, whose contract does not say when it succeeds; a name is bytes and not text.
ghost use Rattle.std.specs.Prelude.{◌++◌, codes, decimal};
ghost use Rattle.lines.specs.Fronts.{HasRoom, Puts};
ghost use Rattle.lines.specs.Texts.{ending, spot};

use itoa::{Buffer, Integer};
use job::Name;

// A lent buffer, and where the bytes put into it end. No `ArrayVec<u8, 320>`: the caller lends the
// buffer, and the line is written where it is wanted.
#[derive(Drop)]
pub(crate) struct Front<'a> {
    pub(crate) buffer: &'a mut [u8],
    pub(crate) end: usize,
}

// Each put asks for the room of its own bytes, so no one fact about the struct can stand for all.
impl Front<'_> {
    // Puts bytes behind those that stand there.
    pub(crate) fn put(&mut self, bytes: &[u8])
        requires room { HasRoom self.old bytes.now }
        ensures { Puts self.old bytes.now self.new }
    {
        let end = self.end + bytes.len();
        self.buffer[self.end..end].copy_from_slice(bytes);
        self.end = end;
    }

    // Puts a number in decimal.
    pub(crate) fn put_number<I: Integer>(&mut self, number: I)
        requires room { HasRoom self.old (I.text number) }
        ensures { Puts self.old (I.text number) self.new }
    {
        self.put(Buffer::new().format(number).as_bytes());
    }

    // Puts a space and a number.
    pub(crate) fn put_spaced<I: Integer>(&mut self, number: I)
        requires room { HasRoom self.old (codes " " ++ I.text number) }
        ensures { Puts self.old (codes " " ++ I.text number) self.new }
    {
        self.put(b" ");
        self.put_number(number);
    }

    // Puts the index of a record, and what came of it in a word.
    #[tactic(auto, using(crate::proofs::Fronts::puts_then))]
    pub(crate) fn put_head(&mut self, index: u16, word: &[u8])
        requires room { HasRoom self.old (decimal index ++ word.now) }
        ensures { Puts self.old (decimal index ++ word.now) self.new }
    {
        self.put_number(index);
        self.put(word);
    }

    // Puts a spot: its line, then its site.
    pub(crate) fn put_spot(&mut self, line: u32, site: u32)
        requires room { HasRoom self.old (spot line site) }
        ensures { Puts self.old (spot line site) self.new }
    {
        self.put_spaced(line);
        self.put_spaced(site);
    }

    // Puts the name, if there is one, and ends the line.
    pub(crate) fn put_ending(&mut self, name: Option<Name<'_>>)
        requires room { HasRoom self.old (ending name) }
        ensures { Puts self.old (ending name.entry) self.new }
    {
        if let Some(name) = name {
            self.put(b" ");
            self.put(name.bytes());
        }
        self.put(b"\n");
    }
}
