//! Result lines: the text of each, and the call that writes one into a lent buffer.
#![tactic(auto)]

ghost use Rattle.std.specs.Prelude.{◌≡◌, ◌≤◌, length, IfOk};
ghost use Rattle.lines.specs.Appended.{Appends};
ghost use Rattle.lines.specs.Fronts.{HasRoom, Puts};
ghost use Rattle.lines.specs.Texts.{text};
ghost use Rattle.lines.specs.Writes.{write_answer, write_buffer};
ghost use Rattle.lines.specs.declared.TheConstants.{LEAST_BUFFER};

mod appending;
mod front;
mod short_buffer;

pub use appending::append;
use front::Front;
pub use job::LONGEST_NAME;
use job::Name;
pub use short_buffer::ShortBuffer;
use std::alloc::AllocError;

/// The least length of a line buffer, in bytes: no line is longer.
pub const LEAST_BUFFER: usize = 320;

/// A line of text that answers a job. That of a record begins with the record's index, counted from
/// 0, and ends with the cell's name, where there is one.
// A refusal, of a record or of its reading, is its number here, since several crates refuse and this
// one knows none of them.
#[derive(Clone, Copy)]
pub enum Line<'a> {
    /// `K ok`, or `K ok NAME`: a record is granted.
    Granted {
        index: u16,
        name: Option<Name<'a>>,
    },
    /// `K ok LINE SITE RISE`, or `K ok LINE SITE RISE NAME`: a cell is seated.
    Seated {
        index: u16,
        line: u32,
        site: u32,
        rise: u64,
        name: Option<Name<'a>>,
    },
    /// `K no N`, or `K no N NAME`: a record is refused.
    Refused {
        index: u16,
        number: u32,
        name: Option<Name<'a>>,
    },
    /// `K bad N P`: a record cannot be read, because of the byte at place P.
    Unreadable {
        index: u16,
        number: u32,
        place: u16,
    },
    /// `NUMBER LINE SITE`: where a cell stands.
    Cell {
        number: u32,
        line: u32,
        site: u32,
    },
    /// `cost C`: what all standing cells cost.
    Cost {
        cost: u64,
    },
}

impl<'a> Line<'a> {
    // Puts the line's text behind what the front holds. One arm for each kind, its parts in the order
    // of its text; the patterns take a line for each field.
    fn put(self, front: &mut Front)
        requires room { HasRoom front.old (text self) }
        ensures { Puts front.old (text self.entry) front.new }
    {
        match self {
            Line::Granted { index, name } => {
                front.put_head(index, b" ok");
                front.put_ending(name);
            }
            Line::Seated {
                index,
                line,
                site,
                rise,
                name,
            } => {
                front.put_head(index, b" ok");
                front.put_spot(line, site);
                front.put_spaced(rise);
                front.put_ending(name);
            }
            Line::Refused {
                index,
                number,
                name,
            } => {
                front.put_head(index, b" no");
                front.put_spaced(number);
                front.put_ending(name);
            }
            Line::Unreadable {
                index,
                number,
                place,
            } => {
                front.put_head(index, b" bad");
                front.put_spaced(number);
                front.put_spaced(place);
                front.put(b"\n");
            }
            Line::Cell { number, line, site } => {
                front.put_number(number);
                front.put_spot(line, site);
                front.put(b"\n");
            }
            Line::Cost { cost } => {
                front.put(b"cost");
                front.put_spaced(cost);
                front.put(b"\n");
            }
        }
    }

    /// Writes the line at the front of a buffer, and answers its length, at most 320; the buffer past
    /// it stays. Refuses a buffer of fewer than 320 bytes (20), and then the whole buffer stays.
    #[tactic(auto, using(crate::proofs::Lengths::text_length))]
    pub fn write(self, buffer: &mut [u8]) -> Result<usize, ShortBuffer>
        ensures answer { result ≡ write_answer (text self.entry) buffer.old }
        ensures after { buffer.new ≡ write_buffer (text self.entry) buffer.old }
        ensures fits { IfOk result (λ end. end ≤ LEAST_BUFFER) }
        ensures short { length (text self.entry) ≤ LEAST_BUFFER }
        ensures limit { LEAST_BUFFER ≡ 320 }
    {
        if buffer.len() < LEAST_BUFFER {
            return Err(ShortBuffer);
        }
        let mut front = Front { buffer, end: 0 };
        self.put(&mut front);
        Ok(front.end)
    }

    /// Adds the line at the end of a growing buffer. It fails only for want of memory.
    pub fn append_to(self, out: &mut Vec<u8>) -> Result<(), AllocError>
        ensures { Appends out.old result (text self.entry) out.new }
    {
        let mut buffer = [0; LEAST_BUFFER];
        let length = self.write(&mut buffer).unwrap();
        append(out, &buffer[..length])
    }
}
