// Where bytes come from.
ghost use Rattle.std.specs.Prelude.{ℕ, List, ⊤, Option, OnErr, Some, codes};
ghost use Rattle.std.specs.Io.{ReadsAtMost};
ghost use Rattle.std.specs.Io.KnownBytes.{ReadConsumes};
ghost use Rattle.streams.specs.Streams.{Fetched};

use std::error::Error;
use std::io::{ErrorKind, Read};
use std::{fmt, io};

/// What bytes come from: `Read`, with a word for its failures.
pub trait Source {
    /// The bytes that are still to come, where they are known.
    ghost remaining: { Self → Option (List ℕ) };

    /// That the last fetch failed.
    ghost failed: { Self → Type 0 };

    /// Fills a first part of the room, and answers how long that part is: 0 at the end alone, or
    /// where there is no room.
    fn fetch_some(&mut self, room: &mut [u8]) -> io::Result<usize>
        ensures bound { ReadsAtMost result room.new }
        ensures bytes { ReadConsumes (remaining self.old) (remaining self.new) result room.new }
        ensures failure { OnErr result (failed self.new) };
}

impl<R: Read> Source for R {
    ghost remaining = { R.Read.remaining };

    ghost failed = { λ _. ⊤ };

    fn fetch_some(&mut self, room: &mut [u8]) -> io::Result<usize> {
        self.read(room)
    }
}

/// That a source failed: what it holds could not be read to its end.
#[derive(Clone, Copy, PartialEq, Eq, Debug)]
pub struct NotRead;

impl fmt::Display for NotRead {
    ghost output = { λ _. Some (codes "the input cannot be read") };

    fn fmt<W: fmt::Write>(&self, f: &mut fmt::Formatter<W>) -> fmt::Result {
        f.write_str("the input cannot be read")
    }
}

impl Error for NotRead {}

// Fetches some bytes, and tries again where a signal cut that short.
fn fetch_again<R: Source>(input: &mut R, room: &mut [u8]) -> io::Result<usize>
    ensures bound { ReadsAtMost result room.new }
    ensures bytes { ReadConsumes (R.remaining input.old) (R.remaining input.new) result room.new }
    ensures failure { OnErr result (R.failed input.new) }
{
    for _ in 0..u64::MAX {
        match input.fetch_some(room) {
            Err(why) if why.kind() == ErrorKind::Interrupted => {}
            fetched => return fetched,
        }
    }
    input.fetch_some(room)
}

/// Fetches bytes into the room until it is full or the input is at its end, and answers how many
/// they are; they stand at the room's front. It fails only where the input failed, and then what
/// was fetched before stands there.
pub fn fetch<R: Source>(input: &mut R, room: &mut [u8]) -> Result<usize, NotRead>
    ensures bound { ReadsAtMost result room.new }
    ensures bytes { Fetched (R.remaining input.old) (R.remaining input.new) (R.failed input.new)
        room.new result }
{
    let mut filled = 0;
    while filled < room.len() {
        match fetch_again(input, &mut room[filled..]) {
            Ok(0) => return Ok(filled),
            Ok(count) => filled += count,
            Err(_) => return Err(NotRead),
        }
    }
    Ok(filled)
}
