// Where bytes go to.
ghost use Rattle.std.specs.Prelude.{◌≡◌, ℕ, ◌<◌, List, length, ⊤, Option, IfOk, OnErr, Some, codes};
ghost use Rattle.std.specs.Io.{WritesAtMost};
ghost use Rattle.std.specs.Io.KnownBytes.{WriteAppends};
ghost use Rattle.streams.specs.Streams.{Delivered};

use std::error::Error;
use std::io::{ErrorKind, Write};
use std::{fmt, io};

/// What bytes go to: `Write`, with a word for its failures.
pub trait Sink {
    /// The bytes that it holds, where they are known.
    ghost contents: { Self → Option (List ℕ) };

    /// That it did not take what it was given last.
    ghost failed: { Self → Type 0 };

    /// Takes a first part of the bytes, and answers how long that part is: at least 1, where there
    /// are any and it does not fail.
    fn deliver_some(&mut self, bytes: &[u8]) -> io::Result<usize>
        ensures bound { WritesAtMost result bytes.now }
        ensures bytes { WriteAppends (contents self.old) (contents self.new) result bytes.now }
        ensures some { IfOk result (λ n. n ≡ 0 → 0 < length bytes.now → failed self.new) }
        ensures failure { OnErr result (failed self.new) };
}

impl<W: Write> Sink for W {
    ghost contents = { W.Write.contents };

    ghost failed = { λ _. ⊤ };

    fn deliver_some(&mut self, bytes: &[u8]) -> io::Result<usize> {
        self.write(bytes)
    }
}

/// That a sink failed: it did not take all that it was given.
#[derive(Clone, Copy, PartialEq, Eq, Debug)]
pub struct NotWritten;

impl fmt::Display for NotWritten {
    ghost output = { λ _. Some (codes "the output cannot be written") };

    fn fmt<W: fmt::Write>(&self, f: &mut fmt::Formatter<W>) -> fmt::Result {
        f.write_str("the output cannot be written")
    }
}

impl Error for NotWritten {}

// Delivers some bytes, and tries again where a signal cut that short.
fn deliver_again<W: Sink>(out: &mut W, bytes: &[u8]) -> io::Result<usize>
    ensures bound { WritesAtMost result bytes.now }
    ensures bytes { WriteAppends (W.contents out.old) (W.contents out.new) result bytes.now }
    ensures some { IfOk result (λ n. n ≡ 0 → 0 < length bytes.now → W.failed out.new) }
    ensures failure { OnErr result (W.failed out.new) }
{
    for _ in 0..u64::MAX {
        match out.deliver_some(bytes) {
            Err(why) if why.kind() == ErrorKind::Interrupted => {}
            delivered => return delivered,
        }
    }
    out.deliver_some(bytes)
}

/// Delivers the bytes. It fails only where the output failed, and then a first part of them is out.
pub fn deliver<W: Sink>(out: &mut W, bytes: &[u8]) -> Result<(), NotWritten>
    ensures { Delivered (W.contents out.old) (W.contents out.new) (W.failed out.new)
        bytes.now result }
{
    let mut done = 0;
    while done < bytes.len() {
        match deliver_again(out, &bytes[done..]) {
            Ok(0) | Err(_) => return Err(NotWritten),
            Ok(count) => done += count,
        }
    }
    Ok(())
}
