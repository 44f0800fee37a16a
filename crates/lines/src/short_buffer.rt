// The one refusal of the call that writes a line.
ghost use Rattle.std.specs.Prelude.{Some, codes};

use std::error::Error;
use std::fmt;

/// Why no line is written: the buffer is shorter than 320 bytes.
#[derive(Clone, Copy, PartialEq, Eq, Debug)]
pub struct ShortBuffer;

impl ShortBuffer {
    ghost use Rattle.std.specs.Prelude.{◌≡◌};
    ghost use Rattle.lines.specs.Writes.{number_of};

    /// The number of the refusal, 20.
    pub fn number(self) -> u32
        ensures { result ≡ number_of self }
    {
        20
    }
}

impl fmt::Display for ShortBuffer {
    ghost output = { λ _. Some (codes "the line buffer is shorter than 320 bytes") };

    fn fmt<W: fmt::Write>(&self, f: &mut fmt::Formatter<W>) -> fmt::Result {
        f.write_str("the line buffer is shorter than 320 bytes")
    }
}

impl Error for ShortBuffer {}
