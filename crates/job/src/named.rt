// The names of cells.
ghost use Rattle.std.specs.Prelude.{◌≡◌, ◌≤◌, length, true};
ghost use Rattle.std.specs.List.{list_all};
ghost use Rattle.job.specs.Names.{printable};

/// The greatest length of a name, in bytes.
pub const LONGEST_NAME: usize = 255;

// Whether a name may have a byte.
pub(crate) fn is_printable(byte: u8) -> bool
    ensures { result ≡ printable byte }
{
    byte.is_ascii_graphic()
}

// Whether a name may have each of these bytes.
fn are_printable(bytes: &[u8]) -> bool
    ensures { result ≡ list_all printable bytes.now }
{
    bytes.iter().all(|byte| is_printable(*byte))
}

/// The name of a cell: 1 to 255 bytes, each of them from hexadecimal 21 to 7E. They are borrowed.
#[derive(Clone, Copy)]
pub struct Name<'a> {
    pub(crate) bytes: &'a [u8],
    ghost filled: { 1 ≤ length bytes.now },
    ghost short: { length bytes.now ≤ 255 },
    ghost good: { list_all printable bytes.now ≡ true },
}

impl<'a> Name<'a> {
    ghost use Rattle.std.specs.Option.{option_map};
    ghost use Rattle.job.specs.Names.{name_made};
    ghost use Rattle.job.specs.Reads.{name_bytes};

    /// The name that bytes are, or none where they are no name.
    pub fn new(bytes: &'a [u8]) -> Option<Name<'a>>
        ensures { option_map name_bytes result ≡ name_made bytes.now }
    {
        if (1..=LONGEST_NAME).contains(&bytes.len()) && are_printable(bytes) {
            Some(Name { bytes })
        } else {
            None
        }
    }

    /// The bytes of the name.
    pub fn bytes(self) -> &'a [u8]
        ensures { result.now ≡ name_bytes self.entry }
    {
        self.bytes
    }
}

/// A name in a job, and the place of its first byte there, counted from 0.
// The bytes do not tell their place, and users point at the name in the job: a rule of the format.
#[derive(Clone, Copy)]
pub struct Named<'a> {
    pub name: Name<'a>,
    pub place: u16,
}
