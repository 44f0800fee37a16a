// Why a record is not carried out.
ghost use Rattle.std.specs.Prelude.{◌≡◌, Some};
ghost use Rattle.lines.specs.Texts.{named, text};
ghost use Rattle.run.specs.Faults.{fault_number, fault_text, fault_words};
ghost use Rattle.run.specs.declared.fault.Fault.TheVariants as fault;

use floor::Refusal;
use job::Name;
use lines::Line;
use std::error::Error;
use std::fmt;

/// The fault of a run: a record cannot be read, which ends the job, or the floor refuses it.
/// What is printed of it is a line with its number.
#[derive(Clone, Copy, PartialEq, Eq, Debug)]
pub enum Fault {
    Unread(job::Fault),
    Refused(Refusal),
}

impl From<job::Fault> for Fault {
    ghost from_gives = { λ unread r. r ≡ fault.Unread unread };

    fn from(unread: job::Fault) -> Fault {
        Fault::Unread(unread)
    }
}

impl From<Refusal> for Fault {
    ghost from_gives = { λ refusal r. r ≡ fault.Refused refusal };

    fn from(refusal: Refusal) -> Fault {
        Fault::Refused(refusal)
    }
}

// What the reader or the floor says.
impl fmt::Display for Fault {
    ghost output = { λ fault. Some (fault_words fault) };

    fn fmt<W: fmt::Write>(&self, f: &mut fmt::Formatter<W>) -> fmt::Result {
        match self {
            Fault::Unread(unread) => unread.fmt(f),
            Fault::Refused(refusal) => refusal.fmt(f),
        }
    }
}

impl Error for Fault {}

impl Fault {
    /// The number of the reader's refusal (12 to 19) or of the floor's (1 to 11).
    pub fn number(self) -> u32
        ensures { result ≡ fault_number self }
    {
        match self {
            Fault::Unread(unread) => unread.cause.number(),
            Fault::Refused(refusal) => refusal.number(),
        }
    }

    /// The line of a fault of a record with this index, and a name or none, which only a refusal
    /// shows.
    pub(crate) fn line<'a>(self, index: u16, name: Option<Name<'a>>) -> Line<'a>
        ensures { text result ≡ fault_text index (named name.entry) self }
    {
        match self {
            Fault::Unread(unread) => Line::Unreadable {
                index: unread.index,
                number: unread.cause.number(),
                place: unread.place,
            },
            Fault::Refused(refusal) => Line::Refused {
                index,
                number: refusal.number(),
                name,
            },
        }
    }
}
