// What a job holds, and what the reader refuses.
ghost use Rattle.std.specs.Prelude.{◌≡◌, Some};
ghost use Rattle.job.specs.Causes.{number_of, reason, fault_text};
ghost use Rattle.job.specs.declared.record.Cause.TheVariants.{UnknownMeasure};

use crate::named::Named;
use measure::UnknownMeasure;
use row::{Cell, Row};
use std::error::Error;
use std::fmt;

/// One record of a job: a row to add, a cell to place, the number of a cell to withdraw, or a cell
/// to try. A cell has a name or none.
#[derive(Clone, Copy)]
pub enum Record<'a> {
    Row(Row),
    Place(Cell, Option<Named<'a>>),
    Withdraw(u32),
    Try(Cell, Option<Named<'a>>),
}

/// Why a job or a record of it is not read. Each cause has a number, which [`Cause::number`] gives.
#[derive(Clone, Copy, PartialEq, Eq, Debug)]
pub enum Cause {
    TooLong = 12,
    EndsEarly = 15,
    UnknownKind = 16,
    WrongMap = 17,
    BadName = 18,
    UnknownMeasure = 19,
}

impl Cause {
    /// The number of the refusal, from 12 to 19.
    pub fn number(self) -> u32
        ensures { result ≡ number_of self }
    {
        self as u32
    }

    /// Why a job or a record is refused, in words.
    pub fn reason(self) -> &'static str
        ensures { result.now ≡ reason self }
    {
        match self {
            Cause::TooLong => "the job is longer than 65535 bytes",
            Cause::EndsEarly => "the job ends too early",
            Cause::UnknownKind => "the kind is unknown",
            Cause::WrongMap => "the bit map lacks a required bit or has one that its kind lacks",
            Cause::BadName => "a name of length 0 or with a byte outside 0x21 to 0x7E",
            Cause::UnknownMeasure => "the first byte names no measure",
        }
    }
}

impl From<UnknownMeasure> for Cause {
    ghost from_gives = { λ _ cause. cause ≡ UnknownMeasure };

    fn from(_unknown: UnknownMeasure) -> Cause {
        Cause::UnknownMeasure
    }
}

// Why a job or a record is refused, in words.
impl fmt::Display for Cause {
    ghost output = { λ cause. Some (reason cause) };

    fn fmt<W: fmt::Write>(&self, f: &mut fmt::Formatter<W>) -> fmt::Result {
        f.write_str(self.reason())
    }
}

impl Error for Cause {}

/// A refusal of the reader: its cause, the index of the record and the place of the byte, both
/// counted from 0. Of a job that cannot be opened both are 0.
#[derive(Clone, Copy, PartialEq, Eq, Debug)]
pub struct Fault {
    pub cause: Cause,
    pub index: u16,
    pub place: u16,
}

// The record's index, the byte's place, and the refusal with its number.
impl fmt::Display for Fault {
    ghost output = { λ fault. Some (fault_text fault) };

    fn fmt<W: fmt::Write>(&self, f: &mut fmt::Formatter<W>) -> fmt::Result {
        let Fault {
            cause,
            index,
            place,
        } = *self;
        let number = cause.number();
        write!(f, "{index} bad byte {place}: refusal {number}, {cause}")
    }
}

impl Error for Fault {}
