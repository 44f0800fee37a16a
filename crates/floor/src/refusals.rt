//! The refusals of a floor: their numbers, and their reasons in words.
ghost use Rattle.std.specs.Prelude.{◌≡◌, Some};
ghost use Rattle.floor.specs.Reasons.{reason};
ghost use Rattle.floor.specs.Refusals.{number_of};
ghost use Rattle.floor.specs.declared.Refusal.TheVariants.{OutOfRange};

use crate::Refusal;
use row::Fault;
use std::error::Error;
use std::fmt;

impl Refusal {
    /// The number of a refusal, by the rules: 5 to 8, 10 and 11, or that of the field (1 to 4, 9).
    pub fn number(self) -> u32
        ensures { result ≡ number_of self }
    {
        // A match, since one of the variants holds a fault, so that the enum has no numbers of its
        // own.
        match self {
            Refusal::OutOfRange(fault) => fault.number(),
            Refusal::NumberStands => 5,
            Refusal::CellsFull => 6,
            Refusal::NoRoom => 7,
            Refusal::NotStanding => 8,
            Refusal::RowsFull => 10,
            Refusal::RowShares => 11,
        }
    }
}

/// Why a call of the floor is refused, in words; for a field outside its range, which that is.
impl fmt::Display for Refusal {
    ghost output = { λ refusal. Some (reason refusal) };

    fn fmt<W: fmt::Write>(&self, f: &mut fmt::Formatter<W>) -> fmt::Result {
        match self {
            Refusal::OutOfRange(fault) => write!(f, "{fault}"),
            Refusal::NumberStands => f.write_str("a cell of the number stands"),
            Refusal::CellsFull => f.write_str("1024 cells stand"),
            Refusal::NoRoom => f.write_str("no row has sites for the cell"),
            Refusal::NotStanding => f.write_str("no cell of the number stands"),
            Refusal::RowsFull => f.write_str("64 rows stand"),
            Refusal::RowShares => f.write_str("the row shares a site with a row that stands"),
        }
    }
}

impl Error for Refusal {}

// The set call's refusal takes a fault in too: each enum says so for itself, since the trait has
// one impl for each type.
impl From<Fault> for Refusal {
    ghost from_gives = { λ fault r. r ≡ OutOfRange fault };

    fn from(fault: Fault) -> Refusal {
        Refusal::OutOfRange(fault)
    }
}
