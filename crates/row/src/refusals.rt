// What is refused, by number and in words.
ghost use Rattle.std.specs.Prelude.{◌≡◌, Some};
ghost use Rattle.row.specs.declared.Refusal.TheVariants.{OutOfRange};
ghost use Rattle.row.specs.Reasons.{fault_reason, reason};
ghost use Rattle.row.specs.Refusals.{fault_number, number_of};

use crate::{Fault, Refusal};
use std::error::Error;
use std::fmt;

impl Fault {
    /// The number of a field that is outside its range.
    pub fn number(self) -> u32
        ensures { result ≡ fault_number self }
    {
        self as u32
    }
}

impl fmt::Display for Fault {
    ghost output = { λ fault. Some (fault_reason fault) };

    fn fmt<W: fmt::Write>(&self, f: &mut fmt::Formatter<W>) -> fmt::Result {
        f.write_str(match self {
            Fault::Wanted => "the wanted site is above 65535 or the wanted line above 4095",
            Fault::Width => "the width is not from 1 to 1000",
            Fault::Weight => "the weight is not from 1 to 1000",
            Fault::Number => "the number is above 65535",
            Fault::Row => "the row's line is above 4095, or it has no sites, or some above 65534",
        })
    }
}

impl Error for Fault {}

impl Refusal {
    /// The number of a refusal.
    pub fn number(self) -> u32
        ensures { result ≡ number_of self }
    {
        // A match, since one of the variants holds a fault, so that the enum has no numbers of
        // its own.
        match self {
            Refusal::OutOfRange(fault) => fault.number(),
            Refusal::Size => 12,
            Refusal::Order => 13,
            Refusal::TooWide => 14,
        }
    }
}

impl From<Fault> for Refusal {
    ghost from_gives = { λ fault r. r ≡ OutOfRange fault };

    fn from(fault: Fault) -> Refusal {
        Refusal::OutOfRange(fault)
    }
}

impl fmt::Display for Refusal {
    ghost output = { λ refusal. Some (reason refusal) };

    fn fmt<W: fmt::Write>(&self, f: &mut fmt::Formatter<W>) -> fmt::Result {
        match self {
            Refusal::OutOfRange(fault) => fault.fmt(f),
            Refusal::Size => {
                f.write_str("there are more than 1024 cells, or not one site for each")
            }
            Refusal::Order => f.write_str("the cells are not in wanted order"),
            Refusal::TooWide => f.write_str("the cells are wider than the row"),
        }
    }
}

impl Error for Refusal {}
