// The two measures by name, for programs whose input says which one counts.
ghost use Rattle.std.specs.Prelude.{Some, codes};
ghost use Rattle.measure.specs.Names.{Decodes, named_fair, named_price, word};

use crate::{Measure, Move, Plain, Squared, Step};
use std::error::Error;
use std::fmt;

/// The name of a measure. It is a measure itself, which costs what the measure of that name costs.
#[derive(Clone, Copy, PartialEq, Eq, Debug)]
pub enum MeasureName {
    Squared,
    Plain,
}

/// Why there is no measure: the byte names none.
#[derive(Clone, Copy, PartialEq, Eq, Debug)]
pub struct UnknownMeasure;

impl Measure for MeasureName {
    ghost price = { named_price };

    ghost fair = { named_fair };

    fn price_at(&self, at: Move) -> u64 {
        match self {
            MeasureName::Squared => Squared.price_at(at),
            MeasureName::Plain => Plain.price_at(at),
        }
    }

    fn step_at(&self, at: Step) -> i64 {
        match self {
            MeasureName::Squared => Squared.step_at(at),
            MeasureName::Plain => Plain.step_at(at),
        }
    }
}

// The byte by which a job names a measure: 0 squared, 1 plain.
impl TryFrom<u8> for MeasureName {
    type Error = UnknownMeasure;

    ghost try_from_gives = { Decodes };

    fn try_from(byte: u8) -> Result<Self, UnknownMeasure> {
        match byte {
            0 => Ok(MeasureName::Squared),
            1 => Ok(MeasureName::Plain),
            _ => Err(UnknownMeasure),
        }
    }
}

// The word for a measure, in what people read and write.
impl fmt::Display for MeasureName {
    ghost output = { λ name. Some (word name) };

    fn fmt<W: fmt::Write>(&self, f: &mut fmt::Formatter<W>) -> fmt::Result {
        f.write_str(match self {
            MeasureName::Squared => "squared",
            MeasureName::Plain => "plain",
        })
    }
}

impl fmt::Display for UnknownMeasure {
    ghost output = { λ _. Some (codes "the byte names no measure") };

    fn fmt<W: fmt::Write>(&self, f: &mut fmt::Formatter<W>) -> fmt::Result {
        f.write_str("the byte names no measure")
    }
}

impl Error for UnknownMeasure {}
