// The kinds of records, which the first byte of a record names.
ghost use Rattle.std.specs.Prelude.{◌≡◌};
ghost use Rattle.job.specs.Format.{kind_named};

use crate::record::Cause;

// A row, a cell to place, a withdrawal, or a cell to try.
#[derive(Clone, Copy)]
pub(crate) enum Kind {
    Row,
    Place,
    Withdraw,
    Try,
}

impl TryFrom<u8> for Kind {
    type Error = Cause;

    ghost try_from_gives = { λ number r. r ≡ kind_named number };

    // The kind with a number.
    fn try_from(number: u8) -> Result<Kind, Cause> {
        match number {
            1 => Ok(Kind::Row),
            2 => Ok(Kind::Place),
            3 => Ok(Kind::Withdraw),
            4 => Ok(Kind::Try),
            _ => Err(Cause::UnknownKind),
        }
    }
}
