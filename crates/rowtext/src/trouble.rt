//! Why a text has no answer.
ghost use Rattle.std.specs.Prelude.{◌≡◌};
ghost use Rattle.rowtext.specs.declared.trouble.Trouble.TheVariants.{NoMemory, NotRead as not_read, NotWritten as not_written, Unreadable as unreadable};

use std::alloc::{AllocError, AllocFailed};
use streams::{NotRead, NotWritten};

/// What a line is to hold.
#[derive(Clone, Copy, Debug)]
pub enum Form {
    Measure,
    Row,
    Cell,
}

/// Why a line cannot be read.
#[derive(Clone, Copy, Debug)]
pub enum Reason {
    Missing(Form),
    Expected(Form),
    TooFewWords(Form),
    TooManyWords(Form),
    NoSuchMeasure,
    NotNumber,
    TooLarge,
}

/// A line that cannot be read, by its number from 1, and why.
#[derive(Clone, Copy, Debug)]
pub struct Unreadable {
    pub line: u64,
    pub reason: Reason,
}

/// Why a text has no answer: a line cannot be read, it is longer than `MOST_BYTES`, a buffer had no
/// room and there was no memory for more, reading it failed, or writing the answer failed.
#[derive(Clone, Copy, Debug)]
pub enum Trouble {
    Unreadable(Unreadable),
    TooLong,
    NoMemory,
    NotRead,
    NotWritten,
}

impl From<Unreadable> for Trouble {
    ghost from_gives = { λ why r. r ≡ unreadable why };

    fn from(why: Unreadable) -> Trouble {
        Trouble::Unreadable(why)
    }
}

impl From<AllocError> for Trouble {
    ghost from_gives = { λ _ r. r ≡ NoMemory };

    fn from(_refused: AllocError) -> Trouble {
        Trouble::NoMemory
    }
}

impl<T: Drop> From<AllocFailed<T>> for Trouble {
    ghost from_gives = { λ _ r. r ≡ NoMemory };

    fn from(_refused: AllocFailed<T>) -> Trouble {
        Trouble::NoMemory
    }
}

impl From<NotRead> for Trouble {
    ghost from_gives = { λ _ r. r ≡ not_read };

    fn from(_failed: NotRead) -> Trouble {
        Trouble::NotRead
    }
}

impl From<NotWritten> for Trouble {
    ghost from_gives = { λ _ r. r ≡ not_written };

    fn from(_failed: NotWritten) -> Trouble {
        Trouble::NotWritten
    }
}
