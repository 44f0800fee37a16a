// Why a job is not listed.
ghost use Rattle.std.specs.Prelude.{◌≡◌, Some};
ghost use Rattle.listing.specs.Unlisted.{words};
ghost use Rattle.listing.specs.declared.unlisted.Unlisted.TheVariants as unlisted;

use std::alloc::AllocError;
use std::error::Error;
use std::fmt;
use streams::{NotRead, NotWritten};

/// Why a job is not listed in full: reading it failed, writing the listing failed, or the buffer for
/// the listing had no room and there was no memory for more.
#[derive(Clone, Copy, PartialEq, Eq, Debug)]
pub enum Unlisted {
    NotRead,
    NotWritten,
    NoMemory,
}

impl From<NotRead> for Unlisted {
    ghost from_gives = { λ _ r. r ≡ unlisted.NotRead };

    fn from(_failed: NotRead) -> Unlisted {
        Unlisted::NotRead
    }
}

impl From<NotWritten> for Unlisted {
    ghost from_gives = { λ _ r. r ≡ unlisted.NotWritten };

    fn from(_failed: NotWritten) -> Unlisted {
        Unlisted::NotWritten
    }
}

impl From<AllocError> for Unlisted {
    ghost from_gives = { λ _ r. r ≡ unlisted.NoMemory };

    fn from(_refused: AllocError) -> Unlisted {
        Unlisted::NoMemory
    }
}

impl fmt::Display for Unlisted {
    ghost output = { λ why. Some (words why) };

    fn fmt<W: fmt::Write>(&self, f: &mut fmt::Formatter<W>) -> fmt::Result {
        match self {
            Unlisted::NotRead => f.write_str("the job cannot be read"),
            Unlisted::NotWritten => f.write_str("the listing cannot be written"),
            Unlisted::NoMemory => f.write_str("no memory for the listing"),
        }
    }
}

impl Error for Unlisted {}
