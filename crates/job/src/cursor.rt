// A place in a job, which moves over what is read there.
ghost use Rattle.std.specs.Prelude.{◌≡◌, ◌≤◌, length};

use crate::record::{Cause, Fault};

mod map;
mod name;
mod records;

// Why a part of a record is not read, and the place of the byte that stands against it.
#[derive(Clone, Copy)]
pub(crate) struct Flaw {
    pub(crate) cause: Cause,
    pub(crate) place: u16,
}

impl Flaw {
    ghost use Rattle.job.specs.Reading.{fault_at};

    // This flaw, in the record with an index.
    pub(crate) fn of_record(self, index: u16) -> Fault
        ensures { result ≡ fault_at index self }
    {
        Fault {
            cause: self.cause,
            index,
            place: self.place,
        }
    }
}

impl Cause {
    // This cause, because of the byte at a place.
    fn at(self, place: u16) -> Flaw
        ensures { result ≡ record { cause = self; place = place } }
    {
        Flaw { cause: self, place }
    }
}

// A place in a job, up to its end.
#[derive(Clone, Copy)]
pub(crate) struct Cursor<'a> {
    pub(crate) job: &'a [u8],
    pub(crate) at: u16,
    ghost small: { length job.now ≤ 65535 },
    ghost within: { at ≤ length job.now },
}

impl<'a> Cursor<'a> {
    ghost use Rattle.job.specs.Parts.{byte, number};
    ghost use Rattle.job.specs.Reads.{Reads};

    // The byte at this place.
    fn take_byte(&mut self) -> Result<u8, Flaw>
        ensures { Reads byte self.old result self.new }
    {
        let end = Cause::EndsEarly.at(self.job.len() as u16);
        let byte = self.job.get(usize::from(self.at)).copied().ok_or(end)?;
        self.at += 1;
        Ok(byte)
    }

    // The number at this place: two bytes, low byte first.
    fn take_number(&mut self) -> Result<u32, Flaw>
        ensures { Reads number self.old result self.new }
    {
        let low = self.take_byte()?;
        let high = self.take_byte()?;
        Ok(u16::from_le_bytes([low, high]).into())
    }
}
