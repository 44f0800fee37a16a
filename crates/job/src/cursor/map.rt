// The bit map of a record, and the numbers whose bits stand in it.
ghost use Rattle.std.specs.Prelude.{◌≡◌};
ghost use Rattle.job.specs.Format.{stands, allows, map_byte, field};
ghost use Rattle.job.specs.Reads.{Reads, viewed, bits};

use crate::cursor::{Cursor, Flaw};
use crate::record::Cause;

// The bits of the maps are their numbers, as the format counts them: an enum of them would be cast back to its number at each use.
// The bits of a row's map.
pub(crate) const ROW_LINE: u32 = 0;

pub(crate) const ROW_LEFT: u32 = 1;

pub(crate) const ROW_RIGHT: u32 = 2;

// The bits of a cell's map.
pub(crate) const CELL_NUMBER: u32 = 0;

pub(crate) const CELL_SITE: u32 = 1;

pub(crate) const CELL_LINE: u32 = 2;

pub(crate) const CELL_WIDTH: u32 = 3;

pub(crate) const CELL_WEIGHT: u32 = 4;

pub(crate) const CELL_NAME: u32 = 5;

// The only bit of a withdrawal's map.
pub(crate) const WITHDRAWAL_NUMBER: u32 = 0;

// What a record holds after its kind. Not one with the kinds: a cell that is placed and one that is tried hold the same.
#[derive(Clone, Copy)]
pub(crate) enum Form {
    Row,
    Cell,
    Withdrawal,
}

// The bits that say which fields a record has.
#[derive(Clone, Copy)]
pub(crate) struct Map {
    bits: u8,
}

impl Map {
    // Whether a bit stands in the map.
    pub(crate) fn has(self, bit: u32) -> bool
        ensures { result ≡ stands self.bits bit }
    {
        u32::from(self.bits).unbounded_shr(bit) & 1 == 1
    }
}

impl Form {
    // Whether a map has each bit that this form requires, and none that it lacks.
    fn admits(self, map: Map) -> bool
        ensures { result ≡ allows self map.bits }
    {
        match self {
            Form::Row => map.bits < 0b1000 && map.has(ROW_RIGHT),
            Form::Cell => map.bits < 0b100_0000 && map.has(CELL_NUMBER) && map.has(CELL_WIDTH),
            Form::Withdrawal => map.bits < 0b10 && map.has(WITHDRAWAL_NUMBER),
        }
    }
}

impl<'a> Cursor<'a> {
    // The bit map at this place.
    pub(crate) fn take_map(&mut self, form: Form) -> Result<Map, Flaw>
        ensures { Reads (map_byte form) self.old (viewed bits result) self.new }
    {
        let place = self.at;
        let bits = self.take_byte()?;
        let map = Map { bits };
        if form.admits(map) {
            Ok(map)
        } else {
            Err(Cause::WrongMap.at(place))
        }
    }

    // The number whose bit stands in the map, or what counts where it does not.
    pub(crate) fn take_field(&mut self, map: Map, bit: u32, absent: u32) -> Result<u32, Flaw>
        ensures { Reads (field map.bits bit absent) self.old result self.new }
    {
        if map.has(bit) {
            self.take_number()
        } else {
            Ok(absent)
        }
    }
}
