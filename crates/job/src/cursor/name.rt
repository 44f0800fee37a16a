// The name of a cell.
ghost use Rattle.std.specs.Prelude.{◌≡◌, ◌+◌, IfOk, true};
ghost use Rattle.std.specs.List.{between, list_all};
ghost use Rattle.std.specs.Option.{option_map};
ghost use Rattle.job.specs.Format.{good_bytes, name, name_field};
ghost use Rattle.job.specs.Names.{printable};
ghost use Rattle.job.specs.Reads.{Reads, viewed, named};
ghost use Rattle.job.specs.declared.cursor.map.TheConstants.{CELL_NAME};

use crate::cursor::map::{CELL_NAME, Map};
use crate::cursor::{Cursor, Flaw};
use crate::named::{Name, Named, is_printable};
use crate::record::Cause;

impl<'a> Cursor<'a> {
    // Moves over so many bytes of a name, each of which has to be one that a name may have.
    fn pass_name(&mut self, size: u8) -> Result<(), Flaw>
        ensures reads { Reads (good_bytes size) self.old result self.new }
        ensures ends { IfOk result (λ _. self.new.at ≡ self.old.at + size) }
        ensures good { IfOk result (λ _. list_all printable (between self.old.at self.new.at self.old.job.now) ≡ true) }
    {
        for _ in 0..size {
            let place = self.at;
            if !is_printable(self.take_byte()?) {
                return Err(Cause::BadName.at(place));
            }
        }
        Ok(())
    }

    // The name at this place: its length, which is not 0, and its bytes.
    fn take_name(&mut self) -> Result<Named<'a>, Flaw>
        ensures { Reads name self.old (viewed named result) self.new }
    {
        let place = self.at;
        let size = self.take_byte()?;
        if size == 0 {
            return Err(Cause::BadName.at(place));
        }
        let place = self.at;
        self.pass_name(size)?;
        let bytes = &self.job[usize::from(place)..usize::from(self.at)];
        let name = Name { bytes };
        Ok(Named { name, place })
    }

    // The name, where its bit stands in the map.
    pub(crate) fn take_name_field(&mut self, map: Map) -> Result<Option<Named<'a>>, Flaw>
        ensures { Reads (name_field map.bits CELL_NAME) self.old (viewed (option_map named) result) self.new }
    {
        if map.has(CELL_NAME) {
            Ok(Some(self.take_name()?))
        } else {
            Ok(None)
        }
    }
}
