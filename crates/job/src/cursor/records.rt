// The records: a kind, a map, and the fields whose bits stand in it.
ghost use Rattle.job.specs.Format.{kind_at, row_part, cell_part, withdrawal_part, read_record};
ghost use Rattle.job.specs.Reads.{Forward, Reads, viewed, cell_named, content};

use crate::cursor::map::{
    CELL_LINE, CELL_NUMBER, CELL_SITE, CELL_WEIGHT, CELL_WIDTH, Form, ROW_LEFT, ROW_LINE,
    ROW_RIGHT, WITHDRAWAL_NUMBER,
};
use crate::cursor::{Cursor, Flaw};
use crate::kind::Kind;
use crate::named::Named;
use crate::record::Record;
use row::{Cell, Row, Spot};

impl<'a> Cursor<'a> {
    // What a row holds after its kind.
    fn take_row(&mut self) -> Result<Row, Flaw>
        ensures { Reads row_part self.old result self.new }
    {
        let map = self.take_map(Form::Row)?;
        let line = self.take_field(map, ROW_LINE, 0)?;
        let left = self.take_field(map, ROW_LEFT, 0)?;
        let right = self.take_field(map, ROW_RIGHT, 0)?;
        Ok(Row { line, left, right })
    }

    // What a cell that is placed or tried holds after its kind.
    fn take_cell(&mut self) -> Result<(Cell, Option<Named<'a>>), Flaw>
        ensures { Reads cell_part self.old (viewed cell_named result) self.new }
    {
        let map = self.take_map(Form::Cell)?;
        let number = self.take_field(map, CELL_NUMBER, 0)?;
        let site = self.take_field(map, CELL_SITE, 0)?;
        let line = self.take_field(map, CELL_LINE, 0)?;
        let width = self.take_field(map, CELL_WIDTH, 0)?;
        let weight = self.take_field(map, CELL_WEIGHT, 1)?;
        let name = self.take_name_field(map)?;
        let cell = Cell {
            number,
            wanted: Spot { line, site },
            width,
            weight,
        };
        Ok((cell, name))
    }

    // What a withdrawal holds after its kind.
    fn take_withdrawal(&mut self) -> Result<u32, Flaw>
        ensures { Reads withdrawal_part self.old result self.new }
    {
        let map = self.take_map(Form::Withdrawal)?;
        self.take_field(map, WITHDRAWAL_NUMBER, 0)
    }

    // The kind at this place.
    fn take_kind(&mut self) -> Result<Kind, Flaw>
        ensures { Reads kind_at self.old result self.new }
    {
        let place = self.at;
        let number = self.take_byte()?;
        Kind::try_from(number).map_err(|cause| cause.at(place))
    }

    // The record at this place.
    #[tactic(auto, using(crate::proofs::Advance::forward))]
    pub(crate) fn take_record(&mut self) -> Result<Record<'a>, Flaw>
        ensures reads { Reads read_record self.old (viewed content result) self.new }
        ensures forward { Forward self.old result self.new }
    {
        match self.take_kind()? {
            Kind::Row => Ok(Record::Row(self.take_row()?)),
            Kind::Place => {
                let (cell, name) = self.take_cell()?;
                Ok(Record::Place(cell, name))
            }
            Kind::Withdraw => Ok(Record::Withdraw(self.take_withdrawal()?)),
            Kind::Try => {
                let (cell, name) = self.take_cell()?;
                Ok(Record::Try(cell, name))
            }
        }
    }
}
