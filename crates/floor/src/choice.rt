//! The row of least rise for a cell that is offered to the rows of a floor.
ghost use Rattle.std.specs.Prelude.{◌≡◌, true, None};
ghost use Rattle.std.proofs.Props.{props};
ghost use Rattle.floor.specs.Formed.{formed};
ghost use Rattle.floor.specs.Refusals.{cell_refusal};

use crate::Placing;
use crate::cells::RowSites;
use crate::offered::OfferedRow;
use crate::seats::{Seats, count_on};
use measure::Measure;
use row::{Cell, MOST_CELLS, Row};

/// A cell that is offered to the rows of a floor: no check refuses it but that of the rows.
#[derive(Drop)]
pub(crate) struct Offer<'a, M: Measure> {
    pub(crate) measure: &'a M,
    pub(crate) rows: &'a [Row],
    pub(crate) seats: &'a Seats,
    pub(crate) cell: Cell,
    ghost well: { formed rows.now seats.now.items.items ≡ true },
    ghost free: { cell_refusal seats.now.items.items cell ≡ None } by { Prim.hlevel props },
}

/// A row that is chosen for a cell, and what placing the cell there answers.
#[derive(Clone, Copy)]
pub(crate) struct Choice {
    pub(crate) row: Row,
    pub(crate) placing: Placing,
}

impl<M: Measure> Offer<'_, M> {
    ghost use Rattle.std.specs.Prelude.{IfSome};
    ghost use Rattle.floor.specs.Choices.{best_choice, sites_with};
    ghost use Rattle.floor.specs.Offers.{price_in, seats_in, tables_in};

    /// The row of least rise among those that have sites for the cell; of equal ones the first in
    /// row order. Keeps the sites of that row's cells with the new one.
    pub(crate) fn choose(&self, kept: &mut RowSites) -> Option<Choice>
        ensures choice { result
            ≡ best_choice (price_in self.now) (tables_in self.now) self.now.cell }
        ensures sites { IfSome result (λ c. kept.new.items
            ≡ sites_with (price_in self.now) (seats_in self.now) self.now.cell c.row) }
    {
        let mut best = None;
        let mut spare = [0; MOST_CELLS];
        // Seats are in the order of rows, so that each row's own are the first of those ahead.
        let mut ahead = self.seats.as_slice();
        for row in self.rows {
            let (seats, others) = ahead.split_at(count_on(row, ahead));
            ahead = others;
            let own = OfferedRow {
                offer: &*self,
                row: *row,
                seats,
            };
            best = own.better(best, &mut spare, kept);
        }
        best
    }
}
