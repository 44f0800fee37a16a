//! A row that a cell is offered to: whether it has sites for the cell, and a trial of it.
ghost use Rattle.std.specs.Prelude.{◌≡◌, ◌<◌, ◌≤◌, true, length};
ghost use Rattle.floor.specs.Refusals.{has_sites};
ghost use Rattle.floor.specs.Seats.{CanTake, seats_on};
ghost use Rattle.std.proofs.Props.{props};
ghost use Rattle.row.specs.declared.TheConstants.{MOST_CELLS};

use crate::cells::{RowCells, RowSites, push_cells};
use crate::choice::{Choice, Offer};
use crate::seats::set_ready;
use crate::{Placing, Seat};
use measure::Measure;
use row::{Cell, FEW_CELLS, MANY_CELLS, MOST_CELLS, Row, Spot};
use table::place_of;

/// A row that a cell is offered to, with the seats on it, in wanted order.
#[derive(Drop)]
pub(crate) struct OfferedRow<'a, M: Measure> {
    pub(crate) offer: &'a Offer<'a, M>,
    pub(crate) row: Row,
    pub(crate) seats: &'a [Seat],
    ghost few: { length seats.now < MOST_CELLS },
    ghost some: { row.left ≤ row.right },
    ghost own: { seats.now ≡ seats_on row offer.now.seats.now.items.items },
    ghost ready: { has_sites offer.now.seats.now.items.items offer.now.cell row ≡ true
        → CanTake row offer.now.cell offer.now.seats.now.items.items } by { Prim.hlevel props },
}

/// What a row set with a cell more comes to: what its sites cost then, and the cell's site.
#[derive(Clone, Copy)]
pub(crate) struct Trial {
    pub(crate) cost: u64,
    pub(crate) site: u32,
}

impl<M: Measure> OfferedRow<'_, M> {
    ghost use Rattle.std.specs.Prelude.{◌^◌, ◌+◌, IfSome};
    ghost use Rattle.row.specs.Records.{widths};
    ghost use Rattle.floor.specs.Choices.{better_choice, choice_of, choice_on};
    ghost use Rattle.floor.specs.Choices.{sites_with, trial_on};
    ghost use Rattle.floor.specs.Offers.{price_in, seats_in};
    ghost use Rattle.floor.specs.Seats.{cells_on, row_cost};

    // What the sites of the row cost.
    fn row_cost(&self) -> u64
        ensures value { result ≡ row_cost (price_in self.now.offer.now) self.now.row
            (seats_in self.now.offer.now) }
        ensures bound { result ≤ 2 ^ 52 }
    {
        let measure = self.offer.measure;
        self.seats.iter().map(|seat| seat.site_cost(measure)).sum()
    }

    // How many sites the cells of the row cover.
    fn covered(&self) -> u64
        ensures value { result ≡ widths (cells_on self.now.row (seats_in self.now.offer.now)) }
        ensures bound { result ≤ 2 ^ 42 }
    {
        self.seats
            .iter()
            .map(|seat| u64::from(seat.cell.width))
            .sum()
    }

    // Whether the row has sites for the cell beside the cells that stand there.
    fn has_sites(&self) -> bool
        ensures { result ≡ has_sites (seats_in self.now.offer.now) self.now.offer.now.cell
            self.now.row }
    {
        self.covered() + u64::from(self.offer.cell.width)
            <= u64::from(self.row.right - self.row.left)
    }

    // The trial of the cell on the row, in room for `N` cells. Fills in the sites of the row's
    // cells with the new one.
    // It is a call of its own for each `N`, so that a row of few cells does not pay for the room of
    // one that has many.
    #[inline(never)]
    fn try_in<const N: usize>(&self, sites: &mut [u32]) -> Trial
        requires fits { has_sites (seats_in self.now.offer.now) self.now.offer.now.cell
            self.now.row ≡ true }
        requires each { length sites.old ≡ length self.now.seats.now + 1 }
        requires few { length self.now.seats.now < N }
        requires small { N ≤ MOST_CELLS }
        ensures trial { result ≡ trial_on (price_in self.now.offer.now)
            (seats_in self.now.offer.now) self.now.offer.now.cell self.now.row }
        ensures sites { sites.new ≡ sites_with (price_in self.now.offer.now)
            (seats_in self.now.offer.now) self.now.offer.now.cell self.now.row }
    {
        let mut cells = RowCells::<N>::new();
        let cell = self.offer.cell;
        let at = place_of(self.seats, &Seat::new(self.row, cell));
        let (before, behind) = self.seats.split_at(at);
        push_cells(&mut cells, before);
        cells.push(cell);
        push_cells(&mut cells, behind);
        let cost = set_ready(self.offer.measure, self.row, cells.as_slice(), sites);
        Trial {
            cost,
            site: sites[at],
        }
    }

    // The trial of the cell on the row. Fills in the sites of the row's cells with the new one.
    fn try_cell(&self, sites: &mut [u32]) -> Trial
        requires fits { has_sites (seats_in self.now.offer.now) self.now.offer.now.cell
            self.now.row ≡ true }
        requires each { length sites.old ≡ length self.now.seats.now + 1 }
        ensures trial { result ≡ trial_on (price_in self.now.offer.now)
            (seats_in self.now.offer.now) self.now.offer.now.cell self.now.row }
        ensures sites { sites.new ≡ sites_with (price_in self.now.offer.now)
            (seats_in self.now.offer.now) self.now.offer.now.cell self.now.row }
    {
        // The room is on the stack, and is cleared when it is made, so that less is made sooner.
        let others = self.seats.len();
        if others < FEW_CELLS {
            self.try_in::<FEW_CELLS>(sites)
        } else if others < MANY_CELLS {
            self.try_in::<MANY_CELLS>(sites)
        } else {
            self.try_in::<MOST_CELLS>(sites)
        }
    }

    // The row as a choice: its rise is what its sites cost more once it is set with the cell, and
    // what its line costs. Fills in the sites of the row's cells with the new one.
    fn choice(&self, sites: &mut [u32]) -> Choice
        requires fits { has_sites (seats_in self.now.offer.now) self.now.offer.now.cell
            self.now.row ≡ true }
        requires each { length sites.old ≡ length self.now.seats.now + 1 }
        ensures choice { result ≡ choice_of (price_in self.now.offer.now)
            (seats_in self.now.offer.now) self.now.offer.now.cell self.now.row }
        ensures sites { sites.new ≡ sites_with (price_in self.now.offer.now)
            (seats_in self.now.offer.now) self.now.offer.now.cell self.now.row }
    {
        let Cell { wanted, weight, .. } = self.offer.cell;
        let line = self.row.line;
        let trial = self.try_cell(sites);
        let before = self.row_cost();
        let up = self.offer.measure.cost(wanted.line, weight, line);
        Choice {
            row: self.row,
            placing: Placing {
                spot: Spot {
                    line,
                    site: trial.site,
                },
                rise: trial.cost.saturating_sub(before) + up,
            },
        }
    }

    // The better of the best choice so far and the row, if it has sites: the row only where it
    // rises less. Keeps the sites of the better one.
    pub(crate) fn better(
        &self,
        best: Option<Choice>,
        spare: &mut [u32],
        kept: &mut RowSites,
    ) -> Option<Choice>
        requires room { length spare.old ≡ MOST_CELLS }
        requires kept { IfSome best (λ c. kept.old.items ≡ sites_with
            (price_in self.now.offer.now) (seats_in self.now.offer.now)
            self.now.offer.now.cell c.row) }
        ensures better { result ≡ better_choice best (choice_on (price_in self.now.offer.now)
            (seats_in self.now.offer.now) self.now.offer.now.cell self.now.row) }
        ensures kept { IfSome result (λ c. kept.new.items ≡ sites_with
            (price_in self.now.offer.now) (seats_in self.now.offer.now)
            self.now.offer.now.cell c.row) }
    {
        if !self.has_sites() {
            return best;
        }
        let sites = &mut spare[..self.seats.len() + 1];
        let choice = self.choice(sites);
        if best.is_some_and(|best| best.placing.rise <= choice.placing.rise) {
            return best;
        }
        kept.clear();
        kept.try_extend_from_slice(sites).unwrap();
        Some(choice)
    }
}
