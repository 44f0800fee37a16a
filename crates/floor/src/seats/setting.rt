//! How seats come and go: a cell joins a row whose sites are known, or leaves one that is set then.
ghost use Rattle.std.specs.Prelude.{◌≡◌, ◌+◌, ◌<◌, ◌≤◌, false, Some, None};
ghost use Rattle.std.specs.Prelude.{length, slice_get, remove};
ghost use Rattle.std.specs.List.{AllByRecursion};
ghost use Rattle.measure.specs.declared.TheConstants.{LAST_PLACE};
ghost use Rattle.row.specs.Records.{cell_fault};
ghost use Rattle.row.specs.Costs.{sites_cost};
ghost use Rattle.row.specs.Sites.{row_sites};
ghost use Rattle.row.specs.Stack.{Ready};
ghost use Rattle.row.specs.declared.TheConstants.{MOST_CELLS};
ghost use Rattle.floor.specs.Refusals.{stands};
ghost use Rattle.floor.specs.Seats.{cells_on, joined, moved_all, resited, settled};
ghost use Rattle.floor.specs.Spans.{Spanned};

use crate::Seat;
use crate::cells::{RowCells, push_cells};
use crate::seats::Seats;
use measure::Measure;
use row::{Cell, FEW_CELLS, MANY_CELLS, MOST_CELLS, Row, Task};
use std::ops::Range;

/// Sets a row that needs no checks: fills the sites, and answers what they cost.
// Here and below the measure comes from the floor and the row from a call, so that they are handed
// on side by side.
pub(crate) fn set_ready<M: Measure>(measure: &M, row: Row, cells: &[Cell], sites: &mut [u32]) -> u64
    requires ready { Ready row cells.now }
    requires each { length sites.old ≡ length cells.now }
    ensures answer { result ≡ sites_cost (M.price measure.now) cells.now
        (row_sites (M.price measure.now) row cells.now) }
    ensures after { sites.new ≡ row_sites (M.price measure.now) row cells.now }
{
    let task = Task {
        measure,
        row,
        cells,
    };
    task.set(sites).unwrap()
}

/// Moves seats to sites, one after another; of each seat only the site is rewritten.
fn move_to(seats: &mut [Seat], sites: &[u32])
    requires { length seats.old ≡ length sites.now }
    ensures { seats.new ≡ moved_all sites.now seats.old }
{
    // By an index, since after a `zip` nothing is known of what was written.
    for (k, seat) in seats.iter_mut().enumerate() {
        seat.site = sites[k];
    }
}

impl Seats {
    // Moves the seats of a row to sites.
    fn resite(&mut self, row: Row, sites: &[u32])
        requires each { length sites.now ≡ length (cells_on row self.old.items.items) }
        requires places { AllByRecursion (λ x. x ≤ LAST_PLACE) sites.now }
        ensures { self.new.items.items ≡ resited row sites.now self.old.items.items }
    {
        let own = self.stretch_of(row);
        move_to(&mut self.items[own.start..own.end], sites);
    }

    /// Puts a cell on a row, in its place, and moves the seats of the row to sites.
    pub(crate) fn seat(&mut self, row: Row, cell: Cell, sites: &[u32])
        requires passes { cell_fault cell ≡ None }
        requires fresh { stands cell.number self.old.items.items ≡ false }
        requires few { length self.old.items.items < MOST_CELLS }
        requires each { length sites.now
            ≡ length (cells_on row (joined row cell self.old.items.items)) }
        requires places { AllByRecursion (λ x. x ≤ LAST_PLACE) sites.now }
        ensures { self.new.items.items
            ≡ resited row sites.now (joined row cell self.old.items.items) }
    {
        let seat = Seat::new(row, cell);
        let at = self.place(&seat);
        self.items.insert(at, seat);
        self.resite(row, sites);
    }

    // Sets the row of a stretch, in room for `N` cells.
    #[inline(never)]
    fn settle_in<const N: usize, M: Measure>(
        &mut self,
        measure: &M,
        row: Row,
        stretch: Range<usize>,
    )
        requires ready { Ready row (cells_on row self.old.items.items) }
        requires spanned { Spanned row self.old.items.items stretch }
        requires few { stretch.end ≤ stretch.start + N }
        requires small { N ≤ MOST_CELLS }
        ensures { self.new.items.items ≡ settled (M.price measure.now) row self.old.items.items }
    {
        let mut cells = RowCells::<N>::new();
        let mut room = [0; N];
        let sites = &mut room[..];
        push_cells(&mut cells, &self.items[stretch.start..stretch.end]);
        let cells = cells.as_slice();
        let sites = &mut sites[..cells.len()];
        let _ = set_ready(measure, row, cells, sites);
        move_to(&mut self.items[stretch.start..stretch.end], sites);
    }

    // Sets a row: only the sites of its own seats are rewritten.
    fn settle<M: Measure>(&mut self, measure: &M, row: Row)
        requires { Ready row (cells_on row self.old.items.items) }
        ensures { self.new.items.items ≡ settled (M.price measure.now) row self.old.items.items }
    {
        let stretch = self.stretch_of(row);
        let own = stretch.end - stretch.start;
        // The room is on the stack here too, as in a trial.
        if own <= FEW_CELLS {
            self.settle_in::<FEW_CELLS, M>(measure, row, stretch);
        } else if own <= MANY_CELLS {
            self.settle_in::<MANY_CELLS, M>(measure, row, stretch);
        } else {
            self.settle_in::<MOST_CELLS, M>(measure, row, stretch);
        }
    }

    /// Takes the seat at a place out, and sets its row again.
    pub(crate) fn unseat<M: Measure>(&mut self, measure: &M, at: usize) -> Seat
        requires within { at < length self.old.items.items }
        requires ready { (s : Seat) → slice_get self.old.items.items at ≡ Some s
            → Ready s.row (cells_on s.row (remove self.old.items.items at)) }
        ensures taken { slice_get self.old.items.items at ≡ Some result }
        ensures left { self.new.items.items
            ≡ settled (M.price measure.now) result.row (remove self.old.items.items at) }
    {
        let seat = self.items.remove(at);
        self.settle(measure, seat.row);
        seat
    }
}
