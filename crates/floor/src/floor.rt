//! A floor: its measure, its rows and its seats, with what every floor keeps, and the calls on it.
ghost use Rattle.std.specs.Prelude.{◌≡◌, ◌≤◌, true, length};
ghost use Rattle.std.specs.List.{list_any};
ghost use Rattle.std.proofs.Props.{props};
ghost use Rattle.floor.specs.Formed.{formed};
ghost use Rattle.floor.specs.Rows.{share};
ghost use Rattle.floor.specs.Settled.{Settled};
ghost use Rattle.floor.specs.declared.floor.TheConstants.{MOST_ROWS};

use crate::cells::RowSites;
use crate::choice::{Choice, Offer};
use crate::seats::Seats;
use crate::{Placing, Refusal, Seat};
use arrayvec::ArrayVec;
use measure::Measure;
use row::{Cell, MOST_CELLS, Row, Spot};
use table::place_of;

// The most rows that a floor has.
const MOST_ROWS: usize = 64;

/// Rows and the cells that stand on them. It is legal and in wanted order at all times, and every
/// row's sites are those that `set` gives its cells.
///
/// It has at most 64 rows and 1,024 cells, and holds them itself, without heap: 38 KB.
#[derive(Drop)]
pub struct Floor<M: Measure> {
    measure: M,
    rows: ArrayVec<Row, MOST_ROWS>,
    seats: Seats,
    ghost few: { length rows.items ≤ MOST_ROWS },
    ghost well: { formed rows.items seats.items.items ≡ true },
    ghost set: { Settled (M.price measure) rows.items seats.items.items } by { Prim.hlevel props },
}

/// Whether two rows have a site in common.
fn shares(a: &Row, b: &Row) -> bool
    ensures { result ≡ share a.now b.now }
{
    a.line == b.line && a.left < b.right && b.left < a.right
}

/// Whether a row shares a site with one of some rows.
fn shares_any(row: &Row, rows: &[Row]) -> bool
    ensures { result ≡ list_any (share row.now) rows.now }
{
    rows.iter().any(|other| shares(row, other))
}

impl<M: Measure> Floor<M> {
    ghost use Rattle.std.specs.Prelude.{◌^◌, None, IfOk, IfSome, slice_get};
    ghost use Rattle.row.specs.Checked.{checked};
    ghost use Rattle.row.specs.Records.{Limits};
    ghost use Rattle.floor.specs.Calls.{add_row, place, try_place, where_is, withdraw};
    ghost use Rattle.floor.specs.Choices.{best_choice, sites_with};
    ghost use Rattle.floor.specs.Refusals.{add_refusal, cell_refusal};
    ghost use Rattle.floor.specs.Seats.{floor_cost, stands_ahead};
    ghost use Rattle.floor.specs.Settled.{Least, CostsMore};
    ghost use Rattle.floor.specs.State.{measure_of, price_of, rows_of, seats_of, tables_of};
    ghost use Rattle.floor.specs.Tables.{no_tables};
    ghost use Rattle.table.specs.Order.{Ordered};

    /// An empty floor with a measure.
    pub fn new(measure: M) -> Floor<M>
        ensures measure { measure_of result ≡ measure }
        ensures empty { tables_of result ≡ no_tables }
    {
        Floor {
            measure,
            rows: ArrayVec::new(),
            seats: Seats::new(),
        }
    }

    // Refuses a row that is outside its ranges, that comes when `MOST_ROWS` stand, or that shares a
    // site with one that stands.
    fn check_row(&self, row: &Row) -> Result<(), Refusal>
        ensures { checked result ≡ add_refusal (rows_of self.now) row.now }
    {
        row.check()?;
        if self.rows.len() >= MOST_ROWS {
            return Err(Refusal::RowsFull);
        }
        if shares_any(row, self.rows.as_slice()) {
            return Err(Refusal::RowShares);
        }
        Ok(())
    }

    /// Adds a row, in row order: by line, then by left. No cell moves.
    ///
    /// Refuses one that is outside its ranges (9): a line up to 4,095, and left < right, up to
    /// 65,535. Then one that comes when 64 rows stand (10), and one that shares a site with a row
    /// that stands (11). What is refused changes nothing.
    pub fn add_row(&mut self, row: Row) -> Result<(), Refusal>
        ensures answer { result ≡ (add_row (tables_of self.old) row).answer }
        ensures tables { tables_of self.new ≡ (add_row (tables_of self.old) row).tables }
        ensures same { measure_of self.new ≡ measure_of self.old }
        ensures limits { Limits }
        ensures most_rows { MOST_ROWS ≡ 64 }
    {
        self.check_row(&row)?;
        let at = place_of(self.rows.as_slice(), &row);
        self.rows.insert(at, row);
        Ok(())
    }

    // Refuses a cell by the first check that fails, of those that look at no row.
    fn check_cell(&self, cell: &Cell) -> Result<(), Refusal>
        ensures { checked result ≡ cell_refusal (seats_of self.now) cell.now }
    {
        cell.check()?;
        if self.seats.has_number(cell.number) {
            return Err(Refusal::NumberStands);
        }
        if self.seats.len() >= MOST_CELLS {
            return Err(Refusal::CellsFull);
        }
        Ok(())
    }

    // The row of least rise for a cell, if a row has sites for it; and the sites of that row's
    // cells with the new one.
    fn choose(&self, cell: Cell, sites: &mut RowSites) -> Option<Choice>
        requires { cell_refusal (seats_of self.now) cell ≡ None }
        ensures choice { result ≡ best_choice (price_of self.now) (tables_of self.now) cell }
        ensures sites { IfSome result (λ c.
            sites.new.items ≡ sites_with (price_of self.now) (seats_of self.now) cell c.row) }
    {
        let offer = Offer {
            measure: &self.measure,
            rows: self.rows.as_slice(),
            seats: &self.seats,
            cell,
        };
        offer.choose(sites)
    }

    /// Places a cell on the row of least rise, of equal ones the first in row order, and sets that
    /// row. Answers where the cell stands, and the rise: what the floor costs more then.
    ///
    /// Refuses a cell with a field outside its range (1 to 4), one whose number stands (5), one
    /// that comes when 1,024 cells stand (6), and one for which no row has sites (7). What is
    /// refused changes nothing.
    #[tactic(auto, using(crate::proofs::Placed::full_answer, crate::proofs::Placed::full_tables))]
    pub fn place(&mut self, cell: Cell) -> Result<Placing, Refusal>
        ensures answer { result ≡ (place (price_of self.old) (tables_of self.old) cell).answer }
        ensures tables { tables_of self.new
            ≡ (place (price_of self.old) (tables_of self.old) cell).tables }
        ensures same { measure_of self.new ≡ measure_of self.old }
        ensures least { IfOk result (Least (price_of self.old) (tables_of self.old) cell) }
        ensures dearer { IfOk result
            (CostsMore (price_of self.old) (tables_of self.old) (tables_of self.new)) }
        ensures limits { Limits }
    {
        self.check_cell(&cell)?;
        let mut sites = RowSites::new();
        let Some(choice) = self.choose(cell, &mut sites) else {
            return Err(Refusal::NoRoom);
        };
        self.seats.seat(choice.row, cell, sites.as_slice());
        Ok(choice.placing)
    }

    /// What `place` would answer for a cell. Nothing changes.
    #[tactic(auto, using(crate::proofs::Placed::tried))]
    pub fn try_place(&self, cell: Cell) -> Result<Placing, Refusal>
        ensures answer { result ≡ (try_place (price_of self.now) (tables_of self.now) cell).answer }
        ensures limits { Limits }
    {
        self.check_cell(&cell)?;
        self.choose(cell, &mut RowSites::new())
            .map(|choice| choice.placing)
            .ok_or(Refusal::NoRoom)
    }

    /// Takes the cell of a number out, and sets its row again. Answers where the cell stood.
    ///
    /// Refuses a number that does not stand (8); then nothing changes.
    #[tactic(auto, using(crate::proofs::Leaving::not_found))]
    pub fn withdraw(&mut self, number: u32) -> Result<Spot, Refusal>
        ensures answer { result
            ≡ (withdraw (price_of self.old) (tables_of self.old) number).answer }
        ensures tables { tables_of self.new
            ≡ (withdraw (price_of self.old) (tables_of self.old) number).tables }
        ensures same { measure_of self.new ≡ measure_of self.old }
    {
        let Some(at) = self.seats.position(number) else {
            return Err(Refusal::NotStanding);
        };
        let seat = self.seats.unseat(&self.measure, at);
        Ok(seat.spot())
    }

    /// Where the cell of a number stands; refuses a number that does not stand (8).
    pub fn where_is(&self, number: u32) -> Result<Spot, Refusal>
        ensures { result ≡ where_is (tables_of self.now) number }
    {
        self.seats
            .find(number)
            .map(|seat| seat.spot())
            .ok_or(Refusal::NotStanding)
    }

    /// What the floor costs: for each standing cell, the cost of its site and of its line.
    pub fn cost(&self) -> u64
        ensures value { result ≡ floor_cost (price_of self.now) (seats_of self.now) }
        ensures bound { result ≤ 2 ^ 53 }
    {
        let seats = self.seats.as_slice();
        let mut sum: u64 = 0;
        // By a loop, whose invariant keeps the sum of both costs of each seat below the bound.
        for seat in seats {
            let across = self
                .measure
                .cost(seat.cell.wanted.site, seat.cell.weight, seat.site);
            let up = self
                .measure
                .cost(seat.cell.wanted.line, seat.cell.weight, seat.row.line);
            sum += across + up;
        }
        sum
    }

    /// The `k`-th seat, from 0 on, in row order and on one row by site; none from the number of
    /// standing cells on.
    #[tactic(auto, using(crate::proofs::Listed::formed_standing))]
    pub fn seat(&self, k: usize) -> Option<Seat>
        ensures value { result ≡ slice_get (seats_of self.now) k }
        ensures in_order { Ordered stands_ahead (seats_of self.now) }
    {
        self.seats.as_slice().get(k).copied()
    }
}
