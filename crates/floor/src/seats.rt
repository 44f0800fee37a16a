//! The table of seats inside a floor: its order, what it always keeps, and how seats come and go.
ghost use Rattle.std.specs.Prelude.{◌≡◌, ◌≤◌, [], length};
ghost use Rattle.std.specs.List.{AllByRecursion, position_from, prefix_len};
ghost use Rattle.std.proofs.Common.{rules};
ghost use Rattle.std.proofs.Props.{props};
ghost use Rattle.row.specs.declared.TheConstants.{MOST_CELLS};
ghost use Rattle.floor.specs.Calls.{seat_of, spot};
ghost use Rattle.floor.specs.Kept.{Ordered-prop};
ghost use Rattle.floor.specs.Ranks.{seat_rank, seat_total};
ghost use Rattle.floor.specs.Refusals.{stands};
ghost use Rattle.floor.specs.Seats.{Sited, new_seat, on_row, row_key, seat_ahead};
ghost use Rattle.floor.specs.Seats.{seat_cost, seat_index};
ghost use Rattle.floor.specs.Spans.{Spanned};
ghost use Rattle.table.specs.Order.{Ordered, rank_of};

mod setting;

use crate::Seat;
use arrayvec::ArrayVec;
use measure::{Measure, Move};
use row::{Cell, MOST_CELLS, Row, Spot};
pub(crate) use setting::set_ready;
use std::ops::Range;
use table::{Ranked, place_of};

/// The seats of the standing cells, in the order of rows and then in wanted order. There are at
/// most 1,024.
#[derive(Drop)]
pub(crate) struct Seats {
    items: ArrayVec<Seat, MOST_CELLS>,
    ghost ordered: { Ordered seat_ahead items.items } by { Ordered-prop items.items },
    ghost sited: { AllByRecursion Sited items.items } by { Prim.hlevel props },
    ghost few: { length items.items ≤ MOST_CELLS },
}

/// Seats are ranked by row order, then by wanted order.
impl Ranked for Seat {
    ghost ahead = { seat_ahead };

    ghost rank = { seat_rank };

    ghost chain = { Prim.search rules };

    ghost total = { seat_total };

    fn is_ahead(&self, other: &Seat) -> bool {
        self.rank() < other.rank()
    }
}

impl Seat {
    /// A seat for a cell on a row, before the row is set.
    pub(crate) fn new(row: Row, cell: Cell) -> Seat
        ensures { result ≡ new_seat row cell }
    {
        Seat { cell, row, site: 0 }
    }

    /// Where a seat is.
    pub(crate) fn spot(&self) -> Spot
        ensures { result ≡ spot self.now }
    {
        Spot {
            line: self.row.line,
            site: self.site,
        }
    }

    // What a seat is ranked by: its row's line and left, then its cell's wanted site and number.
    fn rank(&self) -> (u32, u32, u32, u32)
        ensures { result ≡ (
          self.now.row.line,
          self.now.row.left,
          self.now.cell.wanted.site,
          self.now.cell.number,
        ) }
    {
        let Seat { cell, row, site: _ } = self;
        (row.line, row.left, cell.wanted.site, cell.number)
    }

    /// What the site of a seat costs.
    pub(crate) fn site_cost<M: Measure>(&self, measure: &M) -> u64
        requires { Sited self.now }
        ensures { result ≡ seat_cost (M.price measure.now) self.now }
    {
        let Seat { cell, row: _, site } = self;
        measure.price_at(Move {
            wanted: cell.wanted.site as u16,
            weight: cell.weight as u16,
            place: *site as u16,
        })
    }

    // Whether a seat is on a row.
    fn is_on(&self, row: &Row) -> bool
        ensures { result ≡ on_row row.now self.now }
    {
        self.row.line == row.line && self.row.left == row.left
    }
}

/// How many seats, from the first on, are on a row. They are counted one by one: a row has few of
/// them, of a table that may have many.
pub(crate) fn count_on(row: &Row, seats: &[Seat]) -> usize
    ensures value { result ≡ prefix_len (on_row row.now) seats.now }
    ensures bound { result ≤ length seats.now }
{
    seats.iter().take_while(|seat| seat.is_on(row)).count()
}

/// A key for the seats of a row: none of them is ahead of it. It is a whole seat, since `place_of`
/// compares records of one type.
fn key(row: Row) -> Seat
    ensures { result ≡ row_key row }
{
    let wanted = Spot { line: 0, site: 0 };
    let cell = Cell {
        number: 0,
        wanted,
        width: 0,
        weight: 0,
    };
    Seat::new(row, cell)
}

impl Seats {
    /// No seats.
    pub(crate) fn new() -> Seats
        ensures { result.items.items ≡ [] }
    {
        Seats {
            items: ArrayVec::new(),
        }
    }

    /// The seats, in their order.
    pub(crate) fn as_slice(&self) -> &[Seat]
        ensures { result.now ≡ self.now.items.items }
    {
        self.items.as_slice()
    }

    /// How many cells stand.
    pub(crate) fn len(&self) -> usize
        ensures { result ≡ length self.now.items.items }
    {
        self.items.len()
    }

    // Where a seat stands in the table, or would stand.
    fn place(&self, seat: &Seat) -> usize
        ensures bound { result ≤ length self.now.items.items }
        ensures finds { result ≡ rank_of seat_ahead self.now.items.items seat.now }
    {
        place_of(self.items.as_slice(), seat)
    }

    // The stretch of a row's seats in the table.
    fn stretch_of(&self, row: Row) -> Range<usize>
        ensures { Spanned row self.now.items.items result }
    {
        let start = self.place(&key(row));
        let (_, ahead) = self.items.split_at(start);
        start..start + count_on(&row, ahead)
    }

    /// The first seat whose cell has this number.
    pub(crate) fn find(&self, number: u32) -> Option<Seat>
        ensures { result ≡ seat_of number self.now.items.items }
    {
        self.items
            .iter()
            .find(|seat| seat.cell.number == number)
            .copied()
    }

    /// Where the first seat whose cell has this number is in the table.
    pub(crate) fn position(&self, number: u32) -> Option<usize>
        ensures { result ≡ seat_index number self.now.items.items }
    {
        self.items
            .iter()
            .position(|seat| seat.cell.number == number)
    }

    /// Whether a cell of this number stands.
    pub(crate) fn has_number(&self, number: u32) -> bool
        ensures { result ≡ stands number self.now.items.items }
    {
        self.items.iter().any(|seat| seat.cell.number == number)
    }
}
