//! Room on the stack for the cells of one row and for their sites, and how cells are gathered.
ghost use Rattle.std.specs.Prelude.{◌≡◌, ◌+◌, ◌≤◌, ◌++◌, length, map};
ghost use Rattle.arrayvec.specs.ArrayVec.{array_vec_len};
ghost use Rattle.floor.specs.Seats.{cell_of};

use crate::Seat;
use arrayvec::ArrayVec;
use row::{Cell, MOST_CELLS};

/// Room for at most `N` cells of a row, on the stack: no call of a floor takes heap.
pub(crate) type RowCells<const N: usize> = ArrayVec<Cell, N>;

/// The sites of the cells of a row.
pub(crate) type RowSites = ArrayVec<u32, MOST_CELLS>;

/// Adds the cells of some seats.
pub(crate) fn push_cells<const N: usize>(cells: &mut RowCells<N>, seats: &[Seat])
    requires { array_vec_len cells.old + length seats.now ≤ N }
    ensures cells { cells.new.items ≡ cells.old.items ++ map cell_of seats.now }
    ensures count { array_vec_len cells.new ≡ array_vec_len cells.old + length seats.now }
{
    for seat in seats {
        cells.push(seat.cell);
    }
}
