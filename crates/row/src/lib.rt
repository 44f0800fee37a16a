//! Cells and rows, wanted order, and `set`, which sets one row of cells.
//!
//! A [`Task`] is a row with cells that need no checks. Of all legal settings in wanted order the
//! one that is found is the cheapest, and of the cheapest the leftmost.
#![tactic(auto)]

mod check;
mod cluster;
mod moves;
mod order;
mod refusals;
mod setting;
mod squared;
mod task;

pub use setting::set;
pub use squared::squared_best_sites;
pub use task::Task;

/// How many cells a row is set with at most.
pub const MOST_CELLS: usize = 1_024;

/// Most rows have no more cells than this. Room on the stack is made sooner where it need hold
/// only so many.
pub const FEW_CELLS: usize = 32;

/// Nearly all rows have no more cells than this: the room between the least and the most.
pub const MANY_CELLS: usize = 256;

/// A site on a line.
#[derive(Clone, Copy, PartialEq, Eq, Debug, Default)]
pub struct Spot {
    pub line: u32,
    pub site: u32,
}

/// A cell: its number, where it is wanted, how many sites it covers, and how much its moves
/// weigh.
#[derive(Clone, Copy, PartialEq, Eq, Debug, Default)]
pub struct Cell {
    pub number: u32,
    pub wanted: Spot,
    pub width: u32,
    pub weight: u32,
}

/// A row: the sites from `left` to `right` - 1 of a line.
#[derive(Clone, Copy, PartialEq, Eq, Debug, Default)]
pub struct Row {
    pub line: u32,
    pub left: u32,
    pub right: u32,
}

/// A field of a cell or a row that is outside its range, under its number.
#[derive(Clone, Copy, PartialEq, Eq, Debug)]
pub enum Fault {
    Wanted = 1,
    Width = 2,
    Weight = 3,
    Number = 4,
    Row = 9,
}

/// Why a row is not set: a field outside its range; more than 1,024 cells, or not one site for
/// each; cells that are not in wanted order; cells that are wider than the row.
#[derive(Clone, Copy, PartialEq, Eq, Debug)]
pub enum Refusal {
    OutOfRange(Fault),
    Size,
    Order,
    TooWide,
}
