//! The floor: rows, the seats of the cells that stand on them, and the calls that change them.
#![tactic(auto)]

mod cells;
mod choice;
mod floor;
mod offered;
mod refusals;
mod seats;

pub use floor::Floor;
use row::{Cell, Fault, Row, Spot};

/// The floor's record of one standing cell: the cell, the row that it stands on, and its site.
#[derive(Clone, Copy, PartialEq, Eq, Debug, Default)]
pub struct Seat {
    pub cell: Cell,
    pub row: Row,
    pub site: u32,
}

/// What a granted placing answers, and a try of one: where the cell stands then, and what the floor
/// costs more.
#[derive(Clone, Copy, PartialEq, Eq, Debug)]
pub struct Placing {
    pub spot: Spot,
    pub rise: u64,
}

/// Why a call of the floor is refused.
#[derive(Clone, Copy, PartialEq, Eq, Debug)]
pub enum Refusal {
    /// A field of the cell or the row is outside its range.
    OutOfRange(Fault),
    /// A cell of the number stands.
    NumberStands,
    /// 1,024 cells stand.
    CellsFull,
    /// No row has sites for the cell.
    NoRoom,
    /// No cell of the number stands.
    NotStanding,
    /// 64 rows stand.
    RowsFull,
    /// The row shares a site with a row that stands.
    RowShares,
}
