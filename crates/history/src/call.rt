//! A call of a floor as a value, and what comes of it.
ghost use Rattle.std.specs.Prelude.{◌≡◌, List, ◌∷◌};
ghost use Rattle.floor.specs.State.{measure_of, price_of, tables_of};
ghost use Rattle.history.specs.Events.{event_of, tables_then};
ghost use Rattle.history.specs.Histories.{call_of};
ghost use Rattle.history.specs.Lawful.{Lawful};

use floor::{Floor, Placing, Refusal};
use measure::Measure;
use row::{Cell, Row, Spot};

/// A call of a floor.
#[derive(Clone, Copy, PartialEq, Eq, Debug)]
pub enum Call {
    /// Add this row.
    AddRow(Row),
    /// Place this cell.
    Place(Cell),
    /// Say what placing this cell would answer; nothing changes.
    Try(Cell),
    /// Take out the cell of this number.
    Withdraw(u32),
}

/// A call that was made, with its answer: granted, or refused.
#[derive(Clone, Copy, PartialEq, Eq, Debug)]
pub enum Event {
    /// Adding this row was answered so.
    Added(Row, Result<(), Refusal>),
    /// Placing this cell was answered so.
    Placed(Cell, Result<Placing, Refusal>),
    /// Trying this cell was answered so.
    Tried(Cell, Result<Placing, Refusal>),
    /// Withdrawing the cell of this number was answered so.
    Withdrawn(u32, Result<Spot, Refusal>),
}

impl Call {
    // Calls the floor by the method of the call's name; `make` says that the law holds then.
    fn event_on<M: Measure>(self, floor: &mut Floor<M>) -> Event
        ensures call { call_of result ≡ self }
        ensures event { result ≡ event_of (price_of floor.old) (tables_of floor.old) self }
        ensures tables { tables_of floor.new
            ≡ tables_then (price_of floor.old) (tables_of floor.old) self }
        ensures same { measure_of floor.new ≡ measure_of floor.old }
    {
        match self {
            Call::AddRow(row) => Event::Added(row, floor.add_row(row)),
            Call::Place(cell) => Event::Placed(cell, floor.place(cell)),
            Call::Try(cell) => Event::Tried(cell, floor.try_place(cell)),
            Call::Withdraw(number) => Event::Withdrawn(number, floor.withdraw(number)),
        }
    }

    /// Makes the call on a floor. Answers the event: the call with the floor's answer.
    ///
    /// Whatever history the floor has, it then has that history with the event. Beside this law the
    /// contract gives the very event, and the very rows and seats that the floor holds then.
    pub fn make<M: Measure>(self, floor: &mut Floor<M>) -> Event
        ensures law { (history : List Event) → Lawful history floor.old
            → Lawful (result ∷ history) floor.new }
        ensures call { call_of result ≡ self }
        ensures event { result ≡ event_of (price_of floor.old) (tables_of floor.old) self }
        ensures tables { tables_of floor.new
            ≡ tables_then (price_of floor.old) (tables_of floor.old) self }
        ensures same { measure_of floor.new ≡ measure_of floor.old }
    {
        self.event_on(floor)
    }
}
