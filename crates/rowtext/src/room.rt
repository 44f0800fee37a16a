//! The room that a run works in.
ghost use Rattle.std.specs.Prelude.{◌≡◌};
ghost use Rattle.rowtext.specs.Rooms.{no_room, room_of};

use row::Cell;
use std::alloc::Global;

/// The room that a run works in: buffers for the text, its cells, their sites, and the answer.
/// They grow as they must, and stay as large for the next run.
#[derive(Drop)]
pub struct Room {
    pub(crate) text: Vec<u8>,
    pub(crate) cells: Vec<Cell>,
    pub(crate) sites: Vec<u32>,
    pub(crate) said: Vec<u8>,
}

impl Room {
    /// Room for nothing yet; making it takes no memory.
    pub fn new(heap: Global) -> Room
        ensures { room_of result ≡ no_room }
    {
        Room {
            text: Vec::new(heap),
            cells: Vec::new(heap),
            sites: Vec::new(heap),
            said: Vec::new(heap),
        }
    }
}
