//! How a task is answered: its row is set, and what came of it is said.
ghost use Rattle.std.specs.Prelude.{vec_capacity};
ghost use Rattle.rowtext.specs.Shown.{Says, said as said_of};

use crate::read::Heading;
use crate::report::report;
use row::{Cell, set};
use std::alloc::AllocError;

// Puts into `said` what is said of a task, whose row is set into the sites.
pub(crate) fn answer(
    heading: Heading,
    cells: &[Cell],
    sites: &mut Vec<u32>,
    said: &mut Vec<u8>,
) -> Result<(), AllocError>
    ensures { Says cells.now (said_of heading.measure heading.row cells.now)
        (vec_capacity sites.old) (vec_capacity said.old) said.new.items result }
{
    sites.clear();
    sites.resize(cells.len(), 0)?;
    let answer = set(&heading.measure, heading.row, cells, sites);
    said.clear();
    report(said, cells, sites, answer)
}
