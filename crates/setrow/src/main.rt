//! Reads one row and its cells from standard input, sets the row, and prints each cell's site and the
//! cost.
#![tactic(auto)]

use rowtext::{Room, set_row};
use std::process::ExitCode;

fn main(rt: HostRuntime) -> ExitCode {
    set_row(
        &mut Room::new(rt.alloc()),
        &mut rt.stdin(),
        &mut rt.stdout(),
        &mut rt.stderr(),
    )
}
