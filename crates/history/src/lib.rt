//! Histories of a floor: its calls as values, what comes of each, and the law, said of one call, of
//! lists of calls, and of a floor that begins empty.
#![tactic(auto)]

mod call;
mod calls;

pub use call::{Call, Event};
pub use calls::{begin, carry_out, make_all, one_floor};
