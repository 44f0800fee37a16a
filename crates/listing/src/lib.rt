//! Jobs as readable text: a line for the measure, one for each record, and one for the fault that
//! ends them.
#![tactic(auto)]

mod listed;
mod parts;
mod pieces;
mod unlisted;
mod whole;

pub use listed::put_job;
pub use parts::put_line;
pub use unlisted::Unlisted;
pub use whole::{MOST_READ, list};
