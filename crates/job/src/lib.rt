//! The reader of jobs in the binary format of docs/FORMAT.md: a job's bytes, record by record.
#![tactic(auto)]

mod check;
mod cursor;
mod kind;
mod mark;
mod named;
mod opening;
mod reader;
mod record;
mod whole;

pub use measure::MeasureName;
pub use named::{LONGEST_NAME, Name, Named};
pub use opening::Job;
pub use reader::Reader;
pub use record::{Cause, Fault, Record};
pub use whole::read_through;
