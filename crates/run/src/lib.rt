//! A job carried out on a floor, record by record, with a line of text for what came of each; and the
//! work of the program `legalize`, from the bytes that it reads to those that it writes.
#![tactic(auto)]

mod complaint;
mod fault;
mod legalizing;
mod run;
#[cfg(test)]
mod tests;
mod whole;

pub use fault::Fault;
pub use legalizing::{Ending, Failure, MOST_READ, legalize};
pub use run::{NoLine, Run, Step};
pub use whole::{CarriedOut, carry_out};
