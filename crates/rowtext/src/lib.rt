//! Readable text of one row: how it is read, and how a run answers it, from bytes to bytes.
#![tactic(auto)]

mod answer;
mod fetch;
mod fields;
mod forms;
mod lines;
mod messages;
mod numbers;
mod parts;
mod read;
mod report;
mod room;
mod run;
#[cfg(test)]
mod tests;
mod trouble;

pub use room::Room;
pub use run::{answer_text, set_row};
pub use trouble::{Form, Reason, Trouble, Unreadable};

/// How many bytes a text has at most. A row of 1,024 cells with five numbers of ten digits each
/// takes some 63,000; comments may take the rest.
pub const MOST_BYTES: usize = 1_048_576;

/// How many bytes are fetched at once, and so how many more than `MOST_BYTES` are read at most.
pub const CHUNK_BYTES: usize = 4_096;
