//! Bytes that are fetched from where they come from, and delivered to where they go.
//!
//! A [`Source`] is any `Read` and a [`Sink`] any `Write`, with a word for its failures. So whoever
//! fetches and delivers can be held to this: that it gives up only where a stream failed.
#![tactic(auto)]

mod sink;
mod source;
#[cfg(test)]
mod tests;

pub use sink::{NotWritten, Sink, deliver};
pub use source::{NotRead, Source, fetch};
