//! The lines of a text that count: those that have a word and are no comment.
ghost use Rattle.std.specs.Prelude.{◌+◌, ◌^◌, ◌<◌, length};
ghost use Rattle.rowtext.specs.Parts.{parts_left};

mod walk;

use crate::parts::Parts;

// A line and its number, from 1.
#[derive(Clone, Copy)]
pub(crate) struct Entry<'a> {
    pub(crate) number: u64,
    pub(crate) line: &'a [u8],
}

// The lines that are left of a text, and how many were read.
// The count is a field and no `enumerate`: `next_number` reads it when the lines are at their end
// and the iterator yields no more.
#[derive(Drop)]
pub(crate) struct Lines<'a> {
    lines: Parts<'a>,
    read: u64,
    ghost fits: { read + length (parts_left lines) + 1 < 2 ^ 64 },
}
