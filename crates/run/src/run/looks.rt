// What a run tells: its floor, the fault that ended the job, and the lines of what stands.
ghost use Rattle.std.specs.Prelude.{◌≡◌, ◌≤◌, IfOk, OnOk, Some};
ghost use Rattle.floor.specs.Seats.{stands_ahead};
ghost use Rattle.lines.specs.Writes.{write_answer, write_buffer};
ghost use Rattle.run.specs.State.{floor_of, price_in, state};
ghost use Rattle.run.specs.Steps.{cell_answer, cell_buffer, costs_text, no_line_number, no_line_words};
ghost use Rattle.table.specs.Order.{Ordered};
ghost use Rattle.run.specs.declared.run.looks.NoLine.TheVariants as no_line;

use crate::run::Run;
use floor::{Floor, Refusal};
use lines::{LEAST_BUFFER, Line, ShortBuffer};
use measure::Measure;
use std::error::Error;
use std::fmt;

/// Why there is no line of a cell: the buffer is shorter than 320 bytes (20), or no cell stands at
/// this place in the order (8).
#[derive(Clone, Copy, PartialEq, Eq, Debug)]
pub enum NoLine {
    ShortBuffer(ShortBuffer),
    NotStanding,
}

impl From<ShortBuffer> for NoLine {
    ghost from_gives = { λ short r. r ≡ no_line.ShortBuffer short };

    fn from(short: ShortBuffer) -> NoLine {
        NoLine::ShortBuffer(short)
    }
}

// What the buffer's refusal or the floor's says.
impl fmt::Display for NoLine {
    ghost output = { λ no_line. Some (no_line_words no_line) };

    fn fmt<W: fmt::Write>(&self, f: &mut fmt::Formatter<W>) -> fmt::Result {
        match self {
            NoLine::ShortBuffer(short) => short.fmt(f),
            NoLine::NotStanding => Refusal::NotStanding.fmt(f),
        }
    }
}

impl Error for NoLine {}

impl NoLine {
    /// The number of the refusal: 20 or 8.
    pub fn number(self) -> u32
        ensures { result ≡ no_line_number self }
    {
        match self {
            NoLine::ShortBuffer(short) => short.number(),
            NoLine::NotStanding => Refusal::NotStanding.number(),
        }
    }
}

impl<'a, M: Measure> Run<'a, M> {
    /// The floor as the records that were carried out have left it.
    pub fn floor(&self) -> &Floor<M>
        ensures { result.now ≡ floor_of self.now }
    {
        &self.floor
    }

    /// The fault that ended the job, or none where no record was met yet that cannot be read.
    pub fn fault(&self) -> Option<job::Fault>
        ensures { result ≡ (state self.now).told }
    {
        self.fault
    }

    /// Writes where the k-th standing cell stands, from 0, in row order and then by site; answers
    /// the line's length, at most 320. Refuses a short buffer (20), and then a `k` at which no cell
    /// stands (8); the buffer past the line stays.
    pub fn cell_line(&self, k: usize, buffer: &mut [u8]) -> Result<usize, NoLine>
        ensures answer { result ≡ cell_answer (state self.now).tables k buffer.old }
        ensures after { buffer.new ≡ cell_buffer (state self.now).tables k buffer.old }
        ensures in_order { OnOk result (Ordered stands_ahead (state self.now).tables.seats) }
        ensures fits { IfOk result (λ end. end ≤ 320) }
    {
        if buffer.len() < LEAST_BUFFER {
            return Err(ShortBuffer.into());
        }
        let seat = self.floor.seat(k).ok_or(NoLine::NotStanding)?;
        let line: Line<'a> = Line::Cell {
            number: seat.cell.number,
            line: seat.row.line,
            site: seat.site,
        };
        Ok(line.write(buffer)?)
    }

    /// Writes what all standing cells cost; answers the line's length, at most 320. Refuses a short
    /// buffer (20); the buffer past the line stays.
    pub fn cost_line(&self, buffer: &mut [u8]) -> Result<usize, ShortBuffer>
        ensures answer { result
            ≡ write_answer (costs_text (price_in self.now) (state self.now).tables) buffer.old }
        ensures after { buffer.new
            ≡ write_buffer (costs_text (price_in self.now) (state self.now).tables) buffer.old }
        ensures fits { IfOk result (λ end. end ≤ 320) }
    {
        let line: Line<'a> = Line::Cost {
            cost: self.floor.cost(),
        };
        line.write(buffer)
    }
}
