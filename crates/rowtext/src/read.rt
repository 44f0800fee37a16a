//! How a whole text is read: a measure, a row and its cells.
ghost use Rattle.std.specs.Prelude.{◌≡◌, ◌<◌, length, vec_capacity};
ghost use Rattle.rowtext.specs.Lines.{left};
ghost use Rattle.rowtext.specs.Reading.{at_line, cells_of, lines_in, reads_as, given, Answers, Continues};

use crate::forms::{read_cell, read_measure, read_row};
use crate::lines::{Entry, Lines};
use crate::trouble::{Form, Reason, Trouble, Unreadable};
use measure::MeasureName;
use row::{Cell, Row};

// What a text gives before its cells.
#[derive(Clone, Copy)]
pub(crate) struct Heading {
    pub(crate) measure: MeasureName,
    pub(crate) row: Row,
}

// What was read of a line, with the line's number where it cannot be read.
fn at_line<T>(line: u64, read: Result<T, Reason>) -> Result<T, Unreadable>
    ensures { result ≡ at_line line read }
{
    read.map_err(|reason| Unreadable { line, reason })
}

// The next line that counts, which is to be there and of this form.
fn next_line<'a>(lines: &mut Lines<'a>, form: Form) -> Result<Entry<'a>, Unreadable>
    ensures { Continues form lines.old lines.new result }
{
    lines.next().ok_or(Unreadable {
        line: lines.next_number(),
        reason: Reason::Missing(form),
    })
}

// Gathers the cells of the lines that are left, one to a line.
fn read_cells(lines: Lines<'_>, cells: &mut Vec<Cell>) -> Result<(), Trouble>
    ensures { Answers (λ _. cells.new.items) (vec_capacity cells.old < length (left lines.entry))
        (cells_of (left lines.entry)) result }
{
    cells.clear();
    for entry in lines {
        cells.push(at_line(entry.number, read_cell(entry.line))?)?;
    }
    Ok(())
}

// Reads the measure and the row that a text gives, and gathers its cells; or answers the first line
// that cannot be read and why.
pub(crate) fn read(text: &[u8], cells: &mut Vec<Cell>) -> Result<Heading, Trouble>
    ensures { Answers (given cells.new.items) (vec_capacity cells.old < lines_in text.now)
        (reads_as text.now) result }
{
    let mut lines = Lines::new(text);
    let entry = next_line(&mut lines, Form::Measure)?;
    let measure = at_line(entry.number, read_measure(entry.line))?;
    let entry = next_line(&mut lines, Form::Row)?;
    let row = at_line(entry.number, read_row(entry.line))?;
    read_cells(lines, cells)?;
    Ok(Heading { measure, row })
}
