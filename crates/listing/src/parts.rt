// The lines of a listing, added to a buffer.
ghost use Rattle.std.specs.Prelude.{◌≡◌, ◌++◌};
ghost use Rattle.job.specs.Reads.{cell_named, content};
ghost use Rattle.lines.specs.Appended.{Appends};
ghost use Rattle.listing.specs.Lines.{end_of_line, measure_line, cell_line, record_line, fault_line};

use crate::pieces::Piece::{Bytes, Name, Number};
use crate::pieces::put_pieces;
use job::{Fault, MeasureName, Named, Record};
use lines::append;
use row::{Cell, Row, Spot};
use std::alloc::AllocError;

/// Adds a text and ends the line. It fails only for want of memory.
pub fn put_line(out: &mut Vec<u8>, text: &str) -> Result<(), AllocError>
    ensures { Appends out.old result (text.now ++ end_of_line) out.new }
{
    put_pieces(out, &[Bytes(text.as_bytes()), Bytes(b"\n")])
}

// Adds the line of a job's measure.
pub(crate) fn put_measure(out: &mut Vec<u8>, measure: MeasureName) -> Result<(), AllocError>
    ensures { Appends out.old result (measure_line measure) out.new }
{
    match measure {
        MeasureName::Squared => append(out, b"measure squared\n"),
        MeasureName::Plain => append(out, b"measure plain\n"),
    }
}

// Adds the line of a row.
fn put_row(out: &mut Vec<u8>, index: u16, row: Row) -> Result<(), AllocError>
    ensures { Appends out.old result (record_line index (content (Record.Row row))) out.new }
{
    let Row { line, left, right } = row;
    put_pieces(
        out,
        &[
            Number(index.into()),
            Bytes(b" row line "),
            Number(line),
            Bytes(b" left "),
            Number(left),
            Bytes(b" right "),
            Number(right),
            Bytes(b"\n"),
        ],
    )
}

// Adds the line of a cell; the word, between spaces, says whether it is placed or tried.
fn put_cell<'a>(
    out: &mut Vec<u8>,
    index: u16,
    word: &'a [u8],
    cell: Cell,
    name: Option<Named<'a>>,
) -> Result<(), AllocError>
    ensures { Appends out.old result (cell_line index word.now (cell_named (cell, name.entry))) out.new }
{
    let Cell {
        number,
        wanted: Spot { line, site },
        width,
        weight,
    } = cell;
    put_pieces(
        out,
        &[
            Number(index.into()),
            Bytes(word),
            Number(number),
            Bytes(b" site "),
            Number(site),
            Bytes(b" line "),
            Number(line),
            Bytes(b" width "),
            Number(width),
            Bytes(b" weight "),
            Number(weight),
            Name(name),
            Bytes(b"\n"),
        ],
    )
}

// Adds the line of a record with an index.
pub(crate) fn put_record(out: &mut Vec<u8>, index: u16, found: Record<'_>) -> Result<(), AllocError>
    ensures { Appends out.old result (record_line index (content found.entry)) out.new }
{
    match found {
        Record::Row(row) => put_row(out, index, row),
        Record::Place(cell, name) => put_cell(out, index, b" place ", cell, name),
        Record::Withdraw(number) => put_pieces(
            out,
            &[
                Number(index.into()),
                Bytes(b" withdraw "),
                Number(number),
                Bytes(b"\n"),
            ],
        ),
        Record::Try(cell, name) => put_cell(out, index, b" try ", cell, name),
    }
}

// Adds the line of a fault.
pub(crate) fn put_fault(out: &mut Vec<u8>, fault: Fault) -> Result<(), AllocError>
    ensures { Appends out.old result (fault_line fault) out.new }
{
    let Fault {
        cause,
        index,
        place,
    } = fault;
    put_pieces(
        out,
        &[
            Number(index.into()),
            Bytes(b" bad byte "),
            Number(place.into()),
            Bytes(b": refusal "),
            Number(cause.number()),
            Bytes(b", "),
            Bytes(cause.reason().as_bytes()),
            Bytes(b"\n"),
        ],
    )
}
