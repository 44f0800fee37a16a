//! What one line says: a measure, a row or a cell.
ghost use Rattle.std.specs.Prelude.{◌≡◌};
ghost use Rattle.rowtext.specs.Forms.{measure_named as named, measure_of, row_of, cell_of};
ghost use Rattle.rowtext.specs.Text.{words};

use crate::fields::Fields;
use crate::trouble::{Form, Reason};
use measure::MeasureName;
use row::{Cell, Row, Spot};

// The measure of this name. No `FromStr`, which takes text: a word is bytes, and need not be UTF-8.
fn measure_named(word: &[u8]) -> Result<MeasureName, Reason>
    ensures { result ≡ named word.now }
{
    match word {
        b"squared" => Ok(MeasureName::Squared),
        b"plain" => Ok(MeasureName::Plain),
        _ => Err(Reason::NoSuchMeasure),
    }
}

// The measure that a line gives.
pub(crate) fn read_measure(line: &[u8]) -> Result<MeasureName, Reason>
    ensures { result ≡ measure_of (words line.now) }
{
    let mut fields = Fields::open(Form::Measure, line)?;
    let measure = measure_named(fields.word()?)?;
    fields.end()?;
    Ok(measure)
}

// The row that a line gives.
pub(crate) fn read_row(line: &[u8]) -> Result<Row, Reason>
    ensures { result ≡ row_of (words line.now) }
{
    let [line, left, right] = Fields::open(Form::Row, line)?.numbers::<3>()?;
    Ok(Row { line, left, right })
}

// The cell that a line gives.
pub(crate) fn read_cell(line: &[u8]) -> Result<Cell, Reason>
    ensures { result ≡ cell_of (words line.now) }
{
    let [number, site, line, width, weight] = Fields::open(Form::Cell, line)?.numbers::<5>()?;
    Ok(Cell {
        number,
        wanted: Spot { line, site },
        width,
        weight,
    })
}
