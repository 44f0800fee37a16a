// The checks of cells, of rows and of all that `set` is given, in the order of what they refuse.
ghost use Rattle.std.specs.Prelude.{◌≡◌, ◌≤◌, length, None};
ghost use Rattle.row.specs.Records.{Limits, cell_fault, row_fault, widths};
ghost use Rattle.row.specs.Refusals.{next_refusal, cells_refusal, set_refusal};
ghost use Rattle.row.specs.Checked.{checked};

use crate::{Cell, Fault, MOST_CELLS, Refusal, Row};
use measure::{LAST_PLACE, MOST_WEIGHT};

// The greatest line.
const LAST_LINE: u32 = 4_095;

// The most sites that a cell covers.
const MOST_WIDTH: u32 = 1_000;

// The greatest number of a cell.
const LAST_NUMBER: u32 = 65_535;

impl Row {
    /// Refuses a row that is outside its ranges: line up to 4,095, left < right, and right up to
    /// 65,535.
    pub fn check(&self) -> Result<(), Fault>
        ensures answer { checked result ≡ row_fault self.now }
        ensures limits { Limits }
    {
        if self.line > LAST_LINE || self.left >= self.right || self.right > LAST_PLACE {
            return Err(Fault::Row);
        }
        Ok(())
    }
}

impl Cell {
    /// Refuses a cell that has a field outside its range, by the first of them: wanted site up to
    /// 65,535 and wanted line up to 4,095, width 1 to 1,000, weight 1 to 1,000, number up to
    /// 65,535.
    pub fn check(&self) -> Result<(), Fault>
        ensures answer { checked result ≡ cell_fault self.now }
        ensures limits { Limits }
    {
        if self.wanted.site > LAST_PLACE || self.wanted.line > LAST_LINE {
            return Err(Fault::Wanted);
        }
        if !(1..=MOST_WIDTH).contains(&self.width) {
            return Err(Fault::Width);
        }
        if !(1..=MOST_WEIGHT).contains(&self.weight) {
            return Err(Fault::Weight);
        }
        if self.number > LAST_NUMBER {
            return Err(Fault::Number);
        }
        Ok(())
    }
}

// Refuses a cell that is out of its ranges, or not after the one before it in wanted order.
fn check_next(last: Option<Cell>, cell: &Cell) -> Result<(), Refusal>
    ensures { checked result ≡ next_refusal last cell.now }
{
    cell.check()?;
    match last {
        Some(before) if !before.is_before(cell) => Err(Refusal::Order),
        _ => Ok(()),
    }
}

// Refuses the first cell that is to be refused after those before it.
fn check_cells(cells: &[Cell]) -> Result<(), Refusal>
    ensures { checked result ≡ cells_refusal None cells.now }
{
    let mut last: Option<Cell> = None;
    for cell in cells {
        check_next(last, cell)?;
        last = Some(*cell);
    }
    Ok(())
}

// The sites that cells cover together.
fn widths_of(cells: &[Cell]) -> u64
    requires few { length cells.now ≤ 1024 }
    ensures { result ≡ widths cells.now }
{
    cells.iter().map(|cell| u64::from(cell.width)).sum()
}

// Refuses what `set` refuses: a row, cells and a number of sites.
pub(crate) fn check(row: Row, cells: &[Cell], sites: usize) -> Result<(), Refusal>
    ensures { checked result ≡ set_refusal row cells.now sites }
{
    row.check()?;
    if cells.len() > MOST_CELLS || sites != cells.len() {
        return Err(Refusal::Size);
    }
    check_cells(cells)?;
    if widths_of(cells) > u64::from(row.right - row.left) {
        return Err(Refusal::TooWide);
    }
    Ok(())
}
