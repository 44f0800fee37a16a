//! What is said of an answer.
ghost use Rattle.std.specs.Prelude.{◌≡◌, ◌≤◌, length};
ghost use Rattle.rowtext.specs.Shown.{cell_line as line_of_cell, cell_lines, number_line as line_of_number, Adds, shown as shown_as};

use arrayvec::ArrayString;
use itoa::Buffer;
use row::{Cell, Refusal};
use std::alloc::AllocError;

// The line of a cell: its number and its site.
fn cell_line(number: u32, site: u32) -> ArrayString<32>
    ensures { result.bytes ≡ line_of_cell number site }
{
    let mut line = ArrayString::new();
    line.push_str(Buffer::new().format(number));
    line.push_str(" ");
    line.push_str(Buffer::new().format(site));
    line.push_str("\n");
    line
}

// Puts a line for each cell. The sites stand beside the cells, since `set` filled them.
fn put_cells(said: &mut Vec<u8>, cells: &[Cell], sites: &[u32]) -> Result<(), AllocError>
    ensures { Adds (cell_lines cells.now sites.now) said.old said.new result }
{
    for (cell, site) in cells.iter().zip(sites) {
        said.extend_from_slice(cell_line(cell.number, *site).as_bytes())?;
    }
    Ok(())
}

// Puts a line of a word and a number.
fn put_number(said: &mut Vec<u8>, word: &str, number: u64) -> Result<(), AllocError>
    requires { length word.now ≤ 10 }
    ensures { Adds (line_of_number word.now number) said.old said.new result }
{
    let mut line = ArrayString::<32>::new();
    line.push_str(word);
    line.push_str(Buffer::new().format(number));
    line.push_str("\n");
    said.extend_from_slice(line.as_bytes())
}

// Puts what is said of an answer: each cell with its site and then the cost, or the number of the
// refusal.
pub(crate) fn report(
    said: &mut Vec<u8>,
    cells: &[Cell],
    sites: &[u32],
    answer: Result<u64, Refusal>,
) -> Result<(), AllocError>
    ensures { Adds (shown_as cells.now sites.now answer) said.old said.new result }
{
    match answer {
        Ok(cost) => {
            put_cells(said, cells, sites)?;
            put_number(said, "cost ", cost)
        }
        Err(refusal) => put_number(said, "refused ", u64::from(refusal.number())),
    }
}
