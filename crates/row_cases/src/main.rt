// Runs a table of rows, a line each, and prints what `set` makes of each:
// the cost and the sites, or the refusal's number and whether the sites stayed as they were.
// A line is: measure (0 squared, 1 plain), line, left, right, length of the sites' buffer, then five numbers a cell:
// number, wanted site, wanted line, width, weight.
#![tactic(auto)]

use anyhow::anyhow;
use measure::MeasureName;
use row::{Cell, Refusal, Row, Spot, set};
use std::alloc::{AllocError, Global};
use std::io::{BufRead, BufReader};

// What the buffer holds before a call.
const UNTOUCHED: u32 = 77;

// The numbers of a line. A loop and no `collect`, which is no plainer: a refused word and no memory are two errors, each of which wants its own `?`.
fn numbers(heap: Global, line: &str) -> anyhow::Result<Vec<u32>> {
    let mut all = Vec::new(heap);
    for word in line.split_whitespace() {
        all.push(word.parse::<u32>()?)?;
    }
    Ok(all)
}

// The cells of a line's numbers, five a cell.
fn cells_of(heap: Global, fields: &[u32]) -> Result<Vec<Cell>, AllocError> {
    let (cells, _) = fields.as_chunks::<5>();
    cells
        .iter()
        .map(|&[number, site, line, width, weight]| Cell {
            number,
            wanted: Spot { site, line },
            width,
            weight,
        })
        .collect(heap)
}

// One line of the result: the cost and the sites, or the refusal.
fn shown(heap: Global, answer: Result<u64, Refusal>, sites: &[u32]) -> Result<String, AllocError> {
    let cost = match answer {
        Ok(cost) => cost,
        Err(refusal) => {
            let number = refusal.number();
            let kept = sites.iter().all(|site| *site == UNTOUCHED);
            return format!(in heap; "no {number} {kept}");
        }
    };
    let mut text = format!(in heap; "{cost}")?;
    for site in sites {
        write!(text, " {site}")?;
    }
    Ok(text)
}

// What `set` makes of one line.
fn run(heap: Global, line: &str) -> anyhow::Result<String> {
    let all = numbers(heap, line)?;
    let [measure, line, left, right, length, fields @ ..] = all.as_slice() else {
        return Err(anyhow!("a line has too few numbers"));
    };
    // Not `try_from`: this program has always taken any number but 0 for the plain measure, and still does.
    let measure = if *measure == 0 {
        MeasureName::Squared
    } else {
        MeasureName::Plain
    };
    let row = Row {
        line: *line,
        left: *left,
        right: *right,
    };
    let cells = cells_of(heap, fields)?;
    let mut sites = vec![in heap; UNTOUCHED; usize::try_from(*length)?]?;
    let answer = set(&measure, row, &cells, &mut sites);
    Ok(shown(heap, answer, &sites)?)
}

fn main(rt: HostRuntime) -> anyhow::Result<()> {
    let heap = rt.alloc();
    for line in BufReader::new(heap, rt.stdin())?.lines(heap) {
        let text = run(heap, line?.as_str())?;
        println!(rt; "{text}")?;
    }
    Ok(())
}
