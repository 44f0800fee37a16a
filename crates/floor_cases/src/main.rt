// Runs a table of calls on floors, a line each, and prints what each call answers.
// A line is one of: floor MEASURE (a new floor; the line itself is printed); row LINE LEFT RIGHT;
// place NUMBER SITE LINE WIDTH WEIGHT; try, with the same five; withdraw NUMBER; where NUMBER; cost.
// An answer is what the call gives (for a withdrawal, where the cell stood), or `no` and the refusal's number.
#![tactic(auto)]

use anyhow::{Context, bail};
use floor::{Floor, Placing, Refusal};
use measure::MeasureName;
use row::{Cell, Row, Spot};
use std::fmt;
use std::io::{BufRead, BufReader};
use std::str::SplitWhitespace;

// What a granted call answers.
#[derive(Clone, Copy, Debug)]
enum Answer {
    Done,
    Stands(Spot),
    Placed(Placing),
    Costs(u64),
}

impl fmt::Display for Answer {
    fn fmt<W: fmt::Write>(&self, f: &mut fmt::Formatter<W>) -> fmt::Result {
        match self {
            Answer::Done => f.write_str("ok"),
            Answer::Stands(Spot { line, site }) => write!(f, "{line} {site}"),
            Answer::Placed(
                Placing {
                    spot: Spot { line, site },
                    rise,
                },
            ) => write!(f, "{line} {site} {rise}"),
            Answer::Costs(cost) => write!(f, "{cost}"),
        }
    }
}

// The measure of this name.
fn measure_named(word: &str) -> anyhow::Result<MeasureName> {
    match word {
        "squared" => Ok(MeasureName::Squared),
        "plain" => Ok(MeasureName::Plain),
        _ => bail!("a measure is `squared` or `plain`"),
    }
}

// The number that a word writes.
fn number(word: Option<&str>) -> anyhow::Result<u32> {
    Ok(word.context("a line has too few words")?.parse::<u32>()?)
}

// The row of a line's words.
fn row_of(mut words: SplitWhitespace<'_>) -> anyhow::Result<Row> {
    Ok(Row {
        line: number(words.next())?,
        left: number(words.next())?,
        right: number(words.next())?,
    })
}

// The cell of a line's words.
fn cell_of(mut words: SplitWhitespace<'_>) -> anyhow::Result<Cell> {
    Ok(Cell {
        number: number(words.next())?,
        wanted: Spot {
            site: number(words.next())?,
            line: number(words.next())?,
        },
        width: number(words.next())?,
        weight: number(words.next())?,
    })
}

// What the floor answers to the call of a line.
fn call(floor: &mut Floor<MeasureName>, line: &str) -> anyhow::Result<Result<Answer, Refusal>> {
    let mut words = line.split_whitespace();
    Ok(match words.next() {
        Some("row") => floor.add_row(row_of(words)?).map(|()| Answer::Done),
        Some("place") => floor.place(cell_of(words)?).map(Answer::Placed),
        Some("try") => floor.try_place(cell_of(words)?).map(Answer::Placed),
        Some("withdraw") => floor.withdraw(number(words.next())?).map(Answer::Stands),
        Some("where") => floor.where_is(number(words.next())?).map(Answer::Stands),
        Some("cost") => Ok(Answer::Costs(floor.cost())),
        _ => bail!("a line is no call"),
    })
}

// The calls before the first `floor` line go to a floor of the squared measure.
fn main(rt: HostRuntime) -> anyhow::Result<()> {
    let heap = rt.alloc();
    let mut floor = Floor::new(MeasureName::Squared);
    for line in BufReader::new(heap, rt.stdin())?.lines(heap) {
        let line = line?;
        if let Some(measure) = line.strip_prefix("floor ") {
            floor = Floor::new(measure_named(measure)?);
            println!(rt; "{line}")?;
            continue;
        }
        match call(&mut floor, line.as_str())? {
            Ok(answer) => println!(rt; "{answer}")?,
            Err(refusal) => println!(rt; "no {}", refusal.number())?,
        }
    }
    Ok(())
}
