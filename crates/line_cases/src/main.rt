//! Writes each kind of line into one buffer, at the least and the largest numbers, and prints it.
#![tactic(auto)]

use job::{LONGEST_NAME, Name};
use lines::{LEAST_BUFFER, Line};
use std::io;
use std::io::Write;

// The numbers of the lines that are shown: of 16 bits an index and a place, and of more a refusal,
// a cell's number, a line, a site and a cost.
#[derive(Clone, Copy)]
struct Numbers {
    index: u16,
    place: u16,
    refusal: u32,
    number: u32,
    line: u32,
    site: u32,
    cost: u64,
}

// The largest numbers.
const LARGEST: Numbers = Numbers {
    index: u16::MAX,
    place: u16::MAX,
    refusal: u32::MAX,
    number: u32::MAX,
    line: u32::MAX,
    site: u32::MAX,
    cost: u64::MAX,
};

// The largest numbers that differ where they stand in one line, so that a swap shows.
const LARGEST_APART: Numbers = Numbers {
    index: u16::MAX,
    place: u16::MAX - 2,
    refusal: u32::MAX - 1,
    number: u32::MAX,
    line: u32::MAX - 1,
    site: u32::MAX - 2,
    cost: u64::MAX,
};

// Writes a line and prints it, or prints the number of the refusal.
fn show(rt: &HostRuntime, buffer: &mut [u8], line: Line) -> io::Result<()> {
    match line.write(buffer) {
        Ok(end) => rt.stdout().write_all(&buffer[..end]),
        Err(refusal) => println!(rt; "refused {}: {refusal}", refusal.number()),
    }
}

// Shows each kind of line at some numbers and a name.
fn show_kinds(
    rt: &HostRuntime,
    buffer: &mut [u8],
    numbers: Numbers,
    name: Option<Name<'_>>,
) -> io::Result<()> {
    let Numbers {
        index,
        place,
        refusal,
        number,
        line,
        site,
        cost,
    } = numbers;
    let lines = [
        Line::Granted { index, name },
        Line::Seated {
            index,
            line,
            site,
            rise: cost,
            name,
        },
        Line::Refused {
            index,
            number: refusal,
            name,
        },
        Line::Unreadable {
            index,
            number: refusal,
            place,
        },
        Line::Cell { number, line, site },
        Line::Cost { cost },
    ];
    for line in lines {
        show(rt, buffer, line)?;
    }
    Ok(())
}

// Three numbers and a cost: an index or a cell's number, a line or a refusal, and a site or a place.
fn numbers_of([first, second, third]: [u16; 3], cost: u64) -> Numbers {
    Numbers {
        index: first,
        place: third,
        refusal: second.into(),
        number: first.into(),
        line: second.into(),
        site: third.into(),
        cost,
    }
}

// Numbers that differ, from a first one on.
fn numbers_from(first: u16) -> Numbers {
    let [index, place, number] = [first, first / 2, first / 3];
    Numbers {
        index,
        place,
        refusal: number.into(),
        number: number.into(),
        line: u32::from(first) * 10,
        site: u32::from(first) * 100,
        cost: u64::from(first) * 1000,
    }
}

fn main(rt: HostRuntime) -> io::Result<()> {
    let mut buffer = [b'x'; LEAST_BUFFER];
    let longest: &[u8] = &[b'~'; LONGEST_NAME];
    let too_long: &[u8] = &[b'~'; LONGEST_NAME + 1];
    show_kinds(&rt, &mut buffer, numbers_from(0), None)?;
    show_kinds(
        &rt,
        &mut buffer,
        numbers_of([9, 10, 11], 99),
        Name::new(b"!"),
    )?;
    show_kinds(
        &rt,
        &mut buffer,
        numbers_of([100, 999, 1_000], 65_535),
        Name::new(b"!"),
    )?;
    show_kinds(&rt, &mut buffer, numbers_from(9), Name::new(b"!"))?;
    show_kinds(&rt, &mut buffer, numbers_from(1_000), Name::new(b"a name"))?;
    show_kinds(&rt, &mut buffer, LARGEST_APART, None)?;
    show_kinds(&rt, &mut buffer, LARGEST_APART, Name::new(longest))?;
    show_kinds(&rt, &mut buffer, LARGEST, Name::new(longest))?;
    show_kinds(&rt, &mut buffer, LARGEST, Name::new(too_long))?;
    show_kinds(&rt, &mut buffer[1..], numbers_of([1, 2, 3], 4), None)
}
