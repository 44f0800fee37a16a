// Lists the jobs of a table, which stand on standard input in hexadecimal, one to a line.
// A word `xN` says that the next word counts N times.
#![tactic(auto)]

ghost use Rattle.std.specs.Prelude.{◌<◌};

use listing::{put_job, put_line};
use std::alloc::{AllocError, Global};
use std::io;
use std::io::{Read, Write};

// The value of a hexadecimal digit, in upper case, and 0 for any other byte.
fn digit_of(byte: u8) -> u8
    ensures { result < 16 }
{
    // Not `to_digit`: it takes lower case too, which this program has always read as 0, and still does.
    match byte {
        b'0'..=b'9' => byte - b'0',
        b'A'..=b'F' => byte - b'A' + 10,
        _ => 0,
    }
}

// Adds the bytes of a word, two digits each.
fn put_bytes(bytes: &mut Vec<u8>, word: &str) -> Result<(), AllocError> {
    let (pairs, _) = word.as_bytes().as_chunks::<2>();
    for &[high, low] in pairs {
        bytes.push(16 * digit_of(high) + digit_of(low))?;
    }
    Ok(())
}

// Adds the bytes of a line of the table.
fn put_words(bytes: &mut Vec<u8>, line: &str) -> Result<(), AllocError> {
    let mut times = 1usize;
    for word in line.split(' ') {
        match word.strip_prefix('x') {
            Some(count) => times = count.parse().unwrap_or(0),
            None => {
                for _ in 0..times {
                    put_bytes(bytes, word)?;
                }
                times = 1;
            }
        }
    }
    Ok(())
}

// Adds the listing of each job of a table, after its number.
fn put_table(heap: Global, out: &mut Vec<u8>, table: &str) -> Result<(), AllocError> {
    for (number, line) in table.lines().enumerate() {
        let title = format!(in heap; "case {number}")?;
        put_line(out, title.as_str())?;
        let mut bytes = Vec::new(heap);
        put_words(&mut bytes, line)?;
        put_job(out, bytes.as_slice())?;
    }
    Ok(())
}

fn main(rt: HostRuntime) -> io::Result<()> {
    let mut table = String::new(rt.alloc());
    rt.stdin().read_to_string(&mut table)?;
    let mut out = Vec::new(rt.alloc());
    put_table(rt.alloc(), &mut out, table.as_str())?;
    rt.stdout().write_all(out.as_slice())
}
