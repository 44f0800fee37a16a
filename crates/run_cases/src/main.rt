// Carries out the jobs of a table, one to a line of standard input, and prints what comes of each and then a line `end`.
// A line is a job's bytes in hexadecimal, in one word or more; a word that stands after `xN` counts N times, and an empty line is an empty job.
#![tactic(auto)]

use anyhow::Context;
use run::carry_out;
use std::alloc::Global;
use std::io::{BufRead, BufReader, Write};

// The job of a line of the table.
fn job_of(heap: Global, line: &str) -> anyhow::Result<Vec<u8>> {
    let mut job = Vec::new(heap);
    let mut words = line.split_whitespace();
    while let Some(word) = words.next() {
        let (times, word) = match word.strip_prefix('x') {
            Some(count) => {
                let word = words.next().context("a line ends with a count")?;
                (count.parse::<usize>()?, word)
            }
            None => (1, word),
        };
        let bytes = hex::decode(heap, word)?;
        for _ in 0..times {
            job.extend_from_slice(bytes.as_slice())?;
        }
    }
    Ok(job)
}

fn main(rt: HostRuntime) -> anyhow::Result<()> {
    let heap = rt.alloc();
    for line in BufReader::new(heap, rt.stdin())?.lines(heap) {
        let job = job_of(heap, line?.as_str())?;
        let mut said = Vec::new(heap);
        carry_out(&mut said, job.as_slice()).added?;
        rt.stdout().write_all(said.as_slice())?;
        println!(rt; "end")?;
    }
    Ok(())
}
