// The listing of a whole job.
ghost use Rattle.job.specs.Reading.{standing};
ghost use Rattle.lines.specs.Appended.{Appends};
ghost use Rattle.listing.specs.Left.{lines_left};
ghost use Rattle.listing.specs.Lines.{job_lines};

use crate::parts::{put_fault, put_measure, put_record};
use job::{Job, Reader};
use std::alloc::AllocError;

// Adds a line for each record that is still to be read, and one for the fault that ends them, if
// there is one.
fn put_records(out: &mut Vec<u8>, mut reader: Reader<'_>) -> Result<(), AllocError>
    ensures { Appends out.old result (lines_left (standing reader.entry)) out.new }
{
    // No iterator: the reader answers a `Result` of an `Option`, and stays at a fault, which an
    // iterator would give again and again.
    loop {
        let index = reader.index();
        match reader.next_record() {
            Ok(Some(found)) => put_record(out, index, found)?,
            Ok(None) => return Ok(()),
            Err(fault) => return put_fault(out, fault),
        }
    }
}

/// Adds the listing of a job: the line of its measure, one for each of its records, and one for the
/// fault that ends it, if there is one. It fails only for want of memory.
pub fn put_job(out: &mut Vec<u8>, bytes: &[u8]) -> Result<(), AllocError>
    ensures { Appends out.old result (job_lines bytes.now) out.new }
{
    match Job::open(bytes) {
        Ok(job) => {
            put_measure(out, job.measure())?;
            put_records(out, job.reader())
        }
        Err(fault) => put_fault(out, fault),
    }
}
