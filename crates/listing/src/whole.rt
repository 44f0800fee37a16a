// From a job's bytes to its listing, from where they are read to where it is written.
ghost use Rattle.std.specs.Prelude.{◌≡◌, IfErr, IfSome, OnOk, vec_capacity};
ghost use Rattle.std.specs.Io.KnownBytes.{Appends};
ghost use Rattle.streams.specs.Streams.{ReadsUpTo};
ghost use Rattle.listing.specs.Lines.{job_lines};
ghost use Rattle.listing.specs.Unlisted.{LeavesOut};
ghost use Rattle.listing.specs.declared.whole.TheConstants.{MOST_READ};

use crate::listed::put_job;
use crate::unlisted::Unlisted;
use streams::{Sink, Source, deliver, fetch};

/// How many bytes of an input are read at most: one more than a job may have, as many as it takes to
/// refuse a longer one.
pub const MOST_READ: usize = 65_536;

/// Reads a job, at most its first 65,536 bytes, and writes its listing and nothing else. The listing
/// is gathered in `listing`, whose contents are cleared. Where the call fails, the input failed and
/// nothing is written, or `listing` had no room and nothing is written, or the output failed and a
/// first part of the listing is written.
pub fn list<R: Source, W: Sink>(
    listing: &mut Vec<u8>,
    input: &mut R,
    output: &mut W,
) -> Result<(), Unlisted>
    ensures lines { OnOk result (IfSome (R.remaining input.old) (λ job.
        Appends (W.contents output.old) (W.contents output.new) (job_lines job))) }
    ensures failure { IfErr result (LeavesOut (R.failed input.new) (W.failed output.new)
        (vec_capacity listing.old) (R.remaining input.old)
        (W.contents output.old) (W.contents output.new)) }
    ensures few { ReadsUpTo MOST_READ (R.remaining input.old) (R.remaining input.new) }
    ensures limit { MOST_READ ≡ 65536 }
{
    let mut room = [0; MOST_READ];
    let length = fetch(input, &mut room)?;
    listing.clear();
    put_job(listing, &room[..length])?;
    deliver(output, listing.as_slice())?;
    Ok(())
}
