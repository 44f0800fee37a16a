// A job legalized: from the bytes of an input to the lines on standard output, a sentence on
// standard error, and a status.
ghost use Rattle.std.specs.Prelude.{◌≡◌, IfErr, IfNone, IfOk, IfSome, OnOk, OnSome, Some};
ghost use Rattle.std.specs.Io.KnownBytes.{Appends};
ghost use Rattle.streams.specs.Streams.{ReadsUpTo};
ghost use Rattle.std.specs.Process.{exit_status};
ghost use Rattle.run.specs.Complaints.{complaint_line, status_of};
ghost use Rattle.run.specs.Legalized.{LacksRoom, LeavesOut, complaint, status};
ghost use Rattle.run.specs.Texts.{job_text};
ghost use Rattle.run.specs.declared.legalizing.Failure.TheVariants as failure;
ghost use Rattle.run.specs.declared.legalizing.TheConstants.{MOST_READ};

use crate::complaint::Complaint;
use crate::whole::{CarriedOut, carry_out};
use std::alloc::AllocError;
use std::error::Error;
use std::io::Write;
use std::process::ExitCode;
use std::{fmt, io};
use streams::{NotRead, NotWritten, Sink, Source, deliver, fetch};

/// How many bytes of an input are read: one more than a job may have, so that a longer one is
/// refused.
pub const MOST_READ: usize = 65_536;

/// Why a job is not answered in full.
#[derive(Clone, Copy, Debug)]
pub enum Failure {
    /// Reading the input failed; nothing is written to standard output.
    Unfetched(NotRead),
    /// Writing the lines failed; a first part of them is written to standard output.
    Unwritten(NotWritten),
    /// The sentence could not be written to standard error; all lines are written.
    Untold(io::Error),
    /// Memory did not suffice for the lines; nothing is written to standard output.
    NoMemory,
}

impl From<NotRead> for Failure {
    ghost from_gives = { λ why r. r ≡ failure.Unfetched why };

    fn from(why: NotRead) -> Failure {
        Failure::Unfetched(why)
    }
}

impl From<NotWritten> for Failure {
    ghost from_gives = { λ why r. r ≡ failure.Unwritten why };

    fn from(why: NotWritten) -> Failure {
        Failure::Unwritten(why)
    }
}

impl From<io::Error> for Failure {
    ghost from_gives = { λ why r. r ≡ failure.Untold why };

    fn from(why: io::Error) -> Failure {
        Failure::Untold(why)
    }
}

impl From<AllocError> for Failure {
    ghost from_gives = { λ _ r. r ≡ failure.NoMemory };

    fn from(_why: AllocError) -> Failure {
        Failure::NoMemory
    }
}

// What is told on standard error.
impl fmt::Display for Failure {
    fn fmt<W: fmt::Write>(&self, f: &mut fmt::Formatter<W>) -> fmt::Result {
        match self {
            Failure::Unfetched(why) => write!(f, "legalize: {why}"),
            Failure::Unwritten(why) => write!(f, "legalize: {why}"),
            Failure::Untold(why) => write!(f, "legalize: {why}"),
            Failure::NoMemory => f.write_str("legalize: out of memory"),
        }
    }
}

impl Error for Failure {}

/// How a job was answered: the status to end with, and the failure if there was one.
#[derive(Clone, Copy)]
pub struct Ending {
    pub status: ExitCode,
    pub failure: Option<Failure>,
}

/// Says why a job cannot be read to its end, where a fault ends it; answers the status.
fn conclude<E: Write>(err: &mut E, job: &[u8], fault: Option<job::Fault>) -> io::Result<ExitCode>
    ensures said { OnOk result
        (Appends (E.contents err.old) (E.contents err.new) (complaint_line job.now fault)) }
    ensures status { IfOk result (λ code. exit_status code ≡ status_of fault) }
{
    let Some(fault) = fault else {
        return Ok(ExitCode::SUCCESS);
    };
    err.writeln(Complaint::about(job, fault))?;
    Ok(ExitCode::FAILURE)
}

/// Answers a job: carries it out, writes its lines, and says why it cannot be read to its end, if
/// it cannot.
fn answer<W: Sink, E: Write>(
    said: &mut Vec<u8>,
    out: &mut W,
    err: &mut E,
    job: &[u8],
) -> Result<ExitCode, Failure>
    ensures lines { OnOk result
        (Appends (W.contents out.old) (W.contents out.new) (job_text job.now)) }
    ensures said { OnOk result
        (Appends (E.contents err.old) (E.contents err.new) (complaint job.now)) }
    ensures status { IfOk result (λ code. exit_status code ≡ status job.now) }
    ensures failed { IfErr result (LeavesOut ⊥ (W.failed out.new)
        (Some job.now) (W.contents out.old) (W.contents out.new)) }
    ensures memory { IfErr result (LacksRoom (Some job.now) said.old) }
{
    said.clear();
    let CarriedOut {
        floor: _,
        fault,
        added,
    } = carry_out(said, job);
    added?;
    deliver(out, said.as_slice())?;
    Ok(conclude(err, job, fault)?)
}

/// Fetches a job and answers it.
fn fetch_and_answer<R: Source, W: Sink, E: Write>(
    said: &mut Vec<u8>,
    input: &mut R,
    out: &mut W,
    err: &mut E,
) -> Result<ExitCode, Failure>
    ensures lines { OnOk result (IfSome (R.remaining input.old) (λ job.
        Appends (W.contents out.old) (W.contents out.new) (job_text job))) }
    ensures said { OnOk result (IfSome (R.remaining input.old) (λ job.
        Appends (E.contents err.old) (E.contents err.new) (complaint job))) }
    ensures status { IfOk result (λ code. IfSome (R.remaining input.old) (λ job.
        exit_status code ≡ status job)) }
    ensures failed { IfErr result (LeavesOut (R.failed input.new) (W.failed out.new)
        (R.remaining input.old) (W.contents out.old) (W.contents out.new)) }
    ensures memory { IfErr result (LacksRoom (R.remaining input.old) said.old) }
    ensures few { ReadsUpTo MOST_READ (R.remaining input.old) (R.remaining input.new) }
{
    let mut room = [0; MOST_READ];
    let length = fetch(input, &mut room)?;
    answer(said, out, err, &room[..length])
}

/// Legalizes the job that `input` holds: its lines go to `out`, and to `err` one sentence where it
/// cannot be read to its end, or where a call failed. The lines are gathered in `said` before they
/// are written, and what it held is cleared. At most 65,536 bytes are read, so that of an endless
/// input no more is fetched than tells that it is too long.
pub fn legalize<R: Source, W: Sink, E: Write>(
    said: &mut Vec<u8>,
    input: &mut R,
    out: &mut W,
    err: &mut E,
) -> Ending
    ensures lines { IfNone result.failure (IfSome (R.remaining input.old) (λ job.
        Appends (W.contents out.old) (W.contents out.new) (job_text job))) }
    ensures said { IfNone result.failure (IfSome (R.remaining input.old) (λ job.
        Appends (E.contents err.old) (E.contents err.new) (complaint job))) }
    ensures status { IfNone result.failure (IfSome (R.remaining input.old) (λ job.
        exit_status result.status ≡ status job)) }
    ensures failed { IfSome result.failure (LeavesOut (R.failed input.new) (W.failed out.new)
        (R.remaining input.old) (W.contents out.old) (W.contents out.new)) }
    ensures memory { IfSome result.failure (LacksRoom (R.remaining input.old) said.old) }
    ensures bad_status { OnSome result.failure (exit_status result.status ≡ 1) }
    ensures few { ReadsUpTo MOST_READ (R.remaining input.old) (R.remaining input.new) }
    ensures limit { MOST_READ ≡ 65536 }
{
    match fetch_and_answer(said, input, out, err) {
        Ok(status) => Ending {
            status,
            failure: None,
        },
        Err(why) => {
            let _ = err.writeln(why);
            Ending {
                status: ExitCode::FAILURE,
                failure: Some(why),
            }
        }
    }
}
