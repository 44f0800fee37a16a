//! Whole runs, from bytes to bytes.
ghost use Rattle.std.specs.Prelude.{◌≡◌};
ghost use Rattle.std.specs.Process.{exit_status};
ghost use Rattle.rowtext.specs.Rooms.{room_of};
ghost use Rattle.rowtext.specs.Runs.{Answered, Ran, Told, complaint_line, status_of};
ghost use Rattle.rowtext.specs.Fetching.{Ending};
ghost use Rattle.rowtext.specs.declared.TheConstants.{CHUNK_BYTES, MOST_BYTES};
ghost use Rattle.streams.specs.Streams.{Delivered};

use crate::answer::answer;
use crate::fetch::fetch_text;
use crate::read::read;
use crate::room::Room;
use crate::trouble::Trouble;
use std::process::ExitCode;
use streams::{NotWritten, Sink, Source, deliver};

// Answers the text in the room.
fn answer_in(room: &mut Room) -> Result<(), Trouble>
    ensures { Answered (room_of room.old) room.old.text.items room.new.said.items result }
{
    let heading = read(room.text.as_slice(), &mut room.cells)?;
    answer(
        heading,
        room.cells.as_slice(),
        &mut room.sites,
        &mut room.said,
    )?;
    Ok(())
}

/// Reads a text to its end, and writes the answer to it: each cell's site and the cost, or the
/// number of the refusal. Where it answers a trouble, nothing is written, or, where writing failed,
/// a first part of the answer.
pub fn answer_text<R: Source, W: Sink>(
    room: &mut Room,
    input: &mut R,
    out: &mut W,
) -> Result<(), Trouble>
    ensures { Ran (room_of room.old) (R.remaining input.old) (R.remaining input.new)
        (W.contents out.old) (W.contents out.new) (R.failed input.new) (W.failed out.new) result }
{
    fetch_text(input, &mut room.text)?;
    answer_in(room)?;
    deliver(out, room.said.as_slice())?;
    Ok(())
}

// Says in one line why a text has no answer.
#[tactic(auto, using(crate::proofs::Ended::delivered_as))]
fn tell<E: Sink>(err: &mut E, why: Trouble) -> Result<(), NotWritten>
    ensures { Delivered (E.contents err.old) (E.contents err.new) (E.failed err.new)
        (complaint_line why) result }
{
    let mut line = why.complaint();
    line.push_str("\n");
    deliver(err, line.as_bytes())
}

/// A whole run of the program `setrow`: the answer to the input on `out`, or one line on `err` that
/// says why there is none, and the status to end with, 0 or 1.
pub fn set_row<R: Source, W: Sink, E: Sink>(
    room: &mut Room,
    input: &mut R,
    out: &mut W,
    err: &mut E,
) -> ExitCode
    ensures run { (ending : Ending)
        × Ran (room_of room.old) (R.remaining input.old) (R.remaining input.new)
        (W.contents out.old) (W.contents out.new) (R.failed input.new) (W.failed out.new) ending
        × Told (E.contents err.old) (E.contents err.new) (E.failed err.new) ending
        × (exit_status result ≡ status_of ending) }
    ensures limits { (MOST_BYTES ≡ 1048576) × (CHUNK_BYTES ≡ 4096) }
{
    match answer_text(room, input, out) {
        Ok(()) => ExitCode::SUCCESS,
        Err(why) => {
            let _ = tell(err, why);
            ExitCode::FAILURE
        }
    }
}
