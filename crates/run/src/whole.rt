// Carrying out a whole job: the lines of its records, of the cells that stand then, and of what
// they cost.
ghost use Rattle.std.specs.Prelude.{◌≡◌, List, ℕ, ◌++◌, Vec, reverse};
ghost use Rattle.std.specs.declared.alloc.Global as heap;
ghost use Rattle.history.specs.Lawful.{Lawful};
ghost use Rattle.history.specs.declared.call.Event.{Event};
ghost use Rattle.job.specs.Records.{fault_of};
ghost use Rattle.lines.specs.Texts.{text};
ghost use Rattle.run.specs.Jobs.{AtEnd};
ghost use Rattle.run.specs.Parts.{rest_events, rest_fault, rest_lines, rest_tables};
ghost use Rattle.lines.specs.Appended.{Appends};
ghost use Rattle.run.specs.State.{floor_of, measure_in, price_in, state};
ghost use Rattle.run.specs.Steps.{costs_text};
ghost use Rattle.run.specs.Texts.{cell_lines, job_text};

use crate::fault::Fault;
use crate::run::Run;
use floor::Floor;
use job::{Job, MeasureName};
use lines::{LEAST_BUFFER, append};
use row::MOST_CELLS;
use std::alloc::AllocError;

// Adds bytes, unless those before them could not be added.
#[tactic(auto, using(crate::proofs::Putting::put_none, crate::proofs::Putting::put_more))]
fn put(out: &mut Vec<u8>, added: Result<(), AllocError>, bytes: &[u8]) -> Result<(), AllocError>
    ensures { (from : Vec ℕ heap.Global) (said : List ℕ) → Appends from added said out.old
        → Appends from result (said ++ bytes.now) out.new }
{
    added?;
    append(out, bytes)
}

// Carries out the records that are left, and adds a line for each. They are carried out also where
// a line could not be added.
fn put_records(out: &mut Vec<u8>, run: &mut Run<'_, MeasureName>) -> Result<(), AllocError>
    ensures lines { Appends out.old result (rest_lines (price_in run.old) (state run.old)) out.new }
    ensures tables { (state run.new).tables ≡ rest_tables (price_in run.old) (state run.old) }
    ensures fault { (state run.new).told ≡ rest_fault (state run.old) }
    ensures law { (history : List Event) → Lawful history (floor_of run.old)
        → Lawful (reverse (rest_events (price_in run.old) (state run.old)) ++ history)
        (floor_of run.new) }
    ensures same { measure_in run.new ≡ measure_in run.old }
{
    let mut buffer = [0; LEAST_BUFFER];
    let mut added = Ok(());
    while let Some(step) = run.step(&mut buffer).unwrap() {
        added = put(out, added, &buffer[..step.length]);
    }
    added
}

// Adds a line for each cell that stands. They are asked for by their place in the order, and a
// floor has at most 1,024.
fn put_cells(
    out: &mut Vec<u8>,
    mut added: Result<(), AllocError>,
    run: &Run<'_, MeasureName>,
) -> Result<(), AllocError>
    ensures { (from : Vec ℕ heap.Global) (said : List ℕ) → Appends from added said out.old
        → Appends from result (said ++ cell_lines (state run.now).tables.seats) out.new }
{
    let mut buffer = [0; LEAST_BUFFER];
    for k in 0..MOST_CELLS {
        match run.cell_line(k, &mut buffer) {
            Ok(length) => added = put(out, added, &buffer[..length]),
            Err(_) => return added,
        }
    }
    added
}

// Adds the line of what all standing cells cost.
fn put_cost(
    out: &mut Vec<u8>,
    added: Result<(), AllocError>,
    run: &Run<'_, MeasureName>,
) -> Result<(), AllocError>
    ensures { (from : Vec ℕ heap.Global) (said : List ℕ) → Appends from added said out.old
        → Appends from result
        (said ++ costs_text (price_in run.now) (state run.now).tables) out.new }
{
    let mut buffer = [0; LEAST_BUFFER];
    let length = run.cost_line(&mut buffer).unwrap();
    put(out, added, &buffer[..length])
}

/// What is left of a job that was carried out.
#[derive(Drop)]
pub struct CarriedOut {
    /// The floor that is left, or none where the job cannot be opened.
    pub floor: Option<Floor<MeasureName>>,
    /// The fault that ends the job: of its opening, or of a record that cannot be read.
    pub fault: Option<job::Fault>,
    /// Whether its lines were added.
    pub added: Result<(), AllocError>,
}

/// Carries out a whole job, and adds a line for each record, a line for each cell that stands then,
/// and one for what they cost; of a job that cannot be opened only the line that says so. All
/// records are carried out, also where a line could not be added for want of memory. The floor that
/// is left obeys the law.
pub fn carry_out(out: &mut Vec<u8>, bytes: &[u8]) -> CarriedOut
    ensures lines { Appends out.old result.added (job_text bytes.now) out.new }
    ensures fault { result.fault ≡ fault_of bytes.now }
    ensures law { AtEnd bytes.now out.old result.added out.new result.floor }
{
    match Job::open(bytes) {
        Ok(job) => {
            let mut run = Run::new(&job);
            let added = put_records(out, &mut run);
            let added = put_cells(out, added, &run);
            let added = put_cost(out, added, &run);
            let fault = run.fault();
            CarriedOut {
                floor: Some(run.into_floor()),
                fault,
                added,
            }
        }
        Err(unread) => CarriedOut {
            floor: None,
            fault: Some(unread),
            added: Fault::from(unread).line(unread.index, None).append_to(out),
        },
    }
}
