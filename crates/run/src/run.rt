// A run: a job that is carried out on a floor, one record after another.
ghost use Rattle.std.specs.Prelude.{◌≡◌, ◌≤◌, [], IfOk, IfSome, OnOk};
ghost use Rattle.std.specs.Option.{option_map};
ghost use Rattle.floor.specs.State.{tables_of};
ghost use Rattle.floor.specs.Tables.{no_tables};
ghost use Rattle.history.specs.Lawful.{Lawful};
ghost use Rattle.job.specs.Opened.{as_opened};
ghost use Rattle.run.specs.Parts.{as_said, said_of};
ghost use Rattle.run.specs.State.{floor_of, measure_in, price_in, state};
ghost use Rattle.run.specs.Started.{started};
ghost use Rattle.run.specs.Steps.{ExtendsHistory, state_left, step_answer, step_buffer, step_state};
ghost use Rattle.run.specs.Turns.{turn};

use crate::fault::Fault;
use floor::Floor;
use job::{Job, MeasureName, Reader};
use lines::{LEAST_BUFFER, Line, ShortBuffer};
use measure::Measure;

mod looks;
mod record;

pub use looks::NoLine;

/// A job's reader, the floor on which its records are carried out, and the fault that ended the
/// job, if one did.
#[derive(Drop)]
pub struct Run<'a, M: Measure> {
    reader: Reader<'a>,
    floor: Floor<M>,
    fault: Option<job::Fault>,
}

// The line of a record, and the run's fault if there was one. `Step` has only the length of this
// line: one type for both would need a parameter for its first field.
#[derive(Clone, Copy)]
pub(crate) struct Said<'a> {
    pub(crate) line: Line<'a>,
    pub(crate) fault: Option<Fault>,
}

/// What a step answers: the length of its line, at most 320, and the run's fault if there was one.
#[derive(Clone, Copy, PartialEq, Eq, Debug)]
pub struct Step {
    pub length: usize,
    pub fault: Option<Fault>,
}

impl<'a> Run<'a, MeasureName> {
    /// A run that has read nothing of a job, on an empty floor with the measure that the job names.
    pub fn new(job: &Job<'a>) -> Run<'a, MeasureName>
        ensures state { state result ≡ started (as_opened job.now).bytes no_tables }
        ensures measure { measure_in result ≡ (as_opened job.now).measure }
        ensures law { Lawful [] (floor_of result) }
    {
        Run::on(job, history::begin(job.measure()))
    }
}

impl<'a, M: Measure> Run<'a, M> {
    /// A run that has read nothing of a job, on a floor with any measure: the job's is not looked
    /// at.
    pub fn on(job: &Job<'a>, floor: Floor<M>) -> Run<'a, M>
        ensures state { state result ≡ started (as_opened job.now).bytes (tables_of floor) }
        ensures same { floor_of result ≡ floor }
    {
        Run {
            reader: job.reader(),
            floor,
            fault: None,
        }
    }

    /// The floor, as the run leaves it.
    pub fn into_floor(self) -> Floor<M>
        ensures { result ≡ floor_of self.entry }
    {
        self.floor
    }

    // Reads the next record and carries it out; answers what is said of it, or none where nothing
    // is left.
    fn turn(&mut self) -> Option<Said<'a>>
        ensures said { option_map as_said result
            ≡ option_map said_of (turn (price_in self.old) (state self.old)) }
        ensures after { state self.new
            ≡ state_left (state self.old) (turn (price_in self.old) (state self.old)) }
        ensures same { measure_in self.new ≡ measure_in self.old }
        ensures law { ExtendsHistory self.old self.new }
    {
        if self.fault.is_some() {
            return None;
        }
        let index = self.reader.index();
        match self.reader.next_record() {
            Ok(None) => None,
            Ok(Some(found)) => Some(self.carry_out_record(index, found)),
            Err(fault) => {
                self.fault = Some(fault);
                Some(Said::of_fault(fault.into(), index, None))
            }
        }
    }

    /// Carries out the next record and writes its line; answers the line's length and the run's
    /// fault if there was one, or none where nothing is left: at the job's end, and after a record
    /// that cannot be read. A buffer of fewer than 320 bytes is refused (20), and then nothing
    /// changes; the buffer past the line stays.
    ///
    /// Whatever history the floor has, it then has that history with what came of the record's
    /// call.
    pub fn step(&mut self, buffer: &mut [u8]) -> Result<Option<Step>, ShortBuffer>
        ensures answer { result ≡ step_answer (price_in self.old) (state self.old) buffer.old }
        ensures after { state self.new
            ≡ step_state (price_in self.old) (state self.old) buffer.old }
        ensures line { buffer.new
            ≡ step_buffer (price_in self.old) (state self.old) buffer.old }
        ensures same { measure_in self.new ≡ measure_in self.old }
        ensures fits { IfOk result (λ step. IfSome step (λ s. s.length ≤ 320)) }
        ensures law { OnOk result (ExtendsHistory self.old self.new) }
    {
        if buffer.len() < LEAST_BUFFER {
            return Err(ShortBuffer);
        }
        let Some(Said { line, fault }) = self.turn() else {
            return Ok(None);
        };
        let length = line.write(buffer)?;
        Ok(Some(Step { length, fault }))
    }
}
