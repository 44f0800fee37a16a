// Opening a job: what its length and its first byte say.
ghost use Rattle.std.specs.Prelude.{◌≡◌, Ok};
ghost use Rattle.job.specs.Opening.{opening};

use crate::check::check;
use crate::reader::Reader;
use crate::record::Fault;
use measure::MeasureName;

/// A job that is open: at most 65,535 bytes, the first of which names a measure.
#[derive(Clone, Copy)]
pub struct Job<'a> {
    bytes: &'a [u8],
    measure: MeasureName,
    ghost opens: { opening bytes.now ≡ Ok measure },
}

impl<'a> Job<'a> {
    ghost use Rattle.std.specs.Prelude.{IfErr, IfOk};
    ghost use Rattle.job.specs.Opened.{as_opened, opened};
    ghost use Rattle.job.specs.Opening.{open_answer};
    ghost use Rattle.job.specs.Reading.{at_start, standing};
    ghost use Rattle.job.specs.Records.{AllLeft, NoneLeft};

    /// Opens a job. Refuses, with index and place 0, one of more than 65,535 bytes (12), an empty
    /// one (15), and one whose first byte names no measure (19), in this order.
    #[tactic(auto, using(crate::proofs::Records::none_left))]
    pub fn open(bytes: &'a [u8]) -> Result<Job<'a>, Fault>
        ensures answer { opened result ≡ open_answer bytes.now }
        ensures same { IfOk result (λ job. (as_opened job).bytes ≡ bytes.now) }
        ensures refused { IfErr result (NoneLeft bytes.now) }
    {
        match check(bytes) {
            Ok(measure) => Ok(Job { bytes, measure }),
            Err(cause) => Err(Fault {
                cause,
                index: 0,
                place: 0,
            }),
        }
    }

    /// The measure that the job names.
    pub fn measure(&self) -> MeasureName
        ensures { result ≡ (as_opened self.now).measure }
    {
        self.measure
    }

    /// The reader of the job's records, at the first of them: all of them are left.
    #[tactic(auto, using(crate::proofs::Records::all_left))]
    pub fn reader(&self) -> Reader<'a>
        ensures start { standing result ≡ at_start (as_opened self.now).bytes }
        ensures all { AllLeft (as_opened self.now).bytes (standing result) }
    {
        Reader::at_start(self.bytes)
    }
}
