// The reader of a job's records, one after another.
ghost use Rattle.std.specs.Prelude.{◌≤◌, length};

use crate::cursor::Cursor;
use crate::mark::Mark;
use crate::record::{Fault, Record};

/// A job of which some records are read. It copies nothing, and is itself a small value.
#[derive(Clone, Copy)]
pub struct Reader<'a> {
    job: &'a [u8],
    mark: Mark,
    ghost small: { length job.now ≤ 65535 },
}

impl<'a> Reader<'a> {
    ghost use Rattle.std.specs.Prelude.{◌≡◌};
    ghost use Rattle.job.specs.Reading.{Advances, standing, at_start, answered, next_answer, next_standing};
    ghost use Rattle.job.specs.Records.{Takes};

    // The reader of a job's records, at the first of them.
    pub(crate) fn at_start(job: &'a [u8]) -> Reader<'a>
        requires { length job.now ≤ 65535 }
        ensures { standing result ≡ at_start job.now }
    {
        Reader {
            job,
            mark: Mark { place: 1, index: 0 },
        }
    }

    /// The index of the next record; the first has 0.
    pub fn index(&self) -> u16
        ensures { result ≡ (standing self.now).index }
    {
        self.mark.index
    }

    /// The place of the next record: of its first byte, or of the job's end.
    pub fn place(&self) -> u16
        ensures { result ≡ (standing self.now).place }
    {
        self.mark.place
    }

    /// The next record, or none where the job has ended. Of a record that cannot be read it answers
    /// the fault, with the record's index and the place of the byte, and then the reader stays.
    #[tactic(auto, using(crate::proofs::Advance::advances, crate::proofs::Records::takes))]
    pub fn next_record(&mut self) -> Result<Option<Record<'a>>, Fault>
        ensures answer { answered result ≡ next_answer (standing self.old) }
        ensures after { standing self.new ≡ next_standing (standing self.old) }
        ensures advances { Advances (standing self.old) (answered result) (standing self.new) }
        ensures takes { Takes (standing self.old) (answered result) (standing self.new) }
    {
        let Mark { place, index } = self.mark;
        if usize::from(place) >= self.job.len() {
            return Ok(None);
        }
        let mut cursor = Cursor {
            job: self.job,
            at: place,
        };
        match cursor.take_record() {
            Ok(record) => {
                self.mark = Mark {
                    place: cursor.at,
                    index: index + 1,
                };
                Ok(Some(record))
            }
            Err(flaw) => Err(flaw.of_record(index)),
        }
    }
}
