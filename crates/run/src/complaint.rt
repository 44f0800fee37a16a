// What a person is told of a job that cannot be read to its end.
ghost use Rattle.std.specs.Prelude.{Some, ◌≡◌};
ghost use Rattle.run.specs.Complaints.{complaint_about, complaint_text};

use job::Fault;
use std::error::Error;
use std::fmt;

/// Why a job cannot be read to its end, as it is said on standard error: one line that begins with
/// `legalize: `.
#[derive(Clone, Copy, PartialEq, Eq, Debug)]
pub enum Complaint {
    /// The job has no bytes.
    NoJob,
    /// The job cannot be opened, or a record cannot be read.
    Unread(Fault),
}

impl Complaint {
    /// What is said of a job that a fault ends.
    pub(crate) fn about(job: &[u8], fault: Fault) -> Complaint
        ensures { result ≡ complaint_about job.now fault }
    {
        if job.is_empty() {
            Complaint::NoJob
        } else {
            Complaint::Unread(fault)
        }
    }
}

// A job's first byte is in no record, so a fault at place 0 is one of its opening.
impl fmt::Display for Complaint {
    ghost output = { λ complaint. Some (complaint_text complaint) };

    fn fmt<W: fmt::Write>(&self, f: &mut fmt::Formatter<W>) -> fmt::Result {
        match *self {
            Complaint::NoJob => f.write_str(
                "legalize: standard input is empty. A job in the binary format is expected there, as in: legalize < tile.job",
            ),
            Complaint::Unread(
                Fault {
                    cause,
                    place: 0,
                    ..
                },
            ) => write!(f, "legalize: the job cannot be opened: {cause}"),
            Complaint::Unread(
                Fault {
                    cause,
                    index,
                    place,
                },
            ) => write!(
                f,
                "legalize: the job cannot be read on from record {index}, byte {place}: {cause}"
            ),
        }
    }
}

impl Error for Complaint {}
