// Whole jobs: whether one can be read to its end.
ghost use Rattle.std.specs.Prelude.{◌≡◌};
ghost use Rattle.std.specs.Result.{result_err};
ghost use Rattle.job.specs.Records.{fault_of};

use crate::opening::Job;
use crate::record::Fault;

/// Reads a job to its end: nothing where every record can be read, or the fault that ends it.
pub fn read_through(bytes: &[u8]) -> Result<(), Fault>
    ensures { result_err result ≡ fault_of bytes.now }
{
    let mut reader = Job::open(bytes)?.reader();
    while reader.next_record()?.is_some() {}
    Ok(())
}
