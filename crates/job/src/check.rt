// What a job's length and its first byte say.
ghost use Rattle.std.specs.Prelude.{◌≡◌};
ghost use Rattle.job.specs.Opening.{opening};

use crate::record::Cause;
use measure::MeasureName;

// The measure that a job names, or why the job is refused.
pub(crate) fn check(bytes: &[u8]) -> Result<MeasureName, Cause>
    ensures answer { result ≡ opening bytes.now }
{
    if bytes.len() > 65_535 {
        return Err(Cause::TooLong);
    }
    let first = bytes.first().ok_or(Cause::EndsEarly)?;
    Ok(MeasureName::try_from(*first)?)
}
