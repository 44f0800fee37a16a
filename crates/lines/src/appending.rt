// Adding bytes to a growing buffer.
ghost use Rattle.lines.specs.Appended.{Appends};

use std::alloc::AllocError;

/// Adds bytes at the end of a buffer. It fails only where the buffer has no room and gets no more
/// memory, and then the buffer stays.
pub fn append(out: &mut Vec<u8>, bytes: &[u8]) -> Result<(), AllocError>
    ensures { Appends out.old result bytes.now out.new }
{
    out.extend_from_slice(bytes)
}
