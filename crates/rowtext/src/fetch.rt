//! How a text is fetched from where it comes from.
ghost use Rattle.std.specs.Prelude.{vec_capacity};
ghost use Rattle.rowtext.specs.Fetching.{FetchedText};

use crate::trouble::Trouble;
use crate::{CHUNK_BYTES, MOST_BYTES};
use streams::{Source, fetch};

// Fetches a whole text into the buffer, or as much as shows that it is longer than a text may be.
pub(crate) fn fetch_text<R: Source>(input: &mut R, text: &mut Vec<u8>) -> Result<(), Trouble>
    ensures { FetchedText (R.remaining input.old) (R.remaining input.new) (R.failed input.new)
        (vec_capacity text.old) text.new.items result }
{
    text.clear();
    let mut chunk = [0; CHUNK_BYTES];
    loop {
        let count = fetch(input, &mut chunk)?;
        text.extend_from_slice(&chunk[..count])?;
        if text.len() > MOST_BYTES {
            return Err(Trouble::TooLong);
        }
        if count < CHUNK_BYTES {
            return Ok(());
        }
    }
}
