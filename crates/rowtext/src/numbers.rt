//! How a word is read as a number.
ghost use Rattle.std.specs.Prelude.{◌≡◌, ◌<◌, length};
ghost use Rattle.std.specs.Str.{all_ascii_digits};
ghost use Rattle.rowtext.specs.Numbers.{number_of};

use crate::trouble::Reason;

// Whether the bytes of a word are digits alone.
fn is_decimal(word: &[u8]) -> bool
    ensures { result ≡ all_ascii_digits word.now }
{
    word.iter().all(u8::is_ascii_digit)
}

// The number that a word, which is never empty, writes, where it is one and fits.
pub(crate) fn number(word: &[u8]) -> Result<u32, Reason>
    requires { 0 < length word.now }
    ensures { result ≡ number_of word.now }
{
    match str::from_utf8(word) {
        Ok(digits) if is_decimal(word) => { digits.parse::<u32>().map_err(|_| Reason::TooLarge) }
        _ => Err(Reason::NotNumber),
    }
}
