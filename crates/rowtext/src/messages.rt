//! What is said of a text that has no answer, in a buffer of fixed size: saying it takes no memory.
ghost use Rattle.std.specs.Prelude.{◌≡◌, ◌+◌, ◌≤◌, ◌++◌, Some, length};
ghost use Rattle.arrayvec.specs.ArrayString.{array_string_len};
ghost use Rattle.rowtext.specs.Messages.{usage, message, complaint};

use crate::trouble::{Form, Reason, Trouble, Unreadable};
use arrayvec::ArrayString;
use itoa::Buffer;
use std::error::Error;
use std::fmt;

impl Form {
    // How a line of this form reads.
    fn usage(self) -> &'static str
        ensures text { result.now ≡ usage self }
        ensures short { length result.now ≤ 36 }
    {
        match self {
            Form::Measure => "`measure squared` or `measure plain`",
            Form::Row => "`row LINE LEFT RIGHT`",
            Form::Cell => "`cell NUMBER SITE LINE WIDTH WEIGHT`",
        }
    }
}

// Puts some words and how a line of this form reads.
fn put_usage(text: &mut ArrayString<128>, words: &str, form: Form)
    requires { array_string_len text.old + length words.now ≤ 92 }
    ensures text { text.new.bytes ≡ text.old.bytes ++ (words.now ++ usage form) }
    ensures short { array_string_len text.new
        ≤ array_string_len text.old + length words.now + 36 }
{
    text.push_str(words);
    text.push_str(form.usage());
}

impl Reason {
    // Puts why a line cannot be read.
    fn put(self, text: &mut ArrayString<128>)
        requires { array_string_len text.old ≤ 70 }
        ensures text { text.new.bytes ≡ text.old.bytes ++ message self }
        ensures short { array_string_len text.new ≤ array_string_len text.old + 58 }
    {
        match self {
            Reason::Missing(form) => put_usage(text, "the input ends before ", form),
            Reason::Expected(form) => put_usage(text, "expected ", form),
            Reason::TooFewWords(form) => put_usage(text, "too few words for ", form),
            Reason::TooManyWords(form) => put_usage(text, "too many words for ", form),
            Reason::NoSuchMeasure => text.push_str("a measure is `squared` or `plain`"),
            Reason::NotNumber => text.push_str("a number is written in decimal digits alone"),
            Reason::TooLarge => text.push_str("a number is at most 4294967295"),
        }
    }
}

impl Trouble {
    /// What is said of it: one sentence, with no line end.
    pub fn complaint(self) -> ArrayString<128>
        ensures text { result.bytes ≡ complaint self }
        ensures short { array_string_len result ≤ 127 }
    {
        let mut text = ArrayString::new();
        match self {
            Trouble::Unreadable(Unreadable { line, reason }) => {
                text.push_str("line ");
                text.push_str(Buffer::new().format(line));
                text.push_str(": ");
                reason.put(&mut text);
            }
            Trouble::TooLong => text.push_str("the input is longer than 1048576 bytes"),
            Trouble::NoMemory => text.push_str("no memory for the row"),
            Trouble::NotRead => text.push_str("the input cannot be read"),
            Trouble::NotWritten => text.push_str("the answer cannot be written"),
        }
        text
    }
}

/// Its complaint.
impl fmt::Display for Trouble {
    ghost output = { λ why. Some (complaint why) };

    fn fmt<W: fmt::Write>(&self, f: &mut fmt::Formatter<W>) -> fmt::Result {
        f.write_str(self.complaint().as_str())
    }
}

impl Error for Trouble {}
