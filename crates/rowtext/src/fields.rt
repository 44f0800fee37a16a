//! What a line says behind its first word, word after word.
ghost use Rattle.std.specs.Prelude.{◌≡◌};
ghost use Rattle.rowtext.specs.Fields.{Behind, Takes, left, ended};
ghost use Rattle.rowtext.specs.Forms.{name_of};
ghost use Rattle.rowtext.specs.Numbers.{numbers_of};

use crate::numbers::number;
use crate::parts::Words;
use crate::trouble::{Form, Reason};

impl Form {
    // The first word of a line of this form.
    fn name(self) -> &'static [u8]
        ensures { result.now ≡ name_of self }
    {
        match self {
            Form::Measure => b"measure",
            Form::Row => b"row",
            Form::Cell => b"cell",
        }
    }
}

// The words that are left of a line of this form.
#[derive(Drop)]
pub(crate) struct Fields<'a> {
    form: Form,
    words: Words<'a>,
}

impl<'a> Fields<'a> {
    // The words behind the first one, which is to be the form's name.
    pub(crate) fn open(form: Form, line: &'a [u8]) -> Result<Fields<'a>, Reason>
        ensures { Behind form line.now result }
    {
        let mut words = Words::of(line);
        match words.next() {
            Some(word) if word == form.name() => Ok(Fields { form, words }),
            _ => Err(Reason::Expected(form)),
        }
    }

    // The next word, which is to be there.
    pub(crate) fn word(&mut self) -> Result<&'a [u8], Reason>
        ensures form { self.new.form ≡ self.old.form }
        ensures word { Takes self.old self.new result }
    {
        self.words.next().ok_or(Reason::TooFewWords(self.form))
    }

    // Refuses a word more.
    pub(crate) fn end(mut self) -> Result<(), Reason>
        ensures { result ≡ ended self.entry.form (left self.entry) }
    {
        match self.words.next() {
            None => Ok(()),
            Some(_) => Err(Reason::TooManyWords(self.form)),
        }
    }

    // The words as numbers, of which there are to be `N`.
    pub(crate) fn numbers<const N: usize>(mut self) -> Result<[u32; N], Reason>
        ensures { result ≡ numbers_of self.entry.form N (left self.entry) }
    {
        let mut values = [0; N];
        for value in values.iter_mut() {
            *value = number(self.word()?)?;
        }
        self.end()?;
        Ok(values)
    }
}
