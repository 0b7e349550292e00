// A text that is written from left to right, up to the limit of its characters.

ghost use Rattle.std.specs.Prelude.{◌≡◌, ◌∷◌, [], length, IsTrue, nat_le};
ghost use Rattle.std.specs.Fmt.{signed_decimal};
ghost use Rattle.std.specs.Str.{chars};
ghost use Rattle.py_value.specs.Sequences.{most_items};
ghost use Rattle.py_builtins.specs.declared.writer.Stop.TheVariants.{NoMemory};
ghost use Rattle.py_builtins.specs.Writing.{whole};
ghost use Rattle.py_builtins.specs.Written.{IsWritten, separator, are_ascii};

use py_text::count_of;
use py_value::{Cause, MOST_ITEMS, Text};
use std::alloc::{AllocError, AllocFailed, Global};

/// Why no more is written.
#[derive(Drop)]
pub(crate) enum Stop {
    Raises(Cause),
    NoMemory,
}

impl From<AllocError> for Stop {
    ghost from_gives = { λ _ e. e ≡ NoMemory };

    fn from(_error: AllocError) -> Stop {
        Stop::NoMemory
    }
}

impl<T: Drop> From<AllocFailed<T>> for Stop {
    ghost from_gives = { λ _ e. e ≡ NoMemory };

    fn from(_error: AllocFailed<T>) -> Stop {
        Stop::NoMemory
    }
}

/// A text in the making, with the number of its characters.
#[derive(Drop)]
pub(crate) struct Writer {
    alloc: Global,
    text: Text,
    count: usize,
    ghost counted: { count ≡ length text },
    ghost within_limit: { IsTrue (nat_le (length text) most_items) },
}

impl Writer {
    pub(crate) fn new(alloc: Global) -> Writer
        ensures { result.text ≡ [] }
    {
        Writer {
            alloc,
            text: Text::new(alloc),
            count: 0,
        }
    }

    pub(crate) fn into_text(self) -> Text
        ensures text { result ≡ self.text }
        ensures within_limit { IsTrue (nat_le (length result) most_items) }
    {
        self.text
    }

    pub(crate) fn push(&mut self, c: char) -> Result<(), Stop>
        ensures { IsWritten result self.old.text self.new.text (whole (c ∷ [])) }
    {
        if self.count == MOST_ITEMS {
            return Err(Stop::Raises(Cause::TooManyItems));
        }
        self.text.push(c)?;
        self.count += 1;
        Ok(())
    }

    pub(crate) fn push_str(&mut self, s: &str) -> Result<(), Stop>
        ensures { IsWritten result self.old.text self.new.text (whole (chars s.now)) }
    {
        let count = self.count.saturating_add(count_of(s));
        if count > MOST_ITEMS {
            return Err(Stop::Raises(Cause::TooManyItems));
        }
        self.text.push_str(s)?;
        self.count = count;
        Ok(())
    }

    pub(crate) fn push_text(&mut self, text: &Text) -> Result<(), Stop>
        ensures { IsWritten result self.old.text self.new.text (whole text.now) }
    {
        let count = self.count.saturating_add(text.len());
        if count > MOST_ITEMS {
            return Err(Stop::Raises(Cause::TooManyItems));
        }
        self.text.append(text)?;
        self.count = count;
        Ok(())
    }

    pub(crate) fn push_word(&mut self, word: &str) -> Result<(), Stop>
        requires { IsTrue (are_ascii word.now) }
        ensures { IsWritten result self.old.text self.new.text (whole word.now) }
    {
        self.push_str(word)
    }

    pub(crate) fn push_number(&mut self, n: i64) -> Result<(), Stop>
        ensures { IsWritten result self.old.text self.new.text (whole (signed_decimal n)) }
    {
        let digits = format!(in self.alloc; "{n}")?;
        self.push_str(digits.as_str())
    }

    /// What stands in front of the item at a place.
    pub(crate) fn separate(&mut self, at: usize) -> Result<(), Stop>
        ensures { IsWritten result self.old.text self.new.text (whole (separator at)) }
    {
        if at == 0 {
            Ok(())
        } else {
            self.push_word(", ")
        }
    }
}
