// Displays of texts: in marks, with escapes.

ghost use Rattle.std.specs.Prelude.{◌/◌, ◌%◌, ◌∷◌, []};
ghost use Rattle.std.specs.Str.{chars};
ghost use Rattle.py_builtins.specs.Displays.{escaped, all_escaped, hex_digit, quoted};
ghost use Rattle.py_builtins.specs.Writing.{whole};
ghost use Rattle.py_builtins.specs.Written.{IsWritten};

use crate::marks::{hex_digit, is_plain, mark_of};
use crate::writer::{Stop, Writer};
use py_value::Text;

impl Writer {
    fn push_after_backslash(&mut self, c: char) -> Result<(), Stop>
        ensures { IsWritten result self.old.text self.new.text (whole (92 ∷ c ∷ [])) }
    {
        self.push('\\')?;
        self.push(c)
    }

    fn push_hexadecimal(&mut self, code: u8) -> Result<(), Stop>
        ensures { IsWritten result self.old.text self.new.text
            (whole (92 ∷ 120 ∷ hex_digit (code / 16) ∷ hex_digit (code % 16) ∷ [])) }
    {
        self.push_after_backslash('x')?;
        self.push(hex_digit(code / 16))?;
        self.push(hex_digit(code % 16))
    }

    fn push_escaped(&mut self, mark: char, c: char) -> Result<(), Stop>
        ensures { IsWritten result self.old.text self.new.text (whole (escaped mark c)) }
    {
        if c == '\\' || c == mark {
            self.push_after_backslash(c)
        } else if c == '\n' {
            self.push_after_backslash('n')
        } else if c == '\r' {
            self.push_after_backslash('r')
        } else if c == '\t' {
            self.push_after_backslash('t')
        } else if c < ' ' || c == '\u{7f}' {
            self.push_hexadecimal(c as u8)
        } else {
            self.push(c)
        }
    }

    fn push_all_escaped(&mut self, mark: char, text: &str) -> Result<(), Stop>
        ensures { IsWritten result self.old.text self.new.text
            (whole (all_escaped mark (chars text.now))) }
    {
        for c in text.chars() {
            self.push_escaped(mark, c)?;
        }
        Ok(())
    }

    /// A text between its marks, at once where no character of it is escaped.
    fn push_between(&mut self, mark: char, text: &Text) -> Result<(), Stop>
        ensures { IsWritten result self.old.text self.new.text (whole (all_escaped mark text.now)) }
    {
        if is_plain(mark, text.as_str()) {
            self.push_text(text)
        } else {
            self.push_all_escaped(mark, text.as_str())
        }
    }

    /// The display of a text.
    pub(crate) fn push_quoted(&mut self, text: &Text) -> Result<(), Stop>
        ensures { IsWritten result self.old.text self.new.text (whole (quoted text.now)) }
    {
        let mark = mark_of(text.as_str());
        self.push(mark)?;
        self.push_between(mark, text)?;
        self.push(mark)
    }
}
