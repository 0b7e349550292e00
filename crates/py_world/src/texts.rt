// Names written in the code.
ghost use Rattle.std.specs.Prelude.{◌≡◌, codes};
ghost use Rattle.std.specs.Str.{chars};
ghost use Rattle.py_text.specs.Comparison.{is_same_text};

use py_value::Text;

/// Whether a text has these characters.
pub fn is_text(text: &Text, characters: &str) -> bool
    ensures { result ≡ is_same_text text.now (chars characters.now) }
{
    text.as_str() == characters
}

pub fn is_sys(text: &Text) -> bool
    ensures { result ≡ is_same_text text.now (codes "sys") }
{
    is_text(text, "sys")
}

pub fn is_argv(text: &Text) -> bool
    ensures { result ≡ is_same_text text.now (codes "argv") }
{
    is_text(text, "argv")
}

pub fn is_exit(text: &Text) -> bool
    ensures { result ≡ is_same_text text.now (codes "exit") }
{
    is_text(text, "exit")
}
