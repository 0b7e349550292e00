// The marks and the escapes in the display of a text.

ghost use Rattle.std.specs.Prelude.{◌≡◌, ◌<◌, IsTrue};
ghost use Rattle.std.specs.Str.{chars};
ghost use Rattle.py_builtins.specs.Displays.{has, mark_of, all_escaped, hex_digit};

/// Whether a text has a character.
fn has(text: &str, wanted: char) -> bool
    ensures { result ≡ has wanted (chars text.now) }
{
    for c in text.chars() {
        if wanted == c {
            return true;
        }
    }
    false
}

/// Whether each character of a text stands as it is between these marks.
pub(crate) fn is_plain(mark: char, text: &str) -> bool
    ensures { IsTrue result → all_escaped mark (chars text.now) ≡ chars text.now }
{
    for c in text.chars() {
        if c == '\\' || c == mark || c < ' ' || c == '\u{7f}' {
            return false;
        }
    }
    true
}

/// The mark in which the display of a text stands.
pub(crate) fn mark_of(text: &str) -> char
    ensures { result ≡ mark_of (chars text.now) }
{
    if has(text, '\'') && !has(text, '"') {
        '"'
    } else {
        '\''
    }
}

/// A digit from `0` to `f`.
pub(crate) fn hex_digit(digit: u8) -> char
    requires { digit < 16 }
    ensures { result ≡ hex_digit digit }
{
    if digit < 10 {
        (b'0' + digit) as char
    } else {
        (b'a' + (digit - 10)) as char
    }
}
