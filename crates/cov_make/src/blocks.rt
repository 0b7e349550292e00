//! The blocks of a source.
ghost use Rattle.std.specs.Prelude.{◌≡◌, ℕ, [], ◌+◌, ◌*◌, ◌/◌, ◌%◌, ◌<◌, ◌^◌, ◌++◌, ◌∷◌, string_bytes, OnOk};
ghost use Rattle.cov_make.specs.Source.{drawn, form_of, digit_of, block};

use crate::NoMemory;
use crate::draws::drawn;

#[derive(Clone, Copy)]
pub(crate) enum Form {
    If,
    For,
    Try,
    While,
}

impl Form {
    /// The text in front of the digit, and the text after it.
    fn texts(self) -> (&'static str, &'static str)
        ensures { (k : ℕ) → block self k ≡ result.0.now ++ k ∷ [] ++ result.1.now }
    {
        match self {
            Form::If => ("if t % 3 == ", ":\n    t = t + 1\nelse:\n    t = t + 2\n"),
            Form::For => ("for i in range(", "):\n    t = t + i\n"),
            Form::Try => (
                "try:\n    t = t // ",
                "\nexcept ZeroDivisionError:\n    t = t + 5\n",
            ),
            Form::While => ("while t > ", " * 10:\n    t = t - 7\n"),
        }
    }
}

fn form_of(q: u64) -> Form
    ensures { result ≡ form_of q }
{
    match q % 4 {
        0 => Form::If,
        1 => Form::For,
        2 => Form::Try,
        _ => Form::While,
    }
}

/// `0` to `6`.
fn digit_of(q: u64) -> char
    ensures { result ≡ digit_of q }
{
    char::from(b'0' + (q / 4 % 7) as u8)
}

/// Appends the block that is drawn with this number.
pub(crate) fn push_block(text: &mut String, number: u64) -> Result<(), NoMemory>
    ensures { let q = drawn number in OnOk result
        (string_bytes text.new ≡ string_bytes text.old ++ block (form_of q) (digit_of q)) }
{
    let q = drawn(number);
    let (front, back) = form_of(q).texts();
    text.push_str(front)?;
    text.push(digit_of(q))?;
    text.push_str(back)
}
