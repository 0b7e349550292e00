// Operators and delimiters.

ghost use Rattle.std.specs.Prelude.{◌≡◌};
ghost use Rattle.py_token.specs.Marks.{mark_of_three, mark_with_equal, mark_of_two, mark_of_one, mark_at};

use crate::characters::split_first;
use crate::token::Mark;

fn mark_of_three(c: char, d: char, e: char) -> Option<Mark>
    ensures { result ≡ mark_of_three c d e }
{
    if c == '/' && d == '/' && e == '=' {
        return Some(Mark::DoubleSlashEqual);
    }
    None
}

/// The mark that a character spells with an equals sign after it.
fn mark_with_equal(c: char) -> Option<Mark>
    ensures { result ≡ mark_with_equal c }
{
    match c {
        '=' => Some(Mark::EqualEqual),
        '!' => Some(Mark::NotEqual),
        '<' => Some(Mark::LessEqual),
        '>' => Some(Mark::GreaterEqual),
        '+' => Some(Mark::PlusEqual),
        '-' => Some(Mark::MinusEqual),
        '*' => Some(Mark::StarEqual),
        '%' => Some(Mark::PercentEqual),
        _ => None,
    }
}

fn mark_of_two(c: char, d: char) -> Option<Mark>
    ensures { result ≡ mark_of_two c d }
{
    if d == '=' {
        return mark_with_equal(c);
    }
    if c == '/' && d == '/' {
        return Some(Mark::DoubleSlash);
    }
    None
}

fn mark_of_one(c: char) -> Option<Mark>
    ensures { result ≡ mark_of_one c }
{
    match c {
        '+' => Some(Mark::Plus),
        '-' => Some(Mark::Minus),
        '*' => Some(Mark::Star),
        '%' => Some(Mark::Percent),
        '<' => Some(Mark::Less),
        '>' => Some(Mark::Greater),
        '=' => Some(Mark::Equal),
        '(' => Some(Mark::LeftParen),
        ')' => Some(Mark::RightParen),
        '[' => Some(Mark::LeftBracket),
        ']' => Some(Mark::RightBracket),
        '{' => Some(Mark::LeftBrace),
        '}' => Some(Mark::RightBrace),
        ',' => Some(Mark::Comma),
        ':' => Some(Mark::Colon),
        '.' => Some(Mark::Dot),
        ';' => Some(Mark::Semicolon),
        '|' => Some(Mark::Bar),
        _ => None,
    }
}

/// The longest mark at the front, and how many of its characters stand after the first.
#[tactic(auto, unfolding(crate::specs::Marks::mark_at))]
pub fn mark_at(c: char, after: &[char]) -> Option<(Mark, usize)>
    ensures { result ≡ mark_at c after.now }
{
    if let Some((d, others)) = split_first(after) {
        if let Some((e, _)) = split_first(others) {
            if let Some(mark) = mark_of_three(c, d, e) {
                return Some((mark, 2));
            }
        }
        if let Some(mark) = mark_of_two(c, d) {
            return Some((mark, 1));
        }
    }
    match mark_of_one(c) {
        Some(mark) => Some((mark, 0)),
        None => None,
    }
}
