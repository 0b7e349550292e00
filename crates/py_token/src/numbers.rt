// Whole numbers.

ghost use Rattle.std.specs.Prelude.{◌≡◌, ◌≤◌, ◌<◌, ◌+◌, ◌*◌, min, length, IfSome};
ghost use Rattle.std.specs.List.{prefix_len};
ghost use Rattle.std.specs.Char.{digit_value};
ghost use Rattle.py_token.specs.Answers.{Gives};
ghost use Rattle.py_token.specs.View.{view_kind};
ghost use Rattle.py_token.specs.Capped.{capped, decimal_text};
ghost use Rattle.py_token.specs.Numbers.{in_number, is_digit_of, begins_digit, is_digit_here, are_digits, digits_value, prefixed, base_named, number_text, kind_of_number};

use crate::characters::split_first;
use crate::error::TokenError;
use crate::token::TokenKind;
use crate::words::in_name;

/// One above the greatest number.
const LIMIT: u64 = 9_223_372_036_854_775_808;

fn in_number(c: char) -> bool
    ensures { result ≡ in_number c }
{
    in_name(c) || c == '.'
}

/// How many characters at the front go on with a number.
pub fn number_len(chars: &[char]) -> usize
    ensures { result ≡ prefix_len in_number chars.now }
{
    chars.iter().take_while(|c| in_number(**c)).count()
}

fn digit_value(c: char) -> u32
    ensures { result ≡ digit_value c }
{
    match c {
        '0'..='9' => c as u32 - '0' as u32,
        'A'..='Z' => c as u32 - 'A' as u32 + 10,
        'a'..='z' => c as u32 - 'a' as u32 + 10,
        _ => 36,
    }
}

pub fn is_digit_of(base: u32, c: char) -> bool
    ensures { result ≡ is_digit_of base c }
{
    digit_value(c) < base
}

fn begins_digit(base: u32, chars: &[char]) -> bool
    ensures { result ≡ begins_digit base chars.now }
{
    match split_first(chars) {
        Some((c, _)) => is_digit_of(base, c),
        None => false,
    }
}

fn is_digit_here(base: u32, c: char, after: &[char]) -> bool
    ensures { result ≡ is_digit_here base c after.now }
{
    if c == '_' {
        return begins_digit(base, after);
    }
    is_digit_of(base, c)
}

#[tactic(auto, unfolding(crate::specs::Numbers::are_digits))]
fn are_digits(base: u32, chars: &[char]) -> bool
    ensures { result ≡ are_digits base chars.now }
{
    let mut rest = chars;
    'digits: while let Some((c, after)) = split_first(rest) {
        if !is_digit_here(base, c, after) {
            return false;
        }
        rest = after;
    }
    true
}

/// The value of digits, or the least number that is too large.
#[tactic(auto, unfolding(crate::specs::Numbers::digits_value))]
pub fn digits_value(base: u32, chars: &[char]) -> u64
    requires { 2 ≤ base }
    ensures { result ≡ min (digits_value base 0 chars.now) LIMIT }
{
    let mut value: u64 = 0;
    let mut rest = chars;
    'digits: while let Some((c, after)) = split_first(rest) {
        if c != '_' {
            value = more_value(base, value, c);
        }
        rest = after;
    }
    value
}

/// One digit more.
fn more_value(base: u32, value: u64, c: char) -> u64
    ensures { result ≡ min (value * base + digit_value c) LIMIT }
{
    let digit = digit_value(c) as u64;
    value
        .saturating_mul(base as u64)
        .saturating_add(digit)
        .min(LIMIT)
}

/// The number that digits after a prefix spell.
fn prefixed(base: u32, chars: &[char]) -> Option<u64>
    requires { 2 ≤ base }
    ensures { result ≡ capped (prefixed base chars.now) }
{
    if chars.is_empty() || !are_digits(base, chars) {
        return None;
    }
    Some(digits_value(base, chars))
}

/// The number that decimal digits spell: one that begins with 0 has only zeros.
fn decimal(chars: &[char]) -> Option<u64>
    requires { 0 < length chars.now }
    ensures { result ≡ capped (decimal_text chars.now) }
{
    if !are_digits(10, chars) {
        return None;
    }
    let value = digits_value(10, chars);
    if chars[0] == '0' && value != 0 {
        return None;
    }
    Some(value)
}

/// The base that a letter after a 0 names.
fn base_named(c: char) -> Option<u32>
    ensures named { result ≡ base_named c }
    ensures least { IfSome result (λ base. 2 ≤ base) }
{
    match c {
        'x' | 'X' => Some(16),
        'o' | 'O' => Some(8),
        'b' | 'B' => Some(2),
        _ => None,
    }
}

/// The number that a word with a digit at its front spells, or the least number that is too large.
fn number_of(word: &[char]) -> Option<u64>
    requires { 0 < length word.now }
    ensures { result ≡ capped (number_text word.now) }
{
    if let Some((zero, letters)) = split_first(word) {
        if let Some((letter, digits)) = split_first(letters) {
            if zero == '0' {
                if let Some(base) = base_named(letter) {
                    return prefixed(base, digits);
                }
            }
        }
    }
    decimal(word)
}

/// The kind of a number's token.
pub fn number_kind(word: &[char], line: u32) -> Result<TokenKind, TokenError>
    requires { 0 < length word.now }
    ensures { Gives view_kind result (kind_of_number line (number_text word.now)) }
{
    match number_of(word) {
        None => Err(TokenError::BadCharacter(line)),
        Some(value) => {
            if value < LIMIT {
                return Ok(TokenKind::Int(value as i64));
            }
            Err(TokenError::WideNumber(line))
        }
    }
}
