// `int`: whole numbers in texts.

ghost use Rattle.std.specs.Prelude.{◌≡◌, IfOk};
ghost use Rattle.py_value.specs.View.{plain, plains};
ghost use Rattle.py_value.specs.HeapView.{plain_heap};
ghost use Rattle.py_value.specs.Numbers.{number_of, exact};
ghost use Rattle.py_builtins.specs.Answering.{Answers};
ghost use Rattle.py_builtins.specs.Builtins.{number_in, int_of, is_blank, are_blanks, is_digit, digits_then_blanks, unsigned, negated, with_sign, signed, without_blanks};
ghost use Rattle.py_builtins.specs.Calls.{capped};

use crate::arguments::only;
use crate::char_lists::characters_of;
use crate::raising::raise;
use py_value::{Cause, Heap, NoMemory, Raised, Value};
use std::alloc::Global;

/// `int(x)`.
pub(crate) fn int(
    alloc: Global,
    args: &[Value],
    heap: &Heap,
) -> Result<Result<Value, Raised>, NoMemory>
    ensures { Answers result heap.now (int_of (plains args.now) (plain_heap heap.now)) }
{
    match only(args) {
        None => raise(alloc, Cause::WrongArgumentCount),
        Some(value) => match number_in(alloc, value)? {
            Ok(n) => Ok(Ok(Value::Int(n))),
            Err(cause) => raise(alloc, cause),
        },
    }
}

/// The number that a value counts as, or that its text writes.
fn number_in(alloc: Global, value: &Value) -> Result<Result<i64, Cause>, NoMemory>
    ensures { IfOk result (λ number.
        number ≡ number_in (plain value.now) (number_of (plain value.now))) }
{
    if let Some(n) = value.number() {
        return Ok(Ok(n));
    }
    match value {
        Value::Str(text) => {
            let characters = characters_of(alloc, text)?;
            Ok(signed(without_blanks(&characters)))
        }
        _ => Ok(Err(Cause::BadArgument)),
    }
}

/// The characters after the blanks at the front.
fn without_blanks(characters: &[char]) -> &[char]
    ensures { result.now ≡ without_blanks characters.now }
{
    for i in 0..characters.len() {
        if !is_blank(characters[i]) {
            return &characters[i..];
        }
    }
    &[]
}

/// A number with or without a sign.
fn signed(characters: &[char]) -> Result<i64, Cause>
    ensures { result ≡ signed characters.now }
{
    if characters.is_empty() {
        return Err(Cause::InvalidLiteral);
    }
    if characters[0] == '-' {
        with_sign(true, unsigned(&characters[1..]))
    } else if characters[0] == '+' {
        with_sign(false, unsigned(&characters[1..]))
    } else {
        with_sign(false, unsigned(characters))
    }
}

/// The number of these digits, or the greatest of 64 bits where they write a greater one.
fn unsigned(characters: &[char]) -> Option<u64>
    ensures { result ≡ capped (unsigned characters.now) }
{
    if characters.is_empty() || !is_digit(characters[0]) {
        return None;
    }
    digits_then_blanks(characters)
}

fn digits_then_blanks(characters: &[char]) -> Option<u64>
    ensures { result ≡ capped (digits_then_blanks 0 characters.now) }
{
    let mut number = 0u64;
    for i in 0..characters.len() {
        let c = characters[i];
        if !is_digit(c) {
            return if are_blanks(&characters[i..]) {
                Some(number)
            } else {
                None
            };
        }
        let digit = u64::from(u32::from(c) - 48);
        number = number.saturating_mul(10).saturating_add(digit);
    }
    Some(number)
}

fn with_sign(negative: bool, number: Option<u64>) -> Result<i64, Cause>
    ensures { result ≡ with_sign negative number }
{
    let Some(number) = number else {
        return Err(Cause::InvalidLiteral);
    };
    if negative {
        negated(number)
    } else if number <= i64::MAX as u64 {
        Ok(number as i64)
    } else {
        Err(Cause::IntegerTooLarge)
    }
}

fn negated(number: u64) -> Result<i64, Cause>
    ensures { result ≡ exact (negated number) }
{
    if number == 0 {
        Ok(0)
    } else if number - 1 <= i64::MAX as u64 {
        Ok(-1 - (number - 1) as i64)
    } else {
        Err(Cause::IntegerTooLarge)
    }
}

fn are_blanks(characters: &[char]) -> bool
    ensures { result ≡ are_blanks characters.now }
{
    for c in characters {
        if !is_blank(*c) {
            return false;
        }
    }
    true
}

/// Blanks are the space and the tab.
fn is_blank(c: char) -> bool
    ensures { result ≡ is_blank c }
{
    c == ' ' || c == '\t'
}

fn is_digit(c: char) -> bool
    ensures { result ≡ is_digit c }
{
    ('0'..='9').contains(&c)
}
