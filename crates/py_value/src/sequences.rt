// Sequences joined and repeated.

ghost use Rattle.std.specs.Prelude.{◌≡◌, ◌+◌, ◌++◌, map, nat_le, IfOk, OnOk, OnErr};
ghost use Rattle.std.specs.Str.{chars};
ghost use Rattle.py_value.specs.View.{plain, plains, plain_items, after_change};
ghost use Rattle.py_value.specs.Pairs.{plain_pair};
ghost use Rattle.py_value.specs.Sequences.{most_items, joined, times, repeat, repeated};
ghost use Rattle.py_value.specs.Operators.{characters};

use crate::cause::Cause;
use crate::limits::MOST_ITEMS;
use crate::pairs::Pair;
use crate::value::{Value, copy_all};
use py_text::{NoMemory, Text};
use std::alloc::Global;

/// Whether so many items, and so many more, are not too many.
pub fn fit_together(count: usize, more: usize) -> bool
    ensures { result ≡ nat_le (count + more) most_items }
{
    count <= MOST_ITEMS && more <= MOST_ITEMS - count
}

/// One text and then the other.
pub fn join_texts(left: &Text, right: &Text) -> Result<Result<Text, Cause>, NoMemory>
    ensures { IfOk result (λ text. text ≡ joined left.now right.now) }
{
    if fit_together(left.len(), right.len()) {
        Ok(Ok(left.concat(right)?))
    } else {
        Ok(Err(Cause::TooManyItems))
    }
}

/// Adds the characters of another text at the end.
pub fn extend_text(text: &mut Text, more: &Text) -> Result<Result<(), Cause>, NoMemory>
    ensures answer { IfOk result (λ done. after_change done text.new ≡ joined text.old more.now) }
    ensures raised { IfOk result (λ done. OnErr done (text.new ≡ text.old)) }
    ensures err { OnErr result (text.new ≡ text.old) }
{
    if fit_together(text.len(), more.len()) {
        text.append(more)?;
        Ok(Ok(()))
    } else {
        Ok(Err(Cause::TooManyItems))
    }
}

/// Equal values of one sequence and then of the other.
pub fn join_items(
    alloc: Global,
    left: &[Value],
    right: &[Value],
) -> Result<Result<Vec<Value>, Cause>, NoMemory>
    ensures { IfOk result (λ items.
        plain_items items ≡ joined (plains left.now) (plains right.now)) }
{
    if fit_together(left.len(), right.len()) {
        let mut items = copy_all(alloc, left)?;
        extend(alloc, &mut items, right)?;
        Ok(Ok(items))
    } else {
        Ok(Err(Cause::TooManyItems))
    }
}

fn extend(alloc: Global, items: &mut Vec<Value>, more: &[Value]) -> Result<(), NoMemory>
    ensures { OnOk result (plains items.new.items ≡ plains items.old.items ++ plains more.now) }
{
    for value in more {
        let copy = value.copy(alloc)?;
        items.push(copy)?;
    }
    Ok(())
}

/// How often a number repeats: not at all below 1.
fn times(number: i64) -> usize
    ensures { result ≡ times number }
{
    if number < 0 { 0 } else { number as usize }
}

/// The text so often.
pub fn repeat_text(alloc: Global, text: &Text, number: i64) -> Result<Result<Text, Cause>, NoMemory>
    ensures { IfOk result (λ copies. copies ≡ repeated number text.now) }
{
    let count = times(number);
    if text.is_empty() {
        return Ok(Ok(Text::new(alloc)));
    }
    match count.checked_mul(text.len()) {
        Some(total) if total <= MOST_ITEMS => Ok(Ok(text.repeat(count)?)),
        _ => Ok(Err(Cause::TooManyItems)),
    }
}

/// Equal values of the sequence, so often.
pub fn repeat_items(
    alloc: Global,
    items: &[Value],
    number: i64,
) -> Result<Result<Vec<Value>, Cause>, NoMemory>
    ensures { IfOk result (λ copies. plain_items copies ≡ repeated number (plains items.now)) }
{
    let count = times(number);
    if items.is_empty() {
        return Ok(Ok(Vec::new(alloc)));
    }
    match count.checked_mul(items.len()) {
        Some(total) if total <= MOST_ITEMS => { Ok(Ok(copies_of(alloc, items, count, total)?)) }
        _ => Ok(Err(Cause::TooManyItems)),
    }
}

/// The values so often, with room for so many of them.
fn copies_of(
    alloc: Global,
    items: &[Value],
    count: usize,
    total: usize,
) -> Result<Vec<Value>, NoMemory>
    ensures { IfOk result (λ copies. plains copies.items ≡ repeat count (plains items.now)) }
{
    let mut copies = Vec::with_capacity(alloc, total)?;
    'turns: for _ in 0..count {
        extend(alloc, &mut copies, items)?;
    }
    Ok(copies)
}

/// The characters of a text, each as a text.
pub fn characters_of(alloc: Global, text: &str) -> Result<Vec<Value>, NoMemory>
    ensures { IfOk result (λ values. plains values.items ≡ characters (chars text.now)) }
{
    let mut values = Vec::new(alloc);
    for c in text.chars() {
        values.push(Value::Str(Text::of_char(alloc, c)?))?;
    }
    Ok(values)
}

/// The keys of a dict.
pub fn keys_of(alloc: Global, pairs: &[Pair]) -> Result<Vec<Value>, NoMemory>
    ensures { IfOk result (λ keys. plains keys.items ≡ map (λ p. p.0) (map plain_pair pairs.now)) }
{
    let mut keys = Vec::with_capacity(alloc, pairs.len())?;
    for pair in pairs {
        keys.push(pair.key.copy(alloc)?)?;
    }
    Ok(keys)
}
