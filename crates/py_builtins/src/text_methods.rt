// The methods of texts.

ghost use Rattle.std.specs.Prelude.{◌≡◌, ◌≢◌, ◌+◌, ◌++◌, [], IfOk, OnOk, OnErr, length, map, nat_le};
ghost use Rattle.std.specs.Str.{chars};
ghost use Rattle.py_value.specs.View.{plain, plains};
ghost use Rattle.py_value.specs.HeapView.{plain_heap};
ghost use Rattle.py_value.specs.Sequences.{most_items};
ghost use Rattle.py_builtins.specs.Answering.{Answers, RaiseKeeps};
ghost use Rattle.py_builtins.specs.Methods.{new_list, starts_with, starts_with_of, each_after, each_length, is_text, are_texts, characters_in, joined_texts, join_items, join_of, is_white, white_parts, nonempty, parts_between, texts, split_at, split_of};

use crate::arguments::{are_none, only};
use crate::char_lists::characters_of;
use crate::raising::{raise, text_answer};
use py_value::{Cause, Heap, MOST_ITEMS, NoMemory, Raised, Text, Value};
use std::alloc::Global;

/// `s.startswith(t)`.
pub(crate) fn test_start(
    alloc: Global,
    text: &Text,
    args: &[Value],
    heap: &Heap,
) -> Result<Result<Value, Raised>, NoMemory>
    ensures { Answers result heap.now
        (starts_with_of text.now (plains args.now) (plain_heap heap.now)) }
{
    match only(args) {
        Some(front) => starts_with(alloc, text, front, heap),
        None => raise(alloc, Cause::WrongArgumentCount),
    }
}

fn starts_with(
    alloc: Global,
    text: &Text,
    front: &Value,
    _heap: &Heap,
) -> Result<Result<Value, Raised>, NoMemory>
    ensures { Answers result _heap.now
        (starts_with text.now (plain front.now) (plain_heap _heap.now)) }
{
    match front {
        Value::Str(front) => {
            let begun = text.part(0, front.len())?;
            Ok(Ok(Value::Bool(begun.is_same(front))))
        }
        _ => raise(alloc, Cause::BadArgument),
    }
}

/// `s.join(l)`.
pub(crate) fn join_list(
    alloc: Global,
    between: &Text,
    args: &[Value],
    heap: &Heap,
) -> Result<Result<Value, Raised>, NoMemory>
    ensures { Answers result heap.now
        (join_of between.now (plains args.now) (plain_heap heap.now)) }
{
    match only(args) {
        Some(list) => match list {
            Value::List(addr) => join_items(alloc, between, heap.items(*addr), heap),
            Value::Tuple(items) => join_items(alloc, between, items.as_slice(), heap),
            _ => raise(alloc, Cause::BadArgument),
        },
        None => raise(alloc, Cause::WrongArgumentCount),
    }
}

fn join_items(
    alloc: Global,
    between: &Text,
    items: &[Value],
    _heap: &Heap,
) -> Result<Result<Value, Raised>, NoMemory>
    ensures { Answers result _heap.now
        (join_items between.now (plains items.now) (plain_heap _heap.now)) }
{
    let joined = joined_texts(alloc, between, items)?;
    text_answer(alloc, joined)
}

fn joined_texts(
    alloc: Global,
    between: &Text,
    items: &[Value],
) -> Result<Result<Text, Cause>, NoMemory>
    ensures { IfOk result (λ text. text ≡ joined_texts between.now (plains items.now)) }
{
    if !are_texts(items) {
        return Ok(Err(Cause::BadArgument));
    }
    if items.is_empty() {
        return Ok(Ok(Text::new(alloc)));
    }
    let first = copy_text(alloc, &items[0])?;
    if !fit_after(first.len(), between.len(), &items[1..]) {
        return Ok(Err(Cause::TooManyItems));
    }
    Ok(Ok(with_rest(first, between, &items[1..])?))
}

fn are_texts(items: &[Value]) -> bool
    ensures { result ≡ are_texts (plains items.now) }
{
    for item in items {
        if !is_text(item) {
            return false;
        }
    }
    true
}

fn is_text(value: &Value) -> bool
    ensures { result ≡ is_text (plain value.now) }
{
    matches!(value, Value::Str(_))
}

fn copy_text(alloc: Global, value: &Value) -> Result<Text, NoMemory>
    ensures { IfOk result (λ text. text ≡ characters_in (plain value.now)) }
{
    match value {
        Value::Str(text) => text.copy(),
        _ => Ok(Text::new(alloc)),
    }
}

fn text_len(value: &Value) -> usize
    ensures { result ≡ length (characters_in (plain value.now)) }
{
    match value {
        Value::Str(text) => text.len(),
        _ => 0,
    }
}

/// Whether the texts, each with so many characters before it, fit after others.
fn fit_after(start: usize, between: usize, items: &[Value]) -> bool
    ensures { result
        ≡ nat_le (start + each_length between (map characters_in (plains items.now))) most_items }
{
    if start > MOST_ITEMS {
        return false;
    }
    let mut total = start;
    for item in items {
        if between > MOST_ITEMS - total {
            return false;
        }
        total += between;
        let count = text_len(item);
        if count > MOST_ITEMS - total {
            return false;
        }
        total += count;
    }
    true
}

fn with_rest(first: Text, between: &Text, items: &[Value]) -> Result<Text, NoMemory>
    ensures { IfOk result (λ text.
        text ≡ first ++ each_after between.now (map characters_in (plains items.now))) }
{
    let mut text = first;
    for item in items {
        text.append(between)?;
        append_text(&mut text, item)?;
    }
    Ok(text)
}

/// Adds the characters of a text; of another value none.
fn append_text(text: &mut Text, value: &Value) -> Result<(), NoMemory>
    ensures { OnOk result (text.new ≡ text.old ++ characters_in (plain value.now)) }
{
    match value {
        Value::Str(more) => text.append(more),
        _ => Ok(()),
    }
}

/// `s.split()`, `s.split(t)`.
pub(crate) fn split(
    alloc: Global,
    text: &Text,
    args: &[Value],
    heap: &mut Heap,
) -> Result<Result<Value, Raised>, NoMemory>
    ensures answer { Answers result heap.new
        (split_of text.now (plains args.now) (plain_heap heap.old)) }
    ensures raised { RaiseKeeps result heap.old heap.new }
    ensures err { OnErr result (plain_heap heap.new ≡ plain_heap heap.old) }
{
    match only(args) {
        Some(separator) => split_at(alloc, text, separator, heap),
        None => {
            if are_none(args) {
                let characters = characters_of(alloc, text)?;
                let parts = nonempty_parts(alloc, &characters)?;
                new_list(alloc, parts, heap)
            } else {
                raise(alloc, Cause::WrongArgumentCount)
            }
        }
    }
}

fn split_at(
    alloc: Global,
    text: &Text,
    separator: &Value,
    heap: &mut Heap,
) -> Result<Result<Value, Raised>, NoMemory>
    ensures answer { Answers result heap.new
        (split_at text.now (plain separator.now) (plain_heap heap.old)) }
    ensures raised { RaiseKeeps result heap.old heap.new }
    ensures err { OnErr result (plain_heap heap.new ≡ plain_heap heap.old) }
{
    match separator {
        Value::Str(separator) => {
            if separator.is_empty() {
                return raise(alloc, Cause::EmptySeparator);
            }
            let parts = parts_between(alloc, separator.as_str(), text.as_str())?;
            new_list(alloc, parts, heap)
        }
        _ => raise(alloc, Cause::BadArgument),
    }
}

/// A new list, where there are not too many items.
pub(crate) fn new_list(
    alloc: Global,
    items: Vec<Value>,
    heap: &mut Heap,
) -> Result<Result<Value, Raised>, NoMemory>
    ensures answer { Answers result heap.new (new_list (plains items.items) (plain_heap heap.old)) }
    ensures raised { RaiseKeeps result heap.old heap.new }
    ensures err { OnErr result (plain_heap heap.new ≡ plain_heap heap.old) }
{
    if items.len() > MOST_ITEMS {
        return raise(alloc, Cause::TooManyItems);
    }
    let made = heap.make_list(items)?;
    Ok(Ok(Value::List(made)))
}

fn is_white(c: char) -> bool
    ensures { result ≡ is_white c }
{
    ('\t'..='\r').contains(&c) || c == ' '
}

fn nonempty_parts(alloc: Global, characters: &[char]) -> Result<Vec<Value>, NoMemory>
    ensures { IfOk result (λ parts.
        plains parts.items ≡ texts (nonempty (white_parts characters.now))) }
{
    let mut parts = Vec::new(alloc);
    let mut part = Text::new(alloc);
    for c in characters {
        if !is_white(*c) {
            part.push(*c)?;
        } else if !part.is_empty() {
            parts.push(Value::Str(part))?;
            part = Text::new(alloc);
        }
    }
    if !part.is_empty() {
        parts.push(Value::Str(part))?;
    }
    Ok(parts)
}

/// The parts of a text between each place of a separator, the leftmost place first.
fn parts_between(alloc: Global, separator: &str, text: &str) -> Result<Vec<Value>, NoMemory>
    requires { chars separator.now ≢ [] }
    ensures { IfOk result (λ parts.
        plains parts.items ≡ texts (parts_between (chars separator.now) 0 (chars text.now))) }
{
    let mut parts = Vec::new(alloc);
    let mut rest = text;
    while let Some((part, after)) = rest.split_once(separator) {
        let part = Text::from_str(alloc, part)?;
        parts.push(Value::Str(part))?;
        rest = after;
    }
    let last = Text::from_str(alloc, rest)?;
    parts.push(Value::Str(last))?;
    Ok(parts)
}
