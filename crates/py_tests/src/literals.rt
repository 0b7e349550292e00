// Values that rows are written in, and what an operation answers.

use py_value::{ExcKind, Heap, Items, NoMemory, Raised, Text, Value, store};
use std::alloc::Global;

/// A value to be made in a heap.
#[derive(Clone, Copy)]
pub(crate) enum Lit {
    None,
    Bool(bool),
    Int(i64),
    Str(&'static str),
    Tuple(&'static [i64]),
    TextTuple(&'static [&'static str]),
    List(&'static [i64]),
    Texts(&'static [&'static str]),
    Dict(&'static [(&'static str, i64)]),
}

/// What an operation answers: a value, or an exception of this kind with this text.
#[derive(Clone, Copy)]
pub(crate) enum Want {
    Gives(Lit),
    Raises(ExcKind, &'static str),
}

pub(crate) const UNSUPPORTED: Want = Want::Raises(ExcKind::TypeError, "unsupported operand");

pub(crate) const UNHASHABLE: Want = Want::Raises(ExcKind::TypeError, "unhashable key");

/// The least whole number.
pub(crate) const LEAST: i64 = -9_223_372_036_854_775_808;

/// The greatest whole number.
pub(crate) const MOST: i64 = 9_223_372_036_854_775_807;

fn text(alloc: Global, s: &str) -> Result<Value, NoMemory> {
    Ok(Value::Str(Text::from_str(alloc, s)?))
}

fn texts(alloc: Global, items: &[&str]) -> Result<Vec<Value>, NoMemory> {
    let mut values = Vec::new(alloc);
    for item in items {
        values.push(text(alloc, item)?)?;
    }
    Ok(values)
}

fn numbers(alloc: Global, items: &[i64]) -> Result<Vec<Value>, NoMemory> {
    let mut values = Vec::new(alloc);
    for n in items {
        values.push(Value::Int(*n))?;
    }
    Ok(values)
}

fn dict(alloc: Global, pairs: &[(&str, i64)], heap: &mut Heap) -> Result<Value, NoMemory> {
    let dict = Value::Dict(heap.make_dict()?);
    for (key, n) in pairs {
        let key = text(alloc, key)?;
        let _ = store(alloc, &dict, &key, Value::Int(*n), heap)?;
    }
    Ok(dict)
}

pub(crate) fn make(alloc: Global, lit: Lit, heap: &mut Heap) -> Result<Value, NoMemory> {
    match lit {
        Lit::None => Ok(Value::None),
        Lit::Bool(b) => Ok(Value::Bool(b)),
        Lit::Int(n) => Ok(Value::Int(n)),
        Lit::Str(s) => text(alloc, s),
        Lit::Tuple(items) => Ok(Value::Tuple(Items::new(alloc, numbers(alloc, items)?)?)),
        Lit::TextTuple(items) => Ok(Value::Tuple(Items::new(alloc, texts(alloc, items)?)?)),
        Lit::List(items) => Ok(Value::List(heap.make_list(numbers(alloc, items)?)?)),
        Lit::Texts(items) => Ok(Value::List(heap.make_list(texts(alloc, items)?)?)),
        Lit::Dict(pairs) => dict(alloc, pairs, heap),
    }
}

fn is_number(value: &Value, wanted: i64) -> bool {
    match value {
        Value::Int(n) => *n == wanted,
        _ => false,
    }
}

fn is_text(value: &Value, wanted: &str) -> bool {
    match value {
        Value::Str(text) => text.as_str() == wanted,
        _ => false,
    }
}

fn are_numbers(items: &[Value], wanted: &[i64]) -> bool {
    if items.len() != wanted.len() {
        return false;
    }
    for i in 0..items.len() {
        if !is_number(&items[i], wanted[i]) {
            return false;
        }
    }
    true
}

fn are_texts(items: &[Value], wanted: &[&str]) -> bool {
    if items.len() != wanted.len() {
        return false;
    }
    for i in 0..items.len() {
        if !is_text(&items[i], wanted[i]) {
            return false;
        }
    }
    true
}

/// Whether the value is this one. Of a dict only the length is told.
pub(crate) fn is_made(value: &Value, wanted: Lit, heap: &Heap) -> bool {
    match wanted {
        Lit::None => matches!(value, Value::None),
        Lit::Bool(b) => match value {
            Value::Bool(c) => *c == b,
            _ => false,
        },
        Lit::Int(n) => is_number(value, n),
        Lit::Str(s) => is_text(value, s),
        Lit::Tuple(wanted) => match value {
            Value::Tuple(items) => are_numbers(items.as_slice(), wanted),
            _ => false,
        },
        Lit::TextTuple(wanted) => match value {
            Value::Tuple(items) => are_texts(items.as_slice(), wanted),
            _ => false,
        },
        Lit::List(wanted) => match value {
            Value::List(list) => are_numbers(heap.items(*list), wanted),
            _ => false,
        },
        Lit::Texts(wanted) => match value {
            Value::List(list) => are_texts(heap.items(*list), wanted),
            _ => false,
        },
        Lit::Dict(pairs) => match value {
            Value::Dict(dict) => heap.len(*dict) == pairs.len(),
            _ => false,
        },
    }
}

fn is_raised(raised: &Raised, kind: ExcKind, said: &str) -> bool {
    if !raised.kind.is_same(kind) {
        return false;
    }
    match raised.arg.value() {
        None => said.is_empty(),
        Some(arg) => is_text(arg, said),
    }
}

pub(crate) fn is_wanted(answer: &Result<Value, Raised>, want: Want, heap: &Heap) -> bool {
    match answer {
        Ok(value) => match want {
            Want::Gives(wanted) => is_made(value, wanted, heap),
            Want::Raises(_, _) => false,
        },
        Err(raised) => match want {
            Want::Gives(_) => false,
            Want::Raises(kind, said) => is_raised(raised, kind, said),
        },
    }
}
