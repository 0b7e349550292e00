// Equality of values: a walk from left to right.

ghost use Rattle.std.specs.Prelude.{◌≡◌, map, ◌&&◌, ◌+◌, ◌<◌, ◌≤◌, IfOk, OnOk, OnErr};
ghost use Rattle.py_value.specs.View.{plain, plains, place_of};
ghost use Rattle.std.specs.Option.{option_map};
ghost use Rattle.py_value.specs.HeapView.{plain_heap};
ghost use Rattle.py_value.specs.Pairs.{plain_pair};
ghost use Rattle.py_value.specs.Heaps.{dict_pairs};
ghost use Rattle.py_value.specs.Comparison.{equal_within, equal_step, are_equal, are_equal_dicts, are_equal_pairs, are_equal_arguments, is_same_atom, is_same_place, is_same_module};

use crate::cause::Cause;
use crate::heap::Heap;
use crate::pairs::Pair;
use crate::shared::Argument;
use crate::value::{Addr, ModId, Value};
use py_text::NoMemory;
use std::alloc::AllocError;

/// Whether two values are equal, or `TooDeep` where more than `levels` stand inside each other.
/// `remaining` pairs of values may still be compared: where that is too few, it answers want of
/// memory.
#[cycle(equal)]
pub fn equal(
    levels: u32,
    left: &Value,
    right: &Value,
    heap: &Heap,
    remaining: &mut u64,
) -> Result<Result<bool, Cause>, NoMemory>
    ensures answer { IfOk result (λ answer.
        answer ≡ equal_within levels (plain_heap heap.now) (plain left.now) (plain right.now)) }
    ensures counted { OnOk result (remaining.new < remaining.old) }
    ensures used_up { OnErr result (remaining.new ≡ 0) }
{
    count_pair(remaining)?;
    if levels == 0 {
        return Ok(Err(Cause::TooDeep));
    }
    equal_inside(levels - 1, left, right, heap, remaining)
}

/// Takes one from how many pairs may still be compared.
#[inline]
pub fn count_pair(remaining: &mut u64) -> Result<(), NoMemory>
    ensures ok { OnOk result (remaining.old ≡ remaining.new + 1) }
    ensures none_left { OnErr result (remaining.old ≡ 0) }
    ensures used_up { OnErr result (remaining.new ≡ 0) }
{
    if *remaining == 0 {
        return Err(AllocError);
    }
    *remaining -= 1;
    Ok(())
}

#[cycle(equal)]
fn equal_inside(
    levels: u32,
    left: &Value,
    right: &Value,
    heap: &Heap,
    remaining: &mut u64,
) -> Result<Result<bool, Cause>, NoMemory>
    ensures answer { IfOk result (λ answer.
        answer ≡ equal_step (equal_within levels (plain_heap heap.now)) (plain_heap heap.now)
        (plain left.now) (plain right.now)) }
    ensures counted { OnOk result (remaining.new ≤ remaining.old) }
    ensures used_up { OnErr result (remaining.new ≡ 0) }
{
    match left {
        Value::None
        | Value::Bool(_)
        | Value::Int(_)
        | Value::Func(_, _)
        | Value::Module(_)
        | Value::Kind(_)
        | Value::Builtin(_) => Ok(Ok(is_same_atom(left, right))),
        Value::Str(s) => {
            if let Value::Str(t) = right {
                Ok(Ok(s.is_same(t)))
            } else {
                Ok(Ok(false))
            }
        }
        Value::Tuple(items) => {
            if let Value::Tuple(others) = right {
                equal_items(levels, items.as_slice(), others.as_slice(), heap, remaining)
            } else {
                Ok(Ok(false))
            }
        }
        Value::List(a) => {
            if let Value::List(b) = right {
                equal_items(levels, heap.items(*a), heap.items(*b), heap, remaining)
            } else {
                Ok(Ok(false))
            }
        }
        Value::Dict(a) => {
            if let Value::Dict(b) = right {
                equal_dicts(levels, heap.pairs(*a), *b, heap, remaining)
            } else {
                Ok(Ok(false))
            }
        }
        Value::Exc(k, a) => {
            if let Value::Exc(l, b) = right
                && k.is_same(*l)
            {
                equal_arguments(levels, a, b, heap, remaining)
            } else {
                Ok(Ok(false))
            }
        }
    }
}

#[cycle(equal)]
fn equal_items(
    levels: u32,
    left: &[Value],
    right: &[Value],
    heap: &Heap,
    remaining: &mut u64,
) -> Result<Result<bool, Cause>, NoMemory>
    ensures answer { IfOk result (λ answer.
        answer ≡ are_equal (equal_within levels (plain_heap heap.now)) (plains left.now)
        (plains right.now)) }
    ensures counted { OnOk result (remaining.new ≤ remaining.old) }
    ensures used_up { OnErr result (remaining.new ≡ 0) }
{
    if left.len() != right.len() {
        return Ok(Ok(false));
    }
    for i in 0..left.len() {
        match equal(levels, &left[i], &right[i], heap, remaining)? {
            Ok(true) => {}
            Ok(false) => return Ok(Ok(false)),
            Err(cause) => return Ok(Err(cause)),
        }
    }
    Ok(Ok(true))
}

#[cycle(equal)]
fn equal_dicts(
    levels: u32,
    left: &[Pair],
    right: Addr,
    heap: &Heap,
    remaining: &mut u64,
) -> Result<Result<bool, Cause>, NoMemory>
    ensures answer { IfOk result (λ answer.
        answer ≡ are_equal_dicts (equal_within levels (plain_heap heap.now))
        (map plain_pair left.now) (dict_pairs (plain_heap heap.now) right.place)) }
    ensures counted { OnOk result (remaining.new ≤ remaining.old) }
    ensures used_up { OnErr result (remaining.new ≡ 0) }
{
    if left.len() == heap.pairs(right).len() {
        equal_pairs(levels, left, right, heap, remaining)
    } else {
        Ok(Ok(false))
    }
}

#[cycle(equal)]
fn equal_pairs(
    levels: u32,
    left: &[Pair],
    right: Addr,
    heap: &Heap,
    remaining: &mut u64,
) -> Result<Result<bool, Cause>, NoMemory>
    ensures answer { IfOk result (λ answer.
        answer ≡ are_equal_pairs (equal_within levels (plain_heap heap.now))
        (map plain_pair left.now) (dict_pairs (plain_heap heap.now) right.place)) }
    ensures counted { OnOk result (remaining.new ≤ remaining.old) }
    ensures used_up { OnErr result (remaining.new ≡ 0) }
{
    for i in 0..left.len() {
        match heap.value_of(right, &left[i].key) {
            None => return Ok(Ok(false)),
            Some(other) => match equal(levels, &left[i].value, other, heap, remaining)? {
                Ok(true) => {}
                Ok(false) => return Ok(Ok(false)),
                Err(cause) => return Ok(Err(cause)),
            },
        }
    }
    Ok(Ok(true))
}

#[cycle(equal)]
fn equal_arguments(
    levels: u32,
    left: &Argument,
    right: &Argument,
    heap: &Heap,
    remaining: &mut u64,
) -> Result<Result<bool, Cause>, NoMemory>
    ensures answer { IfOk result (λ answer.
        answer ≡ are_equal_arguments (equal_within levels (plain_heap heap.now)) left.now
        right.now) }
    ensures counted { OnOk result (remaining.new ≤ remaining.old) }
    ensures used_up { OnErr result (remaining.new ≡ 0) }
{
    match left.value() {
        None => match right.value() {
            None => Ok(Ok(true)),
            Some(_) => Ok(Ok(false)),
        },
        Some(a) => match right.value() {
            None => Ok(Ok(false)),
            Some(b) => equal(levels, a, b, heap, remaining),
        },
    }
}

/// Whether two values are the same, of which the left one holds no others.
fn is_same_atom(left: &Value, right: &Value) -> bool
    ensures { result ≡ is_same_atom (plain left.now) (plain right.now) }
{
    match left {
        Value::None => matches!(right, Value::None),
        Value::Bool(_) | Value::Int(_) => match left.number() {
            None => false,
            Some(x) => match right.number() {
                None => false,
                Some(y) => x == y,
            },
        },
        Value::Str(_) | Value::Tuple(_) | Value::List(_) | Value::Dict(_) | Value::Exc(_, _) => {
            false
        }
        Value::Func(f, a) => {
            if let Value::Func(g, b) = right {
                f.module == g.module && f.unit == g.unit && is_same_place(*a, *b)
            } else {
                false
            }
        }
        Value::Module(m) => {
            if let Value::Module(n) = right {
                is_same_module(*m, *n)
            } else {
                false
            }
        }
        Value::Kind(k) => matches!(right, Value::Kind(l) if k.is_same(*l)),
        Value::Builtin(f) => matches!(right, Value::Builtin(g) if *f as u8 == *g as u8),
    }
}

fn is_same_place(left: Option<Addr>, right: Option<Addr>) -> bool
    ensures { result ≡ is_same_place (option_map place_of left) (option_map place_of right) }
{
    match left {
        None => right.is_none(),
        Some(a) => match right {
            None => false,
            Some(b) => a.place == b.place,
        },
    }
}

fn is_same_module(left: ModId, right: ModId) -> bool
    ensures { result ≡ is_same_module left right }
{
    match left {
        ModId::Sys => matches!(right, ModId::Sys),
        ModId::Loaded(m) => match right {
            ModId::Sys => false,
            ModId::Loaded(n) => m == n,
        },
    }
}
