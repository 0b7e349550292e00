// The order of values: a walk from left to right.

ghost use Rattle.std.specs.Prelude.{◌≡◌, ◌<◌, ◌≤◌, IfOk, OnOk, OnErr};
ghost use Rattle.py_value.specs.View.{plain, plains};
ghost use Rattle.py_value.specs.HeapView.{plain_heap};
ghost use Rattle.py_value.specs.Comparison.{equal_within, order_within, order_step, order_of_items, order_of_numbers};
ghost use Rattle.py_value.specs.Numbers.{number_of};

use crate::cause::Cause;
use crate::equality::{count_pair, equal};
use crate::heap::Heap;
use crate::value::Value;
use py_text::NoMemory;
use std::cmp::Ordering;

/// The order of two values, or why they have none. `remaining` pairs of values may still be
/// compared: where that is too few, it answers want of memory.
#[cycle(order)]
pub fn order(
    levels: u32,
    left: &Value,
    right: &Value,
    heap: &Heap,
    remaining: &mut u64,
) -> Result<Result<Ordering, Cause>, NoMemory>
    ensures answer { IfOk result (λ answer.
        answer ≡ order_within levels (plain_heap heap.now) (plain left.now) (plain right.now)) }
    ensures counted { OnOk result (remaining.new < remaining.old) }
    ensures used_up { OnErr result (remaining.new ≡ 0) }
{
    count_pair(remaining)?;
    if levels == 0 {
        return Ok(Err(Cause::TooDeep));
    }
    order_inside(levels - 1, left, right, heap, remaining)
}

#[cycle(order)]
fn order_inside(
    levels: u32,
    left: &Value,
    right: &Value,
    heap: &Heap,
    remaining: &mut u64,
) -> Result<Result<Ordering, Cause>, NoMemory>
    ensures answer { IfOk result (λ answer.
        answer ≡ order_step (equal_within levels (plain_heap heap.now))
        (order_within levels (plain_heap heap.now)) (plain_heap heap.now) (plain left.now)
        (plain right.now)) }
    ensures counted { OnOk result (remaining.new ≤ remaining.old) }
    ensures used_up { OnErr result (remaining.new ≡ 0) }
{
    match left {
        Value::Str(s) => match right {
            Value::Str(t) => Ok(Ok(s.order(t))),
            _ => Ok(Err(Cause::UnsupportedOperand)),
        },
        Value::Tuple(items) => match right {
            Value::Tuple(others) => {
                order_items(levels, items.as_slice(), others.as_slice(), heap, remaining)
            }
            _ => Ok(Err(Cause::UnsupportedOperand)),
        },
        Value::List(a) => match right {
            Value::List(b) => {
                order_items(levels, heap.items(*a), heap.items(*b), heap, remaining)
            }
            _ => Ok(Err(Cause::UnsupportedOperand)),
        },
        _ => Ok(order_numbers(left, right)),
    }
}

#[cycle(order)]
fn order_items(
    levels: u32,
    left: &[Value],
    right: &[Value],
    heap: &Heap,
    remaining: &mut u64,
) -> Result<Result<Ordering, Cause>, NoMemory>
    ensures answer { IfOk result (λ answer.
        answer ≡ order_of_items (equal_within levels (plain_heap heap.now))
        (order_within levels (plain_heap heap.now)) (plains left.now) (plains right.now)) }
    ensures counted { OnOk result (remaining.new ≤ remaining.old) }
    ensures used_up { OnErr result (remaining.new ≡ 0) }
{
    let both = left.len().min(right.len());
    for i in 0..both {
        match equal(levels, &left[i], &right[i], heap, remaining)? {
            Ok(true) => {}
            Ok(false) => return order(levels, &left[i], &right[i], heap, remaining),
            Err(cause) => return Ok(Err(cause)),
        }
    }
    Ok(Ok(left.len().cmp(&right.len())))
}

fn order_numbers(left: &Value, right: &Value) -> Result<Ordering, Cause>
    ensures { result ≡ order_of_numbers (number_of (plain left.now)) (number_of (plain right.now)) }
{
    match left.number() {
        None => Err(Cause::UnsupportedOperand),
        Some(x) => match right.number() {
            None => Err(Cause::UnsupportedOperand),
            Some(y) => Ok(x.cmp(&y)),
        },
    }
}
