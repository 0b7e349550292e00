// Augmented assignment: the operators that change a list where it stands.

ghost use Rattle.std.specs.Prelude.{◌≡◌, IfOk, OnErr, Some};
ghost use Rattle.py_value.specs.View.{plain, plains, plain_update};
ghost use Rattle.py_value.specs.Answering.{Answers, RaiseKeeps};
ghost use Rattle.py_value.specs.Answers.{in_words};
ghost use Rattle.py_value.specs.Causes.{raised_by};
ghost use Rattle.py_value.specs.HeapView.{plain_heap};
ghost use Rattle.py_value.specs.Numbers.{number_of};
ghost use Rattle.py_value.specs.Operators.{items_to_append, appended, repeated_in_place, in_place_of};

use crate::arithmetic::binary;
use crate::cause::Cause;
use crate::heap::Heap;
use crate::sequences::{characters_of, extend_text, fit_together, keys_of, repeat_items};
use crate::value::{Addr, Raised, Value, copy_all};
use py_operator::BinOp;
use py_text::NoMemory;
use std::alloc::Global;

/// `left op= right`: what the target is to be bound to.
pub fn in_place(
    alloc: Global,
    op: BinOp,
    left: &Value,
    right: &Value,
    heap: &mut Heap,
) -> Result<Result<Value, Raised>, NoMemory>
    ensures answer { Answers result heap.new
        (in_place_of op (plain left.now) (plain right.now) (plain_heap heap.old)) }
    ensures raised { RaiseKeeps result heap.old heap.new }
    ensures err { OnErr result (plain_heap heap.new ≡ plain_heap heap.old) }
{
    match op {
        BinOp::Add => match left {
            Value::List(list) => extend(alloc, *list, right, heap),
            _ => binary(alloc, op, left, right, heap),
        },
        BinOp::Mul => match left {
            Value::List(list) => repeat(alloc, *list, right, heap),
            _ => binary(alloc, op, left, right, heap),
        },
        BinOp::Sub => binary(alloc, op, left, right, heap),
        BinOp::Floor => binary(alloc, op, left, right, heap),
        BinOp::Mod => binary(alloc, op, left, right, heap),
    }
}

/// `target op= right` where the target stands. A text that no copy shares grows in place, so that
/// adding to it again and again takes time for what is added alone.
pub fn update(
    alloc: Global,
    op: BinOp,
    target: &mut Value,
    right: &Value,
    heap: &mut Heap,
) -> Result<Result<(), Raised>, NoMemory>
    ensures answer { IfOk result (λ answer.
        plain_update answer (plain target.new) (plain_heap heap.new)
        ≡ in_place_of op (plain target.old) (plain right.now) (plain_heap heap.old)) }
    ensures raised { IfOk result (λ answer. OnErr answer (plain target.new ≡ plain target.old)) }
    ensures raised_heap { RaiseKeeps result heap.old heap.new }
    ensures err { OnErr result (plain target.new ≡ plain target.old) }
    ensures err_heap { OnErr result (plain_heap heap.new ≡ plain_heap heap.old) }
{
    if let BinOp::Add = op
        && let Value::Str(text) = target
        && let Value::Str(more) = right
    {
        return match extend_text(text, more)? {
            Ok(()) => Ok(Ok(())),
            Err(cause) => Ok(Err(Raised::of(alloc, cause)?)),
        };
    }
    match in_place(alloc, op, target, right, heap)? {
        Ok(value) => {
            *target = value;
            Ok(Ok(()))
        }
        Err(raised) => Ok(Err(raised)),
    }
}

/// `l += right`.
fn extend(
    alloc: Global,
    list: Addr,
    right: &Value,
    heap: &mut Heap,
) -> Result<Result<Value, Raised>, NoMemory>
    ensures answer { Answers result heap.new
        (in_words raised_by (appended list.place (plain_heap heap.old)
        (items_to_append (plain_heap heap.old) (plain right.now)))) }
    ensures raised { RaiseKeeps result heap.old heap.new }
    ensures err { OnErr result (plain_heap heap.new ≡ plain_heap heap.old) }
{
    match right {
        Value::List(other) => {
            let copies = copy_all(alloc, heap.items(*other))?;
            append(alloc, list, copies, heap)
        }
        Value::Tuple(items) => {
            let copies = copy_all(alloc, items.as_slice())?;
            append(alloc, list, copies, heap)
        }
        Value::Str(text) => {
            let characters = characters_of(alloc, text.as_str())?;
            append(alloc, list, characters, heap)
        }
        Value::Dict(dict) => {
            let keys = keys_of(alloc, heap.pairs(*dict))?;
            append(alloc, list, keys, heap)
        }
        _ => Ok(Err(Raised::of(alloc, Cause::UnsupportedOperand)?)),
    }
}

fn append(
    alloc: Global,
    list: Addr,
    items: Vec<Value>,
    heap: &mut Heap,
) -> Result<Result<Value, Raised>, NoMemory>
    ensures answer { Answers result heap.new
        (in_words raised_by (appended list.place (plain_heap heap.old)
        (Some (plains items.items)))) }
    ensures raised { RaiseKeeps result heap.old heap.new }
    ensures err { OnErr result (plain_heap heap.new ≡ plain_heap heap.old) }
{
    if fit_together(heap.items(list).len(), items.as_slice().len()) {
        heap.append(list, items)?;
        Ok(Ok(Value::List(list)))
    } else {
        Ok(Err(Raised::of(alloc, Cause::TooManyItems)?))
    }
}

/// `l *= right`.
fn repeat(
    alloc: Global,
    list: Addr,
    right: &Value,
    heap: &mut Heap,
) -> Result<Result<Value, Raised>, NoMemory>
    ensures answer { Answers result heap.new
        (in_words raised_by (repeated_in_place list.place (plain_heap heap.old)
        (number_of (plain right.now)))) }
    ensures raised { RaiseKeeps result heap.old heap.new }
    ensures err { OnErr result (plain_heap heap.new ≡ plain_heap heap.old) }
{
    match right.number() {
        None => Ok(Err(Raised::of(alloc, Cause::UnsupportedOperand)?)),
        Some(n) => match repeat_items(alloc, heap.items(list), n)? {
            Ok(items) => {
                heap.set_items(list, items);
                Ok(Ok(Value::List(list)))
            }
            Err(cause) => Ok(Err(Raised::of(alloc, cause)?)),
        },
    }
}
