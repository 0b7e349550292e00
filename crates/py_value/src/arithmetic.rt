// The arithmetic operators.

ghost use Rattle.std.specs.Prelude.{◌≡◌, OnErr, Some, None};
ghost use Rattle.py_value.specs.View.{plain, plains, IsNumberOf};
ghost use Rattle.py_value.specs.Answering.{Answers, AnswersStep, RaiseKeeps};
ghost use Rattle.py_value.specs.HeapView.{plain_heap};
ghost use Rattle.py_value.specs.Numbers.{number_of, arithmetic};
ghost use Rattle.py_value.specs.Operators.{number_result, repeated_sequence, binary_answer, binary_of};

use crate::cause::Cause;
use crate::heap::Heap;
use crate::number::calculate;
use crate::sequences::{join_items, join_texts, repeat_items, repeat_text};
use crate::shared::Items;
use crate::value::{Addr, Raised, Value};
use py_operator::BinOp;
use py_text::NoMemory;
use std::alloc::Global;

/// `left op right`.
pub fn binary(
    alloc: Global,
    op: BinOp,
    left: &Value,
    right: &Value,
    heap: &mut Heap,
) -> Result<Result<Value, Raised>, NoMemory>
    ensures answer { Answers result heap.new
        (binary_of op (plain left.now) (plain right.now) (plain_heap heap.old)) }
    ensures raised { RaiseKeeps result heap.old heap.new }
    ensures err { OnErr result (plain_heap heap.new ≡ plain_heap heap.old) }
{
    match operation(alloc, op, left, right, heap)? {
        Ok(value) => Ok(Ok(value)),
        Err(cause) => Ok(Err(Raised::of(alloc, cause)?)),
    }
}

/// `left op right`, with the cause of what it raises.
fn operation(
    alloc: Global,
    op: BinOp,
    left: &Value,
    right: &Value,
    heap: &mut Heap,
) -> Result<Result<Value, Cause>, NoMemory>
    ensures answer { AnswersStep result heap.new
        (binary_answer op (plain left.now) (plain right.now) (plain_heap heap.old)) }
    ensures raised { RaiseKeeps result heap.old heap.new }
    ensures err { OnErr result (plain_heap heap.new ≡ plain_heap heap.old) }
{
    if let Value::Int(x) = left
        && let Value::Int(y) = right
    {
        return Ok(of_whole_numbers(op, *x, *y));
    }
    match op {
        BinOp::Add => add(alloc, left, right, heap),
        BinOp::Mul => multiply(alloc, left, right, heap),
        BinOp::Sub | BinOp::Floor | BinOp::Mod => Ok(numbers(op, left, right)),
    }
}

fn numbers(op: BinOp, left: &Value, right: &Value) -> Result<Value, Cause>
    ensures { IsNumberOf result
        (number_result op (number_of (plain left.now)) (number_of (plain right.now))) }
{
    match left.number() {
        None => Err(Cause::UnsupportedOperand),
        Some(x) => match right.number() {
            None => Err(Cause::UnsupportedOperand),
            Some(y) => of_whole_numbers(op, x, y),
        },
    }
}

/// `left op right` of two whole numbers.
#[inline]
fn of_whole_numbers(op: BinOp, left: i64, right: i64) -> Result<Value, Cause>
    ensures { IsNumberOf result (arithmetic op left right) }
{
    match calculate(op, left, right) {
        Ok(n) => Ok(Value::Int(n)),
        Err(cause) => Err(cause),
    }
}

fn add(
    alloc: Global,
    left: &Value,
    right: &Value,
    heap: &mut Heap,
) -> Result<Result<Value, Cause>, NoMemory>
    ensures answer { AnswersStep result heap.new
        (binary_answer BinOp.Add (plain left.now) (plain right.now) (plain_heap heap.old)) }
    ensures raised { RaiseKeeps result heap.old heap.new }
    ensures err { OnErr result (plain_heap heap.new ≡ plain_heap heap.old) }
{
    match left {
        Value::Str(s) => match right {
            Value::Str(t) => match join_texts(s, t)? {
                Ok(text) => Ok(Ok(Value::Str(text))),
                Err(cause) => Ok(Err(cause)),
            },
            _ => Ok(Err(Cause::UnsupportedOperand)),
        },
        Value::Tuple(items) => match right {
            Value::Tuple(others) => match join_items(alloc, items.as_slice(), others.as_slice())? {
                Ok(joined) => Ok(Ok(Value::Tuple(Items::new(alloc, joined)?))),
                Err(cause) => Ok(Err(cause)),
            },
            _ => Ok(Err(Cause::UnsupportedOperand)),
        },
        Value::List(a) => match right {
            Value::List(b) => match join_items(alloc, heap.items(*a), heap.items(*b))? {
                Ok(joined) => Ok(Ok(Value::List(heap.make_list(joined)?))),
                Err(cause) => Ok(Err(cause)),
            },
            _ => Ok(Err(Cause::UnsupportedOperand)),
        },
        _ => Ok(numbers(BinOp::Add, left, right)),
    }
}

fn multiply(
    alloc: Global,
    left: &Value,
    right: &Value,
    heap: &mut Heap,
) -> Result<Result<Value, Cause>, NoMemory>
    ensures answer { AnswersStep result heap.new
        (binary_answer BinOp.Mul (plain left.now) (plain right.now) (plain_heap heap.old)) }
    ensures raised { RaiseKeeps result heap.old heap.new }
    ensures err { OnErr result (plain_heap heap.new ≡ plain_heap heap.old) }
{
    match left {
        Value::Str(_) | Value::Tuple(_) | Value::List(_) => {
            repeat_sequence(alloc, left, right, heap)
        }
        _ => match right {
            Value::Str(_) | Value::Tuple(_) | Value::List(_) => {
                repeat_sequence(alloc, right, left, heap)
            }
            _ => Ok(numbers(BinOp::Mul, left, right)),
        },
    }
}

fn repeat_sequence(
    alloc: Global,
    sequence: &Value,
    count: &Value,
    heap: &mut Heap,
) -> Result<Result<Value, Cause>, NoMemory>
    ensures answer { AnswersStep result heap.new
        (repeated_sequence (plain_heap heap.old) (plain sequence.now)
        (number_of (plain count.now))) }
    ensures raised { RaiseKeeps result heap.old heap.new }
    ensures err { OnErr result (plain_heap heap.new ≡ plain_heap heap.old) }
{
    match count.number() {
        None => Ok(Err(Cause::UnsupportedOperand)),
        Some(n) => match sequence {
            Value::Str(text) => match repeat_text(alloc, text, n)? {
                Ok(text) => Ok(Ok(Value::Str(text))),
                Err(cause) => Ok(Err(cause)),
            },
            Value::Tuple(items) => match repeat_items(alloc, items.as_slice(), n)? {
                Ok(items) => Ok(Ok(Value::Tuple(Items::new(alloc, items)?))),
                Err(cause) => Ok(Err(cause)),
            },
            Value::List(a) => match repeat_items(alloc, heap.items(*a), n)? {
                Ok(items) => Ok(Ok(Value::List(heap.make_list(items)?))),
                Err(cause) => Ok(Err(cause)),
            },
            _ => Ok(Err(Cause::UnsupportedOperand)),
        },
    }
}
