// The comparisons, and the truth of a value.

ghost use Rattle.std.specs.Prelude.{◌≡◌, IfOk};
ghost use Rattle.py_value.specs.View.{plain, plains, plain_answer};
ghost use Rattle.py_value.specs.Plain.{PlainHeap, int_value};
ghost use Rattle.py_value.specs.HeapView.{plain_heap};
ghost use Rattle.py_value.specs.Comparison.{equal_within, order_within, is_item, most_levels};
ghost use Rattle.py_value.specs.Operators.{contains_answer, compare_answer, compare_of, truth_of, is_none_value, is_bool_value};

use crate::cause::Cause;
use crate::equality::equal;
use crate::heap::Heap;
use crate::key::is_key;
use crate::limits::{MOST_COMPARED, MOST_LEVELS};
use crate::ordering::order;
use crate::value::{Raised, Value};
use py_operator::CmpOp;
use py_text::NoMemory;
use std::alloc::Global;
use std::cmp::Ordering;

/// `left op right`.
pub fn compare(
    alloc: Global,
    op: CmpOp,
    left: &Value,
    right: &Value,
    heap: &Heap,
) -> Result<Result<bool, Raised>, NoMemory>
    ensures { IfOk result (λ answer.
        plain_answer answer
        ≡ compare_of op (plain left.now) (plain right.now) (plain_heap heap.now)) }
{
    match comparison(op, left, right, heap)? {
        Ok(holds) => Ok(Ok(holds)),
        Err(cause) => Ok(Err(Raised::of(alloc, cause)?)),
    }
}

fn comparison(
    op: CmpOp,
    left: &Value,
    right: &Value,
    heap: &Heap,
) -> Result<Result<bool, Cause>, NoMemory>
    ensures { IfOk result (λ answer.
        answer ≡ compare_answer op (plain left.now) (plain right.now) (plain_heap heap.now)) }
{
    if let Value::Int(x) = left
        && let Value::Int(y) = right
    {
        return Ok(compare_whole_numbers(op, *x, *y));
    }
    match op {
        CmpOp::Eq => are_equal(left, right, heap),
        CmpOp::Ne => match are_equal(left, right, heap)? {
            Ok(same) => Ok(Ok(!same)),
            Err(cause) => Ok(Err(cause)),
        },
        CmpOp::Lt => match order_of(left, right, heap)? {
            Ok(order) => Ok(Ok(order.is_lt())),
            Err(cause) => Ok(Err(cause)),
        },
        CmpOp::Le => match order_of(left, right, heap)? {
            Ok(order) => Ok(Ok(!order.is_gt())),
            Err(cause) => Ok(Err(cause)),
        },
        CmpOp::Gt => match order_of(left, right, heap)? {
            Ok(order) => Ok(Ok(order.is_gt())),
            Err(cause) => Ok(Err(cause)),
        },
        CmpOp::Ge => match order_of(left, right, heap)? {
            Ok(order) => Ok(Ok(!order.is_lt())),
            Err(cause) => Ok(Err(cause)),
        },
        CmpOp::In => contains(left, right, heap),
        CmpOp::NotIn => match contains(left, right, heap)? {
            Ok(found) => Ok(Ok(!found)),
            Err(cause) => Ok(Err(cause)),
        },
    }
}

/// `left == right`.
fn are_equal(left: &Value, right: &Value, heap: &Heap) -> Result<Result<bool, Cause>, NoMemory>
    ensures { IfOk result (λ answer.
        answer ≡ equal_within most_levels (plain_heap heap.now) (plain left.now)
        (plain right.now)) }
{
    let mut remaining = MOST_COMPARED;
    equal(MOST_LEVELS, left, right, heap, &mut remaining)
}

fn order_of(left: &Value, right: &Value, heap: &Heap) -> Result<Result<Ordering, Cause>, NoMemory>
    ensures { IfOk result (λ answer.
        answer ≡ order_within most_levels (plain_heap heap.now) (plain left.now)
        (plain right.now)) }
{
    let mut remaining = MOST_COMPARED;
    order(MOST_LEVELS, left, right, heap, &mut remaining)
}

/// `left op right` of two whole numbers.
#[inline]
fn compare_whole_numbers(op: CmpOp, left: i64, right: i64) -> Result<bool, Cause>
    ensures { (h : PlainHeap) → result ≡ compare_answer op (int_value left) (int_value right) h }
{
    let order = left.cmp(&right);
    match op {
        CmpOp::Eq => Ok(left == right),
        CmpOp::Ne => Ok(left != right),
        CmpOp::Lt => Ok(order.is_lt()),
        CmpOp::Le => Ok(!order.is_gt()),
        CmpOp::Gt => Ok(order.is_gt()),
        CmpOp::Ge => Ok(!order.is_lt()),
        CmpOp::In | CmpOp::NotIn => Err(Cause::UnsupportedOperand),
    }
}

fn contains(value: &Value, whole: &Value, heap: &Heap) -> Result<Result<bool, Cause>, NoMemory>
    ensures { IfOk result (λ answer.
        answer ≡ contains_answer (plain value.now) (plain whole.now) (plain_heap heap.now)) }
{
    match whole {
        Value::None | Value::Bool(_) | Value::Int(_) => Ok(Err(Cause::UnsupportedOperand)),
        Value::Str(text) => {
            if let Value::Str(part) = value {
                Ok(Ok(text.contains(part)))
            } else {
                Ok(Err(Cause::UnsupportedOperand))
            }
        }
        Value::Tuple(items) => is_item(value, items.as_slice(), heap),
        Value::List(addr) => is_item(value, heap.items(*addr), heap),
        Value::Dict(addr) => {
            if is_key(value) {
                Ok(Ok(heap.value_of(*addr, value).is_some()))
            } else {
                Ok(Err(Cause::UnhashableKey))
            }
        }
        Value::Func(_, _)
        | Value::Module(_)
        | Value::Kind(_)
        | Value::Exc(_, _)
        | Value::Builtin(_) => Ok(Err(Cause::UnsupportedOperand)),
    }
}

/// Whether some item equals the value. The pairs of all items are counted together.
fn is_item(value: &Value, items: &[Value], heap: &Heap) -> Result<Result<bool, Cause>, NoMemory>
    ensures { IfOk result (λ answer.
        answer ≡ is_item (equal_within most_levels (plain_heap heap.now)) (plain value.now)
        (plains items.now)) }
{
    let mut remaining = MOST_COMPARED;
    for item in items {
        match equal(MOST_LEVELS, value, item, heap, &mut remaining)? {
            Ok(true) => return Ok(Ok(true)),
            Ok(false) => {}
            Err(cause) => return Ok(Err(cause)),
        }
    }
    Ok(Ok(false))
}

/// The truth of a value: false for `None`, `False`, 0 and what is empty.
pub fn truth(value: &Value, heap: &Heap) -> bool
    ensures { result ≡ truth_of (plain value.now) (plain_heap heap.now) }
{
    match value {
        Value::None => false,
        Value::Bool(b) => *b,
        Value::Int(n) => *n != 0,
        Value::Str(text) => !text.is_empty(),
        Value::Tuple(items) => !items.as_slice().is_empty(),
        Value::List(addr) => !heap.items(*addr).is_empty(),
        Value::Dict(addr) => !heap.pairs(*addr).is_empty(),
        Value::Func(_, _)
        | Value::Module(_)
        | Value::Kind(_)
        | Value::Exc(_, _)
        | Value::Builtin(_) => true,
    }
}

impl Value {
    /// `self is None`.
    pub fn is_none(&self) -> bool
        ensures { result ≡ is_none_value (plain self.now) }
    {
        matches!(self, Value::None)
    }

    /// `self is True`, or `self is False`.
    pub fn is_bool(&self, wanted: bool) -> bool
        ensures { result ≡ is_bool_value wanted (plain self.now) }
    {
        if let Value::Bool(b) = self {
            *b == wanted
        } else {
            false
        }
    }
}
