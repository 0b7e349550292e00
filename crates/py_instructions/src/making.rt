// Values that displays and slices make.
ghost use Rattle.std.specs.Prelude.{◌≡◌, IfOk, OnErr};
ghost use Rattle.py_value.specs.Answers.{in_words};
ghost use Rattle.py_value.specs.Causes.{raised_by};
ghost use Rattle.py_value.specs.HeapView.{plain_heap};
ghost use Rattle.py_value.specs.View.{plain, plains, plain_outcome, plain_value_answer};
ghost use Rattle.py_builtins.specs.Making.{may_all_nest, new_tuple, slice_bound, sliced};
ghost use Rattle.py_builtins.specs.Methods.{new_list};
ghost use Rattle.py_code.specs.Operands.{text_in_value};
ghost use Rattle.py_world.specs.Values.{plain_option};

use py_value::{Cause, Heap, Items, MOST_ITEMS, NoMemory, Raised, Text, Value, slice};
use std::alloc::Global;

/// The text that a value is taken for.
pub fn into_text(alloc: Global, value: Value) -> Result<Text, NoMemory>
    ensures { IfOk result (λ text. text ≡ text_in_value (plain value)) }
{
    match &value {
        Value::Str(text) => text.copy(),
        _ => Ok(Text::new(alloc)),
    }
}

/// Whether each of the values may stand in a tuple.
fn may_all_nest(values: &[Value]) -> bool
    ensures { result ≡ may_all_nest (plains values.now) }
{
    for value in values {
        if !value.may_nest() {
            return false;
        }
    }
    true
}

/// The tuple of these values.
pub fn new_tuple(alloc: Global, values: Vec<Value>) -> Result<Result<Value, Raised>, NoMemory>
    ensures { IfOk result (λ answer. plain_value_answer answer ≡ new_tuple (plains values.items)) }
{
    if !may_all_nest(&values) {
        drop(values);
        return Ok(Err(Raised::of(alloc, Cause::TooDeep)?));
    }
    if values.len() <= MOST_ITEMS {
        Ok(Ok(Value::Tuple(Items::new(alloc, values)?)))
    } else {
        drop(values);
        Ok(Err(Raised::of(alloc, Cause::TooManyItems)?))
    }
}

/// A new list of these values.
pub fn new_list(
    alloc: Global,
    values: Vec<Value>,
    heap: &mut Heap,
) -> Result<Result<Value, Raised>, NoMemory>
    ensures answer { IfOk result (λ answer.
        plain_outcome answer (plain_heap heap.new)
        ≡ new_list (plains values.items) (plain_heap heap.old)) }
    ensures raised { IfOk result (λ answer.
        OnErr answer (plain_heap heap.new ≡ plain_heap heap.old)) }
{
    if values.len() <= MOST_ITEMS {
        let made = heap.make_list(values)?;
        Ok(Ok(Value::List(made)))
    } else {
        drop(values);
        Ok(Err(Raised::of(alloc, Cause::TooManyItems)?))
    }
}

/// `of[from:to]`, where a bound that is left out is None.
pub fn sliced(
    alloc: Global,
    of: &Value,
    from: &Option<Value>,
    to: &Option<Value>,
    heap: &mut Heap,
) -> Result<Result<Value, Raised>, NoMemory>
    ensures answer { IfOk result (λ answer.
        plain_outcome answer (plain_heap heap.new)
        ≡ sliced (plain of.now) (plain_option from.now) (plain_option to.now)
        (plain_heap heap.old)) }
    ensures raised { IfOk result (λ answer.
        OnErr answer (plain_heap heap.new ≡ plain_heap heap.old)) }
{
    match bound(from) {
        Err(cause) => Ok(Err(Raised::of(alloc, cause)?)),
        Ok(first) => match bound(to) {
            Err(cause) => Ok(Err(Raised::of(alloc, cause)?)),
            Ok(last) => slice(alloc, of, first, last, heap),
        },
    }
}

/// A bound of a slice, which is a number.
fn bound(value: &Option<Value>) -> Result<Option<i64>, Cause>
    ensures { in_words raised_by result ≡ slice_bound (plain_option value.now) }
{
    match value {
        None => Ok(None),
        Some(value) => match value.number() {
            None => Err(Cause::NotSubscriptable),
            Some(n) => Ok(Some(n)),
        },
    }
}
