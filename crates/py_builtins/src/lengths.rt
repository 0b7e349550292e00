// `len`.

ghost use Rattle.std.specs.Prelude.{◌≡◌, Ok, Err, IfOk, MatchOption, length, pos};
ghost use Rattle.py_value.specs.declared.cause.Cause.TheVariants.{BadArgument};
ghost use Rattle.py_value.specs.View.{plain, plains};
ghost use Rattle.py_value.specs.HeapView.{plain_heap};
ghost use Rattle.py_value.specs.Plain.{int_value};
ghost use Rattle.py_builtins.specs.Answering.{Answers};
ghost use Rattle.py_builtins.specs.Builtins.{size_of, len_of};

use crate::arguments::only;
use crate::pairs::pair_count;
use crate::raising::raise;
use py_value::{Cause, Heap, NoMemory, Raised, Value};
use std::alloc::{AllocError, Global};

/// `len(x)`.
pub(crate) fn len(
    alloc: Global,
    args: &[Value],
    heap: &Heap,
) -> Result<Result<Value, Raised>, NoMemory>
    ensures { Answers result heap.now (len_of (plains args.now) (plain_heap heap.now)) }
{
    match only(args) {
        None => raise(alloc, Cause::WrongArgumentCount),
        Some(value) => match size_of(value, heap) {
            None => raise(alloc, Cause::BadArgument),
            Some(size) => Ok(Ok(number_of(size)?)),
        },
    }
}

/// The number of a value's items, where it has items.
fn size_of(value: &Value, heap: &Heap) -> Option<usize>
    ensures { MatchOption result (size_of (plain value.now) (plain_heap heap.now) ≡ Err BadArgument)
        (λ n. size_of (plain value.now) (plain_heap heap.now) ≡ Ok n) }
{
    match value {
        Value::Str(text) => Some(text.len()),
        Value::Tuple(items) => Some(items.len()),
        Value::List(list) => Some(heap.items(*list).len()),
        Value::Dict(dict) => Some(pair_count(heap, *dict)),
        _ => None,
    }
}

/// The size as a value. A number of 64 bits counts more than any memory holds.
fn number_of(size: usize) -> Result<Value, NoMemory>
    ensures { IfOk result (λ value. plain value ≡ int_value (pos size)) }
{
    match i64::try_from(size) {
        Ok(n) => Ok(Value::Int(n)),
        Err(_) => Err(AllocError),
    }
}
