// The methods of lists.

ghost use Rattle.std.specs.Prelude.{◌≡◌, OnErr, Some};
ghost use Rattle.py_value.specs.View.{plain, plains};
ghost use Rattle.py_value.specs.HeapView.{plain_heap};
ghost use Rattle.py_builtins.specs.Answering.{Answers, RaiseKeeps};
ghost use Rattle.py_builtins.specs.Methods.{append_value, append_of, take_item, pop_of_list};

use crate::arguments::{are_none, only};
use crate::raising::raise;
use py_value::{Addr, Cause, Heap, MOST_ITEMS, NoMemory, Raised, Value, place_among};
use std::alloc::Global;

/// `l.append(x)`.
pub(crate) fn append(
    alloc: Global,
    list: Addr,
    args: &[Value],
    heap: &mut Heap,
) -> Result<Result<Value, Raised>, NoMemory>
    ensures answer { Answers result heap.new
        (append_of list.place (plains args.now) (plain_heap heap.old)) }
    ensures raised { RaiseKeeps result heap.old heap.new }
    ensures err { OnErr result (plain_heap heap.new ≡ plain_heap heap.old) }
{
    match only(args) {
        Some(value) => append_value(alloc, list, value, heap),
        None => raise(alloc, Cause::WrongArgumentCount),
    }
}

fn append_value(
    alloc: Global,
    list: Addr,
    value: &Value,
    heap: &mut Heap,
) -> Result<Result<Value, Raised>, NoMemory>
    ensures answer { Answers result heap.new
        (append_value list.place (plain value.now) (plain_heap heap.old)) }
    ensures raised { RaiseKeeps result heap.old heap.new }
    ensures err { OnErr result (plain_heap heap.new ≡ plain_heap heap.old) }
{
    if heap.items(list).len() >= MOST_ITEMS {
        return raise(alloc, Cause::TooManyItems);
    }
    let value = value.copy(alloc)?;
    heap.push(list, value)?;
    Ok(Ok(Value::None))
}

/// `l.pop()`, `l.pop(i)`.
pub(crate) fn pop_item(
    alloc: Global,
    list: Addr,
    args: &[Value],
    heap: &mut Heap,
) -> Result<Result<Value, Raised>, NoMemory>
    ensures answer { Answers result heap.new
        (pop_of_list list.place (plains args.now) (plain_heap heap.old)) }
    ensures raised { RaiseKeeps result heap.old heap.new }
    ensures err { OnErr result (plain_heap heap.new ≡ plain_heap heap.old) }
{
    match only(args) {
        Some(at) => match at.number() {
            Some(i) => take_item(alloc, list, i, heap),
            None => raise(alloc, Cause::BadArgument),
        },
        None => {
            if are_none(args) {
                take_item(alloc, list, -1, heap)
            } else {
                raise(alloc, Cause::WrongArgumentCount)
            }
        }
    }
}

fn take_item(
    alloc: Global,
    list: Addr,
    at: i64,
    heap: &mut Heap,
) -> Result<Result<Value, Raised>, NoMemory>
    ensures answer { Answers result heap.new
        (take_item list.place (plain_heap heap.old) (Some at)) }
    ensures raised { RaiseKeeps result heap.old heap.new }
    ensures err { OnErr result (plain_heap heap.new ≡ plain_heap heap.old) }
{
    match place_among(heap.items(list).len(), at) {
        Some(k) => Ok(Ok(heap.take(list, k))),
        None => raise(alloc, Cause::PopIndex),
    }
}
