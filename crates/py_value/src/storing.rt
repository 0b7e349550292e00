// Items and values replaced.

ghost use Rattle.std.specs.Prelude.{◌≡◌, IfOk, OnErr};
ghost use Rattle.py_value.specs.View.{plain, plain_stored, after_change};
ghost use Rattle.py_value.specs.Answering.{RaiseKeeps};
ghost use Rattle.py_value.specs.HeapView.{plain_heap};
ghost use Rattle.py_value.specs.Operators.{store_of, store_answer, stored_item, stored_value};
ghost use Rattle.py_value.specs.Numbers.{number_of};

use crate::cause::Cause;
use crate::heap::Heap;
use crate::key::is_key;
use crate::limits::MOST_ITEMS;
use crate::places::place_among;
use crate::value::{Addr, Raised, Value};
use py_text::NoMemory;
use std::alloc::Global;

/// `of[at] = value`.
pub fn store(
    alloc: Global,
    of: &Value,
    at: &Value,
    value: Value,
    heap: &mut Heap,
) -> Result<Result<(), Raised>, NoMemory>
    ensures answer { IfOk result (λ answer.
        plain_stored answer (plain_heap heap.new)
        ≡ store_of (plain of.now) (plain at.now) (plain value) (plain_heap heap.old)) }
    ensures raised { RaiseKeeps result heap.old heap.new }
    ensures err { OnErr result (plain_heap heap.new ≡ plain_heap heap.old) }
{
    let stored = match of {
        Value::List(addr) => store_item(*addr, at, value, heap),
        Value::Dict(addr) => store_value(alloc, *addr, at, value, heap)?,
        _ => Err(Cause::NotSubscriptable),
    };
    match stored {
        Ok(()) => Ok(Ok(())),
        Err(cause) => Ok(Err(Raised::of(alloc, cause)?)),
    }
}

fn store_item(list: Addr, at: &Value, value: Value, heap: &mut Heap) -> Result<(), Cause>
    ensures answer { after_change result (plain_heap heap.new)
        ≡ stored_item list.place (plain value) (plain_heap heap.old) (number_of (plain at.now)) }
    ensures raised { OnErr result (plain_heap heap.new ≡ plain_heap heap.old) }
{
    match at.number() {
        None => Err(Cause::NotSubscriptable),
        Some(i) => match place_among(heap.items(list).len(), i) {
            None => Err(Cause::ListAssignmentIndex),
            Some(k) => {
                heap.set_item(list, k, value);
                Ok(())
            }
        },
    }
}

fn store_value(
    alloc: Global,
    dict: Addr,
    key: &Value,
    value: Value,
    heap: &mut Heap,
) -> Result<Result<(), Cause>, NoMemory>
    ensures answer { IfOk result (λ stored.
        after_change stored (plain_heap heap.new)
        ≡ stored_value dict.place (plain key.now) (plain value) (plain_heap heap.old)) }
    ensures raised { RaiseKeeps result heap.old heap.new }
    ensures err { OnErr result (plain_heap heap.new ≡ plain_heap heap.old) }
{
    if !is_key(key) {
        return Ok(Err(Cause::UnhashableKey));
    }
    if heap.value_of(dict, key).is_none() && heap.pairs(dict).len() >= MOST_ITEMS {
        return Ok(Err(Cause::TooManyItems));
    }
    let key = key.copy(alloc)?;
    heap.set_value(dict, key, value)?;
    Ok(Ok(()))
}
