// The methods of dicts.

ghost use Rattle.std.specs.Prelude.{◌≡◌, IfOk, OnErr, Some, length};
ghost use Rattle.py_value.specs.View.{plain, plains};
ghost use Rattle.py_value.specs.HeapView.{plain_heap};
ghost use Rattle.py_value.specs.Heaps.{dict_pairs, dict_keys};
ghost use Rattle.py_builtins.specs.Answering.{Answers, RaiseKeeps};
ghost use Rattle.py_builtins.specs.Methods.{pop_key, pop_key_or, pop_of_dict, get_or, get_of, keys_of};

use crate::arguments::{are_none, only, pair};
use crate::pairs::pair_count;
use crate::raising::raise;
use py_value::key::is_key;
use py_value::{Addr, Cause, Heap, NoMemory, Raised, Value};
use std::alloc::Global;

/// `d.pop(k)`, `d.pop(k, x)`.
pub(crate) fn pop_value(
    alloc: Global,
    dict: Addr,
    args: &[Value],
    heap: &mut Heap,
) -> Result<Result<Value, Raised>, NoMemory>
    ensures answer { Answers result heap.new
        (pop_of_dict dict.place (plains args.now) (plain_heap heap.old)) }
    ensures raised { RaiseKeeps result heap.old heap.new }
    ensures err { OnErr result (plain_heap heap.new ≡ plain_heap heap.old) }
{
    match only(args) {
        Some(key) => pop_key(alloc, dict, key, heap),
        None => match pair(args) {
            Some((key, absent)) => pop_key_or(alloc, dict, key, absent, heap),
            None => raise(alloc, Cause::WrongArgumentCount),
        },
    }
}

fn pop_key(
    alloc: Global,
    dict: Addr,
    key: &Value,
    heap: &mut Heap,
) -> Result<Result<Value, Raised>, NoMemory>
    ensures answer { Answers result heap.new
        (pop_key dict.place (plain key.now) (plain_heap heap.old)) }
    ensures raised { RaiseKeeps result heap.old heap.new }
    ensures err { OnErr result (plain_heap heap.new ≡ plain_heap heap.old) }
{
    if !is_key(key) {
        return raise(alloc, Cause::UnhashableKey);
    }
    match heap.place_of(dict, key) {
        Some(at) => Ok(Ok(heap.take(dict, at))),
        None => Ok(Err(Raised::of_key(alloc, key)?)),
    }
}

fn pop_key_or(
    alloc: Global,
    dict: Addr,
    key: &Value,
    absent: &Value,
    heap: &mut Heap,
) -> Result<Result<Value, Raised>, NoMemory>
    ensures answer { Answers result heap.new
        (pop_key_or dict.place (plain key.now) (plain absent.now) (plain_heap heap.old)) }
    ensures raised { RaiseKeeps result heap.old heap.new }
    ensures err { OnErr result (plain_heap heap.new ≡ plain_heap heap.old) }
{
    if !is_key(key) {
        return raise(alloc, Cause::UnhashableKey);
    }
    match heap.place_of(dict, key) {
        Some(place) => Ok(Ok(heap.take(dict, place))),
        None => Ok(Ok(absent.copy(alloc)?)),
    }
}

/// `d.get(k)`, `d.get(k, x)`.
pub(crate) fn get_value(
    alloc: Global,
    dict: Addr,
    args: &[Value],
    heap: &Heap,
) -> Result<Result<Value, Raised>, NoMemory>
    ensures answer { Answers result heap.now
        (get_of dict.place (plains args.now) (plain_heap heap.now)) }
{
    match only(args) {
        Some(key) => {
            let none = Value::None;
            get_or(alloc, dict, key, &none, heap)
        }
        None => match pair(args) {
            Some((key, absent)) => get_or(alloc, dict, key, absent, heap),
            None => raise(alloc, Cause::WrongArgumentCount),
        },
    }
}

fn get_or(
    alloc: Global,
    dict: Addr,
    key: &Value,
    absent: &Value,
    heap: &Heap,
) -> Result<Result<Value, Raised>, NoMemory>
    ensures answer { Answers result heap.now
        (get_or dict.place (plain key.now) (plain absent.now) (plain_heap heap.now)) }
{
    if !is_key(key) {
        return raise(alloc, Cause::UnhashableKey);
    }
    match heap.value_of(dict, key) {
        Some(value) => Ok(Ok(value.copy(alloc)?)),
        None => Ok(Ok(absent.copy(alloc)?)),
    }
}

/// `d.keys()`.
pub(crate) fn list_keys(
    alloc: Global,
    dict: Addr,
    args: &[Value],
    heap: &mut Heap,
) -> Result<Result<Value, Raised>, NoMemory>
    ensures answer { Answers result heap.new
        (keys_of dict.place (plains args.now) (plain_heap heap.old)) }
    ensures raised { RaiseKeeps result heap.old heap.new }
    ensures err { OnErr result (plain_heap heap.new ≡ plain_heap heap.old) }
{
    if !are_none(args) {
        return raise(alloc, Cause::WrongArgumentCount);
    }
    let keys = copy_keys(alloc, dict, heap)?;
    let made = heap.make_list(keys)?;
    Ok(Ok(Value::List(made)))
}

fn copy_keys(alloc: Global, dict: Addr, heap: &Heap) -> Result<Vec<Value>, NoMemory>
    ensures { IfOk result (λ keys. plains keys.items ≡ dict_keys (plain_heap heap.now) dict.place) }
{
    let mut keys = Vec::new(alloc);
    let count = pair_count(heap, dict);
    for at in 0..count {
        keys.push(heap.key(dict, at)?)?;
    }
    Ok(keys)
}
