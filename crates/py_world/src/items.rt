// The items of values.
ghost use Rattle.std.specs.Prelude.{◌≡◌, None, Some, Ok, length, IfOk, IfSome, MatchOption, slice_get, option_map};
ghost use Rattle.std.specs.Str.{chars};
ghost use Rattle.py_value.specs.Heaps.{dict_keys, dict_pairs};
ghost use Rattle.py_value.specs.HeapView.{plain_heap};
ghost use Rattle.py_value.specs.Operators.{items_to_append, characters};
ghost use Rattle.py_value.specs.View.{plain, plains, plain_answer};
ghost use Rattle.py_builtins.specs.Items.{items_in, unpacked, walk_length, item_of, has_changed, sequence_items, of_length};
ghost use Rattle.py_world.specs.Values.{plain_option};
ghost use Rattle.py_world.specs.Values.{found_items, plain_list_answer, plain_item_answer};

use py_value::value::copy_all;
use py_value::{Addr, Cause, Heap, NoMemory, Raised, Text, Value};
use std::alloc::Global;

/// The items of a value that has some.
fn items_of(alloc: Global, value: &Value, heap: &Heap) -> Result<Option<Vec<Value>>, NoMemory>
    ensures { IfOk result (λ found.
        found_items found ≡ items_to_append (plain_heap heap.now) (plain value.now)) }
{
    match value {
        Value::List(addr) => Ok(Some(copy_all(alloc, heap.items(*addr))?)),
        Value::Tuple(items) => Ok(Some(copy_all(alloc, items.as_slice())?)),
        Value::Str(text) => Ok(Some(characters_of(alloc, text.as_str())?)),
        Value::Dict(addr) => Ok(Some(keys_of(alloc, *addr, heap)?)),
        _ => Ok(None),
    }
}

fn characters_of(alloc: Global, text: &str) -> Result<Vec<Value>, NoMemory>
    ensures { IfOk result (λ values. plains values.items ≡ characters (chars text.now)) }
{
    let mut values = Vec::new(alloc);
    for c in text.chars() {
        values.push(Value::Str(Text::of_char(alloc, c)?))?;
    }
    Ok(values)
}

/// How many keys a dict has.
fn key_count(dict: Addr, heap: &Heap) -> usize
    ensures { result ≡ length (dict_pairs (plain_heap heap.now) dict.place) }
{
    if heap.is_list(dict) {
        0
    } else {
        heap.len(dict)
    }
}

fn keys_of(alloc: Global, dict: Addr, heap: &Heap) -> Result<Vec<Value>, NoMemory>
    ensures { IfOk result (λ keys. plains keys.items ≡ dict_keys (plain_heap heap.now) dict.place) }
{
    let count = key_count(dict, heap);
    let mut keys = Vec::with_capacity(alloc, count)?;
    for at in 0..count {
        keys.push(heap.key(dict, at)?)?;
    }
    Ok(keys)
}

/// Exactly so many items of a value. They are copied only where there are so many.
pub fn unpacked(
    alloc: Global,
    count: usize,
    value: &Value,
    heap: &Heap,
) -> Result<Result<Vec<Value>, Raised>, NoMemory>
    ensures { IfOk result (λ answer.
        plain_list_answer answer ≡ unpacked count (plain value.now) (plain_heap heap.now)) }
{
    let Some(found) = count_of(value, heap) else {
        return Ok(Err(Raised::of(alloc, Cause::NotIterable)?));
    };
    if found != count {
        return Ok(Err(Raised::of(alloc, Cause::WrongValueCount)?));
    }
    match items_of(alloc, value, heap)? {
        None => Ok(Err(Raised::of(alloc, Cause::NotIterable)?)),
        Some(items) => Ok(Ok(items)),
    }
}

/// How many items a value has, where it has some.
fn count_of(value: &Value, heap: &Heap) -> Option<usize>
    ensures { result ≡ option_map length (items_to_append (plain_heap heap.now) (plain value.now)) }
{
    match value {
        Value::List(addr) => Some(heap.items(*addr).len()),
        Value::Tuple(items) => Some(items.as_slice().len()),
        Value::Str(text) => Some(text.len()),
        Value::Dict(addr) => Some(key_count(*addr, heap)),
        _ => None,
    }
}

/// The number of items at the start of a walk.
pub fn walk_length(
    alloc: Global,
    value: &Value,
    heap: &Heap,
) -> Result<Result<usize, Raised>, NoMemory>
    ensures { IfOk result (λ answer.
        plain_answer answer ≡ walk_length (plain value.now) (plain_heap heap.now)) }
{
    match count_of(value, heap) {
        None => Ok(Err(Raised::of(alloc, Cause::NotIterable)?)),
        Some(count) => Ok(Ok(count)),
    }
}

/// Whether a dict has another number of keys than at the start of a walk.
fn has_changed(value: &Value, count: usize, heap: &Heap) -> bool
    ensures { result ≡ has_changed (plain value.now) count (plain_heap heap.now) }
{
    match value {
        Value::Dict(addr) => key_count(*addr, heap) != count,
        _ => false,
    }
}

/// The item of a turn, or none at the end of the walk.
pub fn item_of(
    alloc: Global,
    value: &Value,
    count: usize,
    place: usize,
    heap: &Heap,
) -> Result<Result<Option<Value>, Raised>, NoMemory>
    ensures { IfOk result (λ answer.
        plain_item_answer answer ≡ item_of (plain value.now) count place (plain_heap heap.now)) }
{
    if has_changed(value, count, heap) {
        return Ok(Err(Raised::of(alloc, Cause::DictChangedSize)?));
    }
    match value {
        Value::List(addr) => Ok(Ok(copy_at(alloc, heap.items(*addr), place)?)),
        Value::Tuple(items) => Ok(Ok(copy_at(alloc, items.as_slice(), place)?)),
        Value::Str(text) => Ok(Ok(character_at(alloc, text, place)?)),
        Value::Dict(addr) => Ok(Ok(key_at(*addr, heap, place)?)),
        _ => Ok(Err(Raised::of(alloc, Cause::NotIterable)?)),
    }
}

/// The character at a place, as a text.
fn character_at(alloc: Global, text: &Text, place: usize) -> Result<Option<Value>, NoMemory>
    ensures { IfOk result (λ found.
        plain_option found ≡ slice_get (characters text.now) place) }
{
    match text.char_at(place) {
        None => Ok(None),
        Some(c) => Ok(Some(Value::Str(Text::of_char(alloc, c)?))),
    }
}

/// A copy of the key at a place.
fn key_at(dict: Addr, heap: &Heap, place: usize) -> Result<Option<Value>, NoMemory>
    ensures { IfOk result (λ found.
        plain_option found ≡ slice_get (dict_keys (plain_heap heap.now) dict.place) place) }
{
    if place < key_count(dict, heap) {
        Ok(Some(heap.key(dict, place)?))
    } else {
        Ok(None)
    }
}

/// A copy of the value at a place.
fn copy_at(alloc: Global, values: &[Value], place: usize) -> Result<Option<Value>, NoMemory>
    ensures { IfOk result (λ found. plain_option found ≡ slice_get (plains values.now) place) }
{
    match values.get(place) {
        None => Ok(None),
        Some(value) => Ok(Some(value.copy(alloc)?)),
    }
}

/// The items of a list or tuple of so many, where they stand.
pub fn sequence_of<'a>(count: usize, value: &'a Value, heap: &'a Heap) -> Option<&'a [Value]>
    ensures found { MatchOption result
        (of_length count (sequence_items (plain value.now) (plain_heap heap.now)) ≡ None)
        (λ items. of_length count (sequence_items (plain value.now) (plain_heap heap.now))
        ≡ Some (plains items.now)) }
    ensures unpacked { IfSome result (λ items.
        unpacked count (plain value.now) (plain_heap heap.now) ≡ Ok (plains items.now)) }
{
    match value {
        Value::List(addr) => {
            let items = heap.items(*addr);
            if items.len() == count {
                Some(items)
            } else {
                None
            }
        }
        Value::Tuple(tuple) => {
            let items = tuple.as_slice();
            if items.len() == count {
                Some(items)
            } else {
                None
            }
        }
        _ => None,
    }
}
