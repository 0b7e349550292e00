// An item of a sequence, and the value of a key.

ghost use Rattle.std.specs.Prelude.{◌≡◌, IfOk};
ghost use Rattle.py_value.specs.View.{plain, plains, plain_value_answer};
ghost use Rattle.py_value.specs.HeapView.{plain_heap};
ghost use Rattle.py_value.specs.Answers.{in_words};
ghost use Rattle.py_value.specs.Causes.{raised_by};
ghost use Rattle.py_value.specs.Numbers.{number_of};
ghost use Rattle.py_value.specs.Operators.{index_of, item_answer, character_answer, value_answer};
ghost use Rattle.py_value.specs.Heaps.{dict_pairs};

use crate::cause::Cause;
use crate::heap::Heap;
use crate::key::is_key;
use crate::places::place_among;
use crate::raised::raise;
use crate::value::{Addr, Raised, Value};
use py_text::{NoMemory, Text};
use std::alloc::Global;

/// `of[at]`.
pub fn index(
    alloc: Global,
    of: &Value,
    at: &Value,
    heap: &Heap,
) -> Result<Result<Value, Raised>, NoMemory>
    ensures { IfOk result (λ answer.
        plain_value_answer answer ≡ index_of (plain of.now) (plain at.now) (plain_heap heap.now)) }
{
    match of {
        Value::List(addr) => item_among(alloc, heap.items(*addr), at, Cause::ListIndex),
        Value::Tuple(items) => item_among(alloc, items.as_slice(), at, Cause::TupleIndex),
        Value::Str(text) => character(alloc, text, at),
        Value::Dict(addr) => value_of_key(alloc, *addr, at, heap),
        _ => raise(alloc, Cause::NotSubscriptable),
    }
}

fn item_among(
    alloc: Global,
    items: &[Value],
    at: &Value,
    outside: Cause,
) -> Result<Result<Value, Raised>, NoMemory>
    ensures { IfOk result (λ answer.
        plain_value_answer answer
        ≡ in_words raised_by (item_answer outside (plains items.now) (number_of (plain at.now)))) }
{
    match at.number() {
        None => raise(alloc, Cause::NotSubscriptable),
        Some(i) => match place_among(items.len(), i) {
            None => raise(alloc, outside),
            Some(k) => match items.get(k) {
                None => raise(alloc, outside),
                Some(item) => Ok(Ok(item.copy(alloc)?)),
            },
        },
    }
}

fn character(alloc: Global, text: &Text, at: &Value) -> Result<Result<Value, Raised>, NoMemory>
    ensures { IfOk result (λ answer.
        plain_value_answer answer
        ≡ in_words raised_by (character_answer text.now (number_of (plain at.now)))) }
{
    match at.number() {
        None => raise(alloc, Cause::NotSubscriptable),
        Some(i) => match place_among(text.len(), i) {
            None => raise(alloc, Cause::StringIndex),
            Some(k) => match text.char_at(k) {
                None => raise(alloc, Cause::StringIndex),
                Some(c) => Ok(Ok(Value::Str(Text::of_char(alloc, c)?))),
            },
        },
    }
}

fn value_of_key(
    alloc: Global,
    dict: Addr,
    key: &Value,
    heap: &Heap,
) -> Result<Result<Value, Raised>, NoMemory>
    ensures { IfOk result (λ answer.
        plain_value_answer answer
        ≡ value_answer (plain key.now) (dict_pairs (plain_heap heap.now) dict.place)) }
{
    if !is_key(key) {
        return raise(alloc, Cause::UnhashableKey);
    }
    match heap.value_of(dict, key) {
        None => Ok(Err(Raised::of_key(alloc, key)?)),
        Some(value) => Ok(Ok(value.copy(alloc)?)),
    }
}
