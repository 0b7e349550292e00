// Parts of sequences.

ghost use Rattle.std.specs.Prelude.{◌≡◌, IfOk, OnErr};
ghost use Rattle.py_value.specs.View.{plain, plains};
ghost use Rattle.py_value.specs.Answering.{Answers, RaiseKeeps};
ghost use Rattle.py_value.specs.HeapView.{plain_heap};
ghost use Rattle.py_value.specs.Sequences.{part};
ghost use Rattle.py_value.specs.Operators.{slice_of};

use crate::cause::Cause;
use crate::heap::Heap;
use crate::places::{first_bound, last_bound};
use crate::shared::Items;
use crate::value::{Raised, Value, copy_all};
use py_text::{NoMemory, Text};
use std::alloc::Global;

/// `of[from:to]`.
pub fn slice(
    alloc: Global,
    of: &Value,
    from: Option<i64>,
    to: Option<i64>,
    heap: &mut Heap,
) -> Result<Result<Value, Raised>, NoMemory>
    ensures answer { Answers result heap.new
        (slice_of (plain of.now) from to (plain_heap heap.old)) }
    ensures raised { RaiseKeeps result heap.old heap.new }
    ensures err { OnErr result (plain_heap heap.new ≡ plain_heap heap.old) }
{
    match of {
        Value::List(addr) => {
            let items = part_of(alloc, heap.items(*addr), from, to)?;
            let made = heap.make_list(items)?;
            Ok(Ok(Value::List(made)))
        }
        Value::Tuple(items) => {
            let part = part_of(alloc, items.as_slice(), from, to)?;
            Ok(Ok(Value::Tuple(Items::new(alloc, part)?)))
        }
        Value::Str(text) => Ok(Ok(Value::Str(part_of_text(text, from, to)?))),
        _ => Ok(Err(Raised::of(alloc, Cause::NotSubscriptable)?)),
    }
}

fn part_of(
    alloc: Global,
    items: &[Value],
    from: Option<i64>,
    to: Option<i64>,
) -> Result<Vec<Value>, NoMemory>
    ensures { IfOk result (λ copies. plains copies.items ≡ part from to (plains items.now)) }
{
    let first = first_bound(items.len(), from);
    let last = last_bound(items.len(), to);
    if first < last {
        let copies = copy_all(alloc, &items[first..last])?;
        Ok(copies)
    } else {
        Ok(Vec::new(alloc))
    }
}

fn part_of_text(text: &Text, from: Option<i64>, to: Option<i64>) -> Result<Text, NoMemory>
    ensures { IfOk result (λ copy. copy ≡ part from to text.now) }
{
    let count = text.len();
    let first = first_bound(count, from);
    let last = last_bound(count, to);
    text.part(first, last.saturating_sub(first))
}
