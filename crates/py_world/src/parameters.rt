// The values of parameters.
ghost use Rattle.std.specs.Prelude.{◌≡◌, ◌++◌, ℕ, List, length, IfOk, OnOk, option_map};
ghost use Rattle.py_value.specs.HeapView.{plain_heap};
ghost use Rattle.py_value.specs.View.{place_of, plains};
ghost use Rattle.py_builtins.specs.Parameters.{arguments, defaults_at};
ghost use Rattle.py_world.specs.Values.{found_items};

use py_value::{Addr, Heap, NoMemory, Value};
use std::alloc::Global;

/// The values given, and for the last parameters the defaults; none where they don't fit.
pub fn arguments(
    alloc: Global,
    params: usize,
    values: Vec<Value>,
    defaults: Option<Addr>,
    heap: &Heap,
) -> Result<Option<Vec<Value>>, NoMemory>
    ensures { IfOk result (λ found.
        (names : List (List ℕ)) → length names ≡ params
        → found_items found
        ≡ arguments names (defaults_at (plain_heap heap.now) (option_map place_of defaults))
        (plains values.items)) }
{
    match defaults {
        None => {
            if values.len() == params {
                Ok(Some(values))
            } else {
                drop(values);
                Ok(None)
            }
        }
        Some(addr) => with_defaults(alloc, params, values, heap.items(addr)),
    }
}

fn with_defaults(
    alloc: Global,
    params: usize,
    values: Vec<Value>,
    defaults: &[Value],
) -> Result<Option<Vec<Value>>, NoMemory>
    ensures { IfOk result (λ found.
        (names : List (List ℕ)) → length names ≡ params
        → found_items found ≡ arguments names (plains defaults.now) (plains values.items)) }
{
    let given = values.len();
    if given > params {
        drop(values);
        return Ok(None);
    }
    if params - given > defaults.len() {
        drop(values);
        return Ok(None);
    }
    let mut all = values;
    let first = defaults.len() - (params - given);
    extend(alloc, &mut all, &defaults[first..])?;
    Ok(Some(all))
}

/// Adds equal values at the end.
fn extend(alloc: Global, values: &mut Vec<Value>, more: &[Value]) -> Result<(), NoMemory>
    ensures { OnOk result (plains values.new.items ≡ plains values.old.items ++ plains more.now) }
{
    for value in more {
        values.push(value.copy(alloc)?)?;
    }
    Ok(())
}
