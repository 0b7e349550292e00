// The slots of a frame.
ghost use Rattle.std.specs.Prelude.{◌≡◌, ◌++◌, ◌-◌, None, Some, length, map, replicate, slice_get, slice_set, IfOk, MatchOption};
ghost use Rattle.py_value.specs.View.{plain, plains};
ghost use Rattle.py_code.specs.Slots.{held};
ghost use Rattle.py_world.specs.Values.{plain_option};
ghost use Rattle.py_instructions.specs.Locals.{slots_of};

use py_value::{NoMemory, Value};
use std::alloc::Global;

/// Slots, each with a value or unset.
#[derive(Drop)]
pub struct Slots {
    pub(crate) values: Vec<Option<Value>>,
}

impl Slots {
    /// These values, and unset slots after them, so many together.
    pub fn fresh(alloc: Global, values: Vec<Value>, count: usize) -> Result<Slots, NoMemory>
        ensures { IfOk result (λ slots.
            slots_of slots
            ≡ map Some (plains values.items)
            ++ replicate (count - length (plains values.items)) None) }
    {
        let more = count.saturating_sub(values.len());
        let mut slots = set_slots(alloc, values, count)?;
        'unset: for _ in 0..more {
            slots.push(None)?;
        }
        Ok(Slots { values: slots })
    }

    /// The value in a slot, if it is set.
    pub fn look(&self, n: usize) -> Option<&Value>
        ensures { MatchOption result (held (slice_get (slots_of self.now) n) ≡ None)
            (λ v. held (slice_get (slots_of self.now) n) ≡ Some (plain v.now)) }
    {
        match self.values.get(n) {
            None => None,
            Some(slot) => slot.as_ref(),
        }
    }

    pub fn set(&mut self, n: usize, value: Value)
        ensures { slots_of self.new ≡ slice_set (slots_of self.old) n (Some (plain value)) }
    {
        if n < self.values.len() {
            self.values[n] = Some(value);
        }
    }

    pub fn unset(&mut self, n: usize)
        ensures { slots_of self.new ≡ slice_set (slots_of self.old) n None }
    {
        if n < self.values.len() {
            self.values[n] = None;
        }
    }
}

/// Slots with these values, and room for so many.
fn set_slots(
    alloc: Global,
    values: Vec<Value>,
    count: usize,
) -> Result<Vec<Option<Value>>, NoMemory>
    ensures { IfOk result (λ slots. map plain_option slots.items ≡ map Some (plains values.items)) }
{
    let mut slots = Vec::with_capacity(alloc, count)?;
    let mut rest = values;
    while let Some(value) = rest.pop() {
        slots.push(Some(value))?;
    }
    slots.reverse();
    Ok(slots)
}
