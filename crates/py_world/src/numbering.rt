// Names by their numbers.
ghost use Rattle.std.specs.Prelude.{◌≡◌, None, Some, map, slice_get, if◌then◌else◌, IsTrue, IfOk, IfSome, MatchOption};
ghost use Rattle.py_value.specs.View.{plain};
ghost use Rattle.py_world.specs.Numbered.{HasNoNumber, plain_global, global_names, times, times_named, value_in, unset};
ghost use Rattle.py_world.specs.Values.{plain_option};

use crate::globals::Global;
use crate::name::{Name, is_same};
use py_value::{NoMemory, Text, Value};
use std::alloc::Global as Alloc;

/// The number of a name, if it has one. It is looked for at this number first.
pub fn number_of(globals: &[Global], name: &Text, likely: Option<usize>) -> Option<usize>
    ensures { MatchOption result (HasNoNumber name.now (global_names globals.now))
        (λ n. slice_get (global_names globals.now) n ≡ Some name.now) }
{
    if let Some(number) = likely {
        if is_at(globals, number, name) {
            return Some(number);
        }
    }
    number_by_name(globals, name)
}

/// Whether a name has this number.
pub fn is_at(globals: &[Global], number: usize, name: &Text) -> bool
    ensures { IsTrue result → slice_get (global_names globals.now) number ≡ Some name.now }
{
    match globals.get(number) {
        None => false,
        Some(global) => is_same(name, &global.name),
    }
}

/// A name, if it has this number.
pub fn name_at<'a>(globals: &'a [Global], name: &Text, number: usize) -> Option<&'a Name>
    ensures { IfSome result (λ found. found.now ≡ name.now) }
{
    let Some(global) = globals.get(number) else {
        return None;
    };
    if !is_same(name, &global.name) {
        return None;
    }
    Some(&global.name)
}

/// The number of a name, if it has one.
fn number_by_name(globals: &[Global], name: &Text) -> Option<usize>
    ensures { MatchOption result (HasNoNumber name.now (global_names globals.now))
        (λ n. slice_get (global_names globals.now) n ≡ Some name.now) }
{
    let mut number = 0;
    while number < globals.len() {
        if is_same(name, &globals[number].name) {
            return Some(number);
        }
        number += 1;
    }
    None
}

/// The value of the name at a number, if it is set.
pub fn value_at(globals: &[Global], number: usize) -> Option<&Value>
    ensures { MatchOption result (value_in (slice_get (map plain_global globals.now) number) ≡ None)
        (λ v. value_in (slice_get (map plain_global globals.now) number) ≡ Some (plain v.now)) }
{
    match globals.get(number) {
        None => None,
        Some(global) => match &global.value {
            None => None,
            Some(value) => Some(value),
        },
    }
}

/// Whether the name at a number is set.
pub fn is_set(globals: &[Global], number: usize) -> bool
    ensures { times_named (slice_get (map plain_global globals.now) number)
        ≡ (if result then 1 else 0) }
{
    match globals.get(number) {
        None => false,
        Some(global) => match &global.value {
            None => false,
            Some(_) => true,
        },
    }
}

/// The last place of a number.
pub fn last_place(numbers: &[usize], number: usize) -> Option<usize>
    ensures { MatchOption result (times number numbers.now ≡ 0)
        (λ place. slice_get numbers.now place ≡ Some number) }
{
    let mut rest = numbers.len();
    while rest > 0 {
        rest -= 1;
        if numbers[rest] == number {
            return Some(rest);
        }
    }
    None
}

/// The same names, none of which is set.
pub fn unset_again(alloc: Alloc, globals: &[Global]) -> Result<Vec<Global>, NoMemory>
    ensures { IfOk result (λ copies.
        map plain_global copies.items ≡ map unset (map plain_global globals.now)) }
{
    let mut items = Vec::with_capacity(alloc, globals.len())?;
    for global in globals {
        let name = global.name.copy()?;
        items.push(Global { name, value: None })?;
    }
    Ok(items)
}

/// Equal names and values.
pub fn copied(alloc: Alloc, globals: &[Global]) -> Result<Vec<Global>, NoMemory>
    ensures { IfOk result (λ copies.
        map plain_global copies.items ≡ map plain_global globals.now) }
{
    let mut items = Vec::with_capacity(alloc, globals.len())?;
    for global in globals {
        let name = global.name.copy()?;
        let value = copy_of(alloc, &global.value)?;
        items.push(Global { name, value })?;
    }
    Ok(items)
}

fn copy_of(alloc: Alloc, value: &Option<Value>) -> Result<Option<Value>, NoMemory>
    ensures { IfOk result (λ copy. plain_option copy ≡ plain_option value.now) }
{
    match value {
        None => Ok(None),
        Some(value) => Ok(Some(value.copy(alloc)?)),
    }
}
