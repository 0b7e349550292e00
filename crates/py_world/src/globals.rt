// The globals of a module.
ghost use Rattle.std.specs.Prelude.{◌≡◌, ◌<◌, [], List, ℕ, None, Some, length, map, slice_get, IsTrue, IfOk, IfSome, OnOk, MatchOption};
ghost use Rattle.py_value.specs.Plain.{int_value};
ghost use Rattle.py_value.specs.View.{plain};
ghost use Rattle.py_builtins.specs.Predefined.{predefined};
ghost use Rattle.py_builtins.specs.World.{value_of, with_name, without_name};
ghost use Rattle.py_world.specs.Numbered.{HaveOwnNames, AreListed, plain_global, global_names};

use crate::known_names::predefined;
use crate::name::Name;
use crate::numbering::{
    copied, is_at, is_set, last_place, name_at, number_of, unset_again, value_at,
};
use py_value::{NoMemory, Text, Value};
use std::alloc::Global as Alloc;

/// A name, and its value if it is set.
#[derive(Drop)]
pub struct Global {
    pub name: Name,
    pub value: Option<Value>,
}

/// Names with their values, each at its number, and the numbers of those that are set, in the order
/// in which they were.
#[derive(Drop)]
pub struct Globals {
    pub(crate) items: Vec<Global>,
    pub(crate) order: Vec<usize>,
    ghost own_names: { HaveOwnNames (global_names items.items) },
    ghost listed: { AreListed (map plain_global items.items) order.items },
}

impl Globals {
    ghost use Rattle.py_world.specs.Globals.{names_of, IsSetAt, IsKnown};

    pub fn new(alloc: Alloc) -> Globals
        ensures { names_of result ≡ [] }
    {
        Globals {
            items: Vec::new(alloc),
            order: Vec::new(alloc),
        }
    }

    /// These names, none of which is set.
    pub fn of_names(items: Vec<Global>, alloc: Alloc) -> Globals
        requires own { HaveOwnNames (global_names items.items) }
        requires unset { AreListed (map plain_global items.items) [] }
        ensures { names_of result ≡ [] }
    {
        Globals {
            items,
            order: Vec::new(alloc),
        }
    }

    /// The same names, none of which is set.
    pub fn unset_all(&self, alloc: Alloc) -> Result<Globals, NoMemory>
        ensures { IfOk result (λ globals. names_of globals ≡ []) }
    {
        let items = unset_again(alloc, &self.items)?;
        Ok(Globals {
            items,
            order: Vec::new(alloc),
        })
    }

    /// Equal globals.
    pub fn copy(&self, alloc: Alloc) -> Result<Globals, NoMemory>
        ensures { IfOk result (λ copy. names_of copy ≡ names_of self.now) }
    {
        let items = copied(alloc, &self.items)?;
        let order = self.order.clone()?;
        Ok(Globals { items, order })
    }

    /// The value of a name, if it is set. The name is looked for at this number first.
    pub fn get(&self, name: &Text, likely: Option<usize>) -> Option<&Value>
        ensures { MatchOption result (value_of name.now (names_of self.now) ≡ None)
            (λ v. value_of name.now (names_of self.now) ≡ Some (plain v.now)) }
    {
        match number_of(&self.items, name, likely) {
            None => None,
            Some(number) => value_at(&self.items, number),
        }
    }

    /// The value of what is predefined under a name. The name is looked for at this number first.
    pub fn predefined(&self, name: &Text, likely: Option<usize>) -> Option<Value>
        ensures { MatchOption result (value_of name.now predefined ≡ None) (λ v.
            value_of name.now predefined ≡ Some (plain v)) }
    {
        match self.named(name, likely) {
            Some(named) => named.predefined(),
            None => predefined(name),
        }
    }

    /// A name, if it has this number.
    fn named(&self, name: &Text, likely: Option<usize>) -> Option<&Name>
        ensures { IfSome result (λ found. found.now ≡ name.now) }
    {
        match likely {
            None => None,
            Some(number) => name_at(&self.items, name, number),
        }
    }

    /// Sets a name: one that is set keeps its place, and a new one goes last. The name is looked
    /// for at this number first.
    pub fn set(&mut self, name: &Text, likely: Option<usize>, value: Value) -> Result<(), NoMemory>
        ensures { OnOk result (names_of self.new
            ≡ with_name name.now (plain value) (names_of self.old)) }
    {
        let number = self.numbered(name, likely)?;
        self.set_at(number, value)
    }

    /// The number of a name, which gets one if it has none.
    fn numbered(&mut self, name: &Text, likely: Option<usize>) -> Result<usize, NoMemory>
        ensures same { OnOk result (names_of self.new ≡ names_of self.old) }
        ensures at { IfOk result (λ n.
            slice_get (global_names self.new.items.items) n ≡ Some name.now) }
    {
        if let Some(number) = number_of(&self.items, name, likely) {
            return Ok(number);
        }
        let number = self.items.len();
        let name = Name::of(name)?;
        self.items.push(Global { name, value: None })?;
        Ok(number)
    }

    /// The whole number that a name is set to, if it has this number and is set to one.
    pub(crate) fn whole(&self, name: &Text, number: usize) -> Option<i64>
        ensures { IfSome result (λ n. value_of name.now (names_of self.now)
            ≡ Some (int_value n)) }
    {
        if !is_at(&self.items, number, name) {
            return None;
        }
        match value_at(&self.items, number) {
            None => None,
            Some(value) => whole_number(value),
        }
    }

    /// Whether a name is set and has this number.
    pub(crate) fn is_known(&self, name: &Text, number: usize) -> bool
        ensures { IsTrue result → IsKnown name.now number self.now }
    {
        is_at(&self.items, number, name) && is_set(&self.items, number)
    }

    /// Sets the name at a number, which is set already. It keeps its place.
    pub(crate) fn set_again(&mut self, number: usize, value: Value)
        requires within { number < length self.old.items.items }
        requires set { IsSetAt number self.old }
        ensures { (x : List ℕ)
            → slice_get (global_names self.old.items.items) number ≡ Some x
            → names_of self.new ≡ with_name x (plain value) (names_of self.old) }
    {
        self.items[number].value = Some(value);
    }

    /// Sets the name at a number.
    fn set_at(&mut self, number: usize, value: Value) -> Result<(), NoMemory>
        requires { number < length self.old.items.items }
        ensures { OnOk result ((x : List ℕ)
            → slice_get (global_names self.old.items.items) number ≡ Some x
            → names_of self.new ≡ with_name x (plain value) (names_of self.old)) }
    {
        if is_set(&self.items, number) {
            self.set_again(number, value);
            return Ok(());
        }
        self.order.push(number)?;
        self.items[number].value = Some(value);
        Ok(())
    }

    /// Unsets a name. It is looked for at this number first.
    pub fn unset(&mut self, name: &Text, likely: Option<usize>)
        ensures { names_of self.new ≡ without_name name.now (names_of self.old) }
    {
        let Some(number) = number_of(&self.items, name, likely) else {
            return;
        };
        let Some(place) = last_place(&self.order, number) else {
            return;
        };
        self.order.remove(place);
        self.items[number].value = None;
    }
}

/// The whole number that a value is; a bool is none.
fn whole_number(value: &Value) -> Option<i64>
    ensures { IfSome result (λ n. plain value.now ≡ int_value n) }
{
    if let Value::Int(n) = value {
        Some(*n)
    } else {
        None
    }
}
