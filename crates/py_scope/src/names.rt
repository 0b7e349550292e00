// Sets of names in the order in which they came.

ghost use Rattle.std.specs.Prelude.{◌≡◌, ◌<◌, ◌^◌, [], length, slice_get, Some, not, filter, IfOk, OnOk, OnErr};
ghost use Rattle.py_syntax.specs.Names.{is_among, add_name};

use indexmap::IndexSet;
use py_text::{NoMemory, Text};
use std::alloc::Global;
use std::marker::Model;

/// Names without repeats, seen as their list in the order in which they came.
pub struct NameSet {
    all: IndexSet<Text>,
}

// Written out, and not derived, so that letting a set go is one call wherever that happens.
impl Drop for NameSet {
    fn drop(self) {
        let NameSet { all } = self;
        drop(all)
    }
}

impl Model for NameSet {
    ghost use Rattle.std.specs.Prelude.{List, ℕ};

    ghost Value = { List (List ℕ) };

    ghost view = { λ s. s.all.keys };
}

impl NameSet {
    pub fn new(alloc: Global) -> NameSet
        ensures { result ≡ [] }
    {
        NameSet {
            all: IndexSet::new(alloc),
        }
    }

    /// Adds a name, and tells whether it is new.
    pub fn insert(&mut self, _alloc: Global, name: &Text) -> Result<bool, NoMemory>
        ensures added { OnOk result (self.new ≡ add_name self.old name.now) }
        ensures is_new { IfOk result (λ b. b ≡ not (is_among self.old name.now)) }
        ensures err { OnErr result (self.new ≡ self.old) }
    {
        let added = self.all.insert(name.copy()?)?;
        Ok(added)
    }

    pub fn contains(&self, name: &Text) -> bool
        ensures { result ≡ is_among self.now name.now }
    {
        self.all.contains(name)
    }

    /// How many names there are.
    pub fn len(&self) -> usize
        ensures len { result ≡ length self.now }
        ensures small { result < 2 ^ 63 }
    {
        self.all.len()
    }

    /// The name of this number, counted from 0.
    pub fn get(&self, _alloc: Global, at: usize) -> Result<Text, NoMemory>
        requires { at < length self.now }
        ensures { IfOk result (λ name. slice_get self.now at ≡ Some name) }
    {
        self.all.as_slice()[at].copy()
    }

    /// The names that other ones lack, in order.
    pub(crate) fn without(&self, alloc: Global, others: &NameSet) -> Result<Vec<Text>, NoMemory>
        ensures { IfOk result (λ v. v.items
            ≡ filter (λ x. not (is_among others.now x)) self.now) }
    {
        let mut left = Vec::new(alloc);
        let names = self.all.as_slice();
        for name in names {
            if !others.contains(name) {
                left.push(name.copy()?)?;
            }
        }
        Ok(left)
    }
}
