// A list whose front is at the end of a vector.
ghost use Rattle.std.specs.Prelude.{◌≡◌, ◌∷◌, ◌++◌, ◌-◌, ◌≤◌, List, [], None, Some, length, take, drop, remove, slice_get, OnOk, OnErr, MatchOption};

use py_value::NoMemory;
use std::alloc::Global;
use std::marker::Model;

/// A stack, seen as the list that has its top in front.
#[derive(Drop)]
pub struct Stack<T> {
    items: Vec<T>,
}

impl<T> Model for Stack<T> {
    ghost use Rattle.std.specs.Prelude.{List, reverse};

    ghost Value = { List T };

    ghost view = { λ a. reverse a.items.items };
}

impl<T> Stack<T> {
    pub fn new(alloc: Global) -> Stack<T>
        ensures { result ≡ [] }
    {
        Stack {
            items: Vec::new(alloc),
        }
    }

    pub fn len(&self) -> usize
        ensures { result ≡ length self.now }
    {
        self.items.len()
    }

    pub fn pop(&mut self) -> Option<T>
        ensures { MatchOption result ((self.old ≡ []) × (self.new ≡ [])) (λ x.
            self.old ≡ x ∷ self.new) }
    {
        self.items.pop()
    }

    /// What stands so many below the top.
    pub fn get(&self, below: usize) -> Option<&T>
        ensures { MatchOption result (slice_get self.now below ≡ None) (λ x.
            slice_get self.now below ≡ Some x.now) }
    {
        let count = self.items.len();
        if below < count {
            Some(&self.items[count - 1 - below])
        } else {
            None
        }
    }
}

impl<T: Drop> Stack<T> {
    pub fn push(&mut self, x: T) -> Result<(), NoMemory>
        ensures ok { OnOk result (self.new ≡ x ∷ self.old) }
        ensures err { OnErr result (self.new ≡ self.old) }
    {
        self.items.push(x)?;
        Ok(())
    }

    /// Takes away all but so many of the lowest.
    pub fn keep(&mut self, n: usize)
        ensures { self.new ≡ drop (length self.old - n) self.old }
    {
        self.items.truncate(n);
    }

    /// Takes away what stands so many below the top.
    pub fn remove(&mut self, below: usize) -> Option<T>
        ensures { MatchOption result ((slice_get self.old below ≡ None) × (self.new ≡ self.old))
            (λ x. (slice_get self.old below ≡ Some x) × (self.new ≡ remove self.old below)) }
    {
        let count = self.items.len();
        if below < count {
            Some(self.items.remove(count - 1 - below))
        } else {
            None
        }
    }

    /// Puts something below so many others.
    pub fn insert(&mut self, below: usize, x: T) -> Result<(), NoMemory>
        requires { below ≤ length self.old }
        ensures ok { OnOk result (self.new ≡ take below self.old ++ x ∷ drop below self.old) }
    {
        let place = self.items.len() - below;
        self.items.insert(place, x)?;
        Ok(())
    }

    /// Puts something in place of the topmost, where there is one.
    pub(crate) fn replace_top(&mut self, x: T)
        ensures { (y : T) (rest : List T) → self.old ≡ y ∷ rest → self.new ≡ x ∷ rest }
    {
        let count = self.items.len();
        if count >= 1 {
            self.items[count - 1] = x;
        } else {
            drop(x);
        }
    }

    /// Puts something in place of the two topmost, where there are two.
    pub(crate) fn replace_two(&mut self, x: T)
        ensures { (z y : T) (rest : List T) → self.old ≡ z ∷ y ∷ rest → self.new ≡ x ∷ rest }
    {
        let count = self.items.len();
        if count >= 2 {
            self.items[count - 2] = x;
            self.items.truncate(count - 1);
        } else {
            drop(x);
        }
    }
}
