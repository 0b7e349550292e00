//! Sets of arcs.
ghost use Rattle.std.specs.Prelude.{◌≡◌, ℕ, ℤ, ◌<◌, ◌↔◌, List, length, IsTrue, IfOk, IfSome, IfNone, slice_get};
ghost use Rattle.std.specs.List.{Contains};
ghost use Rattle.py_syntax.specs.Prediction.{arcs_in_order};
ghost use Rattle.cov_predict.specs.ArcSets.{IsInOrder};

use py_text::NoMemory;
use std::marker::Model;

/// A set of arcs: two neighbouring lines of a run, where the outside of a body is its first line,
/// negative. An arc's place is its number in the order of from and then to, counted from 0.
#[derive(Drop)]
pub struct ArcSet {
    arcs: Vec<(i32, i32)>,
}

impl Model for ArcSet {
    ghost Value = { List (ℤ × ℤ) };

    ghost view = { λ s. s.arcs.items };

    ghost invariant = { λ s. IsInOrder s.arcs.items };
}

impl ArcSet {
    /// The set of these arcs, which may come in any order and more than once.
    pub fn new(arcs: Vec<(i32, i32)>) -> ArcSet
        ensures { result ≡ arcs_in_order arcs.items }
    {
        let mut arcs = arcs;
        arcs.sort_unstable();
        arcs.dedup();
        ArcSet { arcs }
    }

    /// Takes no memory, and time of the logarithm of its size.
    pub fn has(&self, from: i32, to: i32) -> bool
        ensures { IsTrue result ↔ Contains self.now (from, to) }
    {
        match self.place(from, to) {
            Some(_) => true,
            None => false,
        }
    }

    /// How many arcs it has.
    pub fn len(&self) -> u64
        ensures count { result ≡ length self.now }
        ensures ordered { IsInOrder self.now }
    {
        self.arcs.len() as u64
    }

    /// The place of an arc, if it is in the set. Takes no memory, and time of the logarithm of its
    /// size.
    pub fn place(&self, from: i32, to: i32) -> Option<u64>
        ensures some { IfSome result (λ place. slice_get self.now place ≡ Some (from, to)) }
        ensures none { IfNone result (Contains self.now (from, to) → ⊥) }
    {
        match self.arcs.binary_search(&(from, to)) {
            Ok(place) => Some(place as u64),
            Err(_) => None,
        }
    }

    /// The arc at a place.
    pub fn at(&self, place: u64) -> (i32, i32)
        requires { place < length self.now }
        ensures { slice_get self.now place ≡ Some result }
    {
        self.arcs[place as usize]
    }

    /// An equal set.
    pub fn copy(&self) -> Result<ArcSet, NoMemory>
        ensures { IfOk result (λ s. s ≡ self.now) }
    {
        Ok(ArcSet {
            arcs: self.arcs.clone()?,
        })
    }
}
