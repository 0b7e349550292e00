// An index of a dict: the places of its pairs by the hashes of their keys.

ghost use Rattle.std.specs.Prelude.{◌≡◌, ◌<◌, [], length, replicate, IfOk, OnOk, OnErr, MatchOption};
ghost use Rattle.py_value.specs.Hashes.{named, with_place};

use py_text::NoMemory;
use std::alloc::Global;
use std::marker::Model;

/// Buckets of places. A place stands in the bucket of its key's hash.
#[derive(Drop)]
pub struct Index {
    buckets: Vec<Vec<usize>>,
}

impl Model for Index {
    ghost use Rattle.std.specs.Prelude.{List, ℕ, map};

    ghost Value = { List (List ℕ) };

    ghost view = { λ index. map (λ places. places.items) index.buckets.items };
}

impl Index {
    /// Without a bucket, so that it tells nothing.
    pub fn empty(alloc: Global) -> Index
        ensures { result ≡ [] }
    {
        Index {
            buckets: Vec::new(alloc),
        }
    }

    /// With so many buckets, all empty.
    pub fn with_buckets(alloc: Global, count: usize) -> Result<Index, NoMemory>
        ensures { IfOk result (λ index. index ≡ replicate count []) }
    {
        let mut buckets = Vec::with_capacity(alloc, count)?;
        'turns: for _ in 0..count {
            buckets.push(Vec::new(alloc))?;
        }
        Ok(Index { buckets })
    }

    /// The number of buckets.
    pub fn len(&self) -> usize
        ensures { result ≡ length self.now }
    {
        self.buckets.len()
    }

    /// The places for a hash.
    pub fn places(&self, hash: usize) -> &[usize]
        requires { 0 < length self.now }
        ensures { result.now ≡ named self.now hash }
    {
        self.buckets[hash % self.buckets.len()].as_slice()
    }

    /// Adds a place for a hash, where there are buckets.
    pub fn add(&mut self, hash: usize, place: usize) -> Result<(), NoMemory>
        ensures ok { OnOk result (self.new ≡ with_place self.old hash place) }
        ensures err { OnErr result (self.new ≡ self.old) }
    {
        let count = self.buckets.len();
        if count == 0 {
            return Ok(());
        }
        self.buckets[hash % count].push(place)?;
        Ok(())
    }
}
