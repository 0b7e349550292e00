// The pairs of a dict, in the order in which their keys came.

ghost use Rattle.std.specs.Prelude.{◌≡◌, map, IsTrue, ◌<◌, length, IfOk, OnOk, OnErr, MatchOption, Some, None, slice_get, remove, []};
ghost use Rattle.py_value.specs.View.{plain};
ghost use Rattle.py_value.specs.Pairs.{plain_pair};
ghost use Rattle.py_value.specs.Keys.{is_key, has_only_keys, has_distinct_keys, place_of_key, value_at, with_value};
ghost use Rattle.py_value.specs.Hashes.{IsIndex, has_key, first_with};

use crate::hash::hash_of;
use crate::key::is_same_key;
use crate::key_index::Index;
use crate::value::Value;
use py_text::NoMemory;
use std::alloc::Global;

/// A key and its value.
#[derive(Drop)]
pub struct Pair {
    pub key: Value,
    pub value: Value,
}

/// The number of pairs from which on a new key asks for an index.
const FEW: usize = 8;

/// Pairs, and the places of their keys by their hashes. Without buckets each pair is looked at.
#[derive(Drop)]
pub struct Pairs {
    pairs: Vec<Pair>,
    index: Index,
    ghost only_keys: { IsTrue (has_only_keys (map plain_pair pairs.items)) },
    ghost distinct_keys: { IsTrue (has_distinct_keys (map plain_pair pairs.items)) },
    ghost indexed: { IsIndex index (map plain_pair pairs.items) },
}

impl Pairs {
    ghost use Rattle.py_value.specs.Objects.{plain_pairs};

    pub fn new(alloc: Global) -> Pairs
        ensures { plain_pairs result ≡ [] }
    {
        Pairs {
            pairs: Vec::new(alloc),
            index: Index::empty(alloc),
        }
    }

    /// Equal pairs.
    pub fn copy(&self, alloc: Global) -> Result<Pairs, NoMemory>
        ensures { IfOk result (λ copy. plain_pairs copy ≡ plain_pairs self.now) }
    {
        let pairs = copy_pairs(alloc, &self.pairs)?;
        let index = index_of(alloc, &pairs)?;
        Ok(Pairs { pairs, index })
    }

    pub fn len(&self) -> usize
        ensures { result ≡ length (plain_pairs self.now) }
    {
        self.pairs.len()
    }

    pub fn as_slice(&self) -> &[Pair]
        ensures { map plain_pair result.now ≡ plain_pairs self.now }
    {
        self.pairs.as_slice()
    }

    /// The place of the pair with this key.
    pub fn place_of(&self, key: &Value) -> Option<usize>
        ensures { result ≡ place_of_key (plain key.now) (plain_pairs self.now) }
    {
        if self.index.len() == 0 {
            place_of_key(key, self.as_slice())
        } else {
            place_in(key, self.as_slice(), self.index.places(hash_of(key)))
        }
    }

    /// The value of a key.
    pub fn value_of(&self, key: &Value) -> Option<&Value>
        ensures { MatchOption result (value_at (plain key.now) (plain_pairs self.now) ≡ None)
            (λ v. value_at (plain key.now) (plain_pairs self.now) ≡ Some (plain v.now)) }
    {
        match self.place_of(key) {
            None => None,
            Some(i) => Some(&self.pairs[i].value),
        }
    }

    /// Sets the value of a key: a present key keeps its place, and a new one goes last.
    pub fn set(&mut self, key: Value, value: Value) -> Result<(), NoMemory>
        requires { IsTrue (is_key (plain key)) }
        ensures ok { OnOk result (plain_pairs self.new
            ≡ with_value (plain key) (plain value) (plain_pairs self.old)) }
        ensures err { OnErr result (plain_pairs self.new ≡ plain_pairs self.old) }
    {
        match self.place_of(&key) {
            Some(i) => {
                self.pairs[i].value = value;
                Ok(())
            }
            None => self.add(key, value),
        }
    }

    /// Adds a pair with a new key at the end.
    fn add(&mut self, key: Value, value: Value) -> Result<(), NoMemory>
        requires key { IsTrue (is_key (plain key)) }
        requires absent { place_of_key (plain key) (plain_pairs self.old) ≡ None }
        ensures ok { OnOk result (plain_pairs self.new
            ≡ with_value (plain key) (plain value) (plain_pairs self.old)) }
        ensures err { OnErr result (plain_pairs self.new ≡ plain_pairs self.old) }
    {
        self.make_room()?;
        let hash = hash_of(&key);
        let place = self.pairs.len();
        self.index.add(hash, place)?;
        self.pairs.push(Pair { key, value })?;
        Ok(())
    }

    /// Makes an index with more buckets, where one more pair would be too many for it.
    fn make_room(&mut self) -> Result<(), NoMemory>
        ensures { self.new.pairs ≡ self.old.pairs }
    {
        if self.index.len() <= self.pairs.len() {
            let index = index_of(*self.pairs.allocator(), &self.pairs)?;
            self.index = index;
        }
        Ok(())
    }

    /// Removes the pair at a place, and answers its value.
    pub fn remove(&mut self, at: usize) -> Value
        requires { at < length (plain_pairs self.old) }
        ensures value { slice_get (map (λ p. p.1) (plain_pairs self.old)) at ≡ Some (plain result) }
        ensures removed { plain_pairs self.new ≡ remove (plain_pairs self.old) at }
    {
        self.index = Index::empty(*self.pairs.allocator());
        let pair = self.pairs.remove(at);
        pair.value
    }
}

/// The place of the pair with this key.
pub fn place_of_key(key: &Value, pairs: &[Pair]) -> Option<usize>
    ensures { result ≡ place_of_key (plain key.now) (map plain_pair pairs.now) }
{
    for i in 0..pairs.len() {
        if is_same_key(key, &pairs[i].key) {
            return Some(i);
        }
    }
    None
}

/// The first of these places whose pair has the key.
fn place_in(key: &Value, pairs: &[Pair], places: &[usize]) -> Option<usize>
    ensures { result ≡ first_with (plain key.now) (map plain_pair pairs.now) places.now }
{
    for place in places {
        if has_key(key, pairs, *place) {
            return Some(*place);
        }
    }
    None
}

fn has_key(key: &Value, pairs: &[Pair], place: usize) -> bool
    ensures { result ≡ has_key (plain key.now) (slice_get (map plain_pair pairs.now) place) }
{
    if place < pairs.len() {
        is_same_key(key, &pairs[place].key)
    } else {
        false
    }
}

/// An index over pairs, where they are not few.
fn index_of(alloc: Global, pairs: &[Pair]) -> Result<Index, NoMemory>
    ensures { IfOk result (λ index. IsIndex index (map plain_pair pairs.now)) }
{
    if pairs.len() < FEW {
        return Ok(Index::empty(alloc));
    }
    // an odd number of buckets, over which also multiples of a power of two spread
    let count = pairs.len().saturating_mul(2).saturating_add(1);
    let mut index = Index::with_buckets(alloc, count)?;
    for i in 0..pairs.len() {
        index.add(hash_of(&pairs[i].key), i)?;
    }
    Ok(index)
}

fn copy_pairs(alloc: Global, pairs: &[Pair]) -> Result<Vec<Pair>, NoMemory>
    ensures { IfOk result (λ copies. map plain_pair copies.items ≡ map plain_pair pairs.now) }
{
    let mut copies = Vec::with_capacity(alloc, pairs.len())?;
    for pair in pairs {
        let key = pair.key.copy(alloc)?;
        let value = pair.value.copy(alloc)?;
        copies.push(Pair { key, value })?;
    }
    Ok(copies)
}
