// The heap: lists and dicts, which values name by their addresses.

ghost use Rattle.std.specs.Prelude.{◌≡◌, ◌↔◌, ◌<◌, ◌++◌, ◌∷◌, [], length, IsTrue, IfOk, OnOk, OnErr, MatchOption, None, Some, map, slice_get, slice_set};
ghost use Rattle.py_value.specs.View.{plain, plains};
ghost use Rattle.py_value.specs.Pairs.{plain_pair};
ghost use Rattle.py_value.specs.Objects.{plain_objects};
ghost use Rattle.py_value.specs.Plain.{list_object, dict_object};
ghost use Rattle.py_value.specs.Heaps.{object_at, list_items, dict_pairs, dict_keys, values_of, length_of, is_list_object, without, with_object, with_items, with_pairs, change, change_list, change_dict};
ghost use Rattle.py_value.specs.Keys.{is_key, place_of_key, value_at, with_value, is_sound_heap};

use crate::pairs::{Pair, Pairs};
use crate::value::{Addr, Value, copy_all};
use py_text::NoMemory;
use std::alloc::{AllocError, Global};

/// A list, or a dict with its pairs in the order in which their keys came.
#[derive(Drop)]
enum Object {
    List(Vec<Value>),
    Dict(Pairs),
}

impl Object {
    ghost use Rattle.py_value.specs.Objects.{plain_object};

    fn copy(&self, alloc: Global) -> Result<Object, NoMemory>
        ensures { IfOk result (λ copy. plain_object copy ≡ plain_object self.now) }
    {
        match self {
            Object::List(items) => Ok(Object::List(copy_all(alloc, items)?)),
            Object::Dict(pairs) => Ok(Object::Dict(pairs.copy(alloc)?)),
        }
    }

    fn push(&mut self, value: Value) -> Result<(), NoMemory>
        ensures ok { OnOk result (plain_object self.new
            ≡ with_items (λ vs. vs ++ plain value ∷ []) (plain_object self.old)) }
        ensures err { OnErr result (plain_object self.new ≡ plain_object self.old) }
    {
        match self {
            Object::List(items) => {
                items.push(value)?;
                Ok(())
            }
            Object::Dict(_) => Ok(()),
        }
    }

    fn append(&mut self, mut values: Vec<Value>) -> Result<(), NoMemory>
        ensures ok { OnOk result (plain_object self.new
            ≡ with_items (λ vs. vs ++ plains values.items) (plain_object self.old)) }
        ensures err { OnErr result (plain_object self.new ≡ plain_object self.old) }
    {
        match self {
            Object::List(items) => {
                items.append(&mut values)?;
                Ok(())
            }
            Object::Dict(_) => Ok(()),
        }
    }

    fn set_item(&mut self, at: usize, value: Value)
        ensures { plain_object self.new
            ≡ with_items (λ vs. slice_set vs at (plain value)) (plain_object self.old) }
    {
        if let Object::List(items) = self
            && at < items.len()
        {
            items[at] = value;
        }
    }

    fn set_items(&mut self, values: Vec<Value>)
        ensures { plain_object self.new
            ≡ with_items (λ _. plains values.items) (plain_object self.old) }
    {
        if let Object::List(items) = self {
            *items = values;
        }
    }

    fn set_value(&mut self, key: Value, value: Value) -> Result<(), NoMemory>
        requires { IsTrue (is_key (plain key)) }
        ensures ok { OnOk result (plain_object self.new
            ≡ with_pairs (with_value (plain key) (plain value)) (plain_object self.old)) }
        ensures err { OnErr result (plain_object self.new ≡ plain_object self.old) }
    {
        match self {
            Object::List(_) => Ok(()),
            Object::Dict(pairs) => pairs.set(key, value),
        }
    }

    fn take(&mut self, at: usize) -> Value
        requires { at < length_of (plain_object self.old) }
        ensures value { slice_get (values_of (plain_object self.old)) at ≡ Some (plain result) }
        ensures taken { plain_object self.new ≡ without at (plain_object self.old) }
    {
        match self {
            Object::List(items) => items.remove(at),
            Object::Dict(pairs) => pairs.remove(at),
        }
    }
}

fn copy_objects(alloc: Global, objects: &[Object]) -> Result<Vec<Object>, NoMemory>
    ensures { IfOk result (λ copies. plain_objects copies.items ≡ plain_objects objects.now) }
{
    let mut copies = Vec::with_capacity(alloc, objects.len())?;
    for object in objects {
        copies.push(object.copy(alloc)?)?;
    }
    Ok(copies)
}

/// The place after so many objects. An address has 32 bits, and more objects count as want of
/// memory.
fn place_after(count: usize) -> Result<u32, NoMemory>
    ensures { IfOk result (λ place. place ≡ count) }
{
    match u32::try_from(count) {
        Ok(place) => Ok(place),
        Err(_) => Err(AllocError),
    }
}

/// The lists and dicts of a program. Objects are never removed, so an address stays good.
#[derive(Drop)]
pub struct Heap {
    objects: Vec<Object>,
}

impl Heap {
    ghost use Rattle.py_value.specs.HeapView.{plain_heap};

    pub fn new(alloc: Global) -> Heap
        ensures { plain_heap result ≡ [] }
    {
        Heap {
            objects: Vec::new(alloc),
        }
    }

    /// An equal heap, in which each address names what it names here.
    pub fn copy(&self) -> Result<Heap, NoMemory>
        ensures { IfOk result (λ copy. plain_heap copy ≡ plain_heap self.now) }
    {
        let alloc = *self.objects.allocator();
        let objects = copy_objects(alloc, &self.objects)?;
        Ok(Heap { objects })
    }

    /// The number of objects. The addresses below it lie in the heap.
    pub fn object_count(&self) -> usize
        ensures count { result ≡ length (plain_heap self.now) }
        ensures distinct_keys { IsTrue (is_sound_heap (plain_heap self.now)) }
    {
        self.objects.len()
    }

    /// Whether the address is that of a list.
    pub fn is_list(&self, of: Addr) -> bool
        ensures { result ≡ is_list_object (object_at (plain_heap self.now) of.place) }
    {
        match self.objects.get(of.place as usize) {
            Some(Object::Dict(_)) => false,
            Some(Object::List(_)) | None => true,
        }
    }

    /// The number of a list's items or of a dict's pairs.
    pub fn len(&self, of: Addr) -> usize
        ensures { result ≡ length_of (object_at (plain_heap self.now) of.place) }
    {
        match self.objects.get(of.place as usize) {
            None => 0,
            Some(Object::List(items)) => items.len(),
            Some(Object::Dict(pairs)) => pairs.len(),
        }
    }

    /// The items of a list; of a dict none.
    pub fn items(&self, of: Addr) -> &[Value]
        ensures { plains result.now ≡ list_items (plain_heap self.now) of.place }
    {
        match self.objects.get(of.place as usize) {
            Some(Object::List(items)) => items.as_slice(),
            Some(Object::Dict(_)) | None => &[],
        }
    }

    /// Makes a list of these items at the end of the heap.
    pub fn make_list(&mut self, items: Vec<Value>) -> Result<Addr, NoMemory>
        ensures address { IfOk result (λ addr. addr.place ≡ length (plain_heap self.old)) }
        ensures ok { OnOk result (plain_heap self.new
            ≡ with_object (plain_heap self.old) (list_object (plains items.items))) }
        ensures err { OnErr result (plain_heap self.new ≡ plain_heap self.old) }
    {
        let place = place_after(self.objects.len())?;
        self.objects.push(Object::List(items))?;
        Ok(Addr { place })
    }

    /// Makes an empty dict at the end of the heap.
    pub fn make_dict(&mut self) -> Result<Addr, NoMemory>
        ensures address { IfOk result (λ addr. addr.place ≡ length (plain_heap self.old)) }
        ensures ok { OnOk result (plain_heap self.new
            ≡ with_object (plain_heap self.old) (dict_object [])) }
        ensures err { OnErr result (plain_heap self.new ≡ plain_heap self.old) }
    {
        let place = place_after(self.objects.len())?;
        let pairs = Pairs::new(*self.objects.allocator());
        self.objects.push(Object::Dict(pairs))?;
        Ok(Addr { place })
    }

    /// The pairs of a dict in the order in which their keys came; of a list none.
    pub(crate) fn pairs(&self, of: Addr) -> &[Pair]
        ensures { map plain_pair result.now ≡ dict_pairs (plain_heap self.now) of.place }
    {
        match self.objects.get(of.place as usize) {
            Some(Object::Dict(pairs)) => pairs.as_slice(),
            Some(Object::List(_)) | None => &[],
        }
    }

    /// The place of a key among a dict's pairs.
    pub fn place_of(&self, dict: Addr, key: &Value) -> Option<usize>
        ensures { result
            ≡ place_of_key (plain key.now) (dict_pairs (plain_heap self.now) dict.place) }
    {
        match self.objects.get(dict.place as usize) {
            Some(Object::Dict(pairs)) => pairs.place_of(key),
            Some(Object::List(_)) | None => None,
        }
    }

    /// The value of a dict's key.
    pub fn value_of(&self, dict: Addr, key: &Value) -> Option<&Value>
        ensures { MatchOption result
            (value_at (plain key.now) (dict_pairs (plain_heap self.now) dict.place) ≡ None)
            (λ v. value_at (plain key.now) (dict_pairs (plain_heap self.now) dict.place)
            ≡ Some (plain v.now)) }
    {
        match self.objects.get(dict.place as usize) {
            Some(Object::Dict(pairs)) => pairs.value_of(key),
            Some(Object::List(_)) | None => None,
        }
    }

    /// A list's item, or the value of a dict's pair.
    pub fn item(&self, of: Addr, at: usize) -> &Value
        requires { at < length_of (object_at (plain_heap self.now) of.place) }
        ensures { slice_get (values_of (object_at (plain_heap self.now) of.place)) at
            ≡ Some (plain result.now) }
    {
        if self.is_list(of) {
            &self.items(of)[at]
        } else {
            &self.pairs(of)[at].value
        }
    }

    /// The key of a dict's pair.
    pub fn key(&self, of: Addr, at: usize) -> Result<Value, NoMemory>
        requires { at < length (dict_pairs (plain_heap self.now) of.place) }
        ensures { IfOk result (λ key.
            slice_get (dict_keys (plain_heap self.now) of.place) at ≡ Some (plain key)) }
    {
        let alloc = *self.objects.allocator();
        let key = self.pairs(of)[at].key.copy(alloc)?;
        Ok(key)
    }

    /// Adds a value at the end of a list.
    pub fn push(&mut self, list: Addr, value: Value) -> Result<(), NoMemory>
        ensures ok { OnOk result (plain_heap self.new
            ≡ change_list (plain_heap self.old) list.place (λ vs. vs ++ plain value ∷ [])) }
        ensures err { OnErr result (plain_heap self.new ≡ plain_heap self.old) }
    {
        if (list.place as usize) < self.objects.len() {
            self.objects[list.place as usize].push(value)?;
        }
        Ok(())
    }

    /// Removes an item of a list, or a pair of a dict, and answers the item or the pair's value.
    pub fn take(&mut self, of: Addr, at: usize) -> Value
        requires place { of.place < length (plain_heap self.old) }
        requires inside { at < length_of (object_at (plain_heap self.old) of.place) }
        ensures value { slice_get (values_of (object_at (plain_heap self.old) of.place)) at
            ≡ Some (plain result) }
        ensures taken { plain_heap self.new ≡ change (plain_heap self.old) of.place (without at) }
    {
        self.objects[of.place as usize].take(at)
    }

    /// Adds values at the end of a list.
    pub(crate) fn append(&mut self, list: Addr, values: Vec<Value>) -> Result<(), NoMemory>
        ensures ok { OnOk result (plain_heap self.new
            ≡ change_list (plain_heap self.old) list.place (λ vs. vs ++ plains values.items)) }
        ensures err { OnErr result (plain_heap self.new ≡ plain_heap self.old) }
    {
        if (list.place as usize) < self.objects.len() {
            self.objects[list.place as usize].append(values)?;
        }
        Ok(())
    }

    /// Replaces an item of a list.
    pub(crate) fn set_item(&mut self, list: Addr, at: usize, value: Value)
        ensures { plain_heap self.new
            ≡ change_list (plain_heap self.old) list.place (λ vs. slice_set vs at (plain value)) }
    {
        if (list.place as usize) < self.objects.len() {
            self.objects[list.place as usize].set_item(at, value);
        }
    }

    /// Replaces all items of a list.
    pub(crate) fn set_items(&mut self, list: Addr, values: Vec<Value>)
        ensures { plain_heap self.new
            ≡ change_list (plain_heap self.old) list.place (λ _. plains values.items) }
    {
        if (list.place as usize) < self.objects.len() {
            self.objects[list.place as usize].set_items(values);
        }
    }

    /// Sets the value of a dict's key.
    pub(crate) fn set_value(&mut self, dict: Addr, key: Value, value: Value) -> Result<(), NoMemory>
        requires { IsTrue (is_key (plain key)) }
        ensures ok { OnOk result (plain_heap self.new
            ≡ change_dict (plain_heap self.old) dict.place (with_value (plain key) (plain value))) }
        ensures err { OnErr result (plain_heap self.new ≡ plain_heap self.old) }
    {
        if (dict.place as usize) < self.objects.len() {
            self.objects[dict.place as usize].set_value(key, value)?;
        }
        Ok(())
    }
}
