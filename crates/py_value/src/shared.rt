// What tuples and exceptions hold, shared by all copies of them.

ghost use Rattle.std.specs.Prelude.{◌≡◌, IfOk, MatchOption, length, min, suc};
ghost use Rattle.py_value.specs.Plain.{listed, packed, most_nested, nesting_of, nesting_of_items, no_argument, argument};
ghost use Rattle.py_value.specs.Shared.{plain, plains, nesting_of_argument};
ghost use Rattle.py_value.specs.Keys.{are_keys};
ghost use Rattle.py_value.specs.Hashes.{hash_of_items};

use crate::hash::hash_of_items;
use crate::key::are_keys;
use crate::limits::MOST_NESTED;
use crate::value::Value;
use py_text::NoMemory;
use std::alloc::{AllocError, Global};
use std::marker::Model;
use std::rc::Rc;

/// The items of a tuple. It keeps how deep they nest, counted up to the deepest that is let be,
/// whether each of them may be a key, and the hash of the tuple.
#[derive(Drop)]
#[cycle(value)]
struct Row {
    items: Vec<Value>,
    depth: u8,
    are_keys: bool,
    hash: usize,
}

/// The items of a tuple. A copy shares them.
#[derive(Drop)]
#[cycle(value)]
pub struct Items {
    row: Rc<Row>,
}

impl Model for Items {
    ghost use Rattle.py_value.specs.Plain.{PlainValues};
    ghost use Rattle.py_value.specs.PlainCode.{coded_values};

    ghost Value = { PlainValues };

    ghost coded = { coded_values };

    ghost use Rattle.py_value.specs.Shared.{items_view, ItemsAreSound, size_of_values};

    ghost view = { items_view };

    ghost invariant = { ItemsAreSound };

    ghost size = { size_of_values };

    ghost use Rattle.std.proofs.Common.{arith};
    ghost use Rattle.py_value.specs.Smaller.{smaller_items};

    ghost size_decreases = { λ a h. Prim.omega (arith, smaller_items a.row.value.items.items) };
}

/// A value, and how deep it nests, counted up to the deepest that is let be.
#[derive(Drop)]
#[cycle(value)]
struct Held {
    value: Value,
    depth: u8,
}

/// The argument of an exception, or that it has none. A copy shares it.
#[cycle(value)]
pub struct Argument {
    held: Option<Rc<Held>>,
}

// As of `Value`: letting an argument go is one call.
impl Drop for Argument {
    #[cycle(value)]
    fn drop(self) {
        let Argument { held } = self;
        drop(held)
    }
}

impl Model for Argument {
    ghost use Rattle.py_value.specs.Plain.{PlainArgument};
    ghost use Rattle.py_value.specs.PlainCode.{coded_argument};

    ghost Value = { PlainArgument };

    ghost coded = { coded_argument };

    ghost use Rattle.py_value.specs.Shared.{argument_view, ArgumentIsSound, size_of_argument};

    ghost view = { argument_view };

    ghost invariant = { ArgumentIsSound };

    ghost size = { size_of_argument };

    ghost use Rattle.py_value.specs.Smaller.{smaller_argument};

    ghost size_decreases = { λ a h. smaller_argument a };
}

impl Items {
    /// The items of a list.
    pub fn new(alloc: Global, items: Vec<Value>) -> Result<Items, NoMemory>
        ensures { IfOk result (λ made. made ≡ packed (plains items.items)) }
    {
        let row = Row {
            depth: depth_of(&items),
            are_keys: are_keys(&items),
            hash: hash_of_items(&items),
            items,
        };
        match Rc::new(alloc, row) {
            Ok(row) => Ok(Items { row }),
            Err(_) => Err(AllocError),
        }
    }

    /// The same items.
    pub fn copy(&self) -> Result<Items, NoMemory>
        ensures { IfOk result (λ copy. copy ≡ self.now) }
    {
        let row = self.row.clone()?;
        Ok(Items { row })
    }

    pub fn as_slice(&self) -> &[Value]
        ensures items { plains result.now ≡ listed self.now }
        ensures packed { packed (plains result.now) ≡ self.now }
    {
        self.row.items.as_slice()
    }

    /// The number of items.
    pub fn len(&self) -> usize
        ensures { result ≡ length (listed self.now) }
    {
        self.as_slice().len()
    }

    /// Whether each item may be a key.
    pub(crate) fn are_keys(&self) -> bool
        ensures { result ≡ are_keys self.now }
    {
        self.row.are_keys
    }

    /// The hash of the tuple.
    pub(crate) fn hash(&self) -> usize
        ensures { result ≡ hash_of_items 1 self.now }
    {
        self.row.hash
    }

    fn depth(&self) -> u8
        ensures { result ≡ min most_nested (nesting_of_items self.now) }
    {
        self.row.depth
    }
}

impl Argument {
    /// No argument.
    pub fn none() -> Argument
        ensures { result ≡ no_argument }
    {
        Argument { held: None }
    }

    /// A value as the argument.
    pub fn of(alloc: Global, value: Value) -> Result<Argument, NoMemory>
        ensures { IfOk result (λ made. made ≡ argument (plain value)) }
    {
        let depth = value.depth();
        match Rc::new(alloc, Held { value, depth }) {
            Ok(held) => Ok(Argument { held: Some(held) }),
            Err(_) => Err(AllocError),
        }
    }

    /// The same argument.
    pub fn copy(&self) -> Result<Argument, NoMemory>
        ensures { IfOk result (λ copy. copy ≡ self.now) }
    {
        match &self.held {
            None => Ok(Argument { held: None }),
            Some(held) => {
                let held = held.clone()?;
                Ok(Argument { held: Some(held) })
            }
        }
    }

    /// The value that it is.
    pub fn value(&self) -> Option<&Value>
        ensures { MatchOption result (self.now ≡ no_argument)
            (λ v. self.now ≡ argument (plain v.now)) }
    {
        match &self.held {
            None => None,
            Some(held) => Some(&held.value),
        }
    }

    fn depth(&self) -> u8
        ensures { result ≡ min most_nested (nesting_of_argument self.now) }
    {
        match &self.held {
            None => 0,
            Some(held) => one_deeper(held.depth),
        }
    }
}

impl Value {
    /// How deep a value nests, counted up to the deepest that is let be.
    pub(crate) fn depth(&self) -> u8
        ensures { result ≡ min most_nested (nesting_of (plain self.now)) }
    {
        match self {
            Value::Tuple(items) => one_deeper(items.depth()),
            Value::Exc(_, arg) => arg.depth(),
            Value::None
            | Value::Bool(_)
            | Value::Int(_)
            | Value::Str(_)
            | Value::List(_)
            | Value::Dict(_)
            | Value::Func(_, _)
            | Value::Module(_)
            | Value::Kind(_)
            | Value::Builtin(_) => 0,
        }
    }
}

fn depth_of(items: &[Value]) -> u8
    ensures { result ≡ min most_nested (nesting_of_items (packed (plains items.now))) }
{
    let mut depth: u8 = 0;
    for item in items {
        depth = depth.max(item.depth());
    }
    depth
}

fn one_deeper(depth: u8) -> u8
    ensures { result ≡ min most_nested (suc depth) }
{
    if depth < MOST_NESTED {
        depth + 1
    } else {
        MOST_NESTED
    }
}
