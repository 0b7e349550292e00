// Names, and what is predefined under them.
ghost use Rattle.std.specs.Prelude.{◌≡◌, None, Some, IfOk, MatchOption};
ghost use Rattle.py_text.specs.Comparison.{is_same_text};
ghost use Rattle.py_value.specs.View.{plain};
ghost use Rattle.py_builtins.specs.Predefined.{predefined};
ghost use Rattle.py_builtins.specs.World.{value_of};

use crate::known_names::{Known, find_known};
use py_value::{NoMemory, Text, Value};
use std::marker::Model;

/// A name, seen as its characters, with what is predefined under it: that was searched for once.
#[derive(Drop)]
pub struct Name {
    text: Text,
    known: Option<Known>,
}

impl Model for Name {
    ghost use Rattle.std.specs.Prelude.{List, ℕ};
    ghost use Rattle.py_world.specs.KnownNames.{IsKnown};

    ghost Value = { List ℕ };

    ghost view = { λ n. n.text };

    ghost invariant = { λ n. IsKnown n.text n.known };
}

impl Name {
    /// The name of these characters.
    pub fn of(text: &Text) -> Result<Name, NoMemory>
        ensures { IfOk result (λ name. name ≡ text.now) }
    {
        let text = text.copy()?;
        let known = find_known(&text);
        Ok(Name { text, known })
    }

    /// An equal name.
    pub fn copy(&self) -> Result<Name, NoMemory>
        ensures { IfOk result (λ copy. copy ≡ self.now) }
    {
        let known = self.known;
        let text = self.text.copy()?;
        Ok(Name { text, known })
    }

    /// What is predefined under it.
    pub fn predefined(&self) -> Option<Value>
        ensures { MatchOption result (value_of self.now predefined ≡ None) (λ v.
            value_of self.now predefined ≡ Some (plain v)) }
    {
        match self.known {
            None => None,
            Some(known) => Some(known.value()),
        }
    }
}

/// Whether a name has these characters.
pub fn is_same(text: &Text, name: &Name) -> bool
    ensures { result ≡ is_same_text text.now name.now }
{
    text.is_same(&name.text)
}
