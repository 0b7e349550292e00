// Constants of a unit, each once, in the order in which they came.

ghost use Rattle.std.specs.Prelude.{◌≡◌, [], IfOk, OnOk};
ghost use Rattle.py_compile_expr.specs.Cells.{place_in, add_new, is_same_constant};
ghost use Rattle.py_compile_unit.specs.Keys.{constant_of};

use crate::keys::Key;
use indexmap::IndexSet;
use py_code::Constant;
use py_compile_expr::number;
use py_text::NoMemory;
use std::alloc::Global;
use std::marker::Model;

/// Constants, each once, seen as their list in the order in which they came.
pub(crate) struct Constants {
    all: IndexSet<Key>,
}

impl Drop for Constants {
    fn drop(self) {
        let Constants { all } = self;
        drop(all)
    }
}

impl Model for Constants {
    ghost use Rattle.std.specs.Prelude.{List, map};
    ghost use Rattle.py_code.specs.declared.unit.Constant.{Constant as Kept};
    ghost use Rattle.py_compile_unit.specs.Keys.{constant_of};

    ghost Value = { List Kept };

    ghost view = { λ s. map constant_of s.all.keys };
}

impl Constants {
    pub(crate) fn new(alloc: Global) -> Constants
        ensures { result ≡ [] }
    {
        Constants {
            all: IndexSet::new(alloc),
        }
    }

    /// The place of a constant, which is added where it is new.
    pub(crate) fn place(&mut self, constant: &Constant) -> Result<u32, NoMemory>
        ensures place { IfOk result (λ n. n
            ≡ place_in is_same_constant self.new constant.now) }
        ensures added { OnOk result (self.new
            ≡ add_new is_same_constant self.old constant.now) }
    {
        let key = key_of(constant)?;
        let (place, _) = self.all.insert_full(key)?;
        number(place)
    }

    /// The constants as a list.
    pub(crate) fn list(&self, alloc: Global) -> Result<Vec<Constant>, NoMemory>
        ensures { IfOk result (λ v. v.items ≡ self.now) }
    {
        let mut list = Vec::new(alloc);
        let keys = self.all.as_slice();
        for key in keys {
            let constant = kept(key)?;
            list.push(constant)?;
        }
        Ok(list)
    }
}

fn key_of(constant: &Constant) -> Result<Key, NoMemory>
    ensures { IfOk result (λ k. constant_of k ≡ constant.now) }
{
    match constant {
        Constant::None => Ok(Key::None),
        Constant::Bool(b) => Ok(Key::Bool(*b)),
        Constant::Int(n) => Ok(Key::Int(*n)),
        Constant::Str(text) => Ok(Key::Str(text.copy()?)),
    }
}

fn kept(key: &Key) -> Result<Constant, NoMemory>
    ensures { IfOk result (λ k. k ≡ constant_of key.now) }
{
    match key {
        Key::None => Ok(Constant::None),
        Key::Bool(b) => Ok(Constant::Bool(*b)),
        Key::Int(n) => Ok(Constant::Int(*n)),
        Key::Str(text) => Ok(Constant::Str(text.copy()?)),
    }
}
