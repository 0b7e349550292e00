// Names of a unit, each once, in the order in which they came.

ghost use Rattle.std.specs.Prelude.{◌≡◌, [], IfOk, OnOk};
ghost use Rattle.py_text.specs.Comparison.{is_same_text};
ghost use Rattle.py_syntax.specs.Names.{is_among, distinct};
ghost use Rattle.py_compile_expr.specs.Cells.{place_in, add_new};

use indexmap::IndexSet;
use py_compile_expr::number;
use py_text::{NoMemory, Text};
use std::alloc::Global;
use std::marker::Model;

/// Names, each once, seen as their list in the order in which they came.
pub(crate) struct Names {
    all: IndexSet<Text>,
}

// Written out, and not derived, so that letting a list go is one call wherever that happens.
impl Drop for Names {
    fn drop(self) {
        let Names { all } = self;
        drop(all)
    }
}

impl Model for Names {
    ghost use Rattle.std.specs.Prelude.{List, ℕ};

    ghost Value = { List (List ℕ) };

    ghost view = { λ s. s.all.keys };
}

impl Names {
    pub(crate) fn new(alloc: Global) -> Names
        ensures { result ≡ [] }
    {
        Names {
            all: IndexSet::new(alloc),
        }
    }

    /// The names of a list, each once.
    pub(crate) fn of(alloc: Global, names: &[Text]) -> Result<Names, NoMemory>
        ensures { IfOk result (λ s. s ≡ distinct names.now) }
    {
        let mut all = Names::new(alloc);
        for name in names {
            all.place(name)?;
        }
        Ok(all)
    }

    /// The place of a name, which is added where it is new.
    pub(crate) fn place(&mut self, name: &Text) -> Result<u32, NoMemory>
        ensures place { IfOk result (λ n. n ≡ place_in is_same_text self.new name.now) }
        ensures added { OnOk result (self.new ≡ add_new is_same_text self.old name.now) }
    {
        let (place, _) = self.all.insert_full(name.copy()?)?;
        number(place)
    }

    /// Whether a name is among them.
    pub(crate) fn contains(&self, name: &Text) -> bool
        ensures { result ≡ is_among self.now name.now }
    {
        self.all.contains(name)
    }

    /// The names as texts.
    pub(crate) fn texts(&self, alloc: Global) -> Result<Vec<Text>, NoMemory>
        ensures { IfOk result (λ v. v.items ≡ self.now) }
    {
        let mut texts = Vec::new(alloc);
        let names = self.all.as_slice();
        for name in names {
            texts.push(name.copy()?)?;
        }
        Ok(texts)
    }
}
