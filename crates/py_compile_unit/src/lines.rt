// Lines of a unit, each once, in the order in which they came.

ghost use Rattle.std.specs.Prelude.{◌≡◌, ◌==◌, [], IfOk, OnOk};
ghost use Rattle.py_compile_expr.specs.Cells.{place_in, add_new};

use indexmap::IndexSet;
use py_compile_expr::number;
use py_text::NoMemory;
use std::alloc::Global;
use std::marker::Model;

/// Lines, each once, seen as their list in the order in which they came.
pub(crate) struct Lines {
    all: IndexSet<u32>,
}

impl Drop for Lines {
    fn drop(self) {
        let Lines { all } = self;
        drop(all)
    }
}

impl Model for Lines {
    ghost use Rattle.std.specs.Prelude.{List, ℕ};

    ghost Value = { List ℕ };

    ghost view = { λ s. s.all.keys };
}

impl Lines {
    pub(crate) fn new(alloc: Global) -> Lines
        ensures { result ≡ [] }
    {
        Lines {
            all: IndexSet::new(alloc),
        }
    }

    /// The place of a line, which is added where it is new.
    pub(crate) fn place(&mut self, line: u32) -> Result<u32, NoMemory>
        ensures place { IfOk result (λ n. n ≡ place_in (λ a b. a == b) self.new line) }
        ensures added { OnOk result (self.new ≡ add_new (λ a b. a == b) self.old line) }
    {
        let (place, _) = self.all.insert_full(line)?;
        number(place)
    }

    /// The lines as a list.
    pub(crate) fn list(&self, alloc: Global) -> Result<Vec<u32>, NoMemory>
        ensures { IfOk result (λ v. v.items ≡ self.now) }
    {
        let mut list = Vec::new(alloc);
        let lines = self.all.as_slice();
        for line in lines {
            list.push(*line)?;
        }
        Ok(list)
    }
}
