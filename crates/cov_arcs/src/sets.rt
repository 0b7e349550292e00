// A set of arcs for each module.
ghost use Rattle.std.specs.Prelude.{◌≡◌, [], None, Some, replicate, slice_get, OnOk, IfOk, OnErr, MatchOption};

use py_text::NoMemory;
use std::alloc::Global;
use std::collections::BTreeSet;
use std::marker::Model;

/// The arcs of each module, seen as the list of their lists, each arc once and in order of from and
/// to.
#[derive(Drop)]
pub(crate) struct Sets {
    items: Vec<BTreeSet<(i64, i64)>>,
}

impl Model for Sets {
    ghost use Rattle.std.specs.Prelude.{List, ℤ, map};

    ghost Value = { List (List (ℤ × ℤ)) };

    ghost view = { λ a. map (λ s. s.keys) a.items.items };
}

impl Sets {
    ghost use Rattle.cov_arcs.specs.Tracing.{with_arc};

    /// No arc, in so many modules.
    pub(crate) fn new(alloc: Global, count: usize) -> Result<Sets, NoMemory>
        ensures { IfOk result (λ sets. sets ≡ replicate count []) }
    {
        let mut items = Vec::new(alloc);
        for _ in 0..count {
            items.push(BTreeSet::new(alloc))?;
        }
        Ok(Sets { items })
    }

    /// Adds an arc to those of a module, where there is that module.
    pub(crate) fn add(&mut self, module: u32, arc: (i64, i64)) -> Result<(), NoMemory>
        ensures ok { OnOk result (self.new ≡ with_arc self.old «module» arc) }
        ensures err { OnErr result (self.new ≡ self.old) }
    {
        let place = module as usize;
        if place < self.items.len() {
            self.items[place].insert(arc)?;
        }
        Ok(())
    }

    /// The arcs of a module, where there is that module.
    pub(crate) fn of(&self, module: u32) -> Option<&BTreeSet<(i64, i64)>>
        ensures { MatchOption result (slice_get self.now «module» ≡ None) (λ arcs.
            slice_get self.now «module» ≡ Some arcs.now.keys) }
    {
        self.items.get(module as usize)
    }
}
