// A plugin, and one in a box.
ghost use Rattle.std.specs.Prelude.{◌≡◌, ℕ, List, IfOk, OnErr};
ghost use Rattle.cov_event.specs.declared.plugin.Verdict.{Verdict};

use cov_event::{ContextPlugin, Verdict};
use py_text::NoMemory;
use std::alloc::Global;

/// A plugin as a list of plugins keeps it: in a box, which may hold one of any type.
pub trait Plugin: Drop {
    // A question, by the names' UTF-8, and its answer lead from one state to another.
    ghost moves: { Self → List ℕ → List ℕ → Verdict → Self → Type 0 };

    /// Asks for the label of a call of this function of this module. A question that is refused for
    /// memory leaves the plugin as it was.
    fn answer(&mut self, alloc: Global, module: &str, function: &str) -> Result<Verdict, NoMemory>
        ensures moved { IfOk result (λ verdict.
            moves self.old «module».now function.now verdict self.new) }
        ensures kept { OnErr result (self.new ≡ self.old) };
}

impl Plugin for Box<dyn ContextPlugin> {
    ghost use Rattle.cov_contexts.specs.Boxes.{BoxMoves};

    ghost moves = { BoxMoves ContextPlugin-box };

    fn answer(&mut self, alloc: Global, module: &str, function: &str) -> Result<Verdict, NoMemory> {
        self.context(alloc, module, function)
    }
}
