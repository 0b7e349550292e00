// Plugins that label the calls of functions.
ghost use Rattle.std.specs.Prelude.{◌≡◌, ℕ, List, IfOk, OnErr};
ghost use Rattle.cov_event.specs.declared.plugin.Verdict.{Verdict};

use py_value::{NoMemory, Text};
use std::alloc::Global;

/// What a plugin answers.
#[derive(Drop)]
pub enum Verdict {
    /// It gives no label.
    Quiet,
    /// It gives this label.
    Label(Text),
    /// It gives no label and is not to be asked again.
    Leave,
}

/// Labels the calls of functions.
pub trait ContextPlugin: Drop {
    // A question, by the names' UTF-8, and its answer lead from one state to another.
    ghost moves: { Self → List ℕ → List ℕ → Verdict → Self → Type 0 };

    /// Asks for the label of a call of this function of this module. A question that is refused for
    /// memory leaves the plugin as it was.
    fn context(&mut self, alloc: Global, module: &str, function: &str) -> Result<Verdict, NoMemory>
        ensures moved { IfOk result (λ verdict.
            moves self.old «module».now function.now verdict self.new) }
        ensures kept { OnErr result (self.new ≡ self.old) };
}
