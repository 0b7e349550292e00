// A hook that labels the calls of functions.
ghost use Rattle.std.specs.Prelude.{◌≡◌, ℕ, List, Option, None, IfOk, OnErr};

use py_value::{NoMemory, Text};
use std::alloc::Global;

/// Labels the calls of functions, or doesn't.
pub trait Ask: Drop {
    // A question, by the names' UTF-8, and its answer lead from one state to another.
    ghost moves: { Self → List ℕ → List ℕ → Option (List ℕ) → Self → Type 0 };

    // What a question leaves that is refused for memory.
    ghost refused: { Self → Self → Type 0 };

    /// Asks for the label of a call of this function of this module.
    fn ask(&mut self, alloc: Global, module: &str, function: &str) -> Result<Option<Text>, NoMemory>
        ensures moved { IfOk result (λ label.
            moves self.old «module».now function.now label self.new) }
        ensures refused { OnErr result (refused self.old self.new) };
}

/// Never gives a label.
#[derive(Drop)]
pub struct Nobody;

impl Ask for Nobody {
    ghost moves = { λ old _ _ label new. (label ≡ None) × (new ≡ old) };

    ghost refused = { λ _ _. ⊥ };

    fn ask(
        &mut self,
        _alloc: Global,
        _module: &str,
        _function: &str,
    ) -> Result<Option<Text>, NoMemory> {
        Ok(None)
    }
}
