// The arcs that are counted.
ghost use Rattle.std.specs.Prelude.{◌≡◌, IfOk, map};
ghost use Rattle.py_syntax.specs.Prediction.{possible};
ghost use Rattle.py_syntax.specs.View.{plain_module};

use cov_predict::{ArcSet, possible};
use py_syntax::Module;
use py_text::NoMemory;
use std::alloc::Global;

/// The possible arcs of each module.
pub(crate) fn possible_sets(alloc: Global, modules: &[Module]) -> Result<Vec<ArcSet>, NoMemory>
    ensures { IfOk result (λ sets.
        sets.items ≡ map (λ m. possible (plain_module m)) modules.now) }
{
    let mut sets = Vec::new(alloc);
    for module in modules {
        let set = possible(alloc, module)?;
        sets.push(set)?;
    }
    Ok(sets)
}
