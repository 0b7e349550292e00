//! The arcs of a module.
ghost use Rattle.std.specs.Prelude.{◌≡◌, IfOk};
ghost use Rattle.py_syntax.specs.Prediction.{predicted, possible, module_arcs, arcs_in_order};
ghost use Rattle.py_syntax.specs.View.{plain_module};

use crate::arcs::ArcSet;
use crate::bodies::{body, functions};
use crate::walk::Rules;
use py_syntax::Module;
use py_text::NoMemory;
use std::alloc::Global;

/// The arcs that a reader of the text can predict: those of neighbours in the ways from an entry, a
/// statement or a clause on, where `raise` alone raises. A tree with a line past `i32::MAX`, which
/// no text has, finds no room in a set: that is want of memory too.
pub fn predict(alloc: Global, module: &Module) -> Result<ArcSet, NoMemory>
    ensures { IfOk result (λ arcs. arcs ≡ predicted (plain_module «module».now)) }
{
    arcs(Rules { any: false, alloc }, module)
}

/// The same, where everything that marks a line may raise. Of lines past `i32::MAX` as `predict`.
pub fn possible(alloc: Global, module: &Module) -> Result<ArcSet, NoMemory>
    ensures { IfOk result (λ arcs. arcs ≡ possible (plain_module «module».now)) }
{
    arcs(Rules { any: true, alloc }, module)
}

fn arcs(rules: Rules, module: &Module) -> Result<ArcSet, NoMemory>
    ensures { IfOk result (λ arcs.
        arcs ≡ arcs_in_order (module_arcs rules.any (plain_module «module».now))) }
{
    let mut out = Vec::new(rules.alloc);
    body(&mut out, rules, 1, &module.body)?;
    functions(&mut out, rules, &module.body)?;
    Ok(ArcSet::new(out))
}
