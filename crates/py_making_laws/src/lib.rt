//! That the code of modules makes functions as their units ask: a law over the definition of
//! compilation. The function below does nothing, and stands for the law that its contract states.
#![tactic(auto)]

ghost use Rattle.py_making_laws.specs.Makers.{CodeMakesFunctions};

use py_compile::{sizes_hold, units_are_faithful};
use py_compile_laws::premises_hold;

/// Faithful code of modules that the check of scopes accepts makes functions as its units ask.
pub fn code_makes()
    ensures { CodeMakesFunctions }
{
    sizes_hold();
    units_are_faithful();
    premises_hold();
}
