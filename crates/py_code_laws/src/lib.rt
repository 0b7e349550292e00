//! That the code of modules is one that a machine runs without missing anything: a law over the
//! definition of compilation. The function below does nothing, and stands for the law that its
//! contract states.
#![tactic(auto)]

ghost use Rattle.py_code_laws.specs.Fits.{CodeFits};

use py_compile::units_are_faithful;
use py_compile_laws::premises_hold;

/// The units of a module that the check of scopes accepts are a code.
pub fn code_fits()
    ensures { CodeFits }
{
    units_are_faithful();
    premises_hold();
}
