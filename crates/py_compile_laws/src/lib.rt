//! That compilation keeps what a program does: laws over meanings and code. The functions below do
//! nothing, and each stands for the law that its contract states.
#![tactic(auto)]

ghost use Rattle.py_compile_laws.specs.Traces.{ScopesAreProper, TracesKept};

/// Modules that the check of scopes accepts are those that the laws of code speak of.
pub fn premises_hold()
    ensures { ScopesAreProper }
{}

/// A machine that runs faithful code of well-formed modules does what the modules mean.
pub fn traces_kept()
    ensures { TracesKept }
{}
