//! The code of statements and of modules: definitions, and laws over them.
#![tactic(auto)]

ghost use Rattle.py_compile.specs.Laws.{SizesHold, UnitsAreFaithful};
ghost use Rattle.py_compile.specs.ProgramRuns.{ProgramsRun};
ghost use Rattle.py_compile.specs.StatementRuns.{StatementsRun};

/// Code is as long as its size says.
pub fn sizes_hold()
    ensures { SizesHold }
{}

/// The units of a module are the code of its tree.
pub fn units_are_faithful()
    ensures { UnitsAreFaithful }
{}

/// A machine that runs the code of statements does what they mean.
pub fn statements_run()
    ensures { StatementsRun }
{}

/// Trace-preserving compilation: a machine that runs faithful code of modules does what these mean.
pub fn programs_run()
    ensures { ProgramsRun }
{}
