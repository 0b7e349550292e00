//! What mutants of a module change: laws over the trees of a module and of its mutants, and over
//! what tests of them do. Each function below does nothing, and stands for the law that its
//! contract states.
#![tactic(auto)]

ghost use Rattle.py_mutants_laws.specs.Mutants.{MutantsChangeALine, MutantsChangeTheirLine};
ghost use Rattle.py_mutants_laws.specs.Sound.{MutantsAreWellFormed, MutantsKeepForms, MutantsAreNormal};
ghost use Rattle.py_mutants_laws.specs.Unreached.{UnreachedMutants, UnreachedMutantsByPath};

/// A mutant changes no line but the one of the mark that its token stands at.
pub fn mutants_change_a_line()
    ensures { MutantsChangeALine }
{}

/// A mutant does change its line, where no `def` stands in a function.
pub fn mutants_change_their_line()
    ensures { MutantsChangeTheirLine }
{}

/// A mutant isn't noticed by tests that don't reach its line.
pub fn unreached_mutants()
    ensures { UnreachedMutants }
{}

/// A mutant isn't noticed by tests that don't reach its line under the path of its module, as data
/// have such lines.
pub fn unreached_mutants_by_path()
    ensures { UnreachedMutantsByPath }
{}

/// A mutant has the faults of scope of the module, so that of a well-formed one is well formed.
pub fn mutants_are_well_formed()
    ensures { MutantsAreWellFormed }
{}

/// The parts of a mutant are normal, and its statements end as they do, where those of the module
/// are.
pub fn mutants_keep_forms()
    ensures { MutantsKeepForms }
{}

/// A mutant of a normal module is normal: besides, its `match` headers are told by their form, as
/// those of a text are.
pub fn mutants_are_normal()
    ensures { MutantsAreNormal }
{}
