//! What changed between two lists of modules, and what no change alters: definitions over the trees
//! of two versions, and laws over what programs mean. Each function below does nothing, and stands
//! for the law that its contract states.
#![tactic(auto)]

ghost use Rattle.py_changes.specs.Laws.{UnchangedImport, UnchangedTest, UnselectedTest, UnreachedChange};
ghost use Rattle.py_changes.specs.Mutants.{MutantsDiffer};
ghost use Rattle.py_changes.specs.Paths.{UnreachedPaths, UnchangedByPaths};
ghost use Rattle.py_changes.specs.Texts.{RegularTexts};

/// An import does the same under the new modules, where the old one wasn't cut and reached no
/// changed line.
pub fn unchanged_imports()
    ensures { UnchangedImport }
{}

/// A test has the same result under the new modules, where neither the old one nor the old import
/// was cut, and neither reached a changed line.
pub fn unchanged_tests()
    ensures { UnchangedTest }
{}

/// A test that isn't selected has the same result under the new modules, where the old import
/// wasn't cut.
pub fn unselected_tests()
    ensures { UnselectedTest }
{}

/// A change of lines that neither the import nor a test reached is noticed by no test.
pub fn unreached_changes()
    ensures { UnreachedChange }
{}

/// What the laws ask of modules holds of those that texts spell, where the script marks a line.
pub fn regular_texts()
    ensures { RegularTexts }
{}

/// By the lines that were reached under each path, no changed line was reached.
pub fn unreached_paths()
    ensures { UnreachedPaths }
{}

/// So a test has the same result, where neither it nor the import was cut and no line that they
/// reached under a path is a changed line of that path.
pub fn unchanged_by_paths()
    ensures { UnchangedByPaths }
{}

/// Each mutant of an expression differs from it, and it is the same as itself.
pub fn mutants_differ()
    ensures { MutantsDiffer }
{}
