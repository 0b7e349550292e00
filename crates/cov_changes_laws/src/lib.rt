//! A loaded program is such as the laws of `py_changes` ask of old modules. The function below does
//! nothing, and stands for the law that its contract states.
#![tactic(auto)]

ghost use Rattle.cov_changes_laws.specs.LoadedChanges.{LoadedAreRegular};

use cov_outside::Shelf;
use py_changes::regular_texts;
use py_line_laws::lines_of_texts;

/// In the modules of a loaded program whose script marks a line, each `if` has a test and no `def`
/// stands in a function. Their statement lines are from 1 on.
pub fn loaded_are_regular<H: Shelf>()
    ensures { LoadedAreRegular H.reads }
{
    regular_texts();
    lines_of_texts();
}
