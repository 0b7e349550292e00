//! What a test that need not run again does, and which tests must: laws of what `select` compares.
ghost use Rattle.cov_select.specs.Chosen.{ChosenInSuite};
ghost use Rattle.cov_select.specs.Unselected.{UnselectedInSuite};

use cov_arcs::{told_arcs_of_call, told_arcs_of_modules};
use cov_contexts::Plugin;
use py_changes::unchanged_by_paths;

/// A test of the old modules that isn't selected by their changed lines has the same result under
/// the new modules. The function does nothing and stands for this law of what `suite` answers.
pub fn unselected_in_suite<P: Plugin>()
    ensures { UnselectedInSuite P.Plugin }
{
    unchanged_by_paths();
}

/// Selected by the changed lines of the old modules, the names of the new tests are those that must
/// run again, and no others. The function does nothing and stands for this law of what `suite`,
/// `changed_by_path` and `select` answer.
pub fn chosen_in_suite<P: Plugin>()
    ensures { ChosenInSuite P.Plugin }
{
    unchanged_by_paths();
    told_arcs_of_modules();
    told_arcs_of_call();
}
