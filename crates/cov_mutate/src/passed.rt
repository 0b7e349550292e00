// The tests that passed.
ghost use Rattle.std.specs.Prelude.{◌≡◌, ◌++◌, ◌∷◌, [], if◌then◌else◌, map, string_bytes, IfOk, OnOk};
ghost use Rattle.std.specs.Str.{chars};
ghost use Rattle.cov_mutate.specs.Code.{passed_names};
ghost use Rattle.cov_suite.specs.Passing.{has_passed};
ghost use Rattle.cov_suite.specs.Views.{test_view};

use cov_suite::{TestEnd, TestResult};
use py_text::{NoMemory, Text};
use std::alloc::Global;

fn has_passed(end: &TestEnd) -> bool
    ensures { result ≡ has_passed end.now }
{
    match end {
        TestEnd::Passed => true,
        TestEnd::Failed(_, _) => false,
        TestEnd::Cut => false,
    }
}

/// The names of those that passed, in order.
pub(crate) fn passed_tests(alloc: Global, tests: &[TestResult]) -> Result<Vec<Text>, NoMemory>
    ensures { IfOk result (λ names. names.items ≡ passed_names (map test_view tests.now)) }
{
    let mut names = Vec::new(alloc);
    for test in tests {
        add_passed(alloc, &mut names, test)?;
    }
    Ok(names)
}

/// Adds the name of a test that passed.
fn add_passed(alloc: Global, names: &mut Vec<Text>, test: &TestResult) -> Result<(), NoMemory>
    ensures { OnOk result (names.new.items ≡ names.old.items ++ (if has_passed test.now.end
        then chars (string_bytes test.now.name) ∷ [] else [])) }
{
    if has_passed(&test.end) {
        names.push(Text::from_str(alloc, test.name.as_str())?)?;
    }
    Ok(())
}
