//! The import of a loaded program and its tests: `loaded_suite`.
ghost use Rattle.cov_calls.specs.Views.{RefusedBy};
ghost use Rattle.cov_loaded_laws.specs.Loaded.{IsMeasurable};
ghost use Rattle.cov_programs.specs.Ends.{Follows};
ghost use Rattle.cov_programs.specs.Objects.{nobody};
ghost use Rattle.cov_run.specs.Loads.{loaded_modules};
ghost use Rattle.cov_runs.specs.Measured.{HoldPossible};
ghost use Rattle.cov_step.specs.Calls.{Call, Answer, IsNoMemory, seen};
ghost use Rattle.cov_step.specs.Testing.{came_or};
ghost use Rattle.cov_streams.specs.Suites.{on_plugins, tested_by};
ghost use Rattle.cov_suite.specs.Meant.{SuiteOf};
ghost use Rattle.cov_suite.specs.Views.{plain_answer};
ghost use Rattle.cov_suites.specs.Rests.{testing};
ghost use Rattle.cov_suites.specs.Views.{asked_view, run_view};
ghost use Rattle.cov_why.specs.Answers.{import_failed};

use crate::requests::TestsRequest;
use cov_contexts::Plugin;
use cov_predict::ArcSet;
use cov_run::Loaded;
use cov_runs::possible_sets;
use cov_suite::{SuiteError, SuiteRun, suite, units_of};
use cov_why::Why;
use std::alloc::Global;

/// Imports the file, and calls each of its tests on the state of that import.
pub(crate) fn tested<P: Plugin>(
    alloc: Global,
    request: &TestsRequest,
    file: &str,
    loaded: &Loaded,
    plugins: &mut Vec<P>,
) -> Result<SuiteRun, Why>
    requires { IsMeasurable loaded.now }
    ensures { Follows (on_plugins P.Plugin) IsNoMemory
        (testing (asked_view request.now) file.now (loaded_modules loaded.now))
        plugins.old.items (seen run_view result) plugins.new.items }
{
    let fixed = request.fixed.as_str();
    let answer = loaded_suite(alloc, loaded, fixed, request.arcs, request.budget, plugins);
    ran(alloc, file, answer)
}

/// The suite of a loaded program: its import, and each of its tests on the state of that import.
/// Whatever takes a step there is recorded, of arcs or of lines.
pub fn loaded_suite<P: Plugin>(
    alloc: Global,
    loaded: &Loaded,
    fixed: &str,
    arcs: bool,
    budget: u64,
    plugins: &mut Vec<P>,
) -> Result<SuiteRun, SuiteError>
    requires { IsMeasurable loaded.now }
    ensures { SuiteOf P.Plugin (loaded_modules loaded.now) arcs fixed.now budget
        plugins.old.items (plain_answer result) plugins.new.items }
{
    match possible_sets(alloc, &loaded.modules) {
        Ok(sets) => suite_within(alloc, loaded, sets.as_slice(), fixed, arcs, budget, plugins),
        Err(_) => Err(SuiteError::NoMemory),
    }
}

/// The same, with the sets of what is possible in its modules.
fn suite_within<P: Plugin>(
    alloc: Global,
    loaded: &Loaded,
    sets: &[ArcSet],
    fixed: &str,
    arcs: bool,
    budget: u64,
    plugins: &mut Vec<P>,
) -> Result<SuiteRun, SuiteError>
    requires measurable { IsMeasurable loaded.now }
    requires sets { HoldPossible (loaded_modules loaded.now) sets.now }
    ensures { SuiteOf P.Plugin (loaded_modules loaded.now) arcs fixed.now budget
        plugins.old.items (plain_answer result) plugins.new.items }
{
    match units_of(alloc, &loaded.programs) {
        Ok(units) => suite(
            alloc,
            &loaded.programs,
            units.as_slice(),
            sets,
            fixed,
            arcs,
            budget,
            plugins,
        ),
        Err(_) => Err(SuiteError::NoMemory),
    }
}

/// What follows from the answer.
fn ran(alloc: Global, file: &str, answer: Result<SuiteRun, SuiteError>) -> Result<SuiteRun, Why>
    ensures { Follows (nobody Call Answer) IsNoMemory
        (came_or file.now (tested_by (plain_answer answer))) tt (seen run_view result) tt }
{
    match answer {
        Ok(run) => Ok(run),
        Err(SuiteError::NotImported) => Err(import_failed(alloc, file)),
        Err(SuiteError::NoMemory) => Err(Why::NoMemory),
    }
}

/// The import of this file ended early.
pub fn import_failed(alloc: Global, file: &str) -> Why
    ensures { RefusedBy (import_failed file.now) result }
{
    match String::from_str(alloc, file) {
        Ok(file) => Why::ImportFailed(file),
        Err(_) => Why::NoMemory,
    }
}
