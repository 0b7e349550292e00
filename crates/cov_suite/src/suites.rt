// The tests of a program.
ghost use Rattle.std.specs.Prelude.{◌<◌, ◌≤◌, List, length};
ghost use Rattle.cov_recorder.specs.Names.{names_of};
ghost use Rattle.cov_recorder.specs.Plan.{HaveFirsts, plan_of};
ghost use Rattle.cov_suite.specs.Meant.{AreTested, SuiteOf};
ghost use Rattle.cov_suite.specs.Recorded.{WasRecorded};
ghost use Rattle.cov_suite.specs.Results.{suite_of_code};
ghost use Rattle.cov_suite.specs.Suites.{CodeSuiteOf, IsSuiteOf};
ghost use Rattle.cov_suite.specs.Views.{plain_answer};
ghost use Rattle.py_code.specs.Loaded.{modules_of, most_numbered};
ghost use Rattle.py_meaning.specs.Modules.{LoadedModule};

use crate::data_lines::lines_in;
use crate::imports::import_script;
use crate::names::tests_of_script;
use crate::recorders::plan_of;
use crate::results::{SuiteError, SuiteRun};
use crate::testing::run_tests;
use cov_contexts::Plugin;
use cov_event::Nobody;
use cov_measure_laws::{
    foreseen_data_of_call, foreseen_data_of_modules, meant_data_of_call, meant_data_of_modules,
    units_of_programs, whole_data_of_call, whole_data_of_modules, whole_plans,
};
use cov_predict::ArcSet;
use cov_recorder::{RunPlan, UnitName, recorded_rows};
use py_code::Programs;
use py_compile::units_are_faithful;
use py_compile_laws::traces_kept;
use std::alloc::Global;

/// Runs the script of the programs, which is the import, and then calls each of its tests on the
/// state that the import left. `units[m]` names the units of module m, and `places[m]` is the set
/// of its arcs that are counted. A plugin that leaves is taken from the list.
pub fn suite<P: Plugin>(
    alloc: Global,
    programs: &Programs,
    units: &[Vec<UnitName>],
    places: &[ArcSet],
    fixed: &str,
    arcs: bool,
    budget: u64,
    plugins: &mut Vec<P>,
) -> Result<SuiteRun, SuiteError>
    requires some { 0 < length (modules_of programs.now) }
    requires few { length (modules_of programs.now) ≤ most_numbered }
    requires begin { HaveFirsts (names_of units.now) }
    ensures code { CodeSuiteOf P.Plugin (plan_of (names_of units.now) places.now arcs fixed.now)
        (modules_of programs.now) budget plugins.old.items (plain_answer result)
        plugins.new.items }
    // Of all trees of which the programs are faithful code:
    ensures meant { (ms : List LoadedModule)
        → AreTested programs.now (names_of units.now) places.now ms
        → SuiteOf P.Plugin ms arcs fixed.now budget plugins.old.items (plain_answer result)
        plugins.new.items }
{
    recorded_rows::<Nobody, P>();
    units_are_faithful();
    traces_kept();
    units_of_programs();
    whole_plans();
    meant_data_of_modules::<Nobody, P>();
    meant_data_of_call::<Nobody, P>();
    whole_data_of_modules::<Nobody, P>();
    whole_data_of_call::<Nobody, P>();
    foreseen_data_of_modules::<Nobody, P>();
    foreseen_data_of_call::<Nobody, P>();
    run_suite(alloc, programs, units, places, fixed, arcs, budget, plugins)
}

/// The import and its tests, each under a recorder of its own.
fn run_suite<P: Plugin>(
    alloc: Global,
    programs: &Programs,
    units: &[Vec<UnitName>],
    places: &[ArcSet],
    fixed: &str,
    arcs: bool,
    budget: u64,
    plugins: &mut Vec<P>,
) -> Result<SuiteRun, SuiteError>
    requires some { 0 < length (modules_of programs.now) }
    requires few { length (modules_of programs.now) ≤ most_numbered }
    requires begin { HaveFirsts (names_of units.now) }
    ensures { IsSuiteOf P.Plugin
        (WasRecorded P.Plugin (plan_of (names_of units.now) places.now arcs fixed.now))
        (suite_of_code (modules_of programs.now) budget) plugins.old.items (plain_answer result)
        plugins.new.items }
{
    let Ok(plan) = plan_of(alloc, units, places, fixed, arcs) else {
        return Err(SuiteError::NoMemory);
    };
    run_planned(alloc, programs, plan, budget, plugins)
}

/// The same under recorders of one plan, which goes from each to the next.
fn run_planned<P: Plugin>(
    alloc: Global,
    programs: &Programs,
    plan: RunPlan,
    budget: u64,
    plugins: &mut Vec<P>,
) -> Result<SuiteRun, SuiteError>
    requires some { 0 < length (modules_of programs.now) }
    requires few { length (modules_of programs.now) ≤ most_numbered }
    ensures { IsSuiteOf P.Plugin (WasRecorded P.Plugin plan)
        (suite_of_code (modules_of programs.now) budget) plugins.old.items (plain_answer result)
        plugins.new.items }
{
    let ran = import_script(alloc, programs, plan, budget, plugins)?;
    let (imported, next) = ran;
    if !imported.finished {
        return Err(SuiteError::NotImported);
    }
    let lines = lines_in(alloc, &imported.rows)?;
    let names = tests_of_script(alloc, programs)?;
    let Ok((tests, rows)) = run_tests(
        alloc, programs, next, budget, &imported, &lines, &names, plugins,
    ) else {
        return Err(SuiteError::NoMemory);
    };
    Ok(SuiteRun {
        tests,
        imported: lines,
        rows,
    })
}
