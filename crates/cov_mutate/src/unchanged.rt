// The tests of the unchanged programs.
ghost use Rattle.std.specs.Prelude.{◌<◌, ◌≤◌, List, All, IsTrue, length, map};
ghost use Rattle.cov_mutate.specs.Meant.{AreMutable, RanOf};
ghost use Rattle.cov_recorder.specs.Names.{names_of};
ghost use Rattle.cov_recorder.specs.Plan.{HaveFirsts, IsFirst, named};
ghost use Rattle.cov_suite.specs.Meant.{AreTested};
ghost use Rattle.cov_suite.specs.Views.{plain_answer};
ghost use Rattle.py_code.specs.Loaded.{modules_of, most_numbered};
ghost use Rattle.py_meaning.specs.Modules.{LoadedModule};

use crate::sets::possible_sets;
use cov_arcs::{told_arcs_of_call, told_arcs_of_modules};
use cov_event::ContextPlugin;
use cov_predict::ArcSet;
use cov_recorder::UnitName;
use cov_suite::{SuiteError, SuiteRun, suite, units_of};
use py_code::Programs;
use py_syntax::Module;
use std::alloc::Global;

/// Whether each of these units begins in a line that a text may have.
fn have_lines(names: &[UnitName]) -> bool
    ensures { IsTrue result → All (λ n. IsFirst n.first) (map named names.now) }
{
    for name in names {
        if name.first < 1 || name.first > 65_535 {
            return false;
        }
    }
    true
}

/// Whether each unit of each module does.
fn all_have_lines(units: &[Vec<UnitName>]) -> bool
    ensures { IsTrue result → HaveFirsts (names_of units.now) }
{
    for names in units {
        if !have_lines(names) {
            return false;
        }
    }
    true
}

/// Runs the tests of the programs, and records their arcs, without plugins.
fn run_recorded(
    alloc: Global,
    programs: &Programs,
    units: &[Vec<UnitName>],
    sets: &[ArcSet],
    budget: u64,
) -> Result<SuiteRun, SuiteError>
    requires some { 0 < length (modules_of programs.now) }
    requires few { length (modules_of programs.now) ≤ most_numbered }
    requires begin { HaveFirsts (names_of units.now) }
    ensures { (ms : List LoadedModule) → AreTested programs.now (names_of units.now) sets.now ms
        → RanOf budget ms (plain_answer result) }
{
    told_arcs_of_modules();
    told_arcs_of_call();
    let mut plugins: Vec<Box<dyn ContextPlugin>> = Vec::new(alloc);
    suite(alloc, programs, units, sets, "", true, budget, &mut plugins)
}

/// The tests of the unchanged programs.
pub(crate) fn run_unchanged(
    alloc: Global,
    modules: &[Module],
    programs: &Programs,
    budget: u64,
) -> Result<SuiteRun, SuiteError>
    requires some { 0 < length (modules_of programs.now) }
    requires few { length (modules_of programs.now) ≤ most_numbered }
    ensures { (ms : List LoadedModule) → AreMutable programs.now modules.now ms
        → RanOf budget ms (plain_answer result) }
{
    let sets = possible_sets(alloc, modules)?;
    let units = units_of(alloc, programs)?;
    let names = units.as_slice();
    if !all_have_lines(names) {
        // The units of texts do.
        return Err(SuiteError::NoMemory);
    }
    run_recorded(alloc, programs, names, sets.as_slice(), budget)
}
