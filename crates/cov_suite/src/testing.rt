// Tests: each is called on a copy of the state after the import.
ghost use Rattle.std.specs.Prelude.{◌≡◌, ◌<◌, ◌≤◌, length, map, IfOk};
ghost use Rattle.cov_measure_laws.specs.Leaving.{AreLeft};
ghost use Rattle.cov_suite.specs.Merging.{merged};
ghost use Rattle.cov_suite.specs.Recorded.{AllTests, Tests, ended_view};
ghost use Rattle.cov_suite.specs.Results.{result_of_code};
ghost use Rattle.cov_suite.specs.Rows.{lines_in};
ghost use Rattle.cov_suite.specs.Views.{line_of, reached_lines, test_view};
ghost use Rattle.py_code.specs.Loaded.{modules_of, most_numbered};
ghost use Rattle.py_world.specs.Stores.{world_of};

use crate::data_lines::lines_in;
use crate::imports::Import;
use crate::joining::add_data;
use crate::merging::merged;
use crate::recorders::{finish_recorder, new_recorder};
use crate::results::TestResult;
use crate::runs::{Ended, record_test};
use cov_contexts::Plugin;
use cov_data::Data;
use cov_event::Nobody;
use cov_recorder::{RunPlan, recorded_rows};
use py_code::Programs;
use py_machine::Store;
use py_text::{NoMemory, Text};
use std::alloc::Global;

/// A test that ended, and its data.
#[derive(Drop)]
struct Tested {
    ended: Ended,
    rows: Data,
}

/// Calls a test on a copy of a store. The plan is for the next recorder.
fn run_test<P: Plugin>(
    alloc: Global,
    programs: &Programs,
    plan: RunPlan,
    budget: u64,
    imported: &Store,
    name: &Text,
    plugins: &mut Vec<P>,
) -> Result<(Tested, RunPlan), NoMemory>
    requires some { 0 < length (modules_of programs.now) }
    requires few { length (modules_of programs.now) ≤ most_numbered }
    ensures tests { IfOk result (λ r. Tests P.Plugin plan (modules_of programs.now) budget
        (world_of imported.now) name.now plugins.old.items r.0.ended r.0.rows plugins.new.items) }
    ensures next { IfOk result (λ r. r.1 ≡ plan) }
    ensures plugins { AreLeft P.Plugin plugins.old.items plugins.new.items }
{
    recorded_rows::<Nobody, P>();
    let mut store = imported.copy(alloc)?;
    let mut recorder = new_recorder(alloc, plan, plugins)?;
    let ran = record_test(alloc, programs, &mut store, name, budget, &mut recorder);
    let (rows, next) = finish_recorder(alloc, recorder, plugins);
    let tested = Tested {
        ended: ran?,
        rows: rows?,
    };
    Ok((tested, next))
}

/// The result of a test, with the lines that it or the import reached. A test reaches few lines
/// beside those of the import, so its data are not joined with them: the lines are merged.
fn result_of(
    alloc: Global,
    name: &Text,
    tested: Tested,
    imported: &[(String, u32)],
) -> Result<TestResult, NoMemory>
    ensures view { IfOk result (λ t. test_view t ≡ ended_view name.now tested.ended) }
    ensures reached { IfOk result (λ t. reached_lines t
        ≡ merged (map line_of imported.now) (lines_in tested.rows)) }
{
    let Tested { ended, rows } = tested;
    let own = lines_in(alloc, &rows)?;
    let reached = merged(alloc, imported, &own)?;
    let name = String::from_str(alloc, name.as_str())?;
    Ok(TestResult {
        name,
        end: ended.end,
        output: ended.output,
        steps: ended.steps,
        reached,
    })
}

/// Calls each of these tests on a copy of the state after the import, which reached these lines.
/// Their data are joined with those of the import.
pub(crate) fn run_tests<P: Plugin>(
    alloc: Global,
    programs: &Programs,
    plan: RunPlan,
    budget: u64,
    imported: &Import,
    lines: &[(String, u32)],
    names: &[Text],
    plugins: &mut Vec<P>,
) -> Result<(Vec<TestResult>, Data), NoMemory>
    requires some { 0 < length (modules_of programs.now) }
    requires few { length (modules_of programs.now) ≤ most_numbered }
    requires kind { imported.now.rows.arcs ≡ plan.arcs }
    requires lines { map line_of lines.now ≡ lines_in imported.now.rows }
    ensures tests { IfOk result (λ r. AllTests P.Plugin plan imported.now.rows plugins.old.items
        (map (result_of_code (modules_of programs.now) (world_of imported.now.store) budget)
        names.now)
        (map test_view r.0.items) (map reached_lines r.0.items) imported.now.rows r.1
        plugins.new.items) }
    ensures plugins { AreLeft P.Plugin plugins.old.items plugins.new.items }
{
    let arcs = imported.rows.is_arcs();
    let mut all = add_data(Data::new(alloc, arcs), &imported.rows)?;
    let mut results = Vec::new(alloc);
    let mut next = plan;
    for name in names {
        let ended = run_test(
            alloc,
            programs,
            next,
            budget,
            &imported.store,
            name,
            plugins,
        )?;
        let (tested, left) = ended;
        next = left;
        all = add_data(all, &tested.rows)?;
        let result = result_of(alloc, name, tested, lines)?;
        results.push(result)?;
    }
    Ok((results, all))
}
