// The import: the script, run by itself.
ghost use Rattle.std.specs.Prelude.{◌≡◌, ◌<◌, ◌≤◌, length, IfOk};
ghost use Rattle.cov_measure_laws.specs.Leaving.{AreLeft};
ghost use Rattle.cov_suite.specs.Recorded.{Imports};
ghost use Rattle.cov_suite.specs.Results.{words};
ghost use Rattle.py_code.specs.Loaded.{modules_of, most_numbered};
ghost use Rattle.py_world.specs.Stores.{words_of, world_of};

use crate::recorders::{finish_recorder, new_recorder};
use crate::runs::record_script;
use cov_contexts::Plugin;
use cov_data::Data;
use cov_event::Nobody;
use cov_recorder::{RunPlan, recorded_rows};
use py_code::Programs;
use py_machine::Store;
use py_text::NoMemory;
use std::alloc::Global;

/// An import that ended: whether it finished, the state after it, and its data.
#[derive(Drop)]
pub(crate) struct Import {
    pub finished: bool,
    pub store: Store,
    pub rows: Data,
}

/// The words of the program.
pub(crate) fn suite_words(alloc: Global) -> Result<Vec<String>, NoMemory>
    ensures { IfOk result (λ list. words_of list.items ≡ words) }
{
    let mut words = Vec::new(alloc);
    words.push(String::from_str(alloc, "__tests__")?)?;
    Ok(words)
}

/// Runs the script on a new store. The plan is for the next recorder.
pub(crate) fn import_script<P: Plugin>(
    alloc: Global,
    programs: &Programs,
    plan: RunPlan,
    budget: u64,
    plugins: &mut Vec<P>,
) -> Result<(Import, RunPlan), NoMemory>
    requires some { 0 < length (modules_of programs.now) }
    requires few { length (modules_of programs.now) ≤ most_numbered }
    ensures imports { IfOk result (λ r. Imports P.Plugin plan (modules_of programs.now) budget
        plugins.old.items r.0.finished (world_of r.0.store) r.0.rows plugins.new.items) }
    ensures next { IfOk result (λ r. r.1 ≡ plan) }
    ensures plugins { AreLeft P.Plugin plugins.old.items plugins.new.items }
{
    recorded_rows::<Nobody, P>();
    let words = suite_words(alloc)?;
    let mut store = Store::new(alloc, programs, &words)?;
    let mut recorder = new_recorder(alloc, plan, plugins)?;
    let ran = record_script(alloc, programs, &mut store, budget, &mut recorder);
    let (rows, next) = finish_recorder(alloc, recorder, plugins);
    let import = Import {
        finished: ran?,
        store,
        rows: rows?,
    };
    Ok((import, next))
}
