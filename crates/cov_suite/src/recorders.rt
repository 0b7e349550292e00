// Recorders, one after another, of one plan.
ghost use Rattle.std.specs.Prelude.{◌≡◌, map, IfOk, OnErr};
ghost use Rattle.cov_recorder.specs.Names.{names_of};
ghost use Rattle.cov_recorder.specs.Plan.{HaveFirsts, named, plan_of};
ghost use Rattle.cov_recorder.specs.Recording.{at_first};
ghost use Rattle.cov_recorder.specs.States.{state_of};
ghost use Rattle.cov_suite.specs.Rows.{sources_of};

use cov_contexts::{Contexts, Plugin};
use cov_data::Data;
use cov_event::Nobody;
use cov_predict::ArcSet;
use cov_recorder::{Recorder, RunPlan, UnitName};
use py_text::NoMemory;
use std::alloc::{AllocError, Global};
use std::mem;

/// The plan of copies of these units and sets.
pub(crate) fn plan_of(
    alloc: Global,
    units: &[Vec<UnitName>],
    places: &[ArcSet],
    fixed: &str,
    arcs: bool,
) -> Result<RunPlan, NoMemory>
    requires { HaveFirsts (names_of units.now) }
    ensures { IfOk result (λ plan.
        plan ≡ plan_of (names_of units.now) places.now arcs fixed.now) }
{
    let units = copy_units(alloc, units)?;
    let places = copy_places(alloc, places)?;
    RunPlan::new(alloc, units, places, arcs, fixed)
}

/// A new recorder of this plan over these plugins, which are taken from their list.
pub(crate) fn new_recorder<P: Plugin>(
    alloc: Global,
    plan: RunPlan,
    plugins: &mut Vec<P>,
) -> Result<Recorder<Nobody, P>, NoMemory>
    ensures ok { IfOk result (λ recorder.
        state_of recorder ≡ (at_first plan, sources_of plugins.old.items)) }
    ensures err { OnErr result (plugins.new.items ≡ plugins.old.items) }
{
    let lent = mem::replace(plugins, Vec::new(alloc));
    let contexts = Contexts::new(None, lent, true);
    match Recorder::of_plan(alloc, plan, contexts) {
        Ok(recorder) => Ok(recorder),
        Err(refused) => {
            *plugins = refused.contexts.into_plugins();
            Err(AllocError)
        }
    }
}

fn copy_units(alloc: Global, units: &[Vec<UnitName>]) -> Result<Vec<Vec<UnitName>>, NoMemory>
    ensures { IfOk result (λ copies. names_of copies.items ≡ names_of units.now) }
{
    let mut copies = Vec::new(alloc);
    for names in units {
        let copied = copy_names(alloc, names)?;
        copies.push(copied)?;
    }
    Ok(copies)
}

fn copy_names(alloc: Global, names: &[UnitName]) -> Result<Vec<UnitName>, NoMemory>
    ensures { IfOk result (λ copies. map named copies.items ≡ map named names.now) }
{
    let mut copies = Vec::new(alloc);
    for name in names {
        let copied = name.copy(alloc)?;
        copies.push(copied)?;
    }
    Ok(copies)
}

fn copy_places(alloc: Global, places: &[ArcSet]) -> Result<Vec<ArcSet>, NoMemory>
    ensures { IfOk result (λ copies. copies.items ≡ places.now) }
{
    let mut copies = Vec::new(alloc);
    for set in places {
        copies.push(set.copy()?)?;
    }
    Ok(copies)
}

/// The data that a recorder keeps, and its plan. The plugins that didn't leave go back into the
/// list.
pub(crate) fn finish_recorder<P: Plugin>(
    alloc: Global,
    recorder: Recorder<Nobody, P>,
    plugins: &mut Vec<P>,
) -> (Result<Data, NoMemory>, RunPlan)
    ensures rows { IfOk result.0 (λ d. d ≡ (state_of recorder).0.data) }
    ensures plan { result.1 ≡ (state_of recorder).0.plan }
    ensures plugins { plugins.new.items ≡ (state_of recorder).1.plugins }
{
    let (rows, left, plan) = recorder.finish_for_next(alloc);
    *plugins = left;
    (rows, plan)
}
