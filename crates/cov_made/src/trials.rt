//! Runs of sources that are made up.
ghost use Rattle.std.specs.Prelude.{◌≡◌, [], ◌∷◌, IfOk, IsErrOf};
ghost use Rattle.cov_made.specs.Rests.{tried};
ghost use Rattle.cov_made.specs.Sources.{IsMade};
ghost use Rattle.cov_made.specs.Views.{IsOneModule, ran_view, source_view, tried_view};
ghost use Rattle.cov_measure.specs.Requests.{asked_in};
ghost use Rattle.cov_programs.specs.Ends.{Follows};
ghost use Rattle.cov_programs.specs.Objects.{nobody};
ghost use Rattle.cov_step.specs.Calls.{Answer, Call, IsNoMemory, seen};
ghost use Rattle.cov_step.specs.Commands.{usual_steps, words_of};
ghost use Rattle.cov_step.specs.Making.{made_path, ran_if_any};
ghost use Rattle.cov_streams.specs.Runs.{arcs_asked};
ghost use Rattle.cov_streams.specs.Trials.{on_trial};
ghost use Rattle.py_syntax.specs.Prediction.{possible};

use crate::sources::{MADE_PATH, MadeSource};
use cov_calls::USUAL_STEPS;
use cov_event::ContextPlugin;
use cov_measure::{Measured, RunRequest, measure};
use cov_outside::{NullSink, SureSource};
use cov_predict::{ArcSet, possible};
use cov_why::Why;
use py_builtins::RunFault;
use py_machine::Machine;
use py_text::NoMemory;
use std::alloc::Global;

/// Runs a source with its arcs. It reads nothing, what it writes is thrown away, and nobody gives
/// labels.
pub(crate) fn tried(alloc: Global, source: &MadeSource) -> Result<Measured, Why>
    requires { IsMade source.now }
    ensures { Follows on_trial IsNoMemory (tried (source_view source.now)) tt (seen ran_view result)
        tt }
{
    match possible_arcs(alloc, source) {
        Ok(sets) => run_with(alloc, source, sets),
        Err(_) => Err(Why::NoMemory),
    }
}

fn run_with(alloc: Global, source: &MadeSource, sets: Vec<ArcSet>) -> Result<Measured, Why>
    requires made { IsMade source.now }
    requires sets { sets.items ≡ possible (source_view source.now).body ∷ [] }
    ensures { Follows on_trial IsNoMemory (tried (source_view source.now)) tt (seen ran_view result)
        tt }
{
    match request(alloc) {
        Ok(request) => run_alone(alloc, &request, source, sets),
        Err(_) => Err(Why::NoMemory),
    }
}

/// What the run is asked.
fn request(alloc: Global) -> Result<RunRequest, NoMemory>
    ensures { IfOk result (λ r. asked_in r ≡ arcs_asked (words_of made_path []) usual_steps) }
{
    Ok(RunRequest {
        script: String::from_str(alloc, MADE_PATH)?,
        args: Vec::new(alloc),
        arcs: true,
        fixed: String::new(alloc),
        by_name: false,
        hook: None,
        budget: USUAL_STEPS,
    })
}

/// The possible arcs of its module.
fn possible_arcs(alloc: Global, source: &MadeSource) -> Result<Vec<ArcSet>, NoMemory>
    requires { IsOneModule source.now }
    ensures { IfOk result (λ sets. sets.items ≡ possible (source_view source.now).body ∷ []) }
{
    let mut sets = Vec::new(alloc);
    sets.push(possible(alloc, source.module())?)?;
    Ok(sets)
}

fn run_alone(
    alloc: Global,
    request: &RunRequest,
    source: &MadeSource,
    sets: Vec<ArcSet>,
) -> Result<Measured, Why>
    requires asked { asked_in request.now ≡ arcs_asked (words_of made_path []) usual_steps }
    requires made { IsMade source.now }
    requires sets { sets.items ≡ possible (source_view source.now).body ∷ [] }
    ensures { Follows on_trial IsNoMemory (tried (source_view source.now)) tt (seen ran_view result)
        tt }
{
    let nothing = Vec::new(alloc);
    let mut input = SureSource::new(nothing);
    let mut none: Vec<Box<dyn ContextPlugin>> = Vec::new(alloc);
    ran(measure(
        alloc,
        request,
        &source.loaded.programs,
        sets,
        None,
        &mut input,
        &mut NullSink,
        &mut none,
        &mut Machine,
    ))
}

/// What follows from the answer to such a run: nothing failed that it reads and writes.
fn ran(answer: Result<Measured, RunFault>) -> Result<Measured, Why>
    requires read { IsErrOf answer RunFault.ReadFault → ⊥ }
    requires written { IsErrOf answer RunFault.WriteFault → ⊥ }
    ensures { Follows (nobody Call Answer) IsNoMemory (ran_if_any (tried_view answer)) tt
        (seen ran_view result) tt }
{
    match answer {
        Ok(m) => Ok(m),
        Err(RunFault::ReadFault) => unreachable!(),
        Err(RunFault::WriteFault) => unreachable!(),
        Err(RunFault::NoMemory) => Err(Why::NoMemory),
    }
}
