// A run that is measured, and then saved.
ghost use Rattle.std.specs.Prelude.{ℕ, List, Option};
ghost use Rattle.cov_calls.specs.Views.{answered_view};
ghost use Rattle.cov_loaded_laws.specs.Loaded.{IsMeasurable};
ghost use Rattle.cov_measure.specs.Measures.{streams};
ghost use Rattle.cov_programs.specs.Ends.{Follows};
ghost use Rattle.cov_programs.specs.Objects.{beside, nobody};
ghost use Rattle.cov_run.specs.Loads.{loaded_modules};
ghost use Rattle.cov_runs.specs.Hooks.{HookAs};
ghost use Rattle.cov_runs.specs.Measured.{HoldPossible, measuring, ran_answer, ran_of, ran_view};
ghost use Rattle.cov_runs.specs.Rests.{RunAs};
ghost use Rattle.cov_step.specs.Calls.{Call, Answer, Asked, HookFiles, IsNoMemory, seen};
ghost use Rattle.cov_step.specs.Commands.{measured};
ghost use Rattle.cov_step.specs.Objects.{on_vault};
ghost use Rattle.cov_streams.specs.Objects.{on_run};

use crate::saving::saved;
use crate::sets::possible_sets;
use cov_calls::Answered;
use cov_contexts::Plugin;
use cov_data::Data;
use cov_hook::Hook;
use cov_measure::{Measured, RunRequest, measure};
use cov_outside::{Sink, Source};
use cov_predict::ArcSet;
use cov_run::Loaded;
use cov_vault::Vault;
use cov_why::Why;
use py_builtins::RunFault;
use py_machine::Engine;
use std::alloc::Global;

/// Runs a loaded program as the request asks, and saves its rows, joined to those before.
pub(crate) fn measured<V: Vault, I: Source, O: Sink, G: Engine, P: Plugin>(
    alloc: Global,
    own: &str,
    request: &RunRequest,
    loaded: &Loaded,
    hook: Option<Hook>,
    old: Option<Data>,
    vault: &mut V,
    input: &mut I,
    out: &mut O,
    plugins: &mut Vec<P>,
    engine: &mut G,
) -> Result<Answered, Why>
    requires { IsMeasurable loaded.now }
    ensures { (asked : Asked) (files : Option HookFiles) (named : Option (List ℕ × List ℕ))
        (script : List ℕ) → RunAs request.now asked named script → HookAs hook files
        → Follows (beside (on_vault V.Vault) (on_run I.Source O.Sink P.Plugin G.Engine)) IsNoMemory
        (measured own.now asked (loaded_modules loaded.now) files old)
        (vault.old, streams input.old out.old plugins.old.items engine.old)
        (seen answered_view result)
        (vault.new, streams input.new out.new plugins.new.items engine.new) }
{
    let m = run_measured(alloc, request, loaded, hook, input, out, plugins, engine)?;
    saved(alloc, own, request.budget, old, m, vault)
}

/// Runs a loaded program as the request asks.
fn run_measured<I: Source, O: Sink, G: Engine, P: Plugin>(
    alloc: Global,
    request: &RunRequest,
    loaded: &Loaded,
    hook: Option<Hook>,
    input: &mut I,
    out: &mut O,
    plugins: &mut Vec<P>,
    engine: &mut G,
) -> Result<Measured, Why>
    requires { IsMeasurable loaded.now }
    ensures { (asked : Asked) (files : Option HookFiles) (named : Option (List ℕ × List ℕ))
        (script : List ℕ) → RunAs request.now asked named script → HookAs hook files
        → Follows (on_run I.Source O.Sink P.Plugin G.Engine) IsNoMemory
        (measuring asked (loaded_modules loaded.now) files)
        (streams input.old out.old plugins.old.items engine.old) (seen ran_view result)
        (streams input.new out.new plugins.new.items engine.new) }
{
    match possible_sets(alloc, &loaded.modules) {
        Ok(sets) => run_with(
            alloc, request, loaded, sets, hook, input, out, plugins, engine,
        ),
        Err(_) => Err(Why::NoMemory),
    }
}

fn run_with<I: Source, O: Sink, G: Engine, P: Plugin>(
    alloc: Global,
    request: &RunRequest,
    loaded: &Loaded,
    sets: Vec<ArcSet>,
    hook: Option<Hook>,
    input: &mut I,
    out: &mut O,
    plugins: &mut Vec<P>,
    engine: &mut G,
) -> Result<Measured, Why>
    requires measurable { IsMeasurable loaded.now }
    requires sets { HoldPossible (loaded_modules loaded.now) sets.items }
    ensures { (asked : Asked) (files : Option HookFiles) (named : Option (List ℕ × List ℕ))
        (script : List ℕ) → RunAs request.now asked named script → HookAs hook files
        → Follows (on_run I.Source O.Sink P.Plugin G.Engine) IsNoMemory
        (measuring asked (loaded_modules loaded.now) files)
        (streams input.old out.old plugins.old.items engine.old) (seen ran_view result)
        (streams input.new out.new plugins.new.items engine.new) }
{
    ran(measure(
        alloc,
        request,
        &loaded.programs,
        sets,
        hook,
        input,
        out,
        plugins,
        engine,
    ))
}

/// What follows from the answer to a run.
pub(crate) fn ran(answer: Result<Measured, RunFault>) -> Result<Measured, Why>
    ensures { Follows (nobody Call Answer) IsNoMemory
        (ran_of (ran_answer answer)) tt (seen ran_view result) tt }
{
    match answer {
        Ok(m) => Ok(m),
        Err(RunFault::ReadFault) => Err(Why::ReadFault),
        Err(RunFault::WriteFault) => Err(Why::WriteFault),
        Err(RunFault::NoMemory) => Err(Why::NoMemory),
    }
}
