//! The command `arcs`: runs a script and lists the jumps of its run.
ghost use Rattle.std.specs.Prelude.{◌≡◌, ℕ, List, map, string_bytes};
ghost use Rattle.cov_calls.specs.Views.{answered_view};
ghost use Rattle.cov_loaded_laws.specs.Loaded.{IsMeasurable};
ghost use Rattle.cov_measure.specs.Measures.{streams};
ghost use Rattle.cov_measure.specs.Requests.{asked_in};
ghost use Rattle.cov_programs.specs.Ends.{Follows};
ghost use Rattle.cov_programs.specs.Objects.{beside};
ghost use Rattle.cov_run.specs.Loads.{loaded_modules};
ghost use Rattle.cov_runs.specs.Crossed.{crossed, crossing, listed};
ghost use Rattle.cov_runs.specs.Measured.{HoldPossible, ran_view};
ghost use Rattle.cov_step.specs.Calls.{IsNoMemory, seen};
ghost use Rattle.cov_step.specs.Commands.{arcs, usual_steps, words_of};
ghost use Rattle.cov_step.specs.Listing.{listing};
ghost use Rattle.cov_step.specs.Names.{or_else};
ghost use Rattle.cov_step.specs.Objects.{on_shelf, on_sink};
ghost use Rattle.cov_step.specs.Phases.{write_last};
ghost use Rattle.cov_streams.specs.Objects.{on_run};
ghost use Rattle.cov_streams.specs.Runs.{arcs_asked};

use crate::ending::answered_by;
use crate::listing::listing;
use crate::measuring::ran;
use crate::opening::opened;
use crate::sets::possible_sets;
use cov_calls::{Answered, USUAL_STEPS, write_last};
use cov_contexts::Plugin;
use cov_data::Data;
use cov_measure::{Measured, RunRequest, measure};
use cov_outside::{Shelf, Sink, Source};
use cov_predict::ArcSet;
use cov_run::Loaded;
use cov_why::Why;
use py_machine::Engine;
use std::alloc::Global;

/// Runs the script with these arguments, and writes a line for each arc of its run. No hook or
/// plugin is asked.
pub fn arcs<H: Shelf, I: Source, O: Sink, G: Engine, P: Plugin>(
    alloc: Global,
    budget: Option<u64>,
    script: String,
    args: Vec<String>,
    shelf: &mut H,
    input: &mut I,
    out: &mut O,
    plugins: &mut Vec<P>,
    engine: &mut G,
) -> Result<Answered, Why>
    ensures { Follows (beside (on_shelf H.Shelf) (on_run I.Source O.Sink P.Plugin G.Engine))
        IsNoMemory (arcs budget (string_bytes script) (map string_bytes args.items))
        (shelf.old, streams input.old out.old plugins.old.items engine.old)
        (seen answered_view result)
        (shelf.new, streams input.new out.new plugins.new.items engine.new) }
{
    let loaded = opened(alloc, script.as_str(), shelf)?;
    let request = request_of(alloc, budget, script, args);
    crossed(alloc, &request, &loaded, input, out, plugins, engine)
}

/// What a run is asked whose arcs are listed.
fn request_of(alloc: Global, budget: Option<u64>, script: String, args: Vec<String>) -> RunRequest
    ensures { asked_in result ≡ arcs_asked
        (words_of (string_bytes script) (map string_bytes args.items))
        (or_else budget usual_steps) }
{
    RunRequest {
        script,
        args,
        arcs: true,
        fixed: String::new(alloc),
        by_name: false,
        hook: None,
        budget: budget.unwrap_or(USUAL_STEPS),
    }
}

/// Runs a loaded program, and lists its arcs.
fn crossed<I: Source, O: Sink, G: Engine, P: Plugin>(
    alloc: Global,
    request: &RunRequest,
    loaded: &Loaded,
    input: &mut I,
    out: &mut O,
    plugins: &mut Vec<P>,
    engine: &mut G,
) -> Result<Answered, Why>
    requires { IsMeasurable loaded.now }
    ensures { (words : List (List ℕ)) (budget : ℕ)
        → asked_in request.now ≡ arcs_asked words budget
        → Follows (on_run I.Source O.Sink P.Plugin G.Engine) IsNoMemory
        (crossed (loaded_modules loaded.now) words budget)
        (streams input.old out.old plugins.old.items engine.old) (seen answered_view result)
        (streams input.new out.new plugins.new.items engine.new) }
{
    let m = crossing(alloc, request, loaded, input, out, plugins, engine)?;
    listed(alloc, request.budget, &m, out)
}

/// Runs a loaded program, with none of the plugins.
fn crossing<I: Source, O: Sink, G: Engine, P: Plugin>(
    alloc: Global,
    request: &RunRequest,
    loaded: &Loaded,
    input: &mut I,
    out: &mut O,
    plugins: &mut Vec<P>,
    engine: &mut G,
) -> Result<Measured, Why>
    requires { IsMeasurable loaded.now }
    ensures { (words : List (List ℕ)) (budget : ℕ)
        → asked_in request.now ≡ arcs_asked words budget
        → Follows (on_run I.Source O.Sink P.Plugin G.Engine) IsNoMemory
        (crossing (loaded_modules loaded.now) words budget)
        (streams input.old out.old plugins.old.items engine.old) (seen ran_view result)
        (streams input.new out.new plugins.new.items engine.new) }
{
    match possible_sets(alloc, &loaded.modules) {
        Ok(sets) => cross(alloc, request, loaded, sets, input, out, plugins, engine),
        Err(_) => Err(Why::NoMemory),
    }
}

fn cross<I: Source, O: Sink, G: Engine, P: Plugin>(
    alloc: Global,
    request: &RunRequest,
    loaded: &Loaded,
    sets: Vec<ArcSet>,
    input: &mut I,
    out: &mut O,
    plugins: &mut Vec<P>,
    engine: &mut G,
) -> Result<Measured, Why>
    requires measurable { IsMeasurable loaded.now }
    requires sets { HoldPossible (loaded_modules loaded.now) sets.items }
    ensures { (words : List (List ℕ)) (budget : ℕ)
        → asked_in request.now ≡ arcs_asked words budget
        → Follows (on_run I.Source O.Sink P.Plugin G.Engine) IsNoMemory
        (crossing (loaded_modules loaded.now) words budget)
        (streams input.old out.old plugins.old.items engine.old) (seen ran_view result)
        (streams input.new out.new plugins.new.items engine.new) }
{
    let mut none: Vec<P> = Vec::new(alloc);
    ran(measure(
        alloc,
        request,
        &loaded.programs,
        sets,
        None,
        input,
        out,
        &mut none,
        engine,
    ))
}

/// Writes a line for each arc of the rows.
fn listed<O: Sink>(alloc: Global, budget: u64, m: &Measured, out: &mut O) -> Result<Answered, Why>
    ensures { Follows (on_sink O.Sink) IsNoMemory (listed budget (ran_view m.now)) out.old
        (seen answered_view result) out.new }
{
    match answered_by(alloc, budget, &m.outcome) {
        Ok(answered) => write_listing(alloc, &m.rows, answered, out),
        Err(_) => Err(Why::NoMemory),
    }
}

fn write_listing<O: Sink>(
    alloc: Global,
    rows: &Data,
    answered: Answered,
    out: &mut O,
) -> Result<Answered, Why>
    ensures { Follows (on_sink O.Sink) IsNoMemory
        (write_last (listing rows.now) (answered_view answered)) out.old
        (seen answered_view result) out.new }
{
    match listing(alloc, rows) {
        Ok(text) => write_last(alloc, text.as_bytes(), answered, out),
        Err(_) => Err(Why::NoMemory),
    }
}
