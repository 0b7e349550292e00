// Programs, measured under labels of a hook of their own, or of none.
ghost use Rattle.std.specs.Prelude.{◌≡◌, ◌<◌, ◌≤◌, List, length, IfOk, OnErr, IsErrOf};
ghost use Rattle.cov_hook.specs.View.{state_of};
ghost use Rattle.cov_measure.specs.Measures.{MeasureOf, sources_of, streams};
ghost use Rattle.cov_measure.specs.Measuring.{AreMeasured, GainsSome, HasRunSteps};
ghost use Rattle.cov_measure.specs.Requests.{asked_in, plain_answer};
ghost use Rattle.cov_measure.specs.Told.{WasRefused, WasTold, code_hook};
ghost use Rattle.cov_measure_laws.specs.Leaving.{AreLeft};
ghost use Rattle.cov_measure_laws.specs.Meant.{IsFaithfulHook, meant_of, tree_plan};
ghost use Rattle.cov_measure_laws.specs.Units.{program_units};
ghost use Rattle.cov_outside.specs.Counts.{Rose};
ghost use Rattle.cov_recorder.specs.Plan.{HaveFirsts, plan_of};
ghost use Rattle.py_code.specs.Loaded.{modules_of, most_numbered};
ghost use Rattle.py_machine.specs.Told.{OnInput};
ghost use Rattle.py_meaning.specs.Modules.{LoadedModule};
ghost use Rattle.py_meaning.specs.Program.{run_modules};
ghost use Rattle.py_compile_laws.specs.Traces.{AreWellFormed};

use crate::measuring::measure_under;
use crate::request::{Measured, RunRequest};
use cov_contexts::{Contexts, Plugin};
use cov_hook::Hook;
use cov_outside::{Sink, Source};
use cov_predict::ArcSet;
use py_builtins::RunFault;
use py_code::Programs;
use py_machine::Engine;
use std::alloc::Global;
use std::mem;

/// Runs the programs as the request asks, and keeps their data under the labels of this hook, of
/// the plugins and of the name rule. `places[m]` is the set of the arcs of module m that are
/// counted. `request.hook` only names where the hook came from, and isn't read. A plugin that
/// leaves is taken from the list.
pub fn measure<P: Plugin, I: Source, O: Sink, G: Engine>(
    alloc: Global,
    request: &RunRequest,
    programs: &Programs,
    places: Vec<ArcSet>,
    hook: Option<Hook>,
    input: &mut I,
    out: &mut O,
    plugins: &mut Vec<P>,
    engine: &mut G,
) -> Result<Measured, RunFault>
    requires some { 0 < length (modules_of programs.now) }
    requires few { length (modules_of programs.now) ≤ most_numbered }
    requires begin { HaveFirsts (program_units programs.now.modules.items) }
    // Of all trees of which the programs and the hook are faithful code:
    ensures measured { (ms hs : List LoadedModule) → AreMeasured programs.now places.items ms
        → AreWellFormed hs → IsFaithfulHook state_of hs hook
        → MeasureOf I.Source O.Sink P.Plugin G.Engine
        (streams input.old out.old plugins.old.items engine.old) (asked_in request.now) ms
        (meant_of state_of hs hook) (plain_answer result)
        (streams input.new out.new plugins.new.items engine.new) }
    // No label stands in that: the steps are the meaning's, and foreseen.
    ensures steps { (ms : List LoadedModule) → AreMeasured programs.now places.items ms → G.faithful
        → IfOk result (λ m. OnInput I.tells (I.left input.old) (I.left input.new) (λ all rest.
        HasRunSteps (tree_plan ms request.now.arcs (asked_in request.now).context) ms
        (run_modules ms (asked_in request.now).words all request.now.budget).items m.rows)) }
    // Whoever runs them: the data are those of the events that were told.
    ensures told { IfOk result (λ m. WasTold code_hook P.Plugin
        (plan_of (program_units programs.now.modules.items) places.items request.now.arcs
        (asked_in request.now).context) (sources_of hook plugins.old.items request.now.by_name)
        (λ calls. G.told engine.old calls engine.new) m.rows plugins.new.items) }
    ensures refused { OnErr result (WasRefused code_hook P.Plugin
        (plan_of (program_units programs.now.modules.items) places.items request.now.arcs
        (asked_in request.now).context) (sources_of hook plugins.old.items request.now.by_name)
        (engine.new ≡ engine.old) (λ calls. G.told engine.old calls engine.new)
        plugins.new.items) }
    ensures plugins { AreLeft P.Plugin plugins.old.items plugins.new.items }
    ensures reads { I.faults input.old ≤ I.faults input.new }
    ensures writes { O.faults out.old ≤ O.faults out.new }
    ensures read_fault { IsErrOf result RunFault.ReadFault
        → Rose (I.faults input.old) (I.faults input.new) }
    ensures write_fault { IsErrOf result RunFault.WriteFault
        → Rose (O.faults out.old) (O.faults out.new) }
{
    let lent = mem::replace(plugins, Vec::new(alloc));
    let contexts = Contexts::new(hook, lent, request.by_name);
    let (answer, left) = measure_under(
        alloc, request, programs, places, contexts, input, out, engine,
    );
    *plugins = left;
    answer
}
