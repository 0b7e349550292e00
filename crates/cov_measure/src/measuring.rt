// Programs, measured under labels of any hook.
ghost use Rattle.std.specs.Prelude.{◌≡◌, ◌<◌, ◌≤◌, List, length, IfOk, OnErr, IsErrOf};
ghost use Rattle.cov_hook.specs.States.{HookState};
ghost use Rattle.cov_measure.specs.Measures.{MeasuredAs};
ghost use Rattle.cov_measure.specs.Measuring.{AreMeasurable, AreMeasured, GainsSome, HasRunSteps};
ghost use Rattle.cov_measure.specs.Requests.{asked_in, plain_measured};
ghost use Rattle.cov_measure.specs.Told.{WasRefused, WasTold};
ghost use Rattle.cov_measure_laws.specs.Leaving.{AreLeft};
ghost use Rattle.cov_measure_laws.specs.Meant.{meant_sources, tree_plan};
ghost use Rattle.cov_measure_laws.specs.Units.{program_units};
ghost use Rattle.cov_outside.specs.Counts.{Rose};
ghost use Rattle.cov_recorder.specs.Plan.{HaveFirsts, plan_of};
ghost use Rattle.py_builtins.specs.Inputs.{Wrote};
ghost use Rattle.py_code.specs.Loaded.{modules_of, most_numbered};
ghost use Rattle.py_machine.specs.Told.{OnInput, OnInputUntil};
ghost use Rattle.py_meaning.specs.Modules.{LoadedModule};
ghost use Rattle.py_meaning.specs.Program.{run_modules};

use crate::request::{Measured, RunRequest, words_of};
use crate::running::run_recorded;
use cov_contexts::{Contexts, Plugin};
use cov_event::Ask;
use cov_measure_laws::{units_of, units_of_programs, whole_plans};
use cov_outside::{Sink, Source};
use cov_predict::ArcSet;
use cov_recorder::Recorder;
use py_builtins::RunFault;
use py_code::Programs;
use py_machine::Engine;
use std::alloc::Global;

/// Runs the programs as the request asks, and keeps their data under the labels that `contexts`
/// gives. The plugins that didn't leave are handed back.
pub(crate) fn measure_under<A: Ask, P: Plugin, I: Source, O: Sink, G: Engine>(
    alloc: Global,
    request: &RunRequest,
    programs: &Programs,
    places: Vec<ArcSet>,
    contexts: Contexts<A, P>,
    input: &mut I,
    out: &mut O,
    engine: &mut G,
) -> (Result<Measured, RunFault>, Vec<P>)
    requires some { 0 < length (modules_of programs.now) }
    requires few { length (modules_of programs.now) ≤ most_numbered }
    requires begin { HaveFirsts (program_units programs.now.modules.items) }
    ensures meant { (ms hs : List LoadedModule) (code : A → HookState)
        → AreMeasurable A.Ask programs.now places.items ms hs code contexts → G.faithful
        → IfOk result.0 (λ m. OnInput I.tells (I.left input.old) (I.left input.new) (λ all rest.
        MeasuredAs P.Plugin (asked_in request.now) ms (meant_sources code hs contexts)
        (run_modules ms (asked_in request.now).words all request.now.budget)
        (plain_measured m) result.1.items
        (Wrote O.tells (O.contents out.old) (O.contents out.new)) rest)) }
    ensures steps { (ms : List LoadedModule) → AreMeasured programs.now places.items ms → G.faithful
        → IfOk result.0 (λ m. OnInput I.tells (I.left input.old) (I.left input.new) (λ all rest.
        HasRunSteps (tree_plan ms request.now.arcs (asked_in request.now).context) ms
        (run_modules ms (asked_in request.now).words all request.now.budget).items m.rows)) }
    ensures given_up { (ms : List LoadedModule) → AreMeasured programs.now places.items ms
        → G.faithful
        → OnErr result.0 (OnInputUntil I.tells (I.left input.old) (I.left input.new) (λ all.
        GainsSome O.tells (O.contents out.old) (O.contents out.new)
        (run_modules ms (asked_in request.now).words all request.now.budget).out)) }
    ensures told { IfOk result.0 (λ m. WasTold A.Ask P.Plugin
        (plan_of (program_units programs.now.modules.items) places.items request.now.arcs
        (asked_in request.now).context) contexts
        (λ calls. G.told engine.old calls engine.new) m.rows result.1.items) }
    ensures refused { OnErr result.0 (WasRefused A.Ask P.Plugin
        (plan_of (program_units programs.now.modules.items) places.items request.now.arcs
        (asked_in request.now).context) contexts (engine.new ≡ engine.old)
        (λ calls. G.told engine.old calls engine.new) result.1.items) }
    ensures plugins { AreLeft P.Plugin contexts.plugins result.1.items }
    ensures reads { I.faults input.old ≤ I.faults input.new }
    ensures writes { O.faults out.old ≤ O.faults out.new }
    ensures read_fault { IsErrOf result.0 RunFault.ReadFault
        → Rose (I.faults input.old) (I.faults input.new) }
    ensures write_fault { IsErrOf result.0 RunFault.WriteFault
        → Rose (O.faults out.old) (O.faults out.new) }
{
    units_of_programs();
    whole_plans();
    let Ok(words) = words_of(alloc, request) else {
        return (Err(RunFault::NoMemory), contexts.into_plugins());
    };
    let Ok(units) = units_of(alloc, programs) else {
        return (Err(RunFault::NoMemory), contexts.into_plugins());
    };
    let fixed = request.fixed.as_str();
    let mut recorder = match Recorder::new(alloc, units, places, request.arcs, fixed, contexts) {
        Ok(recorder) => recorder,
        Err(refused) => return (Err(RunFault::NoMemory), refused.contexts.into_plugins()),
    };
    let budget = request.budget;
    let ran = run_recorded(
        alloc,
        programs,
        &words,
        budget,
        &mut recorder,
        input,
        out,
        engine,
    );
    let (rows, plugins) = recorder.finish(alloc);
    match ran {
        Err(fault) => (Err(fault), plugins),
        Ok(ran) => match rows {
            Err(_) => (Err(RunFault::NoMemory), plugins),
            Ok(rows) => (
                Ok(Measured {
                    rows,
                    outcome: ran.outcome,
                    steps: ran.steps,
                }),
                plugins,
            ),
        },
    }
}
