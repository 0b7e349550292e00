// A run under a recorder.
ghost use Rattle.std.specs.Prelude.{◌≡◌, ◌<◌, ◌≤◌, List, Bool, length, IfOk, OnOk, OnErr, IsErrOf};
ghost use Rattle.cov_data.specs.DataSet.{Text as Bytes};
ghost use Rattle.cov_hook.specs.States.{HookState};
ghost use Rattle.cov_measure.specs.Measuring.{GainsSome, HasRunSteps, IsMeasuring, IsSteady, RanMeasured};
ghost use Rattle.cov_measure.specs.Requests.{words_in};
ghost use Rattle.cov_measure.specs.Told.{WasRefused, WasTold};
ghost use Rattle.cov_measure_laws.specs.Leaving.{AreLeft};
ghost use Rattle.cov_outside.specs.Counts.{Rose};
ghost use Rattle.cov_recorder.specs.Plan.{Plan};
ghost use Rattle.cov_recorder.specs.Recording.{at_first};
ghost use Rattle.cov_recorder.specs.States.{state_of};
ghost use Rattle.py_builtins.specs.Inputs.{Wrote};
ghost use Rattle.py_code.specs.Loaded.{modules_of, most_numbered};
ghost use Rattle.py_compile.specs.ProgramRuns.{AreFaithful};
ghost use Rattle.py_machine.specs.Told.{OnInput, OnInputUntil};
ghost use Rattle.py_meaning.specs.Modules.{LoadedModule};
ghost use Rattle.py_meaning.specs.Program.{run_modules};
ghost use Rattle.py_compile_laws.specs.Traces.{AreWellFormed};

use cov_contexts::Plugin;
use cov_event::Ask;
use cov_measure_laws::{
    foreseen_data_of_modules, left_plugins, meant_data_of_modules, whole_data_of_modules,
};
use cov_outside::{Sink, Source};
use cov_recorder::{Recorder, recorded_rows};
use py_builtins::RunFault;
use py_code::Programs;
use py_compile_laws::traces_kept;
use py_machine::{Engine, Ran, Store};
use std::alloc::Global;

/// Runs the programs with these words under a new recorder.
pub(crate) fn run_recorded<A: Ask, P: Plugin, I: Source, O: Sink, G: Engine>(
    alloc: Global,
    programs: &Programs,
    words: &[String],
    budget: u64,
    recorder: &mut Recorder<A, P>,
    input: &mut I,
    out: &mut O,
    engine: &mut G,
) -> Result<Ran, RunFault>
    requires some { 0 < length (modules_of programs.now) }
    requires few { length (modules_of programs.now) ≤ most_numbered }
    ensures meant { (ms hs : List LoadedModule) (arcs : Bool) (fixed : Bytes)
        (code : A → HookState)
        → IsMeasuring A.Ask programs.now ms hs arcs fixed code (state_of recorder.old) → G.faithful
        → IfOk result (λ ran. OnInput I.tells (I.left input.old) (I.left input.new) (λ all rest.
        RanMeasured P.Plugin ms hs arcs fixed code (state_of recorder.old).1
        (state_of recorder.new).1 (run_modules ms (words_in words.now) all budget) ran
        (state_of recorder.new).0.data
        (Wrote O.tells (O.contents out.old) (O.contents out.new)) rest)) }
    // No label stands in that: the steps are the meaning's, and foreseen.
    ensures steps { (ms : List LoadedModule) (plan : Plan) → IsSteady programs.now ms plan
        → (state_of recorder.old).0 ≡ at_first plan → G.faithful
        → OnOk result (OnInput I.tells (I.left input.old) (I.left input.new) (λ all rest.
        HasRunSteps plan ms (run_modules ms (words_in words.now) all budget).items
        (state_of recorder.new).0.data)) }
    // However it ends: a first part of the run's output was written.
    ensures some_output { (ms : List LoadedModule) → AreFaithful (modules_of programs.now) ms
        → AreWellFormed ms → G.faithful
        → OnInputUntil I.tells (I.left input.old) (I.left input.new) (λ all.
        GainsSome O.tells (O.contents out.old) (O.contents out.new)
        (run_modules ms (words_in words.now) all budget).out) }
    // Whoever runs them: the data are those of the events that were told.
    ensures told { (plan : Plan) → (state_of recorder.old).0 ≡ at_first plan
        → OnOk result (WasTold A.Ask P.Plugin plan (state_of recorder.old).1
        (λ calls. G.told engine.old calls engine.new) (state_of recorder.new).0.data
        (state_of recorder.new).1.plugins) }
    ensures refused { (plan : Plan) → (state_of recorder.old).0 ≡ at_first plan
        → OnErr result (WasRefused A.Ask P.Plugin plan (state_of recorder.old).1
        (engine.new ≡ engine.old) (λ calls. G.told engine.old calls engine.new)
        (state_of recorder.new).1.plugins) }
    ensures plugins { AreLeft P.Plugin (state_of recorder.old).1.plugins
        (state_of recorder.new).1.plugins }
    ensures reads { I.faults input.old ≤ I.faults input.new }
    ensures writes { O.faults out.old ≤ O.faults out.new }
    ensures read_fault { IsErrOf result RunFault.ReadFault
        → Rose (I.faults input.old) (I.faults input.new) }
    ensures write_fault { IsErrOf result RunFault.WriteFault
        → Rose (O.faults out.old) (O.faults out.new) }
{
    traces_kept();
    meant_data_of_modules::<A, P>();
    whole_data_of_modules::<A, P>();
    foreseen_data_of_modules::<A, P>();
    recorded_rows::<A, P>();
    left_plugins::<A, P>();
    let mut store = Store::new(alloc, programs, words)?;
    let ran = engine.run(alloc, programs, &mut store, budget, recorder, input, out)?;
    Ok(ran)
}
