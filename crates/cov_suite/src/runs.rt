// The machine's runs under a tracer: that of the script, and the call of a test.
ghost use Rattle.std.specs.Prelude.{◌≡◌, ◌<◌, ◌≤◌, length, IfOk};
ghost use Rattle.cov_measure_laws.specs.Leaving.{AreLeft};
ghost use Rattle.cov_recorder.specs.States.{state_of};
ghost use Rattle.cov_suite.specs.Recorded.{ImportRan, IsStep, TestRan, is_finished};
ghost use Rattle.cov_suite.specs.Results.{end_of};
ghost use Rattle.py_code.specs.Loaded.{modules_of, most_numbered};
ghost use Rattle.py_machine.specs.Outcomes.{plain_called, plain_outcome};
ghost use Rattle.py_machine.specs.Told.{CallsSome};
ghost use Rattle.py_world.specs.Stores.{world_of};

use crate::results::TestEnd;
use cov_contexts::Plugin;
use cov_event::{Nobody, Tracer};
use cov_measure_laws::left_plugins;
use cov_outside::{NullSink, SureSink, SureSource};
use cov_recorder::Recorder;
use py_code::Programs;
use py_machine::{Called, Outcome, Store, call, run};
use py_text::{NoMemory, Text};
use std::alloc::{AllocError, Global};

fn is_finished(outcome: &Outcome) -> bool
    ensures { result ≡ is_finished (plain_outcome outcome.now) }
{
    match outcome {
        Outcome::Finished => true,
        Outcome::Exited(_, _) => false,
        Outcome::Raised(_, _) => false,
        Outcome::Cut => false,
    }
}

/// Runs the script on a store with empty input, and tells whether it finished.
pub(crate) fn run_script<T: Tracer>(
    alloc: Global,
    programs: &Programs,
    store: &mut Store,
    budget: u64,
    tracer: &mut T,
) -> Result<bool, NoMemory>
    requires some { 0 < length (modules_of programs.now) }
    requires few { length (modules_of programs.now) ≤ most_numbered }
    ensures ran { IfOk result (ImportRan T.moves (modules_of programs.now) budget
        (world_of store.old) (world_of store.new) tracer.old tracer.new) }
    ensures calls { CallsSome T.moves T.refused tracer.old tracer.new }
{
    let mut input = SureSource::new(Vec::new(alloc));
    let mut out = NullSink;
    match run(alloc, programs, store, budget, tracer, &mut input, &mut out) {
        Ok(ran) => Ok(is_finished(&ran.outcome)),
        Err(_) => Err(AllocError),
    }
}

/// The same under a recorder.
pub(crate) fn record_script<P: Plugin>(
    alloc: Global,
    programs: &Programs,
    store: &mut Store,
    budget: u64,
    recorder: &mut Recorder<Nobody, P>,
) -> Result<bool, NoMemory>
    requires some { 0 < length (modules_of programs.now) }
    requires few { length (modules_of programs.now) ≤ most_numbered }
    ensures ran { IfOk result (ImportRan (IsStep P.Plugin) (modules_of programs.now) budget
        (world_of store.old) (world_of store.new) recorder.old recorder.new) }
    ensures plugins { AreLeft P.Plugin (state_of recorder.old).1.plugins
        (state_of recorder.new).1.plugins }
{
    left_plugins::<Nobody, P>();
    run_script(alloc, programs, store, budget, recorder)
}

/// How a test ended, what it wrote, and the steps that it took.
#[derive(Drop)]
pub(crate) struct Ended {
    pub end: TestEnd,
    pub output: Vec<u8>,
    pub steps: u64,
}

fn end_of(called: Called) -> TestEnd
    ensures { result ≡ end_of (plain_called called) }
{
    match called {
        Called::Gave(value) => {
            drop(value);
            TestEnd::Passed
        }
        Called::Raised(kind, text) => TestEnd::Failed(kind, text),
        Called::Cut => TestEnd::Cut,
    }
}

/// Calls a test without arguments on a store, with empty input.
pub(crate) fn call_test<T: Tracer>(
    alloc: Global,
    programs: &Programs,
    store: &mut Store,
    name: &Text,
    budget: u64,
    tracer: &mut T,
) -> Result<Ended, NoMemory>
    requires some { 0 < length (modules_of programs.now) }
    requires few { length (modules_of programs.now) ≤ most_numbered }
    ensures ran { IfOk result (TestRan T.moves (modules_of programs.now) budget
        (world_of store.old) name.now tracer.old tracer.new) }
    ensures calls { CallsSome T.moves T.refused tracer.old tracer.new }
{
    let mut input = SureSource::new(Vec::new(alloc));
    let mut out = SureSink::new(alloc, Vec::new(alloc));
    let name = name.as_str();
    match call(
        alloc,
        programs,
        store,
        0,
        name,
        &[],
        budget,
        tracer,
        &mut input,
        &mut out,
    ) {
        Ok(answer) => Ok(Ended {
            end: end_of(answer.called),
            output: out.into_bytes(),
            steps: answer.steps,
        }),
        Err(_) => Err(AllocError),
    }
}

/// The same under a recorder.
pub(crate) fn record_test<P: Plugin>(
    alloc: Global,
    programs: &Programs,
    store: &mut Store,
    name: &Text,
    budget: u64,
    recorder: &mut Recorder<Nobody, P>,
) -> Result<Ended, NoMemory>
    requires some { 0 < length (modules_of programs.now) }
    requires few { length (modules_of programs.now) ≤ most_numbered }
    ensures ran { IfOk result (TestRan (IsStep P.Plugin) (modules_of programs.now) budget
        (world_of store.old) name.now recorder.old recorder.new) }
    ensures plugins { AreLeft P.Plugin (state_of recorder.old).1.plugins
        (state_of recorder.new).1.plugins }
{
    left_plugins::<Nobody, P>();
    call_test(alloc, programs, store, name, budget, recorder)
}
