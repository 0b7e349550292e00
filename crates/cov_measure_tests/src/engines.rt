// An engine that isn't true: the data are those of the events that it told.

use crate::harness::{Case, PLAIN, measure_script};
use cov_event::{CodeId, ContextPlugin, Event, Tracer};
use cov_outside::{Sink, Source};
use py_builtins::RunFault;
use py_code::Programs;
use py_machine::{Engine, Outcome, Ran, Store};
use std::alloc::Global;
use std::test::Fail;

/// Tells that the first line of the script was run, and runs nothing.
#[derive(Drop)]
struct Brief;

impl Engine for Brief {
    ghost faithful = { ⊥ };

    // Nothing is said of what it told.
    ghost told = { λ _ _ _. Unit {0} };

    fn run<T: Tracer, I: Source, O: Sink>(
        &mut self,
        alloc: Global,
        _programs: &Programs,
        _store: &mut Store,
        _budget: u64,
        tracer: &mut T,
        _input: &mut I,
        _out: &mut O,
    ) -> Result<Ran, RunFault> {
        tracer.event(alloc, &Event::Call(CodeId { module: 0, unit: 0 }))?;
        tracer.event(alloc, &Event::Line(1))?;
        tracer.event(alloc, &Event::Return)?;
        Ok(Ran {
            outcome: Outcome::Finished,
            steps: 1,
        })
    }
}

#[test]
fn another_engine(rt: HostRuntime) -> Result<(), Fail> {
    let alloc = rt.alloc();
    let mut none: Vec<Box<dyn ContextPlugin>> = Vec::new(alloc);
    let case = Case {
        source: "x = 1\nif x:\n    print(x)\nelse:\n    print(0)\n",
        ..PLAIN
    };
    let told = measure_script(alloc, &case, &mut none, &mut Brief)?;
    assert_eq!(&rt; told.rows.as_str(), ": -1 1 1\n: 1 -1 1\n");
    assert_eq!(&rt; told.steps, 1);
    assert_eq!(&rt; told.out.len(), 0);
    Ok(())
}
