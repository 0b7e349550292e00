// Rows of programs: what they are run on, and what must come of it.

use crate::log::Log;
use crate::programs::programs_of;
use crate::writer::Writer;
use cov_outside::{MemSink, MemSource, Source};
use py_builtins::RunFault;
use py_code::Programs;
use py_machine::{Engine, Machine, Outcome, Ran, Store};
use std::alloc::Global;
use std::test::Fail;

/// A script, and what must come of it. Steps of 0, and no text for events or arcs, aren't compared.
pub(crate) struct Row {
    pub(crate) title: &'static str,
    pub(crate) source: &'static str,
    pub(crate) out: &'static str,
    pub(crate) end: &'static str,
    pub(crate) steps: u64,
    pub(crate) events: &'static str,
    pub(crate) arcs: &'static str,
}

/// Where a run is stopped. Calls and events are counted from 0.
#[derive(Clone, Copy)]
pub(crate) struct Limits {
    pub(crate) budget: u64,
    /// The event that the tracer refuses.
    pub(crate) event: usize,
    /// The call of the source that fails.
    pub(crate) read: u64,
    /// The call of the sink that fails.
    pub(crate) write: u64,
}

/// The default budget, and nothing fails.
pub(crate) fn unlimited() -> Limits {
    Limits {
        budget: 1_000_000,
        event: usize::MAX,
        read: u64::MAX,
        write: u64::MAX,
    }
}

/// What came of a run.
#[derive(Drop)]
pub(crate) struct Told {
    pub(crate) out: String,
    pub(crate) end: String,
    pub(crate) steps: u64,
    pub(crate) events: String,
    pub(crate) arcs: String,
    /// The input that is left.
    pub(crate) left: String,
}

/// Runs a script with the modules that it imports, on a new store.
pub(crate) fn run_on(
    alloc: Global,
    script: &str,
    others: &[(&str, &str)],
    input: &str,
    limits: Limits,
) -> Result<Told, Fail> {
    let programs = programs_of(alloc, script, others)?;
    run_new(alloc, &programs, input, limits)
}

/// Runs programs on a new store.
pub(crate) fn run_new(
    alloc: Global,
    programs: &Programs,
    input: &str,
    limits: Limits,
) -> Result<Told, Fail> {
    let mut store = store_of(alloc, programs)?;
    run_in(alloc, programs, &mut store, input, limits)
}

/// Runs a script alone, with no input.
pub(crate) fn run_alone(alloc: Global, script: &str, limits: Limits) -> Result<Told, Fail> {
    run_on(alloc, script, &[], "", limits)
}

/// A new store, where `sys.argv` is `['s.py', 'one']`.
pub(crate) fn store_of(alloc: Global, programs: &Programs) -> Result<Store, Fail> {
    let mut words = Vec::new(alloc);
    words.push(String::from_str(alloc, "s.py")?)?;
    words.push(String::from_str(alloc, "one")?)?;
    Ok(Store::new(alloc, programs, &words)?)
}

/// Runs programs on this store.
pub(crate) fn run_in(
    alloc: Global,
    programs: &Programs,
    store: &mut Store,
    input: &str,
    limits: Limits,
) -> Result<Told, Fail> {
    if programs.modules.is_empty() || programs.modules.len() > 4_294_967_295 {
        return Err(Fail::new("there is no module, or too many are there"));
    }
    let mut log = Log::new(alloc, limits.event);
    let bytes = Vec::from_slice(alloc, input.as_bytes())?;
    let reads = Vec::from_slice(alloc, &[limits.read])?;
    let writes = Vec::from_slice(alloc, &[limits.write])?;
    let mut input = MemSource::new(bytes, reads);
    let mut out = MemSink::new(alloc, Vec::new(alloc), writes);
    let ran = Machine.run(
        alloc,
        programs,
        store,
        limits.budget,
        &mut log,
        &mut input,
        &mut out,
    );
    Ok(Told {
        steps: steps_of(&ran),
        end: ending(alloc, ran)?,
        out: String::from_utf8(out.into_bytes())?,
        events: log.written(alloc)?,
        arcs: log.arcs(alloc, programs)?,
        left: rest_of(alloc, &mut input)?,
    })
}

/// The steps of a run, 0 where it was given up.
fn steps_of(ran: &Result<Ran, RunFault>) -> u64 {
    match ran {
        Ok(ran) => ran.steps,
        Err(_) => 0,
    }
}

/// How a run ended.
fn ending(alloc: Global, ran: Result<Ran, RunFault>) -> Result<String, Fail> {
    let mut text = Writer::new(alloc);
    match ran {
        Ok(ran) => put_outcome(alloc, &mut text, &ran.outcome),
        Err(fault) => text.made(format!(in alloc; "{fault:?}")),
    }
    text.done()
}

fn put_outcome(alloc: Global, text: &mut Writer, outcome: &Outcome) {
    match outcome {
        Outcome::Finished => text.put("finished"),
        Outcome::Exited(status, why) => {
            text.made(format!(in alloc; "exit {status}"));
            if let Some(why) = why {
                text.put(": ");
                text.put(why.as_str());
            }
        }
        Outcome::Raised(kind, why) => text.raised(*kind, why),
        Outcome::Cut => text.put("cut"),
    }
}

/// What a source still holds, up to 64 bytes.
pub(crate) fn rest_of(alloc: Global, input: &mut MemSource) -> Result<String, Fail> {
    let mut bytes = [0; 64];
    let Ok(count) = input.read(&mut bytes) else {
        return Ok(String::new(alloc));
    };
    let text = String::from_utf8(Vec::from_slice(alloc, &bytes[..count])?)?;
    Ok(text)
}

/// What isn't as the rows say.
pub(crate) fn wrong(alloc: Global, rows: &[Row]) -> Result<String, Fail> {
    let mut found = Writer::new(alloc);
    for row in rows {
        let told = run_alone(alloc, row.source, unlimited())?;
        compare(&mut found, row, &told);
    }
    found.done()
}

/// Writes down what isn't as the row says.
pub(crate) fn compare(found: &mut Writer, row: &Row, told: &Told) {
    found.compare(row.title, "the output", told.out.as_str(), row.out);
    found.compare(row.title, "the end", told.end.as_str(), row.end);
    if row.steps > 0 {
        found.compare_steps(row.title, told.steps, row.steps);
    }
    if !row.events.is_empty() {
        found.compare(
            row.title,
            "the list of events",
            told.events.as_str(),
            row.events,
        );
    }
    if !row.arcs.is_empty() {
        found.compare(row.title, "the list of arcs", told.arcs.as_str(), row.arcs);
    }
}
