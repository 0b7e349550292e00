// Rows of calls of one function, on the store that a run left.

use crate::log::Log;
use crate::programs::programs_of;
use crate::rows::{Told, rest_of, run_in, store_of, unlimited};
use crate::writer::Writer;
use cov_outside::{MemSink, MemSource};
use py_builtins::{RunFault, repr_of};
use py_code::Programs;
use py_machine::{Answer, Called, Store, call};
use py_value::{Heap, Value};
use std::alloc::Global;
use std::test::Fail;

/// A call of a function of a module with whole numbers, within a budget, and what must come of it.
/// No text for events isn't compared.
#[derive(Drop)]
pub(crate) struct Row {
    pub(crate) module: u32,
    pub(crate) function: &'static str,
    pub(crate) args: &'static [i64],
    pub(crate) budget: u64,
    pub(crate) out: &'static str,
    pub(crate) end: &'static str,
    pub(crate) steps: u64,
    pub(crate) events: &'static str,
}

const SCRIPT: &str = "\
import m
n = 0
value = 5
kind = ValueError
show = print
def count(by=1):
    global n
    n = n + by
    return n
def pair(a, b=2):
    return [a, b]
def fails(text):
    raise ValueError(text)
def deep(k):
    if k == 0:
        return 0
    return 1 + deep(k - 1)
def says():
    print('said', input())
def leaves(status):
    try:
        m.sys.exit(status)
    finally:
        print('finally')
def endless():
    while True: pass
";

const MODULE: &str = "\
import sys
def div(a, b):
    return a // b
";

static ROWS: [Row; 23] = [
    Row {
        module: 0,
        function: "missing",
        args: &[],
        budget: 1_000_000,
        out: "",
        end: "NameError: name 'missing' is not defined",
        steps: 0,
        events: "",
    },
    Row {
        module: 0,
        function: "value",
        args: &[],
        budget: 1_000_000,
        out: "",
        end: "TypeError: not callable",
        steps: 0,
        events: "",
    },
    Row {
        module: 0,
        function: "pair",
        args: &[],
        budget: 1_000_000,
        out: "",
        end: "TypeError: wrong number of arguments",
        steps: 0,
        events: "",
    },
    Row {
        module: 0,
        function: "pair",
        args: &[1, 2, 3],
        budget: 1_000_000,
        out: "",
        end: "TypeError: wrong number of arguments",
        steps: 0,
        events: "",
    },
    Row {
        module: 0,
        function: "pair",
        args: &[1],
        budget: 1_000_000,
        out: "",
        end: "[1, 2]",
        steps: 2,
        events: "0.2( 11 )",
    },
    Row {
        module: 0,
        function: "pair",
        args: &[1, 5],
        budget: 1_000_000,
        out: "",
        end: "[1, 5]",
        steps: 2,
        events: "0.2( 11 )",
    },
    Row {
        module: 0,
        function: "count",
        args: &[],
        budget: 1_000_000,
        out: "",
        end: "1",
        steps: 3,
        events: "0.1( 8 9 )",
    },
    Row {
        module: 0,
        function: "count",
        args: &[10],
        budget: 1_000_000,
        out: "",
        end: "11",
        steps: 3,
        events: "0.1( 8 9 )",
    },
    Row {
        module: 0,
        function: "count",
        args: &[],
        budget: 0,
        out: "",
        end: "cut",
        steps: 0,
        events: "",
    },
    Row {
        module: 0,
        function: "count",
        args: &[],
        budget: 2,
        out: "",
        end: "cut",
        steps: 2,
        events: "0.1( 8",
    },
    Row {
        module: 0,
        function: "count",
        args: &[],
        budget: 3,
        out: "",
        end: "13",
        steps: 3,
        events: "0.1( 8 9 )",
    },
    Row {
        module: 0,
        function: "fails",
        args: &[7],
        budget: 1_000_000,
        out: "",
        end: "ValueError: 7",
        steps: 2,
        events: "0.3( 13 )",
    },
    Row {
        module: 0,
        function: "deep",
        args: &[999],
        budget: 1_000_000,
        out: "",
        end: "999",
        steps: 3000,
        events: "",
    },
    Row {
        module: 0,
        function: "deep",
        args: &[1000],
        budget: 1_000_000,
        out: "",
        end: "RecursionError: maximum recursion depth exceeded",
        steps: 3000,
        events: "",
    },
    Row {
        module: 0,
        function: "says",
        args: &[],
        budget: 1_000_000,
        out: "said one\n",
        end: "None",
        steps: 2,
        events: "0.5( 19 )",
    },
    Row {
        module: 0,
        function: "leaves",
        args: &[3],
        budget: 1_000_000,
        out: "finally\n",
        end: "SystemExit: 3",
        steps: 4,
        events: "0.6( 21 22 !SystemExit 24 !SystemExit )",
    },
    Row {
        module: 0,
        function: "endless",
        args: &[],
        budget: 4,
        out: "",
        end: "cut",
        steps: 4,
        events: "0.7( 26 26",
    },
    Row {
        module: 0,
        function: "kind",
        args: &[3],
        budget: 1_000_000,
        out: "",
        end: "ValueError(3)",
        steps: 0,
        events: "",
    },
    Row {
        module: 0,
        function: "show",
        args: &[1, 2],
        budget: 1_000_000,
        out: "1 2\n",
        end: "None",
        steps: 0,
        events: "",
    },
    Row {
        module: 0,
        function: "m",
        args: &[],
        budget: 1_000_000,
        out: "",
        end: "TypeError: not callable",
        steps: 0,
        events: "",
    },
    Row {
        module: 1,
        function: "div",
        args: &[7, 2],
        budget: 1_000_000,
        out: "",
        end: "3",
        steps: 2,
        events: "1.1( 3 )",
    },
    Row {
        module: 1,
        function: "div",
        args: &[1, 0],
        budget: 1_000_000,
        out: "",
        end: "ZeroDivisionError: division by zero",
        steps: 2,
        events: "1.1( 3 !ZeroDivisionError )",
    },
    Row {
        module: 1,
        function: "count",
        args: &[],
        budget: 1_000_000,
        out: "",
        end: "NameError: name 'count' is not defined",
        steps: 0,
        events: "",
    },
];

/// Calls the function of a row. The input is one line.
fn told(alloc: Global, row: &Row, programs: &Programs, store: &mut Store) -> Result<Told, Fail> {
    if programs.modules.is_empty() || programs.modules.len() > 4_294_967_295 {
        return Err(Fail::new("there is no module, or too many are there"));
    }
    let mut values = Vec::new(alloc);
    for arg in row.args {
        values.push(Value::Int(*arg))?;
    }
    let mut log = Log::new(alloc, usize::MAX);
    let bytes = Vec::from_slice(alloc, b"one\ntwo\n")?;
    let mut input = MemSource::new(bytes, Vec::new(alloc));
    let mut out = MemSink::new(alloc, Vec::new(alloc), Vec::new(alloc));
    let answer = call(
        alloc,
        programs,
        store,
        row.module,
        row.function,
        &values,
        row.budget,
        &mut log,
        &mut input,
        &mut out,
    );
    Ok(Told {
        steps: steps_of(&answer),
        end: ending(alloc, answer, &store.heap)?,
        out: String::from_utf8(out.into_bytes())?,
        events: log.written(alloc)?,
        arcs: log.arcs(alloc, programs)?,
        left: rest_of(alloc, &mut input)?,
    })
}

/// The steps of a call, 0 where it was given up.
fn steps_of(answer: &Result<Answer, RunFault>) -> u64 {
    match answer {
        Ok(answer) => answer.steps,
        Err(_) => 0,
    }
}

/// How a call ended: the value that it gave, as in a display, or the exception.
fn ending(alloc: Global, answer: Result<Answer, RunFault>, heap: &Heap) -> Result<String, Fail> {
    let mut text = Writer::new(alloc);
    match answer {
        Ok(answer) => match &answer.called {
            Called::Gave(value) => match repr_of(alloc, value, heap)? {
                Ok(shown) => text.put(shown.as_str()),
                Err(_) => text.put("no text"),
            },
            Called::Raised(kind, why) => text.raised(*kind, why),
            Called::Cut => text.put("cut"),
        },
        Err(fault) => text.made(format!(in alloc; "{fault:?}")),
    }
    text.done()
}

/// Writes down what isn't as the rows say, when their calls are made one after the other.
pub(crate) fn wrong(
    alloc: Global,
    rows: &[Row],
    programs: &Programs,
    store: &mut Store,
) -> Result<String, Fail> {
    let mut found = Writer::new(alloc);
    for row in rows {
        let told = told(alloc, row, programs, store)?;
        found.compare(row.function, "the output", told.out.as_str(), row.out);
        found.compare(row.function, "the end", told.end.as_str(), row.end);
        found.compare_steps(row.function, told.steps, row.steps);
        if !row.events.is_empty() {
            found.compare(
                row.function,
                "the list of events",
                told.events.as_str(),
                row.events,
            );
        }
    }
    found.done()
}

#[test]
fn calls_of_functions(rt: HostRuntime) -> Result<(), Fail> {
    let alloc = rt.alloc();
    let programs = programs_of(alloc, SCRIPT, &[("m", MODULE)])?;
    let mut store = store_of(alloc, &programs)?;
    run_in(alloc, &programs, &mut store, "", unlimited())?;
    let found = wrong(alloc, &ROWS, &programs, &mut store)?;
    assert_eq!(rt; found.as_str(), "");
    Ok(())
}

const TESTS: &str = "\
n = [0]
def test_a():
    n[0] = n[0] + 1
    assert n[0] == 1
def test_b():
    n[0] = n[0] + 1
    assert n[0] == 1
def test_c():
    assert n[0] == 1, 'no'
";

/// A call of a test, with nothing but its end and its steps.
struct Test {
    function: &'static str,
    alone: &'static str,
    in_order: &'static str,
    steps: u64,
}

static TESTED: [Test; 3] = [
    Test {
        function: "test_a",
        alone: "None",
        in_order: "None",
        steps: 3,
    },
    Test {
        function: "test_b",
        alone: "None",
        in_order: "AssertionError",
        steps: 3,
    },
    Test {
        function: "test_c",
        alone: "AssertionError: no",
        in_order: "AssertionError: no",
        steps: 2,
    },
];

fn called(
    alloc: Global,
    test: &Test,
    programs: &Programs,
    store: &mut Store,
) -> Result<Told, Fail> {
    let row = Row {
        module: 0,
        function: test.function,
        args: &[],
        budget: 1000,
        out: "",
        end: "",
        steps: 0,
        events: "",
    };
    told(alloc, &row, programs, store)
}

/// On a copy of a store each call begins anew, and the store stays as it was.
#[test]
fn calls_on_copies(rt: HostRuntime) -> Result<(), Fail> {
    let alloc = rt.alloc();
    let programs = programs_of(alloc, TESTS, &[])?;
    let mut store = store_of(alloc, &programs)?;
    run_in(alloc, &programs, &mut store, "", unlimited())?;
    for test in &TESTED {
        let mut copy = store.copy(alloc)?;
        let told = called(alloc, test, &programs, &mut copy)?;
        assert_eq!(rt; told.end.as_str(), test.alone, "{} alone", test.function);
        assert_eq!(rt; told.steps, test.steps, "{} alone", test.function);
    }
    for test in &TESTED {
        let told = called(alloc, test, &programs, &mut store)?;
        assert_eq!(rt;
            told.end.as_str(),
            test.in_order,
            "{} in order",
            test.function
        );
    }
    Ok(())
}
