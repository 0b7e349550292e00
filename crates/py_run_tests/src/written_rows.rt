// Rows of codes that are written down by their instructions.

use crate::calls::{Row as CallRow, wrong};
use crate::codes::{Written, programs_by};
use crate::rows::{Row, compare, run_in, run_new, store_of, unlimited};
use crate::writer::Writer;
use crate::written::{DEEP, FINALLY, FIRST_RUN, FIVE_FRAMES, PAIR};
use std::alloc::Global;
use std::test::Fail;

/// What must come of the first run.
static FIRST: [Row; 1] = [Row {
    title: "First run",
    source: "x = 1\nif x:\n    print(x)\nelse:\n    print(0)\n",
    out: "1\n",
    end: "finished",
    steps: 4,
    events: "0.0( 1 2 3 )",
    arcs: "-1 1; 1 2; 2 3; 3 -1",
}];

/// What must come of an exception through five frames.
static THROUGH_FRAMES: [Row; 1] = [Row {
    title: "An exception through five frames",
    source: "",
    out: "",
    end: "ValueError",
    steps: 10,
    events: "\
0.0( 1 0.1( 2 0.2( 3 0.3( 4 0.4( 5 ) !ValueError ) !ValueError ) !ValueError ) !ValueError )",
    arcs: "",
}];

/// What two runs of a code, each on a new store, tell otherwise than its rows.
fn run_wrong(alloc: Global, units: &[Written], rows: &[Row]) -> Result<String, Fail> {
    let programs = programs_by(alloc, units)?;
    let mut found = Writer::new(alloc);
    for row in rows {
        for _ in 0..2 {
            let told = run_new(alloc, &programs, "", unlimited())?;
            compare(&mut found, row, &told);
        }
    }
    found.done()
}

#[test]
fn runs_of_written_codes(rt: HostRuntime) -> Result<(), Fail> {
    let alloc = rt.alloc();
    let found = run_wrong(alloc, &FIRST_RUN, &FIRST)?;
    assert_eq!(rt; found.as_str(), "");
    let found = run_wrong(alloc, &FIVE_FRAMES, &THROUGH_FRAMES)?;
    assert_eq!(rt; found.as_str(), "");
    Ok(())
}

static PAIRED: [CallRow; 6] = [
    CallRow {
        module: 0,
        function: "missing",
        args: &[],
        budget: 1_000_000,
        out: "",
        end: "NameError: name 'missing' is not defined",
        steps: 0,
        events: "",
    },
    CallRow {
        module: 0,
        function: "value",
        args: &[],
        budget: 1_000_000,
        out: "",
        end: "TypeError: not callable",
        steps: 0,
        events: "",
    },
    CallRow {
        module: 0,
        function: "pair",
        args: &[],
        budget: 1_000_000,
        out: "",
        end: "TypeError: wrong number of arguments",
        steps: 0,
        events: "",
    },
    CallRow {
        module: 0,
        function: "pair",
        args: &[1, 2, 3],
        budget: 1_000_000,
        out: "",
        end: "TypeError: wrong number of arguments",
        steps: 0,
        events: "",
    },
    CallRow {
        module: 0,
        function: "pair",
        args: &[1],
        budget: 1_000_000,
        out: "",
        end: "[1, 2]",
        steps: 2,
        events: "0.1( 2 )",
    },
    CallRow {
        module: 0,
        function: "pair",
        args: &[1, 5],
        budget: 1_000_000,
        out: "",
        end: "[1, 5]",
        steps: 2,
        events: "0.1( 2 )",
    },
];

/// A thousand frames of two steps each, and one more.
static DEPTHS: [CallRow; 1] = [CallRow {
    module: 0,
    function: "deep",
    args: &[],
    budget: 1_000_000,
    out: "",
    end: "RecursionError: maximum recursion depth exceeded",
    steps: 2000,
    events: "",
}];

/// A `finally` that is entered at the end of its `try`, and by `break`, `continue`, `return` and an
/// exception.
static ENTERED: [CallRow; 5] = [
    CallRow {
        module: 0,
        function: "f",
        args: &[0],
        budget: 1_000_000,
        out: "1\n2\n",
        end: "0",
        steps: 10,
        events: "0.1( 2 3 5 2 3 5 2 6 )",
    },
    CallRow {
        module: 0,
        function: "f",
        args: &[1],
        budget: 1_000_000,
        out: "1\n",
        end: "0",
        steps: 6,
        events: "0.1( 2 3 5 6 )",
    },
    CallRow {
        module: 0,
        function: "f",
        args: &[2],
        budget: 1_000_000,
        out: "1\n2\n",
        end: "0",
        steps: 10,
        events: "0.1( 2 3 5 2 3 5 2 6 )",
    },
    CallRow {
        module: 0,
        function: "f",
        args: &[3],
        budget: 1_000_000,
        out: "1\n",
        end: "7",
        steps: 5,
        events: "0.1( 2 3 5 )",
    },
    CallRow {
        module: 0,
        function: "f",
        args: &[4],
        budget: 1_000_000,
        out: "1\n",
        end: "ValueError",
        steps: 5,
        events: "0.1( 2 3 5 )",
    },
];

/// A `finally` that is entered by an exception, and left at its end, and by `break`, `continue`,
/// `return` and another exception.
static LEFT: [CallRow; 5] = [
    CallRow {
        module: 0,
        function: "g",
        args: &[0],
        budget: 1_000_000,
        out: "1\n",
        end: "ValueError",
        steps: 9,
        events: "0.2( 9 10 11 13 14 15 16 17 )",
    },
    CallRow {
        module: 0,
        function: "g",
        args: &[1],
        budget: 1_000_000,
        out: "1\n",
        end: "0",
        steps: 7,
        events: "0.2( 9 10 11 13 14 18 )",
    },
    CallRow {
        module: 0,
        function: "g",
        args: &[2],
        budget: 1_000_000,
        out: "1\n2\n",
        end: "0",
        steps: 15,
        events: "0.2( 9 10 11 13 14 15 9 10 11 13 14 15 9 18 )",
    },
    CallRow {
        module: 0,
        function: "g",
        args: &[3],
        budget: 1_000_000,
        out: "1\n",
        end: "7",
        steps: 8,
        events: "0.2( 9 10 11 13 14 15 16 )",
    },
    CallRow {
        module: 0,
        function: "g",
        args: &[4],
        budget: 1_000_000,
        out: "1\n",
        end: "KeyError",
        steps: 9,
        events: "0.2( 9 10 11 13 14 15 16 17 )",
    },
];

/// What calls tell otherwise than their rows, on the store that the run of a code left.
fn calls_wrong(alloc: Global, units: &[Written], rows: &[CallRow]) -> Result<String, Fail> {
    let programs = programs_by(alloc, units)?;
    let mut store = store_of(alloc, &programs)?;
    run_in(alloc, &programs, &mut store, "", unlimited())?;
    wrong(alloc, rows, &programs, &mut store)
}

#[test]
fn calls_of_written_functions(rt: HostRuntime) -> Result<(), Fail> {
    let alloc = rt.alloc();
    let found = calls_wrong(alloc, &PAIR, &PAIRED)?;
    assert_eq!(rt; found.as_str(), "");
    let found = calls_wrong(alloc, &DEEP, &DEPTHS)?;
    assert_eq!(rt; found.as_str(), "");
    let found = calls_wrong(alloc, &FINALLY, &ENTERED)?;
    assert_eq!(rt; found.as_str(), "");
    let found = calls_wrong(alloc, &FINALLY, &LEFT)?;
    assert_eq!(rt; found.as_str(), "");
    Ok(())
}
