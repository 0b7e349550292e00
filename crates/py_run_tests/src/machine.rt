// Runs that are cut or given up, and what they leave.

use crate::codes::programs_by;
use crate::programs::programs_of;
use crate::rows::{Row, Told, run_alone, run_new, unlimited};
use crate::{handlers, worked, written};
use py_code::Programs;
use std::alloc::Global;
use std::process::Abort;
use std::test::Fail;

const FIRST_RUN: &str = "x = 1\nif x:\n    print(x)\nelse:\n    print(0)\n";

/// The events and the output of the first run, where the event of the row's number is refused.
static REFUSED: [(&str, &str); 5] = [
    ("", ""),
    ("0.0(", ""),
    ("0.0( 1", ""),
    ("0.0( 1 2", ""),
    ("0.0( 1 2 3", "1\n"),
];

/// Each event of the first run is refused, in turn.
fn assert_refused(rt: &impl Abort, alloc: Global, programs: &Programs) -> Result<(), Fail> {
    for (number, row) in REFUSED.iter().enumerate() {
        let mut limits = unlimited();
        limits.event = number;
        let told = run_new(alloc, programs, "", limits)?;
        assert_eq!(rt; told.end.as_str(), "NoMemory", "event {number}");
        assert_eq!(rt; told.events.as_str(), row.0, "event {number}");
        assert_eq!(rt; told.out.as_str(), row.1, "event {number}");
    }
    Ok(())
}

#[test]
fn refused_events(rt: HostRuntime) -> Result<(), Fail> {
    let alloc = rt.alloc();
    assert_refused(&rt, alloc, &programs_of(alloc, FIRST_RUN, &[])?)?;
    assert_refused(&rt, alloc, &programs_by(alloc, &written::FIRST_RUN)?)
}

/// With each smaller budget the run is cut, and its output and its events are those that the whole
/// run begins with; with its steps, and with more, it is the whole run.
fn assert_cut(
    rt: &impl Abort,
    alloc: Global,
    title: &str,
    programs: &Programs,
) -> Result<(), Fail> {
    let whole = run_new(alloc, programs, "", unlimited())?;
    for budget in 0..whole.steps.min(100) + 2 {
        let mut limits = unlimited();
        limits.budget = budget;
        let told = run_new(alloc, programs, "", limits)?;
        let is_so = if budget < whole.steps {
            told.steps == budget && is_cut(&told, &whole)
        } else {
            is_same(&told, &whole)
        };
        assert!(rt; is_so, "{} {budget}", title);
    }
    Ok(())
}

fn is_cut(told: &Told, whole: &Told) -> bool {
    told.end.as_str() == "cut"
        && whole.out.as_str().starts_with(told.out.as_str())
        && whole.events.as_str().starts_with(told.events.as_str())
}

fn is_same(told: &Told, whole: &Told) -> bool {
    told.end.as_str() == whole.end.as_str()
        && told.out.as_str() == whole.out.as_str()
        && told.events.as_str() == whole.events.as_str()
}

#[test]
fn smaller_budgets(rt: HostRuntime) -> Result<(), Fail> {
    let alloc = rt.alloc();
    for row in &worked::ROWS {
        let programs = programs_of(alloc, row.source, &[])?;
        assert_cut(&rt, alloc, row.title, &programs)?;
    }
    for row in &handlers::ROWS {
        let programs = programs_of(alloc, row.source, &[])?;
        assert_cut(&rt, alloc, row.title, &programs)?;
    }
    let first = programs_by(alloc, &written::FIRST_RUN)?;
    assert_cut(&rt, alloc, "First run, by its instructions", &first)?;
    let frames = programs_by(alloc, &written::FIVE_FRAMES)?;
    assert_cut(&rt, alloc, "Five frames", &frames)
}

/// A budget, and what comes of a run within it.
static BUDGETS: [(u64, Row); 4] = [
    (
        0,
        Row {
            title: "Empty file without a step",
            source: "",
            out: "",
            end: "cut",
            steps: 0,
            events: "",
            arcs: "",
        },
    ),
    (
        1,
        Row {
            title: "Empty file with one step",
            source: "",
            out: "",
            end: "finished",
            steps: 1,
            events: "0.0( )",
            arcs: "-1 -1",
        },
    ),
    (
        8,
        Row {
            title: "One-line loop",
            source: "n = 3\nwhile n: n = n - 1\n",
            out: "",
            end: "cut",
            steps: 8,
            events: "0.0( 1 2 2 2",
            arcs: "-1 1; 1 2; 2 2",
        },
    ),
    (
        5,
        Row {
            title: "Endless loop",
            source: "while True:\n    pass\n",
            out: "",
            end: "cut",
            steps: 5,
            events: "0.0( 1 2 1 2",
            arcs: "-1 1; 1 2; 2 1",
        },
    ),
];

#[test]
fn budgets(rt: HostRuntime) -> Result<(), Fail> {
    let alloc = rt.alloc();
    for (budget, row) in &BUDGETS {
        let mut limits = unlimited();
        limits.budget = *budget;
        let told = run_alone(alloc, row.source, limits)?;
        assert_eq!(rt; told.end.as_str(), row.end, "{}", row.title);
        assert_eq!(rt; told.steps, row.steps, "{}", row.title);
        assert_eq!(rt; told.events.as_str(), row.events, "{}", row.title);
        assert_eq!(rt; told.arcs.as_str(), row.arcs, "{}", row.title);
    }
    Ok(())
}

const READS_AND_WRITES: &str = "print(input())\nprint(input('more? '), 'x')\nprint('end')\n";

/// One call of the source or of the sink fails, each in turn. Then the run is given up, what was
/// written is what the whole run begins with, and what is left of the input is its end.
fn assert_given_up(
    rt: &impl Abort,
    alloc: Global,
    programs: &Programs,
    reads: bool,
) -> Result<(), Fail> {
    let whole = "one\nmore? two x\nend\n";
    let input = "one\ntwo\nthree";
    for number in 0..64 {
        let mut limits = unlimited();
        if reads {
            limits.read = number;
        } else {
            limits.write = number;
        }
        let told = run_new(alloc, programs, input, limits)?;
        let out = told.out.as_str();
        if told.end.as_str() == "finished" {
            assert!(rt; number > 2, "call {number} is made");
            assert_eq!(rt; out, whole);
            return Ok(());
        }
        let fault = if reads { "ReadFault" } else { "WriteFault" };
        assert_eq!(rt; told.end.as_str(), fault, "call {number}");
        assert!(rt; whole.starts_with(out), "call {number}: {out}");
        assert!(rt; input.ends_with(told.left.as_str()), "call {number}");
        assert!(rt; number > 0 || out.is_empty(), "the first call");
    }
    assert!(rt; false, "it ends");
    Ok(())
}

#[test]
fn faults(rt: HostRuntime) -> Result<(), Fail> {
    let alloc = rt.alloc();
    let compiled = programs_of(alloc, READS_AND_WRITES, &[])?;
    assert_given_up(&rt, alloc, &compiled, true)?;
    assert_given_up(&rt, alloc, &compiled, false)?;
    let by_hand = programs_by(alloc, &written::READS_AND_WRITES)?;
    assert_given_up(&rt, alloc, &by_hand, true)?;
    assert_given_up(&rt, alloc, &by_hand, false)
}

#[test]
fn a_new_store_is_a_new_run(rt: HostRuntime) -> Result<(), Fail> {
    let alloc = rt.alloc();
    let source = "import m\nm.l.append(1)\nprint(m.l, __name__)\n";
    let programs = programs_of(alloc, source, &[("m", "l = []\n")])?;
    for _ in 0..2 {
        let told = run_new(alloc, &programs, "", unlimited())?;
        assert_eq!(rt; told.out.as_str(), "[1] __main__\n");
        assert_eq!(rt; told.events.as_str(), "0.0( 1 1.0( 1 ) 2 3 )");
    }
    Ok(())
}
