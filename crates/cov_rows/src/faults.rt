//! Commands over objects whose calls fail.

use crate::harness::{Failing, NONE, answer_to};
use crate::sources::FIRST_RUN;
use cov_app::Told;
use std::test::Fail;

const ASKS: &str = "print(1)\nprint(input())\n";

const UNCAUGHT: &str = "\
def g():
    raise ValueError(\"no\")
def f():
    g()
f()
";

/// A script with calls that fail, and what must come of it.
struct Row {
    title: &'static str,
    source: &'static str,
    failing: Failing,
    status: u8,
    out: &'static str,
    err: &'static str,
    told: Told,
    left: usize,
}

static ROWS: [Row; 8] = [
    Row {
        title: "A shelf whose first call fails",
        source: FIRST_RUN,
        failing: Failing {
            shelf: &[0],
            vault: &[],
            input: &[],
            out: &[],
            err: &[],
        },
        status: 74,
        out: "",
        err: "coverage: files failed\n",
        told: Told::Whole,
        left: 4,
    },
    Row {
        title: "A shelf that fails at a module",
        source: "import m\nprint(1)\n",
        failing: Failing {
            shelf: &[1],
            vault: &[],
            input: &[],
            out: &[],
            err: &[],
        },
        status: 74,
        out: "",
        err: "coverage: files failed\n",
        told: Told::Whole,
        left: 4,
    },
    Row {
        title: "An output whose first call fails",
        source: FIRST_RUN,
        failing: Failing {
            shelf: &[],
            vault: &[],
            input: &[],
            out: &[0],
            err: &[],
        },
        status: 74,
        out: "",
        err: "coverage: writing output failed\n",
        told: Told::Whole,
        left: 4,
    },
    Row {
        title: "An output that fails at the arcs",
        source: "x = 1\n",
        failing: Failing {
            shelf: &[],
            vault: &[],
            input: &[],
            out: &[0],
            err: &[],
        },
        status: 74,
        out: "",
        err: "coverage: writing output failed\n",
        told: Told::Whole,
        left: 4,
    },
    Row {
        title: "An input that fails in the middle of its line",
        source: ASKS,
        failing: Failing {
            shelf: &[],
            vault: &[],
            input: &[1],
            out: &[],
            err: &[],
        },
        status: 74,
        out: "1\n",
        err: "coverage: reading input failed\n",
        told: Told::Whole,
        left: 3,
    },
    Row {
        title: "An `err` that fails",
        source: "x = y\n",
        failing: Failing {
            shelf: &[],
            vault: &[],
            input: &[],
            out: &[],
            err: &[0],
        },
        status: 1,
        out: "s.py -1 1\ns.py 1 -1\n",
        err: "",
        told: Told::Failed,
        left: 4,
    },
    Row {
        title: "No call that fails",
        source: ASKS,
        failing: NONE,
        status: 0,
        out: "1\nab\ns.py -1 1\ns.py 1 2\ns.py 2 -1\n",
        err: "",
        told: Told::Whole,
        left: 1,
    },
    Row {
        title: "An uncaught exception, and an `err` that fails",
        source: UNCAUGHT,
        failing: Failing {
            shelf: &[],
            vault: &[],
            input: &[],
            out: &[],
            err: &[0],
        },
        status: 1,
        out: "\
s.py -3 4
s.py -1 1
s.py -1 2
s.py 1 3
s.py 2 -1
s.py 3 5
s.py 4 -3
s.py 5 -1
",
        err: "",
        told: Told::Failed,
        left: 4,
    },
];

#[test]
fn faults(rt: HostRuntime) -> Result<(), Fail> {
    for row in &ROWS {
        let files = [("s.py", row.source), ("m.py", "")];
        let found = answer_to(rt.alloc(), "arcs s.py", &files, "ab\nc", row.failing)?;
        assert_eq!(&rt; found.status, row.status, "{}", row.title);
        assert_eq!(&rt; found.told, row.told, "{}", row.title);
        assert_eq!(&rt; found.out.as_str(), row.out, "{}", row.title);
        assert_eq!(&rt; found.err.as_str(), row.err, "{}", row.title);
        assert_eq!(&rt; found.left, row.left, "{}", row.title);
    }
    Ok(())
}
