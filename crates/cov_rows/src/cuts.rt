//! Runs that their budget cuts, with the arcs up to there.

use crate::harness::{NONE, answer_to};
use std::test::Fail;

/// A script that is cut, and what must come of it.
struct Row {
    title: &'static str,
    words: &'static str,
    source: &'static str,
    out: &'static str,
    err: &'static str,
}

static ROWS: [Row; 4] = [
    Row {
        title: "Empty file without a step",
        words: "arcs --budget=0 s.py",
        source: "",
        out: "",
        err: "coverage: budget of 0 steps is spent\n",
    },
    Row {
        title: "One-line loop",
        words: "arcs --budget=8 s.py",
        source: "n = 3\nwhile n: n = n - 1\n",
        out: "s.py -1 1\ns.py 1 2\ns.py 2 2\n",
        err: "coverage: budget of 8 steps is spent\n",
    },
    Row {
        title: "Endless loop",
        words: "arcs --budget=5 s.py",
        source: "while True:\n    pass\n",
        out: "s.py -1 1\ns.py 1 2\ns.py 2 1\n",
        err: "coverage: budget of 5 steps is spent\n",
    },
    Row {
        title: "Endless loop, where no budget is given",
        words: "arcs s.py",
        source: "while True:\n    pass\n",
        out: "s.py -1 1\ns.py 1 2\ns.py 2 1\n",
        err: "coverage: budget of 1000000 steps is spent\n",
    },
];

#[test]
fn cuts(rt: HostRuntime) -> Result<(), Fail> {
    let alloc = rt.alloc();
    for row in &ROWS {
        let found = answer_to(alloc, row.words, &[("s.py", row.source)], "", NONE)?;
        assert_eq!(&rt; found.status, 75, "{}", row.title);
        assert_eq!(&rt; found.out.as_str(), row.out, "{}", row.title);
        assert_eq!(&rt; found.err.as_str(), row.err, "{}", row.title);
    }
    Ok(())
}
