//! What runs save.

use crate::harness::{NONE, World, shelf_of};
use crate::sessions::{Session, assert_session};
use crate::sources::{FIRST_RUN, NUMBERS};
use std::test::Fail;

const UNCAUGHT: &str = "\
def g():
    raise ValueError(\"no\")
def f():
    g()
f()
";

/// A session, and the rows that it leaves under a name.
struct Kept {
    session: Session,
    name: &'static str,
    rows: &'static str,
}

static ROWS: [Kept; 9] = [
    Kept {
        session: Session {
            title: "Lines",
            files: &[("b.py", NUMBERS)],
            commands: &[("run b.py", 0, "", "")],
        },
        name: ".coverage",
        rows: ": b.py 1 1 1\n: b.py 2 2 1\n",
    },
    Kept {
        session: Session {
            title: "An option behind the script is the script's",
            files: &[("s.py", "import sys\nprint(sys.argv)\n")],
            commands: &[("run s.py --branch", 0, "['s.py', '--branch']\n", "")],
        },
        name: ".coverage",
        rows: ": s.py 1 1 1\n: s.py 2 2 1\n",
    },
    Kept {
        session: Session {
            title: "Arcs that are appended to nothing, and to themselves",
            files: &[("a.py", FIRST_RUN)],
            commands: &[
                ("run --append --branch a.py", 0, "1\n", ""),
                ("run --append --branch a.py", 0, "1\n", ""),
            ],
        },
        name: ".coverage",
        rows: ": a.py -1 1 2\n: a.py 1 2 2\n: a.py 2 3 2\n: a.py 3 -1 2\n",
    },
    Kept {
        session: Session {
            title: "A second run takes the place of the first",
            files: &[("a.py", FIRST_RUN), ("b.py", NUMBERS)],
            commands: &[("run --branch a.py", 0, "1\n", ""), ("run b.py", 0, "", "")],
        },
        name: ".coverage",
        rows: ": b.py 1 1 1\n: b.py 2 2 1\n",
    },
    Kept {
        session: Session {
            title: "Lines that are appended to arcs",
            files: &[("a.py", FIRST_RUN)],
            commands: &[
                ("run --branch a.py", 0, "1\n", ""),
                (
                    "run --append a.py",
                    1,
                    "",
                    "coverage: cannot join lines with arcs\n",
                ),
            ],
        },
        name: ".coverage",
        rows: ": a.py -1 1 1\n: a.py 1 2 1\n: a.py 2 3 1\n: a.py 3 -1 1\n",
    },
    Kept {
        session: Session {
            title: "A name and a context of the words",
            files: &[("b.py", NUMBERS)],
            commands: &[
                ("run --data-file=d --context c b.py", 0, "", ""),
                ("report", 1, "", "coverage: no data .coverage\n"),
            ],
        },
        name: "d",
        rows: "c: b.py 1 1 1\nc: b.py 2 2 1\n",
    },
    Kept {
        session: Session {
            title: "A run that is cut",
            files: &[("w.py", "while True:\n    pass\n")],
            commands: &[(
                "run --branch --budget 5 w.py",
                75,
                "",
                "coverage: budget of 5 steps is spent\n",
            )],
        },
        name: ".coverage",
        rows: ": w.py -1 1 1\n: w.py 1 2 2\n: w.py 2 1 1\n",
    },
    Kept {
        session: Session {
            title: "A run that an exception ends",
            files: &[("u.py", UNCAUGHT)],
            commands: &[("run --branch u.py", 1, "", "ValueError: no\n")],
        },
        name: ".coverage",
        rows: "\
: u.py -3 4 1
: u.py -1 1 1
: u.py -1 2 1
: u.py 1 3 1
: u.py 2 -1 1
: u.py 3 5 1
: u.py 4 -3 1
: u.py 5 -1 1
",
    },
    Kept {
        session: Session {
            title: "A script that is refused leaves the data",
            files: &[("b.py", NUMBERS), ("s.py", "x = 1.5\n")],
            commands: &[
                ("run b.py", 0, "", ""),
                ("run s.py", 1, "", "coverage: s.py:1: BadCharacter\n"),
                ("run none.py", 1, "", "coverage: no file none.py\n"),
            ],
        },
        name: ".coverage",
        rows: ": b.py 1 1 1\n: b.py 2 2 1\n",
    },
];

#[test]
fn rows_of_runs(rt: HostRuntime) -> Result<(), Fail> {
    let alloc = rt.alloc();
    for row in &ROWS {
        let files = shelf_of(alloc, row.session.files)?;
        let mut world = World::new(alloc, files, Vec::new(alloc), NONE)?;
        assert_session(&rt, alloc, &mut world, &row.session)?;
        let rows = world.rows(alloc, row.name)?;
        assert_eq!(&rt; rows.as_str(), row.rows, "{}", row.session.title);
    }
    Ok(())
}
