//! Files of commands.

use crate::harness::{Failing, NONE, World, answer_by, shelf_of};
use crate::sources::{FIRST_RUN, NUMBERS};
use cov_app::Told;
use py_machine::Machine;
use std::test::Fail;

/// What `report` writes of `b.py`, between two lines of statuses.
const UNDER: &str = "\
= 0
Name    Stmts   Miss  Cover
---------------------------
b.py        3      1    67%
---------------------------
TOTAL       3      1    67%
= 2
= 0
";

/// The lines of `c.txt`, and what must come of them.
struct Row {
    title: &'static str,
    lines: &'static str,
    status: u8,
    out: &'static str,
    err: &'static str,
}

static ROWS: [Row; 14] = [
    Row {
        title: "Script",
        lines: "run --branch a.py\nerase\nreport\n",
        status: 1,
        out: "1\n= 0\n= 0\n",
        err: "coverage: no data .coverage\n",
    },
    Row {
        title: "A comment and blank lines",
        lines: "# run b.py\n\n \t \nrun a.py\n#erase x y\n",
        status: 0,
        out: "1\n= 0\n",
        err: "",
    },
    Row {
        title: "Blanks and tabs between words",
        lines: " run\t--branch \t a.py\t",
        status: 0,
        out: "1\n= 0\n",
        err: "",
    },
    Row {
        title: "Lines that end with a carriage return",
        lines: "run a.py\r\n\r\nerase\r\n",
        status: 0,
        out: "1\n= 0\n= 0\n",
        err: "",
    },
    Row {
        title: "No lines",
        lines: "",
        status: 0,
        out: "",
        err: "",
    },
    Row {
        title: "A script in a script",
        lines: "run a.py\nscript c.txt\nrun a.py\n",
        status: 1,
        out: "1\n= 0\n",
        err: "coverage: usage: stopped after 0 words\n",
    },
    Row {
        title: "Words that are no command",
        lines: "erase\nreport --frob\nerase\n",
        status: 1,
        out: "= 0\n",
        err: "coverage: usage: stopped after 1 words\n",
    },
    Row {
        title: "A comment behind a blank",
        lines: " # erase\n",
        status: 1,
        out: "",
        err: "coverage: usage: stopped after 0 words\n",
    },
    Row {
        title: "A run that is cut",
        lines: "run --budget=1 a.py\nrun a.py\n",
        status: 0,
        out: "= 75\n1\n= 0\n",
        err: "coverage: budget of 1 steps is spent\n",
    },
    Row {
        title: "A report under its limit",
        lines: "run b.py\nreport --fail-under=67\nerase\n",
        status: 0,
        out: UNDER,
        err: "coverage: 2 of 3 covered is under 67 percent\n",
    },
    Row {
        title: "An uncaught exception, and the text of an exit",
        lines: "run e.py\nrun x.py\nerase\n",
        status: 0,
        out: "= 1\n= 1\n= 0\n",
        err: "NameError: name 'y' is not defined\nno\n",
    },
    Row {
        title: "A status that a program chooses",
        lines: "run z.py\nrun a.py\n",
        status: 0,
        out: "= 7\n1\n= 0\n",
        err: "",
    },
    Row {
        title: "A refusal behind texts of others",
        lines: "run e.py\nrun no.py\nrun a.py\n",
        status: 1,
        out: "= 1\n",
        err: "NameError: name 'y' is not defined\ncoverage: no file no.py\n",
    },
    Row {
        title: "Settings are read by each command",
        lines: "report --rcfile=bad.toml\n",
        status: 1,
        out: "",
        err: "coverage: bad settings file\n",
    },
];

/// The files beside the lines.
fn files(lines: &str) -> [(&str, &str); 7] {
    [
        ("c.txt", lines),
        ("a.py", FIRST_RUN),
        ("b.py", NUMBERS),
        ("e.py", "x = y\n"),
        ("x.py", "import sys\nsys.exit(\"no\")\n"),
        ("z.py", "import sys\nsys.exit(7)\n"),
        ("bad.toml", "["),
    ]
}

#[test]
fn scripts(rt: HostRuntime) -> Result<(), Fail> {
    let alloc = rt.alloc();
    for row in &ROWS {
        let files = shelf_of(alloc, &files(row.lines))?;
        let found = answer_by(alloc, "script c.txt", files, "", NONE, &mut Machine)?;
        assert_eq!(&rt; found.err.as_str(), row.err, "{}", row.title);
        assert_eq!(&rt; found.out.as_str(), row.out, "{}", row.title);
        assert_eq!(&rt; found.status, row.status, "{}", row.title);
        assert_eq!(&rt; found.told, Told::Whole, "{}", row.title);
    }
    Ok(())
}

/// Calls of `out` and `err` that fail, and what must come of the lines.
struct Failed {
    title: &'static str,
    lines: &'static str,
    out_fails: &'static [u64],
    err_fails: &'static [u64],
    status: u8,
    out: &'static str,
    err: &'static str,
    told: Told,
}

static FAILED: [Failed; 5] = [
    Failed {
        title: "The first text is refused: none is said after it",
        lines: "run e.py\nrun e.py\nreport -x\n",
        out_fails: &[],
        err_fails: &[0],
        status: 1,
        out: "= 1\n= 1\n",
        err: "",
        told: Told::Failed,
    },
    Failed {
        title: "The second text is refused",
        lines: "run --budget=1 a.py\nrun e.py\nrun e.py\n",
        out_fails: &[],
        err_fails: &[1],
        status: 0,
        out: "= 75\n= 1\n= 1\n",
        err: "coverage: budget of 1 steps is spent\n",
        told: Told::Failed,
    },
    Failed {
        title: "The text of the refusal that ends it is refused",
        lines: "run e.py\nreport -x\n",
        out_fails: &[],
        err_fails: &[1],
        status: 1,
        out: "= 1\n",
        err: "NameError: name 'y' is not defined\n",
        told: Told::Failed,
    },
    Failed {
        title: "A status that can't be written",
        lines: "run z.py\nrun a.py\n",
        out_fails: &[0],
        err_fails: &[],
        status: 74,
        out: "",
        err: "coverage: writing output failed\n",
        told: Told::Whole,
    },
    Failed {
        title: "An uncaught exception is said before its status",
        lines: "run e.py\nrun a.py\n",
        out_fails: &[0],
        err_fails: &[],
        status: 74,
        out: "",
        err: "NameError: name 'y' is not defined\ncoverage: writing output failed\n",
        told: Told::Whole,
    },
];

#[test]
fn texts_and_statuses_that_fail(rt: HostRuntime) -> Result<(), Fail> {
    let alloc = rt.alloc();
    for row in &FAILED {
        let failing = Failing {
            shelf: &[],
            vault: &[],
            input: &[],
            out: row.out_fails,
            err: row.err_fails,
        };
        let files = shelf_of(alloc, &files(row.lines))?;
        let found = answer_by(alloc, "script c.txt", files, "", failing, &mut Machine)?;
        assert_eq!(&rt; found.err.as_str(), row.err, "{}", row.title);
        assert_eq!(&rt; found.out.as_str(), row.out, "{}", row.title);
        assert_eq!(&rt; found.status, row.status, "{}", row.title);
        assert_eq!(&rt; found.told, row.told, "{}", row.title);
    }
    Ok(())
}

/// Each line begins where those before it led, and what they did stands where one is refused.
#[test]
fn what_lines_leave(rt: HostRuntime) -> Result<(), Fail> {
    let alloc = rt.alloc();
    let lines = "run b.py\nrun --append b.py\nrun --append --branch b.py\n";
    let mut world = World::new(
        alloc,
        shelf_of(alloc, &files(lines))?,
        Vec::new(alloc),
        NONE,
    )?;
    let found = world.answer(alloc, "script c.txt", "")?;
    assert_eq!(&rt; found.out.as_str(), "= 0\n= 0\n");
    assert_eq!(&rt;
        found.err.as_str(),
        "coverage: cannot join arcs with lines\n"
    );
    let rows = world.rows(alloc, ".coverage")?;
    assert_eq!(&rt; rows.as_str(), ": b.py 1 1 2\n: b.py 2 2 2\n");
    Ok(())
}

#[test]
fn files_that_are_no_script(rt: HostRuntime) -> Result<(), Fail> {
    let alloc = rt.alloc();
    let absent = answer_by(alloc, "script c", Vec::new(alloc), "", NONE, &mut Machine)?;
    assert_eq!(&rt; absent.status, 1);
    assert_eq!(&rt; absent.err.as_str(), "coverage: no file c\n");

    let mut files = Vec::new(alloc);
    let bytes = Vec::from_slice(alloc, &[0x23, 0x0a, 0xff])?;
    files.push((String::from_str(alloc, "c")?, bytes))?;
    let found = answer_by(alloc, "script c", files, "", NONE, &mut Machine)?;
    assert_eq!(&rt; found.status, 1);
    assert_eq!(&rt; found.err.as_str(), "coverage: c:2: BadCharacter\n");

    let mut files = Vec::new(alloc);
    let bytes = vec![in alloc; b'\n'; 65_536]?;
    files.push((String::from_str(alloc, "c")?, bytes))?;
    let found = answer_by(alloc, "script c", files, "", NONE, &mut Machine)?;
    assert_eq!(&rt; found.status, 1);
    assert_eq!(&rt; found.err.as_str(), "coverage: limit Lines passed: 65536\n");
    Ok(())
}
