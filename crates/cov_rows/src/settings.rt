//! Settings and patterns, accepted and refused.

use crate::harness::{NONE, World, shelf_of};
use crate::sessions::{Session, assert_session};
use crate::sources::FIRST_RUN;
use std::test::Fail;

static ROWS: [Session; 3] = [
    Session {
        title: "A setting of another form",
        files: &[
            ("a.py", FIRST_RUN),
            (
                "pyproject.toml",
                "[tool.coverage.report]\nfail_under = \"x\"\n",
            ),
        ],
        commands: &[
            (
                "run a.py",
                1,
                "",
                "coverage: bad setting tool.coverage.report.fail_under\n",
            ),
            (
                "run --rcfile=none.toml a.py",
                1,
                "",
                "coverage: no file none.toml\n",
            ),
        ],
    },
    Session {
        title: "A pattern that can't be read",
        files: &[
            ("a.py", FIRST_RUN),
            (
                "pyproject.toml",
                "[tool.coverage.report]\nexclude_also = [\"(\"]\n",
            ),
        ],
        commands: &[
            ("run a.py", 0, "1\n", ""),
            ("report", 1, "", "coverage: bad pattern 1\n"),
        ],
    },
    Session {
        title: "Settings that a run and a report go by, and words before them",
        files: &[
            ("a.py", FIRST_RUN),
            (
                "pyproject.toml",
                "[tool.coverage.run]\nbranch = true\nbudget = 3\n\
                 [tool.coverage.report]\nshow_missing = true\nfail_under = 100\n",
            ),
        ],
        commands: &[
            ("run a.py", 75, "", "coverage: budget of 3 steps is spent\n"),
            ("run --budget=4 a.py", 0, "1\n", ""),
            (
                "report --fail-under=0",
                0,
                "\
Name    Stmts   Miss Branch BrPart  Cover   Missing
---------------------------------------------------
a.py        4      1      2      1    67%   5
---------------------------------------------------
TOTAL       4      1      2      1    67%
",
                "",
            ),
            (
                "lcov",
                2,
                "",
                "coverage: 4 of 6 covered is under 100 percent\n",
            ),
        ],
    },
];

#[test]
fn settings(rt: HostRuntime) -> Result<(), Fail> {
    let alloc = rt.alloc();
    for row in &ROWS {
        let files = shelf_of(alloc, row.files)?;
        let mut world = World::new(alloc, files, Vec::new(alloc), NONE)?;
        assert_session(&rt, alloc, &mut world, row)?;
    }
    Ok(())
}

/// One pattern more than there may be.
#[test]
fn too_many_patterns(rt: HostRuntime) -> Result<(), Fail> {
    let alloc = rt.alloc();
    let mut settings = String::from_str(alloc, "[tool.coverage.report]\nexclude_lines = [")?;
    for _ in 0..33 {
        settings.push_str("\"x\", ")?;
    }
    settings.push_str("]\n")?;
    let files = shelf_of(alloc, &[("pyproject.toml", settings.as_str())])?;
    let mut world = World::new(alloc, files, Vec::new(alloc), NONE)?;
    let found = world.answer(alloc, "report", "")?;
    assert_eq!(&rt; found.err.as_str(), "coverage: limit Patterns passed: 33\n");
    Ok(())
}
