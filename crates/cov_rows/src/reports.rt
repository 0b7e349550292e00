//! Reports of runs: tables, and what is put on the shelf.

use crate::harness::{NONE, World, shelf_of};
use crate::sessions::{Session, assert_session};
use crate::sources::{CALC, FIRST_RUN, NUMBERS, ONE_LINE_LOOP, TEST_CALC};
use std::test::Fail;

const HANDLERS: &str = "\
try:
    x = 1 // 0
except KeyError:
    print(1)
except ZeroDivisionError:
    print(2)
print(3)
";

const PRAGMA: &str = "\
debug = False
if debug:  # pragma: no cover
    print(1)
else:
    print(2)
while True:
    break
";

/// The report of the row of one file of three statements, of which one is missing.
const TWO_OF_THREE: &str = "\
Name    Stmts   Miss  Cover
---------------------------
b.py        3      1    67%
---------------------------
TOTAL       3      1    67%
";

static ROWS: [Session; 8] = [
    Session {
        title: "A report of the first run",
        files: &[("a.py", FIRST_RUN)],
        commands: &[
            ("run --branch a.py", 0, "1\n", ""),
            (
                "report -m",
                0,
                "\
Name    Stmts   Miss Branch BrPart  Cover   Missing
---------------------------------------------------
a.py        4      1      2      1    67%   5
---------------------------------------------------
TOTAL       4      1      2      1    67%
",
                "",
            ),
            (
                "report",
                0,
                "\
Name    Stmts   Miss Branch BrPart  Cover
-----------------------------------------
a.py        4      1      2      1    67%
-----------------------------------------
TOTAL       4      1      2      1    67%
",
                "",
            ),
            (
                "annotate a.py",
                0,
                "> x = 1\n> if x:\n>     print(x)\n  else:\n!     print(0)\n",
                "",
            ),
        ],
    },
    Session {
        title: "An empty file",
        files: &[("e.py", "")],
        commands: &[
            (
                "run --branch --budget=0 e.py",
                75,
                "",
                "coverage: budget of 0 steps is spent\n",
            ),
            ("run --branch --budget=1 e.py", 0, "", ""),
            (
                "report",
                0,
                "\
Name    Stmts   Miss Branch BrPart  Cover
-----------------------------------------
e.py        0      0      0      0   100%
-----------------------------------------
TOTAL       0      0      0      0   100%
",
                "",
            ),
        ],
    },
    Session {
        title: "Handlers",
        files: &[("t.py", HANDLERS)],
        commands: &[
            ("run --branch t.py", 0, "2\n3\n", ""),
            (
                "report --show-missing",
                0,
                "\
Name    Stmts   Miss Branch BrPart  Cover   Missing
---------------------------------------------------
t.py        7      1      2      1    78%   4
---------------------------------------------------
TOTAL       7      1      2      1    78%
",
                "",
            ),
        ],
    },
    Session {
        title: "Pragma, and the default patterns",
        files: &[("p.py", PRAGMA)],
        commands: &[
            ("run --branch p.py", 0, "2\n", ""),
            (
                "report -m",
                0,
                "\
Name    Stmts   Miss Branch BrPart  Cover   Missing
---------------------------------------------------
p.py        4      0      0      0   100%
---------------------------------------------------
TOTAL       4      0      0      0   100%
",
                "",
            ),
        ],
    },
    Session {
        title: "Ordinary use",
        files: &[("calc.py", CALC), ("test_calc.py", TEST_CALC)],
        commands: &[
            ("run --branch test_calc.py", 0, "ok\n", ""),
            (
                "report -m",
                0,
                "\
Name           Stmts   Miss Branch BrPart  Cover   Missing
----------------------------------------------------------
calc.py            6      2      2      1    62%   3, 7
test_calc.py       6      0      2      1    88%   6->exit
----------------------------------------------------------
TOTAL             12      2      4      2    75%
",
                "",
            ),
        ],
    },
    Session {
        title: "A percentage that isn't reached",
        files: &[("b.py", NUMBERS)],
        commands: &[
            ("run b.py", 0, "", ""),
            (
                "report --fail-under=67",
                2,
                TWO_OF_THREE,
                "coverage: 2 of 3 covered is under 67 percent\n",
            ),
            ("report --fail-under=66", 0, TWO_OF_THREE, ""),
        ],
    },
    Session {
        title: "Counts of a one-line loop, and of two runs of it",
        files: &[("n.py", ONE_LINE_LOOP)],
        commands: &[
            ("run --branch n.py", 0, "", ""),
            (
                "lcov -o -",
                0,
                "\
SF:n.py
DA:1,1
DA:2,4
LF:2
LH:2
BRDA:2,0,jump to line 2,3
BRDA:2,0,exit,1
BRF:2
BRH:2
end_of_record
",
                "",
            ),
            ("run --append --branch n.py", 0, "", ""),
            (
                "lcov -o -",
                0,
                "\
SF:n.py
DA:1,2
DA:2,8
LF:2
LH:2
BRDA:2,0,jump to line 2,6
BRDA:2,0,exit,2
BRF:2
BRH:2
end_of_record
",
                "",
            ),
        ],
    },
    Session {
        title: "Data that go",
        files: &[("a.py", FIRST_RUN)],
        commands: &[
            ("erase", 0, "", ""),
            ("run a.py", 0, "1\n", ""),
            ("erase", 0, "", ""),
            ("report", 1, "", "coverage: no data .coverage\n"),
            ("annotate a.py", 1, "", "coverage: no data .coverage\n"),
        ],
    },
];

#[test]
fn reports(rt: HostRuntime) -> Result<(), Fail> {
    let alloc = rt.alloc();
    for row in &ROWS {
        let files = shelf_of(alloc, row.files)?;
        let mut world = World::new(alloc, files, Vec::new(alloc), NONE)?;
        assert_session(&rt, alloc, &mut world, row)?;
    }
    Ok(())
}

const JSON: &str = "{\"files\":{\"a.py\":{\"excluded_lines\":[],\
\"executed_branches\":[[2,3]],\"executed_lines\":[1,2,3],\"missing_branches\":[[2,5]],\
\"missing_lines\":[5],\"summary\":{\"covered_branches\":1,\"covered_lines\":3,\
\"excluded_lines\":0,\"missing_branches\":1,\"missing_lines\":1,\"num_branches\":2,\
\"num_partial_branches\":1,\"num_statements\":4,\"percent_covered_display\":\"67\"}}},\
\"meta\":{\"branch_coverage\":true},\"totals\":{\"covered_branches\":1,\"covered_lines\":3,\
\"excluded_lines\":0,\"missing_branches\":1,\"missing_lines\":1,\"num_branches\":2,\
\"num_partial_branches\":1,\"num_statements\":4,\"percent_covered_display\":\"67\"}}";

const LCOV: &str = "\
SF:a.py
DA:1,1
DA:2,1
DA:3,1
DA:5,0
LF:4
LH:3
BRDA:2,0,jump to line 3,1
BRDA:2,0,jump to line 5,0
BRF:2
BRH:1
end_of_record
";

/// Reports of the first run: the words, what is written, a name of the shelf, and what it holds
/// then.
static PLACES: [(&str, &str, &str, &str); 6] = [
    ("json -o -", JSON, "coverage.json", ""),
    ("json", "", "coverage.json", JSON),
    ("json -o a.json", "", "a.json", JSON),
    ("lcov -o -", LCOV, "coverage.lcov", ""),
    ("lcov", "", "coverage.lcov", LCOV),
    ("lcov -o a.info", "", "a.info", LCOV),
];

#[test]
fn places_of_reports(rt: HostRuntime) -> Result<(), Fail> {
    let alloc = rt.alloc();
    for (words, out, name, text) in &PLACES {
        let files = shelf_of(alloc, &[("a.py", FIRST_RUN)])?;
        let mut world = World::new(alloc, files, Vec::new(alloc), NONE)?;
        let _ = world.answer(alloc, "run --branch a.py", "")?;
        let found = world.answer(alloc, *words, "")?;
        assert_eq!(&rt; found.err.as_str(), "", "{words}");
        assert_eq!(&rt; found.out.as_str(), *out, "{words}");
        let put = world.file(alloc, *name)?;
        assert_eq!(&rt; put.as_str(), *text, "{words}");
    }
    Ok(())
}
