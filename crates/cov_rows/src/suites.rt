//! Tests of a file, each from the state that the import left.

use crate::forty;
use crate::harness::{NONE, World, shelf_of};
use crate::sessions::{Session, assert_session};
use crate::sources::{CALC, TEST_CALC};
use cov_contexts::PrefixPlugin;
use cov_event::ContextPlugin;
use py_machine::Machine;
use std::test::Fail;

const THREE_TESTS: &str = "\
n = [0]
def test_a():
    n[0] = n[0] + 1
    assert n[0] == 1
def test_b():
    n[0] = n[0] + 1
    assert n[0] == 1
def test_c():
    assert n[0] == 1, \"no\"
";

/// What the tests of `t.py` come to.
const TWO_OF_THREE: &str = "\
test_a passed
test_b passed
test_c failed AssertionError: no
2 passed, 1 failed, 0 cut
";

/// Tests that end in every way, two of one name, one that calls another, and a `def` that is none.
const ENDINGS: &str = "\
import sys
d = {}
def test_loop():
    while True:
        pass
def test_kind():
    raise ValueError
def test_exit():
    d[\"k\"] = 1
    sys.exit(3)
def test_wants(a):
    pass
def helper():
    print(\"helped\")
def test_twice():
    assert False
def test_calls():
    helper()
    assert d == {}
def test_twice():
    pass
test_kind = helper
";

const ENDED: &str = "\
test_loop cut
test_kind passed
test_exit failed SystemExit: 3
test_wants failed TypeError: wrong number of arguments
test_twice passed
test_calls passed
3 passed, 2 failed, 1 cut
";

static ROWS: [Session; 8] = [
    Session {
        title: "Suite of ordinary use",
        files: &[("calc.py", CALC), ("test_calc.py", TEST_CALC)],
        commands: &[
            (
                "suite --branch test_calc.py",
                0,
                "test_div passed\n1 passed, 0 failed, 0 cut\n",
                "",
            ),
            (
                "report -m",
                0,
                "\
Name           Stmts   Miss Branch BrPart  Cover   Missing
----------------------------------------------------------
calc.py            6      2      2      1    62%   3, 7
test_calc.py       6      2      2      1    62%   7-8
----------------------------------------------------------
TOTAL             12      4      4      2    62%
",
                "",
            ),
        ],
    },
    Session {
        title: "Three tests",
        files: &[("t.py", THREE_TESTS)],
        commands: &[("suite t.py", 1, TWO_OF_THREE, "")],
    },
    Session {
        title: "Import that raises",
        files: &[("i.py", "raise ValueError(\"no\")\n")],
        commands: &[
            (
                "suite i.py",
                1,
                "",
                "coverage: import of i.py ended early\n",
            ),
            ("report", 1, "", "coverage: no data .coverage\n"),
        ],
    },
    Session {
        title: "Import that is cut",
        files: &[("i.py", "while True: pass\n")],
        commands: &[(
            "suite --budget=9 i.py",
            1,
            "",
            "coverage: import of i.py ended early\n",
        )],
    },
    Session {
        title: "No tests",
        files: &[("t.py", "print(1)\ndef f(): pass\n")],
        commands: &[("suite t.py", 0, "0 passed, 0 failed, 0 cut\n", "")],
    },
    Session {
        title: "Tests that end in every way",
        files: &[("t.py", ENDINGS)],
        commands: &[("suite --budget=60 t.py", 1, ENDED, "")],
    },
    Session {
        title: "Forty tests",
        files: &[
            ("stock.py", forty::STOCK),
            ("words.py", forty::WORDS),
            ("shop.py", forty::SHOP),
            ("tally.py", forty::TALLY),
            ("t.py", forty::TESTS),
        ],
        commands: &[("suite --budget 2000 t.py", 1, forty::ENDED, "")],
    },
    Session {
        title: "A script of tests",
        files: &[
            ("t.py", THREE_TESTS),
            ("i.py", "x\n"),
            ("c.txt", "suite t.py\nsuite i.py\nsuite t.py\n"),
        ],
        commands: &[(
            "script c.txt",
            1,
            "\
test_a passed
test_b passed
test_c failed AssertionError: no
2 passed, 1 failed, 0 cut
= 1
",
            "coverage: import of i.py ended early\n",
        )],
    },
];

#[test]
fn suites(rt: HostRuntime) -> Result<(), Fail> {
    let alloc = rt.alloc();
    for row in &ROWS {
        let files = shelf_of(alloc, row.files)?;
        let mut world = World::new(alloc, files, Vec::new(alloc), NONE)?;
        assert_session(&rt, alloc, &mut world, row)?;
    }
    Ok(())
}

/// The rows of the suite of ordinary use.
const LABELLED: &str = "\
: calc.py -1 1 1
: calc.py 1 6 1
: calc.py 6 -1 1
__tests__.test_div: calc.py -1 2 1
__tests__.test_div: calc.py 2 4 1
__tests__.test_div: calc.py 4 -1 1
: test_calc.py -1 1 1
: test_calc.py 1 3 1
: test_calc.py 3 6 1
: test_calc.py 6 -1 1
__tests__.test_div: test_calc.py -3 4 1
__tests__.test_div: test_calc.py 4 -3 1
";

#[test]
fn tests_have_labels(rt: HostRuntime) -> Result<(), Fail> {
    let alloc = rt.alloc();
    let files = shelf_of(alloc, &[("calc.py", CALC), ("test_calc.py", TEST_CALC)])?;
    let mut world = World::new(alloc, files, Vec::new(alloc), NONE)?;
    let found = world.answer(alloc, "suite --branch test_calc.py", "")?;
    assert_eq!(&rt; found.status, 0);
    let rows = world.rows(alloc, ".coverage")?;
    assert_eq!(&rt; rows.as_str(), LABELLED);
    Ok(())
}

/// The rows of the three tests, of which a plugin labels the first and leaves in the second.
const FIRST_BY_PLUGIN: &str = "\
: t.py 1 1 1
: t.py 2 2 1
: t.py 5 5 1
: t.py 8 8 1
__tests__.test_b: t.py 6 6 1
__tests__.test_b: t.py 7 7 1
__tests__.test_c: t.py 9 9 1
test:__tests__.test_a: t.py 3 3 1
test:__tests__.test_a: t.py 4 4 1
";

/// The same where it labels two, and leaves in the third.
const TWO_BY_PLUGIN: &str = "\
: t.py 1 1 1
: t.py 2 2 1
: t.py 5 5 1
: t.py 8 8 1
__tests__.test_c: t.py 9 9 1
test:__tests__.test_a: t.py 3 3 1
test:__tests__.test_a: t.py 4 4 1
test:__tests__.test_b: t.py 6 6 1
test:__tests__.test_b: t.py 7 7 1
";

/// How many tests a plugin labels before it leaves, and the rows then.
static LABELS: [(u64, &str); 2] = [(1, FIRST_BY_PLUGIN), (2, TWO_BY_PLUGIN)];

#[test]
fn plugin_leaves_in_a_test(rt: HostRuntime) -> Result<(), Fail> {
    let alloc = rt.alloc();
    for (count, labelled) in &LABELS {
        let files = shelf_of(alloc, &[("t.py", THREE_TESTS)])?;
        let mut world = World::new(alloc, files, Vec::new(alloc), NONE)?;
        let mut plugins: Vec<Box<dyn ContextPlugin>> = Vec::new(alloc);
        plugins.push(Box::new(alloc, PrefixPlugin::new(alloc, "test", *count)?)?)?;
        let found = world.answer_by(alloc, "suite t.py", "", &mut plugins, &mut Machine)?;
        assert_eq!(&rt; found.status, 1);
        assert_eq!(&rt; found.out.as_str(), TWO_OF_THREE);
        let rows = world.rows(alloc, ".coverage")?;
        assert_eq!(&rt; rows.as_str(), *labelled, "{count}");
        assert_eq!(&rt; plugins.len(), 0, "the plugin left");
    }
    Ok(())
}
