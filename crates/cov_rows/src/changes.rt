//! Two versions of a file of tests, and the mutants of its modules.

use crate::harness::{NONE, World, shelf_of};
use crate::sessions::{Session, assert_session};
use crate::sources::{CALC, TEST_CALC};
use std::test::Fail;

/// The module of ordinary use with another last line, which no test reaches.
const OTHER_END: &str = "\
def div(a, b):
    if b == 0:
        return None
    return a // b

def unused(x):
    return x + 1
";

/// The same with another line 4, which its test reaches.
const OTHER_QUOTIENT: &str = "\
def div(a, b):
    if b == 0:
        return None
    return b // a

def unused(x):
    return x
";

/// The same with an empty line in front.
const ONE_LINE_DOWN: &str = "
def div(a, b):
    if b == 0:
        return None
    return a // b

def unused(x):
    return x
";

/// Tests of a file that imports a module where it is there.
const TRIES_A_MODULE: &str = "\
try:
    import extra
except ImportError:
    pass
def test_a():
    pass
def test_b():
    pass
";

const IMPORTS_M: &str = "\
import m
def test_a():
    pass
def test_b():
    pass
";

const WITH_DOCSTRING: &str = "\
def test_a():
    \"told\"
    pass
def test_b():
    pass
";

const WITH_PRINT: &str = "\
def test_a():
    print(2)
    pass
def test_b():
    pass
";

/// Tests of which one never ends.
const OLD_TESTS: &str = "\
def test_ends():
    pass
def test_loops():
    while True:
        pass
";

/// The same in another order, and a further one.
const NEW_TESTS: &str = "\
def test_loops():
    while True:
        pass
def test_new():
    pass
def test_ends():
    pass
";

static SELECTIONS: [Session; 11] = [
    Session {
        title: "Change that no test reaches",
        files: &[
            ("old/calc.py", CALC),
            ("old/test_calc.py", TEST_CALC),
            ("new/calc.py", OTHER_END),
            ("new/test_calc.py", TEST_CALC),
        ],
        commands: &[(
            "select old/test_calc.py new/test_calc.py",
            0,
            "0 of 1 selected\n",
            "",
        )],
    },
    Session {
        title: "Change that a test reaches",
        files: &[
            ("old/calc.py", CALC),
            ("old/test_calc.py", TEST_CALC),
            ("new/calc.py", OTHER_QUOTIENT),
            ("new/test_calc.py", TEST_CALC),
        ],
        commands: &[(
            "select old/test_calc.py new/test_calc.py",
            0,
            "test_div\n1 of 1 selected\n",
            "",
        )],
    },
    Session {
        title: "Empty line in front",
        files: &[
            ("old/calc.py", CALC),
            ("old/test_calc.py", TEST_CALC),
            ("new/calc.py", ONE_LINE_DOWN),
            ("new/test_calc.py", TEST_CALC),
        ],
        commands: &[(
            "select old/test_calc.py new/test_calc.py",
            0,
            "test_div\n1 of 1 selected\n",
            "",
        )],
    },
    Session {
        title: "Other modules",
        files: &[
            ("old/t.py", TRIES_A_MODULE),
            ("new/t.py", TRIES_A_MODULE),
            ("new/extra.py", "x = 1\n"),
        ],
        commands: &[(
            "select old/t.py new/t.py",
            0,
            "test_a\ntest_b\n2 of 2 selected\n",
            "",
        )],
    },
    Session {
        title: "Module without a mark",
        files: &[
            ("old/t.py", IMPORTS_M),
            ("old/m.py", ""),
            ("new/t.py", IMPORTS_M),
            ("new/m.py", "x = 1\n"),
        ],
        commands: &[(
            "select old/t.py new/t.py",
            0,
            "test_a\ntest_b\n2 of 2 selected\n",
            "",
        )],
    },
    Session {
        title: "Docstring that goes",
        files: &[("old.py", WITH_DOCSTRING), ("new.py", WITH_PRINT)],
        commands: &[("select old.py new.py", 0, "test_a\n1 of 2 selected\n", "")],
    },
    Session {
        title: "A test that was cut, and one that is new, in the order of the new file",
        files: &[("old.py", OLD_TESTS), ("new.py", NEW_TESTS)],
        commands: &[
            (
                "select --budget 50 old.py old.py",
                0,
                "test_loops\n1 of 2 selected\n",
                "",
            ),
            (
                "select --budget=50 old.py new.py",
                0,
                "test_loops\ntest_new\ntest_ends\n3 of 3 selected\n",
                "",
            ),
        ],
    },
    Session {
        title: "A test behind the others",
        files: &[
            ("a.py", "def test_a():\n    assert 1 == 1\n"),
            (
                "b.py",
                "def test_a():\n    assert 1 == 1\ndef test_b():\n    pass\n",
            ),
        ],
        commands: &[(
            "select a.py b.py",
            0,
            "test_a\ntest_b\n2 of 2 selected\n",
            "",
        )],
    },
    Session {
        title: "Files in turn",
        files: &[("t.py", "def test_a(): pass\n"), ("bad.py", "x = (\n")],
        commands: &[
            (
                "select none.py bad.py",
                1,
                "",
                "coverage: no file none.py\n",
            ),
            ("select t.py none.py", 1, "", "coverage: no file none.py\n"),
        ],
    },
    Session {
        title: "Import of the old file that fails",
        files: &[("i.py", "x\n"), ("t.py", "def test_a(): pass\n")],
        commands: &[
            (
                "select i.py t.py",
                1,
                "",
                "coverage: import of i.py ended early\n",
            ),
            ("select t.py i.py", 0, "0 of 0 selected\n", ""),
        ],
    },
    Session {
        title: "A script of changes",
        files: &[
            ("t.py", "def test_a(): pass\n"),
            ("c.txt", "select t.py t.py\nmutate t.py\nselect t.py\n"),
        ],
        commands: &[(
            "script c.txt",
            1,
            "\
0 of 1 selected
= 0
0 killed, 0 survived, 0 unreached
= 0
",
            "coverage: usage: stopped after 2 words\n",
        )],
    },
];

#[test]
fn selections(rt: HostRuntime) -> Result<(), Fail> {
    let alloc = rt.alloc();
    for row in &SELECTIONS {
        let files = shelf_of(alloc, row.files)?;
        let mut world = World::new(alloc, files, Vec::new(alloc), NONE)?;
        assert_session(&rt, alloc, &mut world, row)?;
    }
    Ok(())
}

/// The three mutants of the module of ordinary use.
const MUTANTS_OF_CALC: &str = "\
1 calc.py:2 == -> != killed
2 calc.py:2 0 -> 1 survived
3 calc.py:4 // -> * killed
2 killed, 1 survived, 0 unreached
";

/// With another last line there are two more, which its test doesn't reach.
const UNREACHED: &str = "\
1 calc.py:2 == -> != killed
2 calc.py:2 0 -> 1 survived
3 calc.py:4 // -> * killed
4 calc.py:7 + -> - unreached
5 calc.py:7 1 -> 2 unreached
2 killed, 1 survived, 2 unreached
";

const NUMBERS: &str = "\
n = 3
def half(x):
    return x // 2
def loop():
    i = 0
    while i < 3:
        i += 1
    return i
";

const TRUTH: &str = "\
on = True
big = 9223372036854775807
";

/// Tests of both, one of which fails.
const TEST_BOTH: &str = "\
import m
import on
def test_half():
    assert m.half(4) == 2
def test_fails():
    assert m.half(4) == 3
def test_loop():
    assert m.loop() == 3
def test_on():
    assert on.on
";

const MUTANTS_OF_BOTH: &str = "\
1 m.py:1 3 -> 4 survived
2 m.py:3 // -> * killed
3 m.py:3 2 -> 3 killed
4 m.py:5 0 -> 1 survived
5 m.py:6 < -> <= killed
6 m.py:6 3 -> 4 killed
7 m.py:7 += -> -= killed
8 m.py:7 1 -> 2 killed
9 on.py:1 True -> False killed
10 on.py:2 9223372036854775807 -> 0 survived
7 killed, 3 survived, 0 unreached
";

static MUTATIONS: [Session; 6] = [
    Session {
        title: "Mutants of ordinary use",
        files: &[("calc.py", CALC), ("test_calc.py", TEST_CALC)],
        commands: &[("mutate test_calc.py", 0, MUTANTS_OF_CALC, "")],
    },
    Session {
        title: "Unreached mutants",
        files: &[("calc.py", OTHER_END), ("test_calc.py", TEST_CALC)],
        commands: &[("mutate test_calc.py", 0, UNREACHED, "")],
    },
    Session {
        title: "Two modules, a test that fails and a mutant that never ends",
        files: &[("m.py", NUMBERS), ("on.py", TRUTH), ("t.py", TEST_BOTH)],
        commands: &[("mutate --budget=200 t.py", 0, MUTANTS_OF_BOTH, "")],
    },
    Session {
        title: "Import of a mutant that fails",
        files: &[("m.py", "assert 1 == 1\n"), ("t.py", "import m\n")],
        commands: &[(
            "mutate t.py",
            0,
            "\
1 m.py:1 1 -> 2 killed
2 m.py:1 == -> != killed
3 m.py:1 1 -> 2 killed
3 killed, 0 survived, 0 unreached
",
            "",
        )],
    },
    Session {
        title: "Import that is cut",
        files: &[("i.py", "while True: pass\n")],
        commands: &[(
            "mutate --budget=9 i.py",
            1,
            "",
            "coverage: import of i.py ended early\n",
        )],
    },
    Session {
        title: "Import that fails, a file that isn't there, and data that stay",
        files: &[("i.py", "import sys\nsys.exit(1)\n")],
        commands: &[
            (
                "mutate i.py",
                1,
                "",
                "coverage: import of i.py ended early\n",
            ),
            ("mutate none.py", 1, "", "coverage: no file none.py\n"),
            ("report", 1, "", "coverage: no data .coverage\n"),
        ],
    },
];

#[test]
fn mutations(rt: HostRuntime) -> Result<(), Fail> {
    let alloc = rt.alloc();
    for row in &MUTATIONS {
        let files = shelf_of(alloc, row.files)?;
        let mut world = World::new(alloc, files, Vec::new(alloc), NONE)?;
        assert_session(&rt, alloc, &mut world, row)?;
    }
    Ok(())
}
