// Rows of programs of several modules.

use crate::rows::{Row, compare, run_on, unlimited};
use crate::writer::Writer;
use std::test::Fail;

/// A script with the other modules, each by its name and its source.
struct Several {
    row: Row,
    others: &'static [(&'static str, &'static str)],
}

static ROWS: [Several; 10] = [
    Several {
        row: Row {
            title: "Ordinary use",
            source: "\
import calc

def test_div():
    assert calc.div(6, 3) == 2

if __name__ == '__main__':
    test_div()
    print('ok')
",
            out: "ok\n",
            end: "finished",
            steps: 14,
            events: "0.0( 1 1.0( 1 6 ) 3 6 7 0.1( 4 1.1( 2 4 ) ) 8 )",
            arcs: "",
        },
        others: &[(
            "calc",
            "\
def div(a, b):
    if b == 0:
        return None
    return a // b

def unused(x):
    return x
",
        )],
    },
    Several {
        row: Row {
            title: "A module is begun once",
            source: "\
import m
import m as n
from m import x, y as z
x = 5
m.f()
print(x, z, n.x, m == n, m.__name__, __name__)
",
            out: "5 2 11 True m __main__\n",
            end: "finished",
            steps: 13,
            events: "0.0( 1 1.0( 1 2 3 ) 2 3 4 5 1.1( 5 ) 6 )",
            arcs: "",
        },
        others: &[(
            "m",
            "\
x = 1
y = 2
def f():
    global x
    x = x + 10
",
        )],
    },
    Several {
        row: Row {
            title: "A module whose body raised is begun anew, with no names",
            source: "\
for i in range(2):
    try:
        import m
    except ValueError as e:
        print(e)
",
            out: "unset\nbody\nunset\nbody\n",
            end: "finished",
            steps: 26,
            events: "\
0.0( 1 2 3 1.0( 1 2 !NameError 3 4 5 6 ) !ValueError 4 5 1 2 3 1.0( 1 2 !NameError 3 4 5 6 ) \
!ValueError 4 5 1 )",
            arcs: "",
        },
        others: &[(
            "m",
            "\
try:
    print(x)
except NameError:
    print('unset')
x = 1
raise ValueError('body')
",
        )],
    },
    Several {
        row: Row {
            title: "A module in progress is bound as it is",
            source: "\
import a
print(a.x, a.y)
",
            out: "1\nno attribute 'y'\n1 5\n",
            end: "finished",
            steps: 15,
            events: "0.0( 1 1.0( 1 2 2.0( 1 2 3 4 !AttributeError 5 6 7 ) 3 ) 2 )",
            arcs: "",
        },
        others: &[
            (
                "a",
                "\
x = 1
import b
y = b.z
",
            ),
            (
                "b",
                "\
import a
print(a.x)
try:
    print(a.y)
except AttributeError as e:
    print(e)
z = 5
",
            ),
        ],
    },
    Several {
        row: Row {
            title: "A name that a module hasn't",
            source: "from m import x\n",
            out: "",
            end: "ImportError: cannot import name 'x' from 'm'",
            steps: 3,
            events: "0.0( 1 1.0( ) !ImportError )",
            arcs: "",
        },
        others: &[("m", "")],
    },
    Several {
        row: Row {
            title: "The script's own name is a second module",
            source: "\
import s
print(__name__, s.__name__)
",
            out: "s s\n__main__ s\n",
            end: "finished",
            steps: 6,
            events: "0.0( 1 1.0( 1 2 ) 2 )",
            arcs: "",
        },
        others: &[(
            "s",
            "\
import s
print(__name__, s.__name__)
",
        )],
    },
    Several {
        row: Row {
            title: "A module of the script's other name is no script",
            source: "\
import __main__
print(__main__.x)
",
            out: "7\n",
            end: "finished",
            steps: 5,
            events: "0.0( 1 1.0( 1 ) 2 )",
            arcs: "",
        },
        others: &[("__main__", "x = 7\n")],
    },
    Several {
        row: Row {
            title: "A module that a function imports is a local",
            source: "\
def f():
    import m
    return m.x
print(f())
print(m)
",
            out: "1\n",
            end: "NameError: name 'm' is not defined",
            steps: 9,
            events: "0.0( 1 4 0.1( 2 1.0( 1 ) 3 ) 5 !NameError )",
            arcs: "",
        },
        others: &[("m", "x = 1\n")],
    },
    Several {
        row: Row {
            title: "A function sees the globals of its own module",
            source: "\
from m import f
x = 'script'
print(f())
",
            out: "module\n",
            end: "finished",
            steps: 9,
            events: "0.0( 1 1.0( 1 2 ) 2 3 1.1( 3 ) )",
            arcs: "",
        },
        others: &[(
            "m",
            "\
x = 'module'
def f():
    return x
",
        )],
    },
    Several {
        row: Row {
            title: "An exception out of the module of a module",
            source: "import a\n",
            out: "",
            end: "KeyError: 1",
            steps: 6,
            events: "0.0( 1 1.0( 1 2.0( 1 ) !KeyError ) !KeyError )",
            arcs: "",
        },
        others: &[("a", "import b\n"), ("b", "raise KeyError(1)\n")],
    },
];

#[test]
fn runs_of_modules(rt: HostRuntime) -> Result<(), Fail> {
    let alloc = rt.alloc();
    let mut found = Writer::new(alloc);
    for several in &ROWS {
        let told = run_on(alloc, several.row.source, several.others, "", unlimited())?;
        compare(&mut found, &several.row, &told);
    }
    assert_eq!(rt; found.done()?.as_str(), "");
    Ok(())
}
