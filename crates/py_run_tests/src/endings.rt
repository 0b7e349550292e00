// Rows of how a program ends.

use crate::rows::{Row, wrong};
use std::test::Fail;

static ROWS: [Row; 20] = [
    Row {
        title: "A number that is too large",
        source: "\
import sys
sys.exit(258)
",
        out: "",
        end: "exit 2",
        steps: 3,
        events: "0.0( 1 2 !SystemExit )",
        arcs: "",
    },
    Row {
        title: "A raised kind",
        source: "raise SystemExit\n",
        out: "",
        end: "exit 0",
        steps: 2,
        events: "0.0( 1 )",
        arcs: "",
    },
    Row {
        title: "A text",
        source: "\
import sys
sys.exit('x')
",
        out: "",
        end: "exit 1: x",
        steps: 3,
        events: "0.0( 1 2 !SystemExit )",
        arcs: "",
    },
    Row {
        title: "No input",
        source: "input()\n",
        out: "",
        end: "EOFError: no input",
        steps: 2,
        events: "0.0( 1 !EOFError )",
        arcs: "",
    },
    Row {
        title: "No value",
        source: "\
import sys
sys.exit()
",
        out: "",
        end: "exit 0",
        steps: 3,
        events: "",
        arcs: "",
    },
    Row {
        title: "The value None",
        source: "\
import sys
sys.exit(None)
",
        out: "",
        end: "exit 0",
        steps: 3,
        events: "",
        arcs: "",
    },
    Row {
        title: "A negative number",
        source: "\
import sys
sys.exit(-1)
",
        out: "",
        end: "exit 255",
        steps: 3,
        events: "",
        arcs: "",
    },
    Row {
        title: "A bool",
        source: "\
import sys
sys.exit(True)
",
        out: "",
        end: "exit 1",
        steps: 3,
        events: "",
        arcs: "",
    },
    Row {
        title: "A list",
        source: "\
import sys
sys.exit([1, 'a'])
",
        out: "",
        end: "exit 1: [1, 'a']",
        steps: 3,
        events: "",
        arcs: "",
    },
    Row {
        title: "An exception with a number",
        source: "raise SystemExit(3)\n",
        out: "",
        end: "exit 3",
        steps: 2,
        events: "",
        arcs: "",
    },
    Row {
        title: "`Exception` doesn't catch it, and `finally` is on its way",
        source: "\
import sys
try:
    try:
        sys.exit(4)
    except Exception:
        print('no')
finally:
    print('finally')
",
        out: "finally\n",
        end: "exit 4",
        steps: 7,
        events: "0.0( 1 2 3 4 !SystemExit 5 !SystemExit 8 !SystemExit )",
        arcs: "",
    },
    Row {
        title: "It can be caught",
        source: "\
import sys
try:
    sys.exit(4)
except SystemExit as e:
    print([e])
",
        out: "[SystemExit(4)]\n",
        end: "finished",
        steps: 6,
        events: "",
        arcs: "",
    },
    Row {
        title: "An empty text",
        source: "raise ValueError('')\n",
        out: "",
        end: "ValueError",
        steps: 2,
        events: "",
        arcs: "",
    },
    Row {
        title: "The text of a key",
        source: "raise KeyError('k')\n",
        out: "",
        end: "KeyError: 'k'",
        steps: 2,
        events: "",
        arcs: "",
    },
    Row {
        title: "The text of an exception in an exception",
        source: "raise ValueError(KeyError('k'))\n",
        out: "",
        end: "ValueError: 'k'",
        steps: 2,
        events: "",
        arcs: "",
    },
    Row {
        title: "The text of a list",
        source: "raise ValueError([1, 'a'])\n",
        out: "",
        end: "ValueError: [1, 'a']",
        steps: 2,
        events: "",
        arcs: "",
    },
    Row {
        title: "A text that raises is empty",
        source: "\
l = []
for i in range(300):
    l = [l]
raise ValueError(l)
",
        out: "",
        end: "ValueError",
        steps: 604,
        events: "",
        arcs: "",
    },
    Row {
        title: "An exit text that raises is empty",
        source: "\
import sys
l = []
for i in range(300):
    l = [l]
sys.exit(l)
",
        out: "",
        end: "exit 1: ",
        steps: 605,
        events: "",
        arcs: "",
    },
    Row {
        title: "The words",
        source: "\
import sys
sys.argv.append('x')
print(sys.argv, __name__)
",
        out: "['s.py', 'one', 'x'] __main__\n",
        end: "finished",
        steps: 4,
        events: "",
        arcs: "",
    },
    Row {
        title: "No module means the script",
        source: "import __main__\n",
        out: "",
        end: "ModuleNotFoundError: No module named '__main__'",
        steps: 2,
        events: "0.0( 1 !ModuleNotFoundError )",
        arcs: "",
    },
];

#[test]
fn runs_of_endings(rt: HostRuntime) -> Result<(), Fail> {
    let found = wrong(rt.alloc(), &ROWS)?;
    assert_eq!(rt; found.as_str(), "");
    Ok(())
}
