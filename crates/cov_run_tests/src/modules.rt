//! Programs of several files.

use crate::rows::assert_loads;
use std::test::Fail;

/// An import in each kind of suite.
const SUITES: &str = "def f():\n    import a\nif 1:\n    import b\nelif 2:\n    import c\nelse:\n\
    \x20   import d\nwhile 0:\n    import e\nelse:\n    import f\nfor i in []:\n    import g\n\
    else:\n    import h\ntry:\n    import i\nexcept KeyError:\n    import j\nelse:\n    import k\n\
    finally:\n    import l\nmatch 1:\n    case 1:\n        import m\n    case _: import n\n";

/// The script without a module.
const ALONE: &str = "__main__ s.py\n";

/// Files, of which the first is the script, and the modules that are loaded.
static LOADED: [(&str, &[(&str, &str)], &str); 10] = [
    ("An empty script", &[("s.py", "")], ALONE),
    (
        "An absent module",
        &[(
            "s.py",
            "try:\n    import nothere\nexcept ImportError:\n    nothere = None\n",
        )],
        ALONE,
    ),
    (
        "A module that is imported twice, in two ways",
        &[
            ("s.py", "import m\nfrom m import x\nimport m as n\n"),
            ("m.py", "x = 1\n"),
        ],
        "__main__ s.py\nm m.py\n",
    ),
    (
        "In the order of the imports, file by file",
        &[
            ("s.py", "import b, a\n"),
            ("a.py", "import d\n"),
            ("b.py", "import c\n"),
            ("c.py", "import a\n"),
            ("d.py", "import b\n"),
        ],
        "__main__ s.py\nb b.py\na a.py\nc c.py\nd d.py\n",
    ),
    (
        "The script's own name: a second module of its file",
        &[("s.py", "import s\nx = 1\n")],
        "__main__ s.py\ns s.py\n",
    ),
    (
        "The name that the script is loaded under",
        &[("s.py", "import __main__\n"), ("__main__.py", "x = 1\n")],
        "__main__ s.py\n__main__ __main__.py\n",
    ),
    (
        "No file is read for `sys`",
        &[("s.py", "import sys\n"), ("sys.py", "x = = 1\n")],
        ALONE,
    ),
    (
        "The script's folder, and not the current one",
        &[
            ("d/s.py", "import m\n"),
            ("m.py", "x = = 1\n"),
            ("d/m.py", "import n\n"),
            ("n.py", ""),
        ],
        "__main__ d/s.py\nm d/m.py\n",
    ),
    (
        "A folder in a folder",
        &[("/d/e.f/s.py", "import m\n"), ("/d/e.f/m.py", "")],
        "__main__ /d/e.f/s.py\nm /d/e.f/m.py\n",
    ),
    (
        "Imports in each kind of suite",
        &[
            ("s.py", SUITES),
            ("n.py", ""),
            ("m.py", ""),
            ("l.py", ""),
            ("k.py", ""),
            ("j.py", ""),
            ("i.py", ""),
            ("h.py", ""),
            ("g.py", ""),
            ("f.py", ""),
            ("e.py", ""),
            ("d.py", ""),
            ("c.py", ""),
            ("b.py", ""),
            ("a.py", ""),
        ],
        "__main__ s.py\na a.py\nb b.py\nc c.py\nd d.py\ne e.py\nf f.py\ng g.py\nh h.py\n\
         i i.py\nj j.py\nk k.py\nl l.py\nm m.py\nn n.py\n",
    ),
];

#[test]
fn modules(rt: HostRuntime) -> Result<(), Fail> {
    let alloc = rt.alloc();
    for (title, sources, answer) in &LOADED {
        assert_loads(&rt, alloc, *title, *sources, &[], *answer)?;
    }
    Ok(())
}

/// Files, of which the first is the script, the calls of the shelf that fail, and the answer.
static ANSWERED: [(&str, &[(&str, &str)], &[u64], &str); 7] = [
    (
        "The fault of a module names its file",
        &[("d/s.py", "import m\n"), ("d/m.py", "x = 1\nreturn\n")],
        &[],
        "Syntax(\"d/m.py\", 2, ReturnOutside)",
    ),
    (
        "The script's fault comes before that of a module",
        &[("s.py", "import m\nbreak\n"), ("m.py", "x = = 1\n")],
        &[],
        "Syntax(\"s.py\", 2, BreakOutside)",
    ),
    (
        "The first of two modules that can't be read",
        &[
            ("s.py", "import n, m\n"),
            ("m.py", "x = 1.5\n"),
            ("n.py", "def f(a, a): pass\n"),
        ],
        &[],
        "Syntax(\"n.py\", 1, TwiceNamed)",
    ),
    (
        "A fault of the shelf at the script",
        &[("s.py", "import m\n")],
        &[0],
        "ShelfFault",
    ),
    (
        "A fault of the shelf at a module",
        &[("s.py", "import m\n"), ("m.py", "")],
        &[1],
        "ShelfFault",
    ),
    (
        "A fault at a module that isn't there",
        &[("s.py", "import m\n")],
        &[1],
        "ShelfFault",
    ),
    (
        "A fault after the last call",
        &[("s.py", "import m\n")],
        &[2],
        "__main__ s.py\n",
    ),
];

#[test]
fn modules_that_refuse(rt: HostRuntime) -> Result<(), Fail> {
    let alloc = rt.alloc();
    for (title, sources, failing, answer) in &ANSWERED {
        assert_loads(&rt, alloc, *title, *sources, *failing, *answer)?;
    }
    Ok(())
}
