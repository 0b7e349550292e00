//! Programs with their code.

use crate::rows::assert_compiles;
use std::test::Fail;

/// Files, of which the first is the script, and what they compile to.
static PROGRAMS: [(&str, &[(&str, &str)], &str); 2] = [
    (
        "The script and a module, each with its functions",
        &[
            ("d/s.py", "import m\ndef f():\n    pass\nf()\n"),
            ("d/m.py", "def g():\n    pass\ndef h():\n    pass\n"),
        ],
        "__main__ d/s.py units=2\nm d/m.py units=3\nstatements=3\nstatements=2\n",
    ),
    (
        "A module that can't be read",
        &[("s.py", "import m\n"), ("m.py", "x = = 1\n")],
        "Syntax(\"m.py\", 1, Unexpected)",
    ),
];

#[test]
fn programs(rt: HostRuntime) -> Result<(), Fail> {
    let alloc = rt.alloc();
    for (title, sources, answer) in &PROGRAMS {
        assert_compiles(&rt, alloc, *title, *sources, *answer)?;
    }
    Ok(())
}
