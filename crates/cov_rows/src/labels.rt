//! A hook and a plugin that label the calls of a run.
ghost use Rattle.std.specs.Prelude.{◌≡◌};
ghost use Rattle.cov_event.specs.declared.plugin.Verdict.TheVariants.{Leave};

use crate::harness::{NONE, World, shelf_of};
use cov_event::{ContextPlugin, Verdict};
use py_machine::Machine;
use py_text::NoMemory;
use std::alloc::Global;
use std::test::Fail;

/// Leaves when it is asked.
#[derive(Drop)]
struct Leaves;

impl ContextPlugin for Leaves {
    ghost moves = { λ _ _ _ verdict _. verdict ≡ Leave };

    fn context(
        &mut self,
        _alloc: Global,
        _module: &str,
        _function: &str,
    ) -> Result<Verdict, NoMemory> {
        Ok(Verdict::Leave)
    }
}

const TESTS: &str = "\
def test_a():
    pass
def test_b():
    pass
test_a()
test_b()
test_a()
test_b()
";

const HOOK: &str = "\
n = 0
def label(module, function):
    global n
    n += 1
    print(n)
    if n == 3:
        raise ValueError(\"no\")
    return \"h\" + str(n)
";

const SETTINGS: &str = "[tool.coverage.run]\ndynamic_context = \"test_function\"\n";

/// The third question raises, and so the rule for names gives the last labels.
const LABELLED: &str = "\
: p.py -1 1 1
: p.py 1 3 1
: p.py 3 5 1
: p.py 5 6 1
: p.py 6 7 1
: p.py 7 8 1
: p.py 8 -1 1
__main__.test_a: p.py -1 2 1
__main__.test_a: p.py 2 -1 1
__main__.test_b: p.py -3 4 1
__main__.test_b: p.py 4 -3 1
h1: p.py -1 2 1
h1: p.py 2 -1 1
h2: p.py -3 4 1
h2: p.py 4 -3 1
";

#[test]
fn hook_and_plugin(rt: HostRuntime) -> Result<(), Fail> {
    let alloc = rt.alloc();
    let files = [
        ("p.py", TESTS),
        ("hk.py", HOOK),
        ("pyproject.toml", SETTINGS),
    ];
    let mut world = World::new(alloc, shelf_of(alloc, &files)?, Vec::new(alloc), NONE)?;
    let mut plugins: Vec<Box<dyn ContextPlugin>> = Vec::new(alloc);
    plugins.push(Box::new(alloc, Leaves)?)?;
    let words = "run --branch --hook=hk.py:label p.py";
    let found = world.answer_by(alloc, words, "", &mut plugins, &mut Machine)?;
    assert_eq!(&rt; found.status, 0);
    assert_eq!(&rt;
        found.out.as_str(),
        "",
        "what the hook prints is thrown away"
    );
    let rows = world.rows(alloc, ".coverage")?;
    assert_eq!(&rt; rows.as_str(), LABELLED);
    assert_eq!(&rt; plugins.len(), 0, "the plugin left");
    Ok(())
}

/// The counts of the same run over all labels, which stand in no report.
const COUNTED: &str = "\
SF:p.py
DA:1,1
DA:2,2
DA:3,1
DA:4,2
DA:5,1
DA:6,1
DA:7,1
DA:8,1
LF:8
LH:8
BRF:0
BRH:0
end_of_record
";

/// Runs with a hook and without one, with just as many steps as the script takes and with one
/// fewer, and how they end.
static RUNS: [(&str, u8); 4] = [
    ("run --branch --budget=15 --hook=hk.py:label p.py", 0),
    ("run --branch --budget=15 p.py", 0),
    ("run --branch --budget=14 --hook=hk.py:label p.py", 75),
    ("run --branch --budget=14 p.py", 75),
];

#[test]
fn labels_change_no_run(rt: HostRuntime) -> Result<(), Fail> {
    let alloc = rt.alloc();
    for (words, status) in &RUNS {
        let files = shelf_of(alloc, &[("p.py", TESTS), ("hk.py", HOOK)])?;
        let mut world = World::new(alloc, files, Vec::new(alloc), NONE)?;
        let found = world.answer(alloc, *words, "")?;
        assert_eq!(&rt; found.status, *status, "{words}");
        assert_eq!(&rt; found.out.as_str(), "", "{words}");
        let found = world.answer(alloc, "lcov -o -", "")?;
        if *status == 0 {
            assert_eq!(&rt; found.out.as_str(), COUNTED, "{words}");
        }
    }
    Ok(())
}

#[test]
fn a_hook_without_the_function(rt: HostRuntime) -> Result<(), Fail> {
    let alloc = rt.alloc();
    let files = [("p.py", TESTS), ("hk.py", HOOK)];
    let mut world = World::new(alloc, shelf_of(alloc, &files)?, Vec::new(alloc), NONE)?;
    let found = world.answer(alloc, "run --branch --hook=hk.py:none p.py", "")?;
    assert_eq!(&rt; found.status, 1);
    assert_eq!(&rt; found.err.as_str(), "coverage: no function none\n");
    Ok(())
}
