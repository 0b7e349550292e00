// Programs, and the data of their runs.

ghost use Rattle.std.specs.Prelude.{◌≡◌};
ghost use Rattle.cov_event.specs.declared.plugin.Verdict.TheVariants.{Leave, Quiet};

use crate::harness::{Case, Found, PLAIN, measure_script};
use cov_contexts::PrefixPlugin;
use cov_event::{ContextPlugin, Verdict};
use py_machine::Machine;
use py_text::NoMemory;
use std::alloc::Global;
use std::test::Fail;

/// Leaves when it is asked.
#[derive(Drop)]
struct Leaves;

impl ContextPlugin for Leaves {
    ghost moves = { λ _ _ _ verdict _. verdict ≡ Leave };

    fn context(
        &mut self,
        _alloc: Global,
        _module: &str,
        _function: &str,
    ) -> Result<Verdict, NoMemory> {
        Ok(Verdict::Leave)
    }
}

/// Gives no label.
#[derive(Drop)]
struct Silence;

impl ContextPlugin for Silence {
    ghost moves = { λ _ _ _ verdict _. verdict ≡ Quiet };

    fn context(
        &mut self,
        _alloc: Global,
        _module: &str,
        _function: &str,
    ) -> Result<Verdict, NoMemory> {
        Ok(Verdict::Quiet)
    }
}

const TESTS: &str = "def test_a():\n    pass\ndef test_b():\n    pass\n\
    test_a()\ntest_b()\ntest_a()\ntest_b()\n";

const HOOK: &str =
    "n = 0\ndef label(module, function):\n    global n\n    n += 1\n    print(n)\n    \
    if n == 3:\n        raise ValueError(\"no\")\n    return \"h\" + str(n)\n";

/// The third question raises, and so the rule for names gives the last labels.
const LABELLED: &str = ": -1 1 1\n: 1 3 1\n: 3 5 1\n: 5 6 1\n: 6 7 1\n: 7 8 1\n: 8 -1 1\n\
    __main__.test_a: -1 2 1\n__main__.test_a: 2 -1 1\n\
    __main__.test_b: -3 4 1\n__main__.test_b: 4 -3 1\n\
    h1: -1 2 1\nh1: 2 -1 1\nh2: -3 4 1\nh2: 4 -3 1\n";

/// The data without labels: functions are called twice.
const BARE: &str = ": -3 4 2\n: -1 1 1\n: -1 2 2\n: 1 3 1\n: 2 -1 2\n: 3 5 1\n: 4 -3 2\n\
    : 5 6 1\n: 6 7 1\n: 7 8 1\n: 8 -1 1\n";

const PRINTS: &str = "x = 1\nif x:\n    print(x)\nelse:\n    print(0)\n";

/// What is found without a plugin.
fn alone(alloc: Global, case: &Case) -> Result<Found, Fail> {
    let mut none: Vec<Box<dyn ContextPlugin>> = Vec::new(alloc);
    measure_script(alloc, case, &mut none, &mut Machine)
}

#[test]
fn hook_and_plugin(rt: HostRuntime) -> Result<(), Fail> {
    let alloc = rt.alloc();
    let mut plugins: Vec<Box<dyn ContextPlugin>> = Vec::new(alloc);
    plugins.push(Box::new(alloc, Leaves)?)?;
    let case = Case {
        source: TESTS,
        hook: Some(HOOK),
        by_name: true,
        ..PLAIN
    };
    let told = measure_script(alloc, &case, &mut plugins, &mut Machine)?;
    assert_eq!(&rt; told.out.len(), 0, "what the hook prints is thrown away");
    assert_eq!(&rt; told.rows.as_str(), LABELLED);
    assert_eq!(&rt; plugins.len(), 0, "the plugin left");
    Ok(())
}

#[test]
fn the_same_run_without_labels(rt: HostRuntime) -> Result<(), Fail> {
    let alloc = rt.alloc();
    let mut plugins: Vec<Box<dyn ContextPlugin>> = Vec::new(alloc);
    plugins.push(Box::new(alloc, Leaves)?)?;
    let bare = Case {
        source: TESTS,
        ..PLAIN
    };
    let case = Case {
        hook: Some(HOOK),
        by_name: true,
        ..bare
    };
    let told = measure_script(alloc, &case, &mut plugins, &mut Machine)?;
    let other = alone(alloc, &bare)?;
    assert_eq!(&rt; other.rows.as_str(), BARE);
    assert_eq!(&rt; told.ended, other.ended);
    assert_eq!(&rt; told.steps, other.steps);
    assert!(&rt; told.out == other.out);
    assert!(&rt; told.arcs == other.arcs, "the arcs over all contexts");
    Ok(())
}

#[test]
fn a_plugin_that_leaves_in_the_middle(rt: HostRuntime) -> Result<(), Fail> {
    let alloc = rt.alloc();
    let mut plugins: Vec<Box<dyn ContextPlugin>> = Vec::new(alloc);
    plugins.push(Box::new(alloc, Silence)?)?;
    plugins.push(Box::new(alloc, Leaves)?)?;
    plugins.push(Box::new(alloc, PrefixPlugin::new(alloc, "test", 1)?)?)?;
    let case = Case {
        source: TESTS,
        ..PLAIN
    };
    let told = measure_script(alloc, &case, &mut plugins, &mut Machine)?;
    assert!(&rt;
        told.rows
            .as_str()
            .contains("test:__main__.test_a: -1 2 1\n")
    );
    assert!(&rt; told.rows.as_str().contains("\n: -1 2 1\n"));
    assert_eq!(&rt; plugins.len(), 1, "the last one left after its label");
    Ok(())
}

#[test]
fn a_set_without_an_arc(rt: HostRuntime) -> Result<(), Fail> {
    let alloc = rt.alloc();
    let case = Case {
        source: PRINTS,
        left_out: (2, 3),
        ..PLAIN
    };
    let told = alone(alloc, &case)?;
    assert_eq!(&rt; told.rows.as_str(), ": -1 1 1\n: 1 2 1\n: 3 -1 1\n");
    assert!(&rt; told.out.as_slice() == b"1\n".as_slice());
    Ok(())
}

#[test]
fn counts_of_a_loop_in_one_line(rt: HostRuntime) -> Result<(), Fail> {
    let alloc = rt.alloc();
    let case = Case {
        source: "n = 3\nwhile n: n = n - 1\n",
        ..PLAIN
    };
    let told = alone(alloc, &case)?;
    assert_eq!(&rt;
        told.rows.as_str(),
        ": -1 1 1\n: 1 2 1\n: 2 -1 1\n: 2 2 3\n"
    );
    assert_eq!(&rt; told.steps, 9);
    let lines = alone(
        alloc,
        &Case {
            arcs: false,
            ..case
        },
    )?;
    assert_eq!(&rt; lines.rows.as_str(), ": 1 1 1\n: 2 2 4\n");
    let short = alone(alloc, &Case { budget: 8, ..case })?;
    assert_eq!(&rt; short.ended, "cut");
    assert!(&rt; short.arcs.as_slice() == [(-1, 1), (1, 2), (2, 2)].as_slice());
    Ok(())
}

#[test]
fn a_cut_inside_a_label(rt: HostRuntime) -> Result<(), Fail> {
    let alloc = rt.alloc();
    let case = Case {
        source: "def test_a():\n    while True:\n        pass\ntest_a()\n",
        by_name: true,
        budget: 30,
        ..PLAIN
    };
    let told = alone(alloc, &case)?;
    assert_eq!(&rt; told.ended, "cut");
    assert!(&rt; told.rows.as_str().contains("__main__.test_a: -1 "));
    assert!(&rt;
        !told.rows.as_str().contains("2 -1"),
        "the test was not left"
    );
    assert!(&rt; !told.rows.as_str().contains("4 -1"), "nor was the script");
    Ok(())
}
