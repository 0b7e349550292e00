// Labels of calls, by who gives them.

ghost use Rattle.std.specs.Prelude.{◌≡◌, Some};
ghost use Rattle.std.specs.Str.{chars};

use cov_contexts::{Contexts, PrefixPlugin};
use cov_event::{Ask, ContextPlugin, Nobody};
use py_value::{NoMemory, Text};
use std::alloc::Global;
use std::test::Fail;

/// A hook that labels every call by its function's name.
#[derive(Drop)]
struct Names;

impl Ask for Names {
    ghost moves = { λ _ _ function label _. label ≡ Some (chars function) };

    ghost refused = { λ _ _. Unit {0} };

    fn ask(
        &mut self,
        alloc: Global,
        _module: &str,
        function: &str,
    ) -> Result<Option<Text>, NoMemory> {
        Ok(Some(Text::from_str(alloc, function)?))
    }
}

/// A line for each of these functions of `m`: its label, or `-` for none.
fn labels_of<A: Ask>(
    alloc: Global,
    contexts: &mut Contexts<A>,
    functions: &[&str],
) -> Result<String, Fail> {
    let mut lines = String::new(alloc);
    for function in functions {
        match contexts.label(alloc, "m", function)? {
            Some(text) => lines.push_str(text.as_str())?,
            None => lines.push('-')?,
        }
        lines.push('\n')?;
    }
    Ok(lines)
}

/// Whether the name rule is on, functions in the order of their calls, and the labels.
static BY_NAME: [(&str, bool, &[&str], &str); 3] = [
    (
        "Names of tests",
        true,
        &[
            "test_a", "test", "runTest", "tes", "atest", "runTests", "Test",
        ],
        "m.test_a\nm.test\nm.runTest\n-\n-\n-\n-\n",
    ),
    (
        "Without the name rule",
        false,
        &["test_a", "runTest"],
        "-\n-\n",
    ),
    (
        "A name beyond ASCII",
        true,
        &["test_é", "é"],
        "m.test_é\n-\n",
    ),
];

#[test]
fn the_name_rule(rt: HostRuntime) -> Result<(), Fail> {
    let alloc = rt.alloc();
    for (title, by_name, functions, wanted) in &BY_NAME {
        let nobody: Option<Nobody> = None;
        let mut contexts = Contexts::new(nobody, Vec::new(alloc), *by_name);
        let told = labels_of(alloc, &mut contexts, *functions)?;
        assert_eq!(&rt; told.as_str(), *wanted, "{title}");
    }
    Ok(())
}

#[test]
fn a_prefix_with_one_label(rt: HostRuntime) -> Result<(), Fail> {
    let alloc = rt.alloc();
    let mut plugins: Vec<Box<dyn ContextPlugin>> = Vec::new(alloc);
    let plugin = PrefixPlugin::new(alloc, "test", 1)?;
    plugins.push(Box::new(alloc, plugin)?)?;
    let mut contexts = Contexts::new(Some(Nobody), plugins, true);
    let told = labels_of(
        alloc,
        &mut contexts,
        &["test_a", "test_b", "test_a", "test_b"],
    )?;
    let wanted = "test:m.test_a\nm.test_b\nm.test_a\nm.test_b\n";
    assert_eq!(&rt; told.as_str(), wanted);
    assert_eq!(&rt; contexts.into_plugins().len(), 0, "it left");
    Ok(())
}

#[test]
fn plugins_behind_a_label_are_not_asked(rt: HostRuntime) -> Result<(), Fail> {
    let alloc = rt.alloc();
    let mut plugins: Vec<Box<dyn ContextPlugin>> = Vec::new(alloc);
    let first = PrefixPlugin::new(alloc, "a", 1)?;
    plugins.push(Box::new(alloc, first)?)?;
    let second = PrefixPlugin::new(alloc, "", 2)?;
    plugins.push(Box::new(alloc, second)?)?;
    let mut contexts = Contexts::new(Some(Nobody), plugins, false);
    let told = labels_of(alloc, &mut contexts, &["a", "b", "a", "b"])?;
    assert_eq!(&rt; told.as_str(), "a:m.a\n:m.b\n:m.a\n-\n");
    Ok(())
}

#[test]
fn a_hook_comes_first(rt: HostRuntime) -> Result<(), Fail> {
    let alloc = rt.alloc();
    let mut plugins: Vec<Box<dyn ContextPlugin>> = Vec::new(alloc);
    let plugin = PrefixPlugin::new(alloc, "test", 1)?;
    plugins.push(Box::new(alloc, plugin)?)?;
    let mut contexts = Contexts::new(Some(Names), plugins, true);
    let told = labels_of(alloc, &mut contexts, &["test_a", "b"])?;
    assert_eq!(&rt; told.as_str(), "test_a\nb\n");
    assert_eq!(&rt; contexts.into_plugins().len(), 1, "the plugin wasn't asked");
    Ok(())
}
