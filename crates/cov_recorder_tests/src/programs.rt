// A program that is run and recorded, with a hook and a plugin.

ghost use Rattle.std.specs.Prelude.{◌≡◌, ◌<◌, ◌≤◌, length, IfOk};
ghost use Rattle.cov_event.specs.declared.plugin.Verdict.TheVariants.{Leave};
ghost use Rattle.cov_run.specs.Loads.{IsCompiled};
ghost use Rattle.py_code.specs.Loaded.{modules_of, most_numbered};

use crate::rows::{listed, units};
use cov_contexts::Contexts;
use cov_event::{ContextPlugin, Verdict};
use cov_hook::Hook;
use cov_outside::{MemShelf, SureSink, SureSource};
use cov_predict::{ArcSet, predict};
use cov_recorder::Recorder;
use cov_run::{Loaded, load};
use py_code::Programs;
use py_machine::{Store, run};
use py_syntax::Module;
use py_value::NoMemory;
use std::alloc::{AllocError, Global};
use std::test::Fail;

/// Leaves when it is asked.
#[derive(Drop)]
struct Leaves;

impl ContextPlugin for Leaves {
    ghost moves = { λ _ _ _ verdict _. verdict ≡ Leave };

    fn context(
        &mut self,
        _alloc: Global,
        _module: &str,
        _function: &str,
    ) -> Result<Verdict, NoMemory> {
        Ok(Verdict::Leave)
    }
}

const PROGRAM: &str = "def test_a():\n    pass\ndef test_b():\n    pass\n\
    test_a()\ntest_b()\ntest_a()\ntest_b()\n";

const HOOK: &str =
    "n = 0\ndef label(module, function):\n    global n\n    n += 1\n    print(n)\n    \
    if n == 3:\n        raise ValueError(\"no\")\n    return \"h\" + str(n)\n";

/// The third question raises, and so the rule for names gives the last labels.
const RECORDED: &str = "p.py\n: -1 1 1\n: 1 3 1\n: 3 5 1\n: 5 6 1\n: 6 7 1\n: 7 8 1\n: 8 -1 1\n\
    __main__.test_a: -1 2 1\n__main__.test_a: 2 -1 1\n\
    __main__.test_b: -3 4 1\n__main__.test_b: 4 -3 1\n\
    h1: -1 2 1\nh1: 2 -1 1\nh2: -3 4 1\nh2: 4 -3 1\n";

/// A program's file and that of a hook.
fn files(alloc: Global) -> Result<Vec<(String, Vec<u8>)>, NoMemory> {
    let mut files = Vec::new(alloc);
    for (name, source) in [("p.py", PROGRAM), ("hk.py", HOOK)] {
        let bytes = Vec::from_slice(alloc, source.as_bytes())?;
        files.push((String::from_str(alloc, name)?, bytes))?;
    }
    Ok(files)
}

fn loaded(alloc: Global, shelf: &mut MemShelf, name: &str) -> Result<Loaded, Fail>
    ensures { IfOk result (λ loaded. IsCompiled loaded) }
{
    match load(alloc, name, "__main__", shelf) {
        Ok(loaded) => Ok(loaded),
        Err(why) => {
            drop(why);
            Err(Fail::from(AllocError))
        }
    }
}

fn opened(alloc: Global, shelf: &mut MemShelf) -> Result<Hook, Fail> {
    let hooks = loaded(alloc, shelf, "hk.py")?;
    match Hook::open(alloc, hooks.programs, "label") {
        Ok(hook) => Ok(hook),
        Err(_) => Err(Fail::from(AllocError)),
    }
}

/// The sources of labels: the hook, a plugin, and the rule for names.
fn contexts(alloc: Global, hook: Hook) -> Result<Contexts<Hook>, NoMemory> {
    let mut plugins: Vec<Box<dyn ContextPlugin>> = Vec::new(alloc);
    plugins.push(Box::new(alloc, Leaves)?)?;
    Ok(Contexts::new(Some(hook), plugins, true))
}

/// The sets of predicted arcs.
fn predicted(alloc: Global, modules: &[Module]) -> Result<Vec<ArcSet>, NoMemory> {
    let mut places = Vec::new(alloc);
    for module in modules {
        places.push(predict(alloc, module)?)?;
    }
    Ok(places)
}

fn recorder_of(
    alloc: Global,
    contexts: Contexts<Hook>,
    places: Vec<ArcSet>,
) -> Result<Recorder<Hook>, Fail> {
    let units = units(alloc, ("p.py", "__main__"), ("test_a", 1), ("test_b", 3))?;
    match Recorder::new(alloc, units, places, true, "", contexts) {
        Ok(recorder) => Ok(recorder),
        Err(refused) => {
            drop(refused);
            Err(Fail::from(AllocError))
        }
    }
}

/// Runs the program, and answers what it printed.
fn printed(
    alloc: Global,
    programs: &Programs,
    recorder: &mut Recorder<Hook>,
) -> Result<Vec<u8>, Fail>
    requires some { 0 < length (modules_of programs.now) }
    requires few { length (modules_of programs.now) ≤ most_numbered }
{
    let words = vec![in alloc; String::from_str(alloc, "p.py")?]?;
    let mut store = Store::new(alloc, programs, &words)?;
    let mut input = SureSource::new(Vec::new(alloc));
    let mut out = SureSink::new(alloc, Vec::new(alloc));
    match run(
        alloc, programs, &mut store, 1_000_000, recorder, &mut input, &mut out,
    ) {
        Ok(ran) => {
            drop(ran);
            Ok(out.into_bytes())
        }
        Err(_) => Err(Fail::from(AllocError)),
    }
}

/// What the program printed, the data of its run, and how many plugins are left.
fn recorded(alloc: Global) -> Result<(Vec<u8>, String, usize), Fail> {
    let mut shelf = MemShelf::new(alloc, files(alloc)?, Vec::new(alloc));
    let script = loaded(alloc, &mut shelf, "p.py")?;
    let places = predicted(alloc, script.modules.as_slice())?;
    let contexts = contexts(alloc, opened(alloc, &mut shelf)?)?;
    let mut recorder = recorder_of(alloc, contexts, places)?;
    let out = printed(alloc, &script.programs, &mut recorder)?;
    let (data, plugins) = recorder.finish(alloc);
    let left = plugins.len();
    drop(plugins);
    Ok((out, listed(alloc, &data?)?, left))
}

#[test]
fn hook_and_plugin(rt: HostRuntime) -> Result<(), Fail> {
    let alloc = rt.alloc();
    let (out, told, left) = recorded(alloc)?;
    assert_eq!(&rt; out.len(), 0, "what the hook prints is thrown away");
    assert_eq!(&rt; told.as_str(), RECORDED);
    assert_eq!(&rt; left, 0, "the plugin left");
    Ok(())
}
