// Tests that pass, without any data.
ghost use Rattle.std.specs.Prelude.{◌≡◌, ◌<◌, ◌≤◌, List, length, IfOk};
ghost use Rattle.std.specs.List.{list_all};
ghost use Rattle.cov_suite.specs.Passing.{all_pass, all_pass_in_code, has_passed, passes_in_code};
ghost use Rattle.py_code.specs.Loaded.{modules_of, most_numbered};
ghost use Rattle.py_compile.specs.ProgramRuns.{AreFaithful};
ghost use Rattle.py_meaning.specs.Modules.{LoadedModule};
ghost use Rattle.py_world.specs.Stores.{world_of};
ghost use Rattle.py_compile_laws.specs.Traces.{AreWellFormed};

use crate::imports::suite_words;
use crate::results::TestEnd;
use crate::runs::{call_test, run_script};
use cov_event::Silent;
use py_code::Programs;
use py_compile::units_are_faithful;
use py_compile_laws::traces_kept;
use py_machine::Store;
use py_text::{NoMemory, Text};
use std::alloc::Global;

fn has_passed(end: &TestEnd) -> bool
    ensures { result ≡ has_passed end.now }
{
    match end {
        TestEnd::Passed => true,
        TestEnd::Failed(_, _) => false,
        TestEnd::Cut => false,
    }
}

/// Whether a test passes on a copy of a store.
fn passes(
    alloc: Global,
    programs: &Programs,
    imported: &Store,
    budget: u64,
    name: &Text,
) -> Result<bool, NoMemory>
    requires some { 0 < length (modules_of programs.now) }
    requires few { length (modules_of programs.now) ≤ most_numbered }
    ensures { IfOk result (λ b. b ≡ passes_in_code (modules_of programs.now)
        (world_of imported.now) budget name.now) }
{
    let mut store = imported.copy(alloc)?;
    let mut nobody = Silent;
    let ended = call_test(alloc, programs, &mut store, name, budget, &mut nobody)?;
    Ok(has_passed(&ended.end))
}

/// Whether each of these tests passes on a copy of a store. The first that doesn't is the last
/// that is called.
fn each_passes(
    alloc: Global,
    programs: &Programs,
    imported: &Store,
    budget: u64,
    names: &[Text],
) -> Result<bool, NoMemory>
    requires some { 0 < length (modules_of programs.now) }
    requires few { length (modules_of programs.now) ≤ most_numbered }
    ensures { IfOk result (λ b. b ≡ list_all (passes_in_code (modules_of programs.now)
        (world_of imported.now) budget) names.now) }
{
    for name in names {
        let passed = passes(alloc, programs, imported, budget, name)?;
        if !passed {
            return Ok(false);
        }
    }
    Ok(true)
}

/// Whether the import of the programs finishes, and then each of these tests of the script passes,
/// each called as `suite` calls it. Nothing is recorded, and it stops at the first that doesn't.
pub fn all_pass(
    alloc: Global,
    programs: &Programs,
    budget: u64,
    names: &[Text],
) -> Result<bool, NoMemory>
    requires some { 0 < length (modules_of programs.now) }
    requires few { length (modules_of programs.now) ≤ most_numbered }
    ensures code { IfOk result (λ b.
        b ≡ all_pass_in_code (modules_of programs.now) budget names.now) }
    // Of all trees of which the programs are faithful code:
    ensures meant { (ms : List LoadedModule) → AreFaithful (modules_of programs.now) ms
        → AreWellFormed ms → IfOk result (λ b. b ≡ all_pass ms budget names.now) }
{
    units_are_faithful();
    traces_kept();
    pass_in_code(alloc, programs, budget, names)
}

fn pass_in_code(
    alloc: Global,
    programs: &Programs,
    budget: u64,
    names: &[Text],
) -> Result<bool, NoMemory>
    requires some { 0 < length (modules_of programs.now) }
    requires few { length (modules_of programs.now) ≤ most_numbered }
    ensures { IfOk result (λ b.
        b ≡ all_pass_in_code (modules_of programs.now) budget names.now) }
{
    let words = suite_words(alloc)?;
    let mut store = Store::new(alloc, programs, &words)?;
    let mut nobody = Silent;
    let finished = run_script(alloc, programs, &mut store, budget, &mut nobody)?;
    if !finished {
        return Ok(false);
    }
    each_passes(alloc, programs, &store, budget, names)
}
