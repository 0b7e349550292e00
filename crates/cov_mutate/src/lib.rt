//! Tells what the tests of a program notice of its mutants: `mutate`.
#![tactic(auto)]

mod copies;
mod judging;
mod passed;
mod sets;
mod trial;
mod unchanged;

ghost use Rattle.std.specs.Prelude.{◌<◌, ◌≤◌, List, length};
ghost use Rattle.cov_mutate.specs.Meant.{AreMutable, MutateOf, answer_view};
ghost use Rattle.py_code.specs.Loaded.{modules_of, most_numbered};
ghost use Rattle.py_meaning.specs.Modules.{LoadedModule};

use crate::copies::compiled;
use crate::judging::judge_all;
use crate::passed::passed_tests;
use crate::trial::Trial;
use crate::unchanged::run_unchanged;
use cov_suite::SuiteError;
use py_code::Programs;
use py_compile::units_are_faithful;
use py_compile_laws::traces_kept;
use py_syntax::Module;
use std::alloc::Global;

/// What tests notice of a mutant. Killed is one whose import doesn't finish, or of which a test
/// doesn't pass that passed before. Survived is any other whose line the import or a test reached
/// before, and unreached one whose line neither reached.
#[derive(Drop)]
pub enum MutantEnd {
    Killed,
    Survived,
    Unreached,
}

/// A mutant: the number of its module, its line, the token that it changes, the one in its place,
/// and what the tests notice of it.
#[derive(Drop)]
pub struct Judged {
    pub module: u32,
    pub line: u32,
    pub old: String,
    pub new: String,
    pub end: MutantEnd,
}

/// Judges each mutant of the modules but the script. The unchanged programs run once. The import
/// and the tests that passed then run again for each mutant whose line was reached.
pub fn mutate(
    alloc: Global,
    modules: &[Module],
    programs: &Programs,
    budget: u64,
) -> Result<Vec<Judged>, SuiteError>
    requires some { 0 < length (modules_of programs.now) }
    requires few { length (modules_of programs.now) ≤ most_numbered }
    ensures { (ms : List LoadedModule) → AreMutable programs.now modules.now ms
        → MutateOf budget ms (answer_view result) }
{
    units_are_faithful();
    traces_kept();
    let run = run_unchanged(alloc, modules, programs, budget)?;
    let names = passed_tests(alloc, &run.tests)?;
    let copy = compiled(alloc, modules, programs)?;
    let mut trial = Trial {
        programs: copy,
        names,
        budget,
    };
    let judged = judge_all(alloc, modules, programs, &run.rows, &mut trial)?;
    Ok(judged)
}
