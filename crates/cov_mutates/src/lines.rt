//! The lines of mutants: one for each, and then that of their counts.
ghost use Rattle.std.specs.Prelude.{◌≡◌, IfOk, filter, length, string_bytes};
ghost use Rattle.std.specs.Str.{chars};
ghost use Rattle.cov_step.specs.Mutating.{is_killed, is_survivor, is_unreached, judged_line, mutant_line, mutant_lines, mutation_lines, verdict_text};
ghost use Rattle.cov_mutates.specs.Views.{judged_views, on_path, path_in, told_of};

use cov_mutate::{Judged, MutantEnd};
use py_code::Programs;
use py_value::NoMemory;
use std::alloc::Global;

/// How many mutants are killed, survive and are unreached.
#[derive(Clone, Copy, Debug)]
struct Counts {
    killed: u64,
    survived: u64,
    unreached: u64,
}

/// How many of them are judged so.
fn counts_of(judged: &[Judged]) -> Counts
    ensures killed { result.killed ≡ length (filter (λ j. is_killed (told_of j.end)) judged.now) }
    ensures survived { result.survived ≡ length (filter (λ j. is_survivor (told_of j.end)) judged.now) }
    ensures unreached { result.unreached ≡ length (filter (λ j. is_unreached (told_of j.end)) judged.now) }
{
    Counts {
        killed: killed_in(judged) as u64,
        survived: survived_in(judged) as u64,
        unreached: unreached_in(judged) as u64,
    }
}

fn killed_in(judged: &[Judged]) -> usize
    ensures { result ≡ length (filter (λ j. is_killed (told_of j.end)) judged.now) }
{
    judged.iter().filter(|j| is_killed(&j.end)).count()
}

fn survived_in(judged: &[Judged]) -> usize
    ensures { result ≡ length (filter (λ j. is_survivor (told_of j.end)) judged.now) }
{
    judged.iter().filter(|j| is_survivor(&j.end)).count()
}

fn unreached_in(judged: &[Judged]) -> usize
    ensures { result ≡ length (filter (λ j. is_unreached (told_of j.end)) judged.now) }
{
    judged.iter().filter(|j| is_unreached(&j.end)).count()
}

fn is_killed(end: &MutantEnd) -> bool
    ensures { result ≡ is_killed (told_of end.now) }
{
    match end {
        MutantEnd::Killed => true,
        MutantEnd::Survived => false,
        MutantEnd::Unreached => false,
    }
}

fn is_survivor(end: &MutantEnd) -> bool
    ensures { result ≡ is_survivor (told_of end.now) }
{
    match end {
        MutantEnd::Killed => false,
        MutantEnd::Survived => true,
        MutantEnd::Unreached => false,
    }
}

fn is_unreached(end: &MutantEnd) -> bool
    ensures { result ≡ is_unreached (told_of end.now) }
{
    match end {
        MutantEnd::Killed => false,
        MutantEnd::Survived => false,
        MutantEnd::Unreached => true,
    }
}

/// A line for each mutant, numbered from 1, and then that of their counts.
pub(crate) fn mutation_lines(
    alloc: Global,
    programs: &Programs,
    judged: &[Judged],
) -> Result<String, NoMemory>
    ensures { IfOk result (λ text.
        string_bytes text ≡ mutation_lines (judged_views programs.now judged.now)) }
{
    let mut text = mutant_lines(alloc, programs, judged)?;
    let counts = counts_of(judged);
    let last = judged_line(alloc, counts.killed, counts.survived, counts.unreached)?;
    text.push_str(last.as_str())?;
    Ok(text)
}

fn judged_line(
    alloc: Global,
    killed: u64,
    survived: u64,
    unreached: u64,
) -> Result<String, NoMemory>
    ensures { IfOk result (λ line. string_bytes line ≡ judged_line killed survived unreached) }
{
    format!(in alloc; "{killed} killed, {survived} survived, {unreached} unreached\n")
}

fn mutant_lines(alloc: Global, programs: &Programs, judged: &[Judged]) -> Result<String, NoMemory>
    ensures { IfOk result (λ text.
        string_bytes text ≡ mutant_lines 1 (judged_views programs.now judged.now)) }
{
    let mut text = String::new(alloc);
    for (i, mutant) in judged.iter().enumerate() {
        let path = path_of(programs, mutant.module);
        let line = mutant_line(alloc, i + 1, path, mutant)?;
        text.push_str(line.as_str())?;
    }
    Ok(text)
}

/// The path of the module with this number.
fn path_of(programs: &Programs, number: u32) -> &str
    ensures { chars result.now ≡ path_in programs.now number }
{
    match programs.modules.get(number as usize) {
        Some(program) => program.path.as_str(),
        None => "",
    }
}

/// `NUMBER PATH:LINE OLD -> NEW VERDICT`.
fn mutant_line(
    alloc: Global,
    number: usize,
    path: &str,
    mutant: &Judged,
) -> Result<String, NoMemory>
    ensures { IfOk result (λ line.
        string_bytes line ≡ mutant_line number (on_path (chars path.now) mutant.now)) }
{
    let line = mutant.line;
    let old = mutant.old.as_str();
    let new = mutant.new.as_str();
    let verdict = verdict_text(&mutant.end);
    format!(in alloc; "{number} {path}:{line} {old} -> {new} {verdict}\n")
}

fn verdict_text(end: &MutantEnd) -> &'static str
    ensures { result.now ≡ verdict_text (told_of end.now) }
{
    match end {
        MutantEnd::Killed => "killed",
        MutantEnd::Survived => "survived",
        MutantEnd::Unreached => "unreached",
    }
}
