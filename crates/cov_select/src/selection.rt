//! Which tests of a new version must run again: `select`.
ghost use Rattle.std.specs.Prelude.{◌≡◌, ◌&&◌, ◌++◌, ◌∷◌, [], ◌||◌, ℕ, List, not, if◌then◌else◌, bytes_eq, filter, map, string_bytes, IfOk, OnOk};
ghost use Rattle.std.specs.List.{list_any};
ghost use Rattle.cov_suite.specs.Views.{line_of};
ghost use Rattle.cov_select.specs.Selected.{has_line, has_name, has_reached, is_changed, is_selected, was_cut};

use crate::lines::{LineSet, has, line_set};
use cov_suite::{SuiteRun, TestEnd, TestResult};
use py_text::NoMemory;
use std::alloc::Global;
use std::collections::HashSet;

/// The tests of the new version that must run again, in their order: those that the old version
/// hasn't, and those that were cut or reached a changed line. The changed lines are those of the
/// old version, under the paths of its modules.
pub fn select(
    alloc: Global,
    old: &SuiteRun,
    changed: &[(String, Vec<u32>)],
    new_tests: &[String],
) -> Result<Vec<String>, NoMemory>
    ensures { IfOk result (λ names. map string_bytes names.items
        ≡ filter (is_selected «old».now.tests.items (is_changed changed.now))
        (map string_bytes new_tests.now)) }
{
    let lines = line_set(alloc, changed)?;
    let kept = kept_tests(alloc, &old.tests, &lines)?;
    others(alloc, &kept, new_tests)
}

/// The names that aren't in a set, in their order.
fn others(alloc: Global, kept: &HashSet<&str>, names: &[String]) -> Result<Vec<String>, NoMemory>
    ensures { IfOk result (λ others. map string_bytes others.items
        ≡ filter (λ name. not (has_name kept.now name)) (map string_bytes names.now)) }
{
    let mut others = Vec::new(alloc);
    for name in names {
        let text = name.as_str();
        let among = kept.contains(text);
        add(alloc, &mut others, !among, text)?;
    }
    Ok(others)
}

/// Adds a name where it is asked for.
fn add(alloc: Global, names: &mut Vec<String>, asked: bool, name: &str) -> Result<(), NoMemory>
    ensures { OnOk result (map string_bytes names.new.items ≡ map string_bytes names.old.items
        ++ (if asked then name.now ∷ [] else [])) }
{
    if asked {
        names.push(String::from_str(alloc, name)?)?;
    }
    Ok(())
}

/// The names of the tests that keep their results: they weren't cut and reached none of the lines.
fn kept_tests<'a>(
    alloc: Global,
    tests: &'a [TestResult],
    lines: &LineSet,
) -> Result<HashSet<&'a str>, NoMemory>
    ensures { IfOk result (λ kept. (name : List ℕ) → not (has_name kept name)
        ≡ is_selected tests.now (has_line lines.now) name) }
{
    let mut kept = HashSet::new(alloc);
    for test in tests {
        let affected = is_affected(test, lines);
        keep(&mut kept, test.name.as_str(), affected)?;
    }
    Ok(kept)
}

/// Adds the name of a test unless it must run again.
fn keep<'a>(kept: &mut HashSet<&'a str>, name: &'a str, affected: bool) -> Result<(), NoMemory>
    ensures { OnOk result ((n : List ℕ) → has_name kept.new n
        ≡ (has_name kept.old n || (bytes_eq n name.now && not affected))) }
{
    if affected {
        return Ok(());
    }
    kept.insert(name)?;
    Ok(())
}

/// Whether a test was cut or reached one of the lines.
fn is_affected(test: &TestResult, lines: &LineSet) -> bool
    ensures { result ≡ (was_cut test.now.end || has_reached (has_line lines.now) test.now) }
{
    is_cut(&test.end) || reaches(&test.reached, lines)
}

fn is_cut(end: &TestEnd) -> bool
    ensures { result ≡ was_cut end.now }
{
    match end {
        TestEnd::Passed | TestEnd::Failed(_, _) => false,
        TestEnd::Cut => true,
    }
}

fn reaches(reached: &[(String, u32)], lines: &LineSet) -> bool
    ensures { result ≡ list_any (has_line lines.now) (map line_of reached.now) }
{
    for at in reached {
        if has(lines, at.0.as_str(), at.1) {
            return true;
        }
    }
    false
}
