//! The lines of tests: one for each, and then that of their counts.
ghost use Rattle.std.specs.Prelude.{◌≡◌, IfOk, filter, length, string_bytes};
ghost use Rattle.std.specs.List.{flat_map};
ghost use Rattle.cov_step.specs.Calls.{cut, failed, passed};
ghost use Rattle.cov_step.specs.Testing.{count_of, counts_line, is_cut, is_failed, is_passed, suite_lines, test_line};
ghost use Rattle.cov_streams.specs.Suites.{end_of};
ghost use Rattle.cov_suites.specs.Views.{named, result_view, results_view};

use cov_suite::{TestEnd, TestResult};
use py_builtins::kind_name;
use py_value::{ExcKind, NoMemory, Text};
use std::alloc::Global;

/// How many tests passed, failed and were cut.
#[derive(Clone, Copy, Debug)]
pub(crate) struct Counts {
    pub passed: u64,
    pub failed: u64,
    pub cut: u64,
}

/// How many of them ended so.
pub(crate) fn counts_of(tests: &[TestResult]) -> Counts
    ensures passed { result.passed ≡ count_of is_passed (results_view tests.now) }
    ensures failed { result.failed ≡ count_of is_failed (results_view tests.now) }
    ensures cut { result.cut ≡ count_of is_cut (results_view tests.now) }
{
    Counts {
        passed: passed_in(tests) as u64,
        failed: failed_in(tests) as u64,
        cut: cut_in(tests) as u64,
    }
}

fn passed_in(tests: &[TestResult]) -> usize
    ensures { result ≡ length (filter (λ t. is_passed (end_of t.end)) tests.now) }
{
    tests.iter().filter(|t| is_passed(&t.end)).count()
}

fn failed_in(tests: &[TestResult]) -> usize
    ensures { result ≡ length (filter (λ t. is_failed (end_of t.end)) tests.now) }
{
    tests.iter().filter(|t| is_failed(&t.end)).count()
}

fn cut_in(tests: &[TestResult]) -> usize
    ensures { result ≡ length (filter (λ t. is_cut (end_of t.end)) tests.now) }
{
    tests.iter().filter(|t| is_cut(&t.end)).count()
}

fn is_passed(end: &TestEnd) -> bool
    ensures { result ≡ is_passed (end_of end.now) }
{
    match end {
        TestEnd::Passed => true,
        TestEnd::Failed(..) => false,
        TestEnd::Cut => false,
    }
}

fn is_failed(end: &TestEnd) -> bool
    ensures { result ≡ is_failed (end_of end.now) }
{
    match end {
        TestEnd::Passed => false,
        TestEnd::Failed(..) => true,
        TestEnd::Cut => false,
    }
}

fn is_cut(end: &TestEnd) -> bool
    ensures { result ≡ is_cut (end_of end.now) }
{
    match end {
        TestEnd::Passed => false,
        TestEnd::Failed(..) => false,
        TestEnd::Cut => true,
    }
}

/// A line for each test, and then that of these counts.
pub(crate) fn suite_lines(alloc: Global, tests: &[TestResult]) -> Result<String, NoMemory>
    ensures { IfOk result (λ text. string_bytes text ≡ suite_lines (results_view tests.now)) }
{
    let mut text = test_lines(alloc, tests)?;
    let counts = counts_of(tests);
    let last = counts_line(alloc, counts.passed, counts.failed, counts.cut)?;
    text.push_str(last.as_str())?;
    Ok(text)
}

fn counts_line(alloc: Global, passed: u64, failed: u64, cut: u64) -> Result<String, NoMemory>
    ensures { IfOk result (λ line. string_bytes line ≡ counts_line passed failed cut) }
{
    format!(in alloc; "{passed} passed, {failed} failed, {cut} cut\n")
}

fn test_lines(alloc: Global, tests: &[TestResult]) -> Result<String, NoMemory>
    ensures { IfOk result (λ text. string_bytes text ≡ flat_map test_line (results_view tests.now)) }
{
    let mut text = String::new(alloc);
    for test in tests {
        let line = test_line(alloc, test)?;
        text.push_str(line.as_str())?;
    }
    Ok(text)
}

fn test_line(alloc: Global, test: &TestResult) -> Result<String, NoMemory>
    ensures { IfOk result (λ line. string_bytes line ≡ test_line (result_view test.now)) }
{
    let name = test.name.as_str();
    match &test.end {
        TestEnd::Passed => passed_line(alloc, name),
        TestEnd::Failed(kind, text) => failed_line(alloc, name, *kind, text),
        TestEnd::Cut => cut_line(alloc, name),
    }
}

fn passed_line(alloc: Global, name: &str) -> Result<String, NoMemory>
    ensures { IfOk result (λ line. string_bytes line ≡ test_line (named name.now passed)) }
{
    format!(in alloc; "{name} passed\n")
}

fn failed_line(alloc: Global, name: &str, kind: ExcKind, text: &Text) -> Result<String, NoMemory>
    ensures { IfOk result (λ line.
        string_bytes line ≡ test_line (named name.now (failed kind text.now))) }
{
    let kind = kind_name(kind);
    if text.is_empty() {
        return format!(in alloc; "{name} failed {kind}\n");
    }
    let text = text.as_str();
    format!(in alloc; "{name} failed {kind}: {text}\n")
}

fn cut_line(alloc: Global, name: &str) -> Result<String, NoMemory>
    ensures { IfOk result (λ line. string_bytes line ≡ test_line (named name.now cut)) }
{
    format!(in alloc; "{name} cut\n")
}
