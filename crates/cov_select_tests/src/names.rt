// Tests that must run again.

use cov_data::Data;
use cov_select::select;
use cov_suite::{SuiteRun, TestEnd, TestResult};
use py_text::NoMemory;
use std::alloc::Global;
use std::test::Fail;

/// A test that reached one line.
fn test(
    alloc: Global,
    name: &str,
    end: TestEnd,
    path: &str,
    line: u32,
) -> Result<TestResult, NoMemory> {
    let mut reached = Vec::new(alloc);
    reached.push((String::from_str(alloc, path)?, line))?;
    Ok(TestResult {
        name: String::from_str(alloc, name)?,
        end,
        output: Vec::new(alloc),
        steps: 1,
        reached,
    })
}

/// Tests of which the second was cut and the third reached line 4 of `m.py`.
fn old_suite(alloc: Global) -> Result<SuiteRun, NoMemory> {
    let mut tests = Vec::new(alloc);
    tests.push(test(alloc, "test_a", TestEnd::Passed, "a.py", 4)?)?;
    tests.push(test(alloc, "test_b", TestEnd::Cut, "m.py", 1)?)?;
    tests.push(test(alloc, "test_c", TestEnd::Passed, "m.py", 4)?)?;
    tests.push(test(alloc, "test_e", TestEnd::Passed, "m.py", 1)?)?;
    Ok(SuiteRun {
        tests,
        imported: Vec::new(alloc),
        rows: Data::new(alloc, false),
    })
}

/// Texts, each with a space behind it.
fn joined(alloc: Global, texts: &[String]) -> Result<String, NoMemory> {
    let mut all = String::new(alloc);
    for text in texts {
        all.push_str(text.as_str())?;
        all.push_str(" ")?;
    }
    Ok(all)
}

#[test]
fn tests_that_run_again(rt: HostRuntime) -> Result<(), Fail> {
    let alloc = rt.alloc();
    let old = old_suite(alloc)?;
    let mut changed = Vec::new(alloc);
    changed.push((
        String::from_str(alloc, "m.py")?,
        Vec::from_slice(alloc, &[3, 4])?,
    ))?;
    changed.push((
        String::from_str(alloc, "a.py")?,
        Vec::from_slice(alloc, &[2])?,
    ))?;
    changed.push((
        String::from_str(alloc, "m.py")?,
        Vec::from_slice(alloc, &[9])?,
    ))?;
    let mut names = Vec::new(alloc);
    for name in ["test_e", "test_d", "test_c", "test_b", "test_a"] {
        names.push(String::from_str(alloc, name)?)?;
    }
    let selected = select(alloc, &old, &changed, &names)?;
    let text = joined(alloc, &selected)?;
    assert_eq!(rt; text.as_str(), "test_d test_c test_b ");
    Ok(())
}
