//! Rows of percentages and sums.
ghost use Rattle.std.specs.Prelude.{◌≡◌};

use cov_analysis::{Analysis, Numbers, total};
use std::alloc::Global;
use std::test::Fail;

/// The most statements, or branches, of a file.
const MOST: u64 = 72_057_594_037_927_935;

fn numbers(statements: u64, missing: u64, branches: u64, missing_branches: u64) -> Numbers
    ensures statements { result.statements ≡ statements }
    ensures missing { result.missing ≡ missing }
    ensures branches { result.branches ≡ branches }
    ensures missing_branches { result.missing_branches ≡ missing_branches }
{
    Numbers {
        statements,
        missing,
        excluded: 0,
        branches,
        missing_branches,
        partial: 0,
    }
}

/// The percentage of so many covered statements, or 255 where there are more than statements.
fn percent(covered: u64, all: u64) -> u32 {
    if covered > all || all > MOST {
        return 255;
    }
    numbers(all, all - covered, 0, 0).percent()
}

/// So many covered statements of all, and the percentage.
static PERCENTAGES: [(&str, u64, u64, u32); 21] = [
    ("nothing of nothing", 0, 0, 100),
    ("none of one", 0, 1, 0),
    ("one of one", 1, 1, 100),
    ("a half", 1, 2, 50),
    ("a third", 1, 3, 33),
    ("two thirds", 2, 3, 67),
    ("12.5, to the even number below", 1, 8, 12),
    ("37.5, to the even number above", 3, 8, 38),
    ("62.5, to the even number below", 5, 8, 62),
    ("0.5, which isn't 0", 1, 200, 1),
    ("1.5, to the even number above", 3, 200, 2),
    ("2.5, to the even number below", 5, 200, 2),
    ("3.5, to the even number above", 7, 200, 4),
    ("less than 0.5, which isn't 0", 1, 201, 1),
    ("0.4, which isn't 0", 1, 250, 1),
    ("one of the most", 1, MOST, 1),
    ("99.6, which isn't 100", 249, 250, 99),
    ("99.5, which isn't 100", 199, 200, 99),
    ("98.5, to the even number below", 197, 200, 98),
    ("all but one of the most", MOST - 1, MOST, 99),
    ("all of the most", MOST, MOST, 100),
];

#[test]
fn percentages(rt: HostRuntime) -> Result<(), Fail> {
    for (title, covered, all, answer) in &PERCENTAGES {
        assert_eq!(rt; percent(*covered, *all), *answer, "{title}");
    }
    Ok(())
}

fn analysis(alloc: Global, numbers: Numbers) -> Analysis {
    Analysis {
        path: String::new(alloc),
        statements: Vec::new(alloc),
        excluded: Vec::new(alloc),
        missing: Vec::new(alloc),
        branches: Vec::new(alloc),
        missing_branches: Vec::new(alloc),
        hits: Vec::new(alloc),
        branch_hits: Vec::new(alloc),
        numbers,
    }
}

#[test]
fn sums_of_files(rt: HostRuntime) -> Result<(), Fail> {
    let alloc = rt.alloc();
    let mut all = Vec::new(alloc);
    assert_eq!(rt; total(all.as_slice()), numbers(0, 0, 0, 0), "no file");
    all.push(analysis(alloc, numbers(5, 2, 4, 1)))?;
    assert_eq!(rt; total(all.as_slice()), numbers(5, 2, 4, 1), "one file");
    all.push(analysis(alloc, numbers(1, 0, MOST, 3)))?;
    assert_eq!(rt; total(all.as_slice()), numbers(6, 2, MOST, 4), "two files");
    Ok(())
}
