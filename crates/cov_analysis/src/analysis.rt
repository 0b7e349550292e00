//! The analysis of a source, and the sums of several.
ghost use Rattle.std.specs.Prelude.{◌≡◌, ◌+◌, All, min, map};
ghost use Rattle.cov_analysis.specs.Counts.{MOST, IsCounted, numbers_of, total_of, added_to};

use crate::numbers::Numbers;

/// The greatest sum: 2^56 - 1.
const MOST: u64 = 72_057_594_037_927_935;

/// What a report tells of a source. All lists but `hits` and `branch_hits` rise.
#[derive(Debug, Drop)]
pub struct Analysis {
    pub path: String,
    /// The statement lines that aren't excluded. Lines count from 1.
    pub statements: Vec<u32>,
    pub excluded: Vec<u32>,
    pub missing: Vec<u32>,
    /// The arcs of a line with several destinations. A negative line leaves the function that
    /// begins there, or the module.
    pub branches: Vec<(u32, i32)>,
    pub missing_branches: Vec<(u32, i32)>,
    /// How often each statement was executed.
    pub hits: Vec<u32>,
    /// How often each branch was taken.
    pub branch_hits: Vec<u32>,
    pub numbers: Numbers,
}

/// The sums of all files. Each stops at 2^56 - 1.
pub fn total(all: &[Analysis]) -> Numbers
    ensures sums { result ≡ total_of (map numbers_of all.now) }
    ensures counted { All (λ file. IsCounted (numbers_of file)) all.now → IsCounted result }
{
    let mut sums = Numbers {
        statements: 0,
        missing: 0,
        excluded: 0,
        branches: 0,
        missing_branches: 0,
        partial: 0,
    };
    for analysis in all {
        sums = added(sums, &analysis.numbers);
    }
    sums
}

fn added(sums: Numbers, more: &Numbers) -> Numbers
    ensures { result ≡ added_to sums more.now }
{
    Numbers {
        statements: stopped(sums.statements, more.statements),
        missing: stopped(sums.missing, more.missing),
        excluded: stopped(sums.excluded, more.excluded),
        branches: stopped(sums.branches, more.branches),
        missing_branches: stopped(sums.missing_branches, more.missing_branches),
        partial: stopped(sums.partial, more.partial),
    }
}

/// A sum that stops at the greatest number.
fn stopped(sum: u64, more: u64) -> u64
    ensures { result ≡ min (sum + more) MOST }
{
    sum.saturating_add(more).min(MOST)
}
