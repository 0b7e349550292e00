//! Counts by line and by branch, in order. A sum stops at the greatest number.
ghost use Rattle.std.specs.Prelude.{◌≡◌, ℕ, ◌||◌, nat_eq, OnOk};
ghost use Rattle.cov_analysis.specs.Branches.{Branch, same_branch};
ghost use Rattle.cov_analysis.specs.Lookups.{count_in, is_counted, branch_count_in, raised};

use py_text::NoMemory;
use std::collections::BTreeMap;

/// 0 for a line that isn't there.
pub(crate) fn count_of(counts: &BTreeMap<u32, u32>, line: u32) -> u32
    ensures { result ≡ count_in counts.now line }
{
    counts.get(&line).copied().unwrap_or(0)
}

pub(crate) fn raise(counts: &mut BTreeMap<u32, u32>, line: u32, count: u32) -> Result<(), NoMemory>
    ensures { OnOk result ((q : ℕ)
        → count_in counts.new q ≡ raised (nat_eq line q) (count_in counts.old q) count) }
{
    let sum = count_of(counts, line).saturating_add(count);
    counts.insert(line, sum)?;
    Ok(())
}

/// 0 for a branch that isn't there.
pub(crate) fn branch_count_of(counts: &BTreeMap<(u32, i32), u32>, branch: (u32, i32)) -> u32
    ensures { result ≡ branch_count_in counts.now branch }
{
    counts.get(&branch).copied().unwrap_or(0)
}

pub(crate) fn raise_branch(
    counts: &mut BTreeMap<(u32, i32), u32>,
    branch: (u32, i32),
    count: u32,
) -> Result<(), NoMemory>
    ensures taken { OnOk result ((q : Branch)
        → is_counted counts.new q ≡ (is_counted counts.old q || same_branch branch q)) }
    ensures count { OnOk result ((q : Branch)
        → branch_count_in counts.new q
        ≡ raised (same_branch branch q) (branch_count_in counts.old q) count) }
{
    let sum = branch_count_of(counts, branch).saturating_add(count);
    counts.insert(branch, sum)?;
    Ok(())
}
