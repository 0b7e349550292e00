//! How often lines were executed and branches were taken.
ghost use Rattle.std.specs.Prelude.{◌≡◌, ℕ, ◌||◌, map, IfOk, OnOk};
ghost use Rattle.cov_data.specs.Rows.{row_view};
ghost use Rattle.cov_exclude.specs.Touched.{IsRising};
ghost use Rattle.cov_analysis.specs.Branches.{Branch};
ghost use Rattle.cov_analysis.specs.Hits.{goes_to, line_count, takes, is_taken, branch_count, line_hits, branch_hits};
ghost use Rattle.cov_analysis.specs.Lookups.{count_in, is_counted, branch_count_in, raised};

use crate::branches::is_covered;
use crate::counts::{branch_count_of, count_of, raise, raise_branch};
use crate::lines::{is_among, line_of};
use cov_data::Row;
use py_text::NoMemory;
use std::alloc::Global;
use std::collections::BTreeMap;

/// How often rows go to each line.
pub(crate) fn line_counts(alloc: Global, rows: &[Row]) -> Result<BTreeMap<u32, u32>, NoMemory>
    ensures { IfOk result (λ counts. (line : ℕ)
        → count_in counts line ≡ line_count (map row_view rows.now) line) }
{
    let mut counts = BTreeMap::new(alloc);
    for row in rows {
        add_to_line(&mut counts, row)?;
    }
    Ok(counts)
}

fn add_to_line(counts: &mut BTreeMap<u32, u32>, row: &Row) -> Result<(), NoMemory>
    ensures { OnOk result ((line : ℕ)
        → count_in counts.new line
        ≡ raised (goes_to line (row_view row.now)) (count_in counts.old line) row.now.count) }
{
    match line_of(row.to) {
        Some(line) => raise(counts, line, row.count),
        None => Ok(()),
    }
}

/// How often rows take each branch. Only branches that were taken are there.
pub(crate) fn branch_counts(
    alloc: Global,
    rows: &[Row],
) -> Result<BTreeMap<(u32, i32), u32>, NoMemory>
    ensures taken { IfOk result (λ counts. (branch : Branch)
        → is_counted counts branch ≡ is_taken (map row_view rows.now) branch) }
    ensures count { IfOk result (λ counts. (branch : Branch)
        → branch_count_in counts branch ≡ branch_count (map row_view rows.now) branch) }
{
    let mut counts = BTreeMap::new(alloc);
    for row in rows {
        add_to_branch(&mut counts, row)?;
    }
    Ok(counts)
}

fn add_to_branch(counts: &mut BTreeMap<(u32, i32), u32>, row: &Row) -> Result<(), NoMemory>
    ensures taken { OnOk result ((branch : Branch)
        → is_counted counts.new branch
        ≡ (is_counted counts.old branch || takes branch (row_view row.now))) }
    ensures count { OnOk result ((branch : Branch)
        → branch_count_in counts.new branch
        ≡ raised (takes branch (row_view row.now)) (branch_count_in counts.old branch)
        row.now.count) }
{
    match line_of(row.from) {
        Some(line) => raise_branch(counts, (line, row.to), row.count),
        None => Ok(()),
    }
}

/// How often each line was executed: at least once, where it was.
pub(crate) fn hits(
    alloc: Global,
    lines: &[u32],
    executed: &[u32],
    counts: &BTreeMap<u32, u32>,
) -> Result<Vec<u32>, NoMemory>
    requires { IsRising executed.now }
    ensures { IfOk result (λ hits.
        hits.items ≡ map (line_hits executed.now (count_in counts.now)) lines.now) }
{
    let mut hits = Vec::new(alloc);
    for line in lines {
        hits.push(hits_of_line(executed, counts, *line))?;
    }
    Ok(hits)
}

fn hits_of_line(executed: &[u32], counts: &BTreeMap<u32, u32>, line: u32) -> u32
    requires { IsRising executed.now }
    ensures { result ≡ line_hits executed.now (count_in counts.now) line }
{
    if is_among(executed, line) {
        return count_of(counts, line).max(1);
    }
    0
}

/// How often each branch was taken: at least once, where it is covered.
pub(crate) fn branch_hits(
    alloc: Global,
    branches: &[(u32, i32)],
    no_branch: &[u32],
    counts: &BTreeMap<(u32, i32), u32>,
) -> Result<Vec<u32>, NoMemory>
    requires { IsRising no_branch.now }
    ensures { IfOk result (λ hits. hits.items
        ≡ map (branch_hits no_branch.now (is_counted counts.now) (branch_count_in counts.now))
        branches.now) }
{
    let mut hits = Vec::new(alloc);
    for branch in branches {
        hits.push(hits_of_branch(no_branch, counts, *branch))?;
    }
    Ok(hits)
}

fn hits_of_branch(no_branch: &[u32], counts: &BTreeMap<(u32, i32), u32>, branch: (u32, i32)) -> u32
    requires { IsRising no_branch.now }
    ensures { result
        ≡ branch_hits no_branch.now (is_counted counts.now) (branch_count_in counts.now) branch }
{
    if is_covered(no_branch, counts, branch) {
        return branch_count_of(counts, branch).max(1);
    }
    0
}
