//! The branches of a source: a line, and what comes next, which is a line, or the first line of the
//! function or module that is left, negative.
ghost use Rattle.std.specs.Prelude.{◌≡◌, ◌++◌, ◌∷◌, [], ℕ, min, nat_lt, if◌then◌else◌, IfOk, OnOk};
ghost use Rattle.std.specs.List.{count_by};
ghost use Rattle.cov_data.specs.DataSet.{most_count};
ghost use Rattle.cov_exclude.specs.Touched.{IsRising};
ghost use Rattle.cov_analysis.specs.Branches.{is_excluded_end, is_open, open_branch, open_branches, leaves, forks, branches_of, is_covered, missing_branches_of};
ghost use Rattle.cov_analysis.specs.Lookups.{count_in, is_counted};

use crate::counts::{count_of, raise};
use crate::lines::{is_among, line_of};
use cov_predict::ArcSet;
use py_text::NoMemory;
use std::alloc::Global;
use std::collections::BTreeMap;

/// The branches among predicted arcs: those of a line with several destinations, without those that
/// touch an excluded line.
pub(crate) fn branches(
    alloc: Global,
    arcs: &ArcSet,
    excluded: &[u32],
) -> Result<Vec<(u32, i32)>, NoMemory>
    requires { IsRising excluded.now }
    ensures { IfOk result (λ branches. branches.items ≡ branches_of excluded.now arcs.now) }
{
    let found = open_branches(alloc, arcs, excluded)?;
    forks(alloc, &found)
}

fn open_branches(
    alloc: Global,
    arcs: &ArcSet,
    excluded: &[u32],
) -> Result<Vec<(u32, i32)>, NoMemory>
    requires { IsRising excluded.now }
    ensures { IfOk result (λ found. found.items ≡ open_branches excluded.now arcs.now) }
{
    let mut found = Vec::new(alloc);
    for place in 0..arcs.len() {
        let (from, to) = arcs.at(place);
        add_open(&mut found, excluded, from, to)?;
    }
    Ok(found)
}

/// Adds an arc, if it begins at a line and touches no excluded line.
fn add_open(out: &mut Vec<(u32, i32)>, excluded: &[u32], from: i32, to: i32) -> Result<(), NoMemory>
    requires { IsRising excluded.now }
    ensures { OnOk result (out.new.items
        ≡ out.old.items ++ open_branch excluded.now (from, to)) }
{
    match line_of(from) {
        Some(line) => push_if(out, is_open(excluded, line, to), (line, to)),
        None => Ok(()),
    }
}

fn is_open(excluded: &[u32], line: u32, to: i32) -> bool
    requires { IsRising excluded.now }
    ensures { result ≡ is_open excluded.now (line, to) }
{
    line > 0 && !is_among(excluded, line) && !is_excluded_end(excluded, to)
}

fn is_excluded_end(excluded: &[u32], end: i32) -> bool
    requires { IsRising excluded.now }
    ensures { result ≡ is_excluded_end excluded.now end }
{
    match line_of(end) {
        Some(line) => is_among(excluded, line),
        None => false,
    }
}

fn push_if(out: &mut Vec<(u32, i32)>, passes: bool, branch: (u32, i32)) -> Result<(), NoMemory>
    ensures { OnOk result (out.new.items
        ≡ out.old.items ++ (if passes then branch ∷ [] else [])) }
{
    if passes {
        out.push(branch)?;
    }
    Ok(())
}

/// The branches whose line has more than one of them.
fn forks(alloc: Global, branches: &[(u32, i32)]) -> Result<Vec<(u32, i32)>, NoMemory>
    ensures { IfOk result (λ several. several.items ≡ forks branches.now) }
{
    let counts = destinations(alloc, branches)?;
    let mut several = Vec::new(alloc);
    for branch in branches {
        push_if(&mut several, count_of(&counts, branch.0) > 1, *branch)?;
    }
    Ok(several)
}

/// How many branches leave each line.
fn destinations(alloc: Global, branches: &[(u32, i32)]) -> Result<BTreeMap<u32, u32>, NoMemory>
    ensures { IfOk result (λ counts. (line : ℕ)
        → count_in counts line ≡ min (count_by (leaves line) branches.now) most_count) }
{
    let mut counts = BTreeMap::new(alloc);
    for branch in branches {
        raise(&mut counts, branch.0, 1)?;
    }
    Ok(counts)
}

/// The branches that no run took, without those of lines that needn't take all of theirs.
pub(crate) fn missing_branches(
    alloc: Global,
    branches: &[(u32, i32)],
    no_branch: &[u32],
    counts: &BTreeMap<(u32, i32), u32>,
) -> Result<Vec<(u32, i32)>, NoMemory>
    requires { IsRising no_branch.now }
    ensures { IfOk result (λ missing. missing.items
        ≡ missing_branches_of no_branch.now (is_counted counts.now) branches.now) }
{
    let mut missing = Vec::new(alloc);
    for branch in branches {
        push_if(
            &mut missing,
            !is_covered(no_branch, counts, *branch),
            *branch,
        )?;
    }
    Ok(missing)
}

pub(crate) fn is_covered(
    no_branch: &[u32],
    counts: &BTreeMap<(u32, i32), u32>,
    branch: (u32, i32),
) -> bool
    requires { IsRising no_branch.now }
    ensures { result ≡ is_covered no_branch.now (is_counted counts.now) branch }
{
    is_among(no_branch, branch.0) || counts.contains_key(&branch)
}
