//! The branches of a file in LCOV's format.
ghost use Rattle.std.specs.Prelude.{◌≡◌, ℕ, [], ◌&&◌, ◌||◌, nat_eq, length, map, IfOk, OnOk, string_bytes};
ghost use Rattle.std.specs.BTreeSet.{contains, insert_key};
ghost use Rattle.std.specs.List.{flat_map, fold, zip};
ghost use Rattle.std.specs.Ordering.{nat_cmp};
ghost use Rattle.cov_analysis.specs.Analyses.{IsReportable, analysis_view};
ghost use Rattle.cov_analysis.specs.Branches.{branch_cmp};
ghost use Rattle.cov_lcov.specs.Lcov.{branch_part, branch_row, branch_rows, destination_text, entry_cmp, entry_of, is_exit, leaves_covered, taken_text};

use cov_analysis::{Analysis, branch_set};
use py_text::NoMemory;
use std::alloc::Global;
use std::collections::BTreeSet;

/// A branch in the order of a report: its line, whether it is an exit, its destination, its hits.
type Entry = (u32, bool, i32, u32);

/// The branches of a file, how many there are, and how many are covered.
pub(crate) fn branch_part(alloc: Global, file: &Analysis) -> Result<String, NoMemory>
    requires { IsReportable (analysis_view file.now) }
    ensures { IfOk result (λ text. string_bytes text ≡ branch_part (analysis_view file.now)) }
{
    let rows = branch_rows(alloc, file)?;
    let found = file.numbers.branches;
    let hit = found - file.numbers.missing_branches;
    format!(in alloc; "{rows}BRF:{found}\nBRH:{hit}\n")
}

fn branch_rows(alloc: Global, file: &Analysis) -> Result<String, NoMemory>
    requires { IsReportable (analysis_view file.now) }
    ensures { IfOk result (λ text. string_bytes text ≡ branch_rows (analysis_view file.now)) }
{
    let missing = branch_set(alloc, &file.missing_branches)?;
    let covered = covered_lines(alloc, &file.branches, &missing)?;
    let entries = entries(alloc, &file.branches, &file.branch_hits)?;
    rows(alloc, &missing, &covered, &entries)
}

/// The lines that some covered branch leaves.
fn covered_lines(
    alloc: Global,
    branches: &[(u32, i32)],
    missing: &BTreeSet<(u32, i32)>,
) -> Result<BTreeSet<u32>, NoMemory>
    ensures { IfOk result (λ set. (line : ℕ) → contains nat_cmp set line
        ≡ leaves_covered (contains branch_cmp missing.now) branches.now line) }
{
    let mut set = BTreeSet::new(alloc);
    for branch in branches {
        add_if(&mut set, !missing.contains(branch), branch.0)?;
    }
    Ok(set)
}

fn add_if(set: &mut BTreeSet<u32>, passes: bool, line: u32) -> Result<(), NoMemory>
    ensures { OnOk result ((query : ℕ) → contains nat_cmp set.new query
        ≡ (contains nat_cmp set.old query || nat_eq query line && passes)) }
{
    if passes {
        set.insert(line)?;
    }
    Ok(())
}

/// The branches with their hits, in the order of a report.
fn entries(alloc: Global, branches: &[(u32, i32)], hits: &[u32]) -> Result<Vec<Entry>, NoMemory>
    requires { length hits.now ≡ length branches.now }
    ensures { IfOk result (λ entries. entries.items
        ≡ fold (insert_key entry_cmp) [] (map entry_of (zip branches.now hits.now))) }
{
    let mut set = BTreeSet::new(alloc);
    for at in 0..branches.len() {
        add_entry(&mut set, branches[at], hits[at])?;
    }
    listed(alloc, set)
}

fn add_entry(set: &mut BTreeSet<Entry>, branch: (u32, i32), hits: u32) -> Result<(), NoMemory>
    ensures { OnOk result (set.new.keys
        ≡ insert_key entry_cmp set.old.keys (entry_of (branch, hits))) }
{
    set.insert((branch.0, is_exit(branch.1), branch.1, hits))?;
    Ok(())
}

fn is_exit(to: i32) -> bool
    ensures { result ≡ is_exit to }
{
    to < 0
}

fn listed(alloc: Global, entries: BTreeSet<Entry>) -> Result<Vec<Entry>, NoMemory>
    ensures { IfOk result (λ list. list.items ≡ entries.keys) }
{
    entries.into_iter().collect(alloc)
}

fn rows(
    alloc: Global,
    missing: &BTreeSet<(u32, i32)>,
    covered: &BTreeSet<u32>,
    entries: &[Entry],
) -> Result<String, NoMemory>
    ensures { IfOk result (λ text. string_bytes text ≡ flat_map
        (branch_row (contains branch_cmp missing.now) (contains nat_cmp covered.now)) entries.now) }
{
    let mut text = String::new(alloc);
    for entry in entries {
        let row = branch_row(alloc, missing, covered, *entry)?;
        text.push_str(row.as_str())?;
    }
    Ok(text)
}

fn branch_row(
    alloc: Global,
    missing: &BTreeSet<(u32, i32)>,
    covered: &BTreeSet<u32>,
    entry: Entry,
) -> Result<String, NoMemory>
    ensures { IfOk result (λ text. string_bytes text
        ≡ branch_row (contains branch_cmp missing.now) (contains nat_cmp covered.now) entry) }
{
    let (line, _, to, hits) = entry;
    let destination = destination_text(alloc, to)?;
    let taken = taken_text(alloc, missing, covered, (line, to), hits)?;
    format!(in alloc; "BRDA:{line},0,{destination},{taken}\n")
}

fn destination_text(alloc: Global, to: i32) -> Result<String, NoMemory>
    ensures { IfOk result (λ text. string_bytes text ≡ destination_text to) }
{
    if is_exit(to) {
        return String::from_str(alloc, "exit");
    }
    let line = to as u32;
    format!(in alloc; "jump to line {line}")
}

/// How often a branch was taken. Of a missing one it is 0 where its line was executed, which a
/// covered branch of the line tells.
fn taken_text(
    alloc: Global,
    missing: &BTreeSet<(u32, i32)>,
    covered: &BTreeSet<u32>,
    branch: (u32, i32),
    hits: u32,
) -> Result<String, NoMemory>
    ensures { IfOk result (λ text. string_bytes text ≡ taken_text
        (contains branch_cmp missing.now) (contains nat_cmp covered.now) branch hits) }
{
    if !missing.contains(&branch) {
        return format!(in alloc; "{hits}");
    }
    if covered.contains(&branch.0) {
        return String::from_str(alloc, "0");
    }
    String::from_str(alloc, "-")
}
