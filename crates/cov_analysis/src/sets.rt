//! Ordered sets of lines and of branches.
ghost use Rattle.std.specs.Prelude.{◌≡◌, ◌||◌, ℕ, IfOk, OnOk};
ghost use Rattle.std.specs.BTreeSet.{contains};
ghost use Rattle.std.specs.List.{list_any};
ghost use Rattle.std.specs.Ordering.{nat_cmp};
ghost use Rattle.cov_analysis.specs.Branches.{Branch, branch_cmp, same_branch};
ghost use Rattle.cov_analysis.specs.Lines.{is_among};

use py_text::NoMemory;
use std::alloc::Global;
use std::collections::BTreeSet;

/// The set of lines, which may come in any order and more than once.
pub fn line_set(alloc: Global, lines: &[u32]) -> Result<BTreeSet<u32>, NoMemory>
    ensures { IfOk result (λ set.
        (line : ℕ) → contains nat_cmp set line ≡ is_among lines.now line) }
{
    lines.iter().copied().collect(alloc)
}

/// The set of branches, which may come in any order and more than once.
pub fn branch_set(alloc: Global, branches: &[(u32, i32)]) -> Result<BTreeSet<(u32, i32)>, NoMemory>
    ensures { IfOk result (λ set. (branch : Branch)
        → contains branch_cmp set branch ≡ list_any (same_branch branch) branches.now) }
{
    let mut set = BTreeSet::new(alloc);
    for branch in branches {
        add_branch(&mut set, *branch)?;
    }
    Ok(set)
}

fn add_branch(set: &mut BTreeSet<(u32, i32)>, branch: (u32, i32)) -> Result<(), NoMemory>
    ensures { OnOk result ((query : Branch) → contains branch_cmp set.new query
        ≡ (contains branch_cmp set.old query || same_branch query branch)) }
{
    set.insert(branch)?;
    Ok(())
}
