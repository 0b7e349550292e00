//! Two lists of modules, side by side: `are_compared`.
ghost use Rattle.std.specs.Prelude.{◌≡◌, map, string_bytes, IfOk};
ghost use Rattle.std.specs.Str.{chars};
ghost use Rattle.py_changes.specs.Changes.{same_modules, all_fit, are_compared};
ghost use Rattle.py_text.specs.Comparison.{is_same_text};
ghost use Rattle.cov_select.specs.Paths.{modules_beside, version_view};

use cov_changed::{fits, hold};
use py_code::Program;
use py_syntax::Module;
use py_text::NoMemory;
use std::alloc::Global;

/// A module in one of the two versions: its name and path, and its tree.
#[derive(Clone, Copy)]
pub(crate) struct Version<'a> {
    pub(crate) program: &'a Program,
    pub(crate) tree: &'a Module,
}

/// Programs beside their trees.
pub(crate) fn versions<'a>(
    alloc: Global,
    programs: &'a [Program],
    trees: &'a [Module],
) -> Result<Vec<Version<'a>>, NoMemory>
    ensures { IfOk result (λ found. map version_view found.items
        ≡ modules_beside programs.now trees.now) }
{
    let mut found = Vec::new(alloc);
    for i in 0..programs.len().min(trees.len()) {
        found.push(Version {
            program: &programs[i],
            tree: &trees[i],
        })?;
    }
    Ok(found)
}

/// Whether the modules have the same names, in the same order, and none that marked nothing is
/// different. So they are compared place by place; else all their marks change.
pub(crate) fn are_compared(before: &[Version], after: &[Version]) -> bool
    ensures { result ≡ are_compared (map version_view before.now) (map version_view after.now) }
{
    hold(same_modules(before, after), all_fit(before, after))
}

/// Whether there are as many modules, each with the name of its partner.
fn same_modules(before: &[Version], after: &[Version]) -> bool
    ensures { result ≡ same_modules (map version_view before.now) (map version_view after.now) }
{
    if before.len() != after.len() {
        return false;
    }
    let mut all = true;
    for i in 0..before.len() {
        all = hold(all, same_name(before[i].program, after[i].program));
    }
    all
}

fn same_name(one: &Program, other: &Program) -> bool
    ensures { result ≡ is_same_text (chars (string_bytes one.now.name))
        (chars (string_bytes other.now.name)) }
{
    one.name.as_str() == other.name.as_str()
}

/// Whether each module that marked nothing is the same in the new version.
fn all_fit(before: &[Version], after: &[Version]) -> bool
    ensures { result ≡ all_fit (map version_view before.now) (map version_view after.now) }
{
    let mut all = true;
    for i in 0..before.len().min(after.len()) {
        all = hold(all, fits(before[i].tree, after[i].tree));
    }
    all
}
