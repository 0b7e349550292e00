//! The changed lines of two lists of modules, by the paths of the old ones: `changed_by_path`.
ghost use Rattle.std.specs.Prelude.{◌≡◌, ◌++◌, ◌∷◌, [], map, IfOk, OnOk};
ghost use Rattle.py_changes.specs.Changed.{changed_module};
ghost use Rattle.py_syntax.specs.Marks.{in_order};
ghost use Rattle.py_syntax.specs.View.{plain_module};
ghost use Rattle.cov_select.specs.Paths.{changes_by_path, compared_by_path, marks_by_path, modules_beside, path_bytes, plain_change, version_view};

use crate::modules::{Version, are_compared, versions};
use cov_changed::{all_marks, changed};
use py_code::{Program, Programs};
use py_syntax::Module;
use py_text::NoMemory;
use std::alloc::Global;

/// Lines of modules, under their paths.
type ByPath = Vec<(String, Vec<u32>)>;

/// The changed lines of each old module, under its path. The trees stand beside the programs. All
/// marks of the old modules change where the names of the modules differ, or where a module that
/// marked nothing does.
pub fn changed_by_path(
    alloc: Global,
    old: &Programs,
    old_trees: &[Module],
    new: &Programs,
    new_trees: &[Module],
) -> Result<Vec<(String, Vec<u32>)>, NoMemory>
    ensures { IfOk result (λ changed. map plain_change changed.items
        ≡ changes_by_path (modules_beside «old».now.modules.items old_trees.now)
        (modules_beside «new».now.modules.items new_trees.now)) }
{
    let before = versions(alloc, &old.modules, old_trees)?;
    let after = versions(alloc, &new.modules, new_trees)?;
    changed_versions(alloc, &before, &after)
}

fn changed_versions(
    alloc: Global,
    before: &[Version],
    after: &[Version],
) -> Result<ByPath, NoMemory>
    ensures { IfOk result (λ changed. map plain_change changed.items
        ≡ changes_by_path (map version_view before.now) (map version_view after.now)) }
{
    if are_compared(before, after) {
        return compared_by_path(alloc, before, after);
    }
    marks_by_path(alloc, before)
}

/// What changed of each module, compared with its partner.
fn compared_by_path(
    alloc: Global,
    before: &[Version],
    after: &[Version],
) -> Result<ByPath, NoMemory>
    ensures { IfOk result (λ changed. map plain_change changed.items
        ≡ compared_by_path (map version_view before.now) (map version_view after.now)) }
{
    let mut found = Vec::new(alloc);
    for i in 0..before.len().min(after.len()) {
        let lines = changed_before(alloc, before[i].tree, after[i].tree)?;
        add(alloc, &mut found, before[i].program, lines)?;
    }
    Ok(found)
}

/// All marks of each module.
fn marks_by_path(alloc: Global, before: &[Version]) -> Result<ByPath, NoMemory>
    ensures { IfOk result (λ marks. map plain_change marks.items
        ≡ marks_by_path (map version_view before.now)) }
{
    let mut found = Vec::new(alloc);
    for version in before {
        let lines = all_marks(alloc, version.tree)?;
        add(alloc, &mut found, version.program, lines)?;
    }
    Ok(found)
}

/// The changed lines of the old version of a module.
fn changed_before(alloc: Global, before: &Module, after: &Module) -> Result<Vec<u32>, NoMemory>
    ensures { IfOk result (λ lines. lines.items
        ≡ in_order (changed_module (plain_module before.now) (plain_module after.now)).0) }
{
    let (lines, _) = changed(alloc, before, after)?;
    Ok(lines)
}

/// Adds lines under the path of a program.
fn add(
    alloc: Global,
    found: &mut ByPath,
    program: &Program,
    lines: Vec<u32>,
) -> Result<(), NoMemory>
    ensures { OnOk result (map plain_change found.new.items
        ≡ map plain_change found.old.items ++ (path_bytes program.now, lines.items) ∷ []) }
{
    let path = String::from_str(alloc, program.path.as_str())?;
    found.push((path, lines))?;
    Ok(())
}
