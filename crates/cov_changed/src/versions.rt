//! The changed lines of two versions of a module: `changed`; where all change, `all_marks`.
ghost use Rattle.std.specs.Prelude.{◌≡◌, map, IfOk, OnOk};
ghost use Rattle.py_syntax.specs.Marks.{in_order, body_marks};
ghost use Rattle.py_syntax.specs.View.{plain_stmts, plain_module};
ghost use Rattle.py_changes.specs.Changed.{also, by_parts, same_defs, changed_functions, changed_module};
ghost use Rattle.cov_pieces.specs.Pieces.{picked, mark_of};
ghost use Rattle.cov_pieces.specs.Views.{plain_function, pieces_of};
ghost use Rattle.cov_changed.specs.Compared.{compared};
ghost use Rattle.cov_changed.specs.Views.{lines_of, AddsLines};

use crate::changes::{Changes, add_marks, in_order};
use crate::comparing::compare;
use crate::functions::{changed_functions, functions, same_defs};
use cov_pieces::{Function, Piece, pieces};
use py_syntax::{Module, Stmt};
use py_text::NoMemory;
use std::alloc::Global;

/// The changed lines of the old version of a module and of the new one, each once, in order.
/// Where a module marks nothing in the old version, `fits` tells whether it changed.
pub fn changed(alloc: Global, old: &Module, new: &Module) -> Result<(Vec<u32>, Vec<u32>), NoMemory>
    ensures of_old { IfOk result (λ lines. lines.0.items
        ≡ in_order (changed_module (plain_module «old».now) (plain_module «new».now)).0) }
    ensures of_new { IfOk result (λ lines. lines.1.items
        ≡ in_order (changed_module (plain_module «old».now) (plain_module «new».now)).1) }
{
    let Changes { before, after } = changed_bodies(alloc, &old.body, &new.body)?;
    Ok((in_order(before), in_order(after)))
}

/// The marks of a module, each once, in order: its changed lines where all change.
pub fn all_marks(alloc: Global, tree: &Module) -> Result<Vec<u32>, NoMemory>
    ensures { IfOk result (λ lines. lines.items ≡ in_order (body_marks (plain_module tree.now))) }
{
    let pieces = pieces(alloc, &tree.body)?;
    let mut lines = Vec::new(alloc);
    add_marks(&mut lines, &pieces)?;
    Ok(in_order(lines))
}

/// The changed lines of two bodies of modules.
fn changed_bodies(alloc: Global, a: &[Stmt], b: &[Stmt]) -> Result<Changes, NoMemory>
    ensures { IfOk result (λ found. lines_of found
        ≡ changed_module (plain_stmts a.now) (plain_stmts b.now)) }
{
    let before = pieces(alloc, a)?;
    let after = pieces(alloc, b)?;
    let fs = functions(alloc, &before)?;
    let gs = functions(alloc, &after)?;
    let mut found = Changes::new(alloc);
    add_changes(alloc, &mut found, &before, &fs, &after, &gs)?;
    Ok(found)
}

/// Adds the changed lines of two modules. Where their functions aren't the same all change.
fn add_changes(
    alloc: Global,
    found: &mut Changes,
    before: &[Piece],
    fs: &[Function],
    after: &[Piece],
    gs: &[Function],
) -> Result<(), NoMemory>
    ensures { OnOk result (AddsLines found.old found.new
        (by_parts (same_defs (map plain_function fs.now) (map plain_function gs.now))
        (also (compared 0 (pieces_of before.now) (pieces_of after.now))
        (changed_functions (map plain_function fs.now) (map plain_function gs.now)))
        (picked mark_of (pieces_of before.now), picked mark_of (pieces_of after.now)))) }
{
    if same_defs(fs, gs) {
        compare(found, before, after)?;
        return changed_functions(alloc, found, fs, gs);
    }
    found.add_all(before, after)
}
