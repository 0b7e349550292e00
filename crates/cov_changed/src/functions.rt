//! The functions of two versions of a module: `functions`, `same_defs`, `changed_functions`.
ghost use Rattle.std.specs.Prelude.{◌≡◌, ◌++◌, ◌∷◌, length, map, IfOk, OnOk};
ghost use Rattle.py_changes.specs.Changed.{where_not, by_parts, same_def, same_defs, changed_function, changed_functions};
ghost use Rattle.cov_pieces.specs.Pieces.{picked, mark_of, function_of, body_pieces};
ghost use Rattle.cov_pieces.specs.Views.{plain_function, plain_piece, pieces_of};
ghost use Rattle.cov_changed.specs.Compared.{compared};
ghost use Rattle.cov_changed.specs.Views.{AddsLines};

use crate::bodies::body_fits;
use crate::changes::Changes;
use crate::comparing::compare;
use crate::locals::{local_names, same_names};
use crate::texts::{are_same, hold, is_same};
use cov_pieces::{Function, Piece, pieces};
use py_text::NoMemory;
use std::alloc::Global;

/// The functions among pieces.
pub(crate) fn functions<'a>(
    alloc: Global,
    pieces: &[Piece<'a>],
) -> Result<Vec<Function<'a>>, NoMemory>
    ensures { IfOk result (λ found. map plain_function found.items
        ≡ picked function_of (pieces_of pieces.now)) }
{
    let mut found = Vec::new(alloc);
    for piece in pieces {
        add_function(&mut found, piece)?;
    }
    Ok(found)
}

fn add_function<'a>(found: &mut Vec<Function<'a>>, piece: &Piece<'a>) -> Result<(), NoMemory>
    ensures { OnOk result (map plain_function found.new.items
        ≡ map plain_function found.old.items ++ function_of (plain_piece piece.now)) }
{
    match *piece {
        Piece::Number(_) | Piece::Int(_) | Piece::Name(_) | Piece::Assigned(_) => Ok(()),
        Piece::Row(_) | Piece::Open | Piece::Inside | Piece::Close => Ok(()),
        Piece::Mark(_) | Piece::Declared(_) => Ok(()),
        Piece::Defined(f) => {
            found.push(f)?;
            Ok(())
        }
    }
}

/// Whether there are as many functions, each with the line, name and parameters of its partner.
pub(crate) fn same_defs(fs: &[Function], gs: &[Function]) -> bool
    ensures { result ≡ same_defs (map plain_function fs.now) (map plain_function gs.now) }
{
    if fs.len() != gs.len() {
        return false;
    }
    let mut all = true;
    for i in 0..fs.len() {
        all = hold(all, same_def(&fs[i], &gs[i]));
    }
    all
}

fn same_def(f: &Function, g: &Function) -> bool
    ensures { result ≡ same_def (plain_function f.now) (plain_function g.now) }
{
    hold(
        f.line == g.line,
        hold(is_same(f.name, g.name), are_same(f.params, g.params)),
    )
}

/// Adds the changed lines of functions, each compared with its partner.
pub(crate) fn changed_functions(
    alloc: Global,
    found: &mut Changes,
    fs: &[Function],
    gs: &[Function],
) -> Result<(), NoMemory>
    requires { length fs.now ≡ length gs.now }
    ensures { OnOk result (AddsLines found.old found.new
        (changed_functions (map plain_function fs.now) (map plain_function gs.now))) }
{
    for i in 0..fs.len() {
        changed_function(alloc, found, &fs[i], &gs[i])?;
    }
    Ok(())
}

fn changed_function(
    alloc: Global,
    found: &mut Changes,
    f: &Function,
    g: &Function,
) -> Result<(), NoMemory>
    ensures { OnOk result (AddsLines found.old found.new
        (changed_function (plain_function f.now) (plain_function g.now))) }
{
    let before = pieces(alloc, f.body)?;
    let after = pieces(alloc, g.body)?;
    changed_pieces(alloc, found, f, &before, g, &after)
}

/// Adds the changed lines of two functions, by the pieces of their bodies.
fn changed_pieces(
    alloc: Global,
    found: &mut Changes,
    f: &Function,
    before: &[Piece],
    g: &Function,
    after: &[Piece],
) -> Result<(), NoMemory>
    requires of_old { pieces_of before.now ≡ body_pieces (plain_function f.now).body }
    requires of_new { pieces_of after.now ≡ body_pieces (plain_function g.now).body }
    ensures { OnOk result (AddsLines found.old found.new
        (changed_function (plain_function f.now) (plain_function g.now))) }
{
    let names = local_names(alloc, f.params, before)?;
    let others = local_names(alloc, g.params, after)?;
    let same = same_names(alloc, &names, &others)?;
    compare_bodies(found, same, before, after)?;
    let fits = body_fits(f.body, g.body);
    add_def(found, fits, f.line, before, g.line, after)?;
    Ok(())
}

/// Adds the changed lines of two bodies: all where their names aren't the same.
fn compare_bodies(
    found: &mut Changes,
    same: bool,
    before: &[Piece],
    after: &[Piece],
) -> Result<(), NoMemory>
    ensures { OnOk result (AddsLines found.old found.new
        (by_parts same (compared 0 (pieces_of before.now) (pieces_of after.now))
        (picked mark_of (pieces_of before.now), picked mark_of (pieces_of after.now)))) }
{
    if same {
        return compare(found, before, after);
    }
    found.add_all(before, after)
}

/// Adds the lines of two `def`s and all marks of their bodies, where the old one marks nothing and
/// isn't the same.
fn add_def(
    found: &mut Changes,
    fits: bool,
    line: u32,
    before: &[Piece],
    other: u32,
    after: &[Piece],
) -> Result<(), NoMemory>
    ensures { OnOk result (AddsLines found.old found.new (where_not fits (
      line ∷ picked mark_of (pieces_of before.now),
      other ∷ picked mark_of (pieces_of after.now),
    ))) }
{
    if fits {
        return Ok(());
    }
    found.before.push(line)?;
    found.after.push(other)?;
    found.add_all(before, after)
}
