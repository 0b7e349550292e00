//! The local names of functions: `same_locals`.
ghost use Rattle.std.specs.Prelude.{◌≡◌, [], ◌∷◌, IfOk, OnOk};
ghost use Rattle.py_syntax.specs.Names.{add_names, distinct, assigned_in, declared_in};
ghost use Rattle.py_changes.specs.Changed.{are_among, same_names};
ghost use Rattle.cov_pieces.specs.Pieces.{picked, binding_of};
ghost use Rattle.cov_pieces.specs.Views.{plain_piece, pieces_of};
ghost use Rattle.cov_changed.specs.Local.{undeclared, AreLocal};

use cov_pieces::Piece;
use py_scope::NameSet;
use py_text::{NoMemory, Text};
use std::alloc::Global;

/// Whether two sets have the same names.
pub(crate) fn same_names(alloc: Global, names: &NameSet, others: &NameSet) -> Result<bool, NoMemory>
    ensures { IfOk result (λ same. same ≡ same_names names.now others.now) }
{
    if !are_among(alloc, names, others)? {
        return Ok(false);
    }
    are_among(alloc, others, names)
}

/// Whether all names of a set are among others.
fn are_among(alloc: Global, names: &NameSet, others: &NameSet) -> Result<bool, NoMemory>
    ensures { IfOk result (λ all. all ≡ are_among names.now others.now) }
{
    for i in 0..names.len() {
        let name = names.get(alloc, i)?;
        if !others.contains(&name) {
            return Ok(false);
        }
    }
    Ok(true)
}

/// The local names of a function with these parameters, whose body has these pieces.
pub(crate) fn local_names(
    alloc: Global,
    params: &[Text],
    pieces: &[Piece],
) -> Result<NameSet, NoMemory>
    ensures { IfOk result (λ names. AreLocal names params.now
        (picked binding_of (pieces_of pieces.now))) }
{
    let declared = declared_names(alloc, pieces)?;
    let mut names = NameSet::new(alloc);
    add_params(alloc, &mut names, &declared, params)?;
    add_assigned(alloc, &mut names, &declared, pieces)?;
    Ok(names)
}

fn declared_names(alloc: Global, pieces: &[Piece]) -> Result<NameSet, NoMemory>
    ensures { IfOk result (λ names. names
        ≡ distinct (declared_in (picked binding_of (pieces_of pieces.now)))) }
{
    let mut names = NameSet::new(alloc);
    for piece in pieces {
        add_declared(alloc, &mut names, piece)?;
    }
    Ok(names)
}

/// Adds a name that is declared `global`.
fn add_declared(alloc: Global, names: &mut NameSet, piece: &Piece) -> Result<(), NoMemory>
    ensures { OnOk result (names.new
        ≡ add_names names.old (declared_in (binding_of (plain_piece piece.now)))) }
{
    match *piece {
        Piece::Number(_) | Piece::Int(_) | Piece::Name(_) | Piece::Assigned(_) => Ok(()),
        Piece::Row(_) | Piece::Open | Piece::Inside | Piece::Close | Piece::Mark(_) => Ok(()),
        Piece::Declared(x) => insert(alloc, names, x),
        Piece::Defined(_) => Ok(()),
    }
}

fn insert(alloc: Global, names: &mut NameSet, x: &Text) -> Result<(), NoMemory>
    ensures { OnOk result (names.new ≡ add_names names.old (x.now ∷ [])) }
{
    names.insert(alloc, x)?;
    Ok(())
}

/// Adds the names of a list that aren't declared `global`.
fn add_params(
    alloc: Global,
    names: &mut NameSet,
    declared: &NameSet,
    params: &[Text],
) -> Result<(), NoMemory>
    ensures { OnOk result (names.new
        ≡ add_names names.old (undeclared declared.now params.now)) }
{
    for x in params {
        add(alloc, names, declared, x)?;
    }
    Ok(())
}

/// Adds the names that are assigned and aren't declared `global`.
fn add_assigned(
    alloc: Global,
    names: &mut NameSet,
    declared: &NameSet,
    pieces: &[Piece],
) -> Result<(), NoMemory>
    ensures { OnOk result (names.new ≡ add_names names.old
        (undeclared declared.now (assigned_in (picked binding_of (pieces_of pieces.now))))) }
{
    for piece in pieces {
        add_from(alloc, names, declared, piece)?;
    }
    Ok(())
}

/// Adds the name that a piece assigns.
fn add_from(
    alloc: Global,
    names: &mut NameSet,
    declared: &NameSet,
    piece: &Piece,
) -> Result<(), NoMemory>
    ensures { OnOk result (names.new ≡ add_names names.old
        (undeclared declared.now (assigned_in (binding_of (plain_piece piece.now))))) }
{
    match *piece {
        Piece::Number(_) | Piece::Int(_) | Piece::Name(_) => Ok(()),
        Piece::Assigned(x) => add(alloc, names, declared, x),
        Piece::Row(_) | Piece::Open | Piece::Inside | Piece::Close | Piece::Mark(_) => Ok(()),
        Piece::Declared(_) | Piece::Defined(_) => Ok(()),
    }
}

/// Adds a name unless it is declared `global`.
fn add(alloc: Global, names: &mut NameSet, declared: &NameSet, x: &Text) -> Result<(), NoMemory>
    ensures { OnOk result (names.new
        ≡ add_names names.old (undeclared declared.now (x.now ∷ []))) }
{
    if declared.contains(x) {
        return Ok(());
    }
    insert(alloc, names, x)
}
