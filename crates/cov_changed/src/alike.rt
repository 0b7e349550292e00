//! Pieces of two texts that are the same: `is_alike`.
ghost use Rattle.std.specs.Prelude.{◌≡◌, ◌||◌};
ghost use Rattle.py_syntax.specs.View.{plain_stmts};
ghost use Rattle.py_changes.specs.Same.{same_int};
ghost use Rattle.py_changes.specs.Changed.{fits_stmts};
ghost use Rattle.cov_pieces.specs.Pieces.{word, open_part, inside, close};
ghost use Rattle.cov_pieces.specs.Views.{plain_piece};
ghost use Rattle.cov_pieces.specs.Words.{a_number, an_int, a_text, assigned, a_row};
ghost use Rattle.cov_changed.specs.Compared.{is_alike};

use crate::marks::have_marks;
use crate::silence::are_silent;
use crate::texts::is_same;
use cov_pieces::Piece;
use py_syntax::Stmt;
use py_text::Text;

/// Whether two pieces that are compared are the same.
pub(crate) fn is_alike(piece: &Piece, other: &Piece) -> bool
    ensures { result ≡ is_alike (plain_piece piece.now) (plain_piece other.now) }
{
    match *piece {
        Piece::Number(n) => is_number(n, other),
        Piece::Int(n) => is_int(n, other),
        Piece::Name(x) => is_name(x, other),
        Piece::Assigned(x) => is_assigned(x, other),
        Piece::Row(items) => is_row(items, other),
        Piece::Open => is_open(other),
        Piece::Inside => is_inside(other),
        Piece::Close => is_close(other),
        Piece::Mark(_) | Piece::Declared(_) | Piece::Defined(_) => false,
    }
}

fn is_number(n: u32, piece: &Piece) -> bool
    ensures { result ≡ is_alike (word (a_number n)) (plain_piece piece.now) }
{
    match *piece {
        Piece::Number(m) => n == m,
        Piece::Int(_) | Piece::Name(_) | Piece::Assigned(_) | Piece::Row(_) => false,
        Piece::Open | Piece::Inside | Piece::Close | Piece::Mark(_) => false,
        Piece::Declared(_) | Piece::Defined(_) => false,
    }
}

fn is_int(n: &i64, piece: &Piece) -> bool
    ensures { result ≡ is_alike (word (an_int n.now)) (plain_piece piece.now) }
{
    match *piece {
        Piece::Number(_) => false,
        Piece::Int(m) => same_int(n, m),
        Piece::Name(_) | Piece::Assigned(_) | Piece::Row(_) | Piece::Open => false,
        Piece::Inside | Piece::Close | Piece::Mark(_) | Piece::Declared(_) => false,
        Piece::Defined(_) => false,
    }
}

fn is_name(x: &Text, piece: &Piece) -> bool
    ensures { result ≡ is_alike (word (a_text x.now)) (plain_piece piece.now) }
{
    match *piece {
        Piece::Number(_) | Piece::Int(_) => false,
        Piece::Name(y) => is_same(x, y),
        Piece::Assigned(_) | Piece::Row(_) | Piece::Open | Piece::Inside => false,
        Piece::Close | Piece::Mark(_) | Piece::Declared(_) | Piece::Defined(_) => false,
    }
}

fn is_assigned(x: &Text, piece: &Piece) -> bool
    ensures { result ≡ is_alike (word (assigned x.now)) (plain_piece piece.now) }
{
    match *piece {
        Piece::Number(_) | Piece::Int(_) | Piece::Name(_) => false,
        Piece::Assigned(y) => is_same(x, y),
        Piece::Row(_) | Piece::Open | Piece::Inside | Piece::Close => false,
        Piece::Mark(_) | Piece::Declared(_) | Piece::Defined(_) => false,
    }
}

fn is_row(items: &[Stmt], piece: &Piece) -> bool
    ensures { result ≡ is_alike (word (a_row (plain_stmts items.now))) (plain_piece piece.now) }
{
    match *piece {
        Piece::Number(_) | Piece::Int(_) | Piece::Name(_) | Piece::Assigned(_) => false,
        Piece::Row(others) => row_fits(items, others),
        Piece::Open | Piece::Inside | Piece::Close | Piece::Mark(_) => false,
        Piece::Declared(_) | Piece::Defined(_) => false,
    }
}

fn is_open(piece: &Piece) -> bool
    ensures { result ≡ is_alike open_part (plain_piece piece.now) }
{
    match *piece {
        Piece::Number(_) | Piece::Int(_) | Piece::Name(_) | Piece::Assigned(_) => false,
        Piece::Row(_) => false,
        Piece::Open => true,
        Piece::Inside | Piece::Close | Piece::Mark(_) | Piece::Declared(_) => false,
        Piece::Defined(_) => false,
    }
}

fn is_inside(piece: &Piece) -> bool
    ensures { result ≡ is_alike inside (plain_piece piece.now) }
{
    match *piece {
        Piece::Number(_) | Piece::Int(_) | Piece::Name(_) | Piece::Assigned(_) => false,
        Piece::Row(_) | Piece::Open => false,
        Piece::Inside => true,
        Piece::Close | Piece::Mark(_) | Piece::Declared(_) | Piece::Defined(_) => false,
    }
}

fn is_close(piece: &Piece) -> bool
    ensures { result ≡ is_alike close (plain_piece piece.now) }
{
    match *piece {
        Piece::Number(_) | Piece::Int(_) | Piece::Name(_) | Piece::Assigned(_) => false,
        Piece::Row(_) | Piece::Open | Piece::Inside => false,
        Piece::Close => true,
        Piece::Mark(_) | Piece::Declared(_) | Piece::Defined(_) => false,
    }
}

fn same_int(m: &i64, n: &i64) -> bool
    ensures { result ≡ same_int m.now n.now }
{
    *m == *n
}

/// Whether the old row marks a line, or the new one is the same.
fn row_fits(items: &[Stmt], others: &[Stmt]) -> bool
    ensures { result ≡ fits_stmts (plain_stmts items.now) (plain_stmts others.now) }
{
    either(have_marks(items), are_silent(items, others))
}

fn either(one: bool, other: bool) -> bool
    ensures { result ≡ (one || other) }
{
    one || other
}
