//! The pieces of a text that are compared, and those that stand beside them.
ghost use Rattle.std.specs.Prelude.{◌≡◌};
ghost use Rattle.cov_pieces.specs.Views.{plain_piece, is_mark};

use py_syntax::Stmt;
use py_text::Text;

/// A piece of a text. The first five are words, which are compared.
#[derive(Clone, Copy)]
pub enum Piece<'a> {
    Number(u32),
    Int(&'a i64),
    Name(&'a Text),
    /// A name that is assigned.
    Assigned(&'a Text),
    /// A row of statements that may mark nothing.
    Row(&'a [Stmt]),
    Open,
    /// Behind the words of a part.
    Inside,
    Close,
    Mark(u32),
    /// A name that is declared `global`.
    Declared(&'a Text),
    Defined(Function<'a>),
}

/// A function with the line of its `def`.
#[derive(Clone, Copy)]
pub struct Function<'a> {
    pub line: u32,
    pub name: &'a Text,
    pub params: &'a [Text],
    pub body: &'a [Stmt],
}

pub(crate) fn is_mark(piece: &Piece) -> bool
    ensures { result ≡ is_mark (plain_piece piece.now) }
{
    match *piece {
        Piece::Number(_) | Piece::Int(_) | Piece::Name(_) | Piece::Assigned(_) => false,
        Piece::Row(_) | Piece::Open | Piece::Inside | Piece::Close => false,
        Piece::Mark(_) => true,
        Piece::Declared(_) | Piece::Defined(_) => false,
    }
}
