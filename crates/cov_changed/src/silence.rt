//! What marks nothing, and whether it is the same: `global` statements, and docstrings.
ghost use Rattle.std.specs.Prelude.{◌≡◌, option_copied};
ghost use Rattle.py_syntax.specs.View.{plain_expr, plain_stmts, plain_kind};
ghost use Rattle.py_changes.specs.Changed.{same_silent};
ghost use Rattle.cov_changed.specs.Silence.{declared_by, string_in, docstring_in, are_both, alike, lead_alike};

use crate::texts::{are_same, hold};
use py_syntax::{Expr, Stmt, StmtKind};
use py_text::Text;

/// The names of a `global` statement.
fn declared(kind: &StmtKind) -> Option<&[Text]>
    ensures { option_copied result ≡ declared_by (plain_kind kind.now) }
{
    match *kind {
        StmtKind::Expr(_) | StmtKind::Assign { .. } | StmtKind::AugAssign { .. } => None,
        StmtKind::Pass | StmtKind::Break | StmtKind::Continue => None,
        StmtKind::Return(_) | StmtKind::Raise(_) | StmtKind::Assert(_, _) => None,
        StmtKind::Global(ref names) => Some(names),
        StmtKind::Import(_) | StmtKind::From(_, _) => None,
        StmtKind::If { .. } | StmtKind::While { .. } | StmtKind::For { .. } => None,
        StmtKind::Try { .. } | StmtKind::Def { .. } | StmtKind::Match { .. } => None,
    }
}

/// The pieces of plain strings without parentheses.
fn string(e: &Expr) -> Option<&[Text]>
    ensures { option_copied result ≡ string_in (plain_expr e.now) }
{
    match *e {
        Expr::Str(ref pieces) => Some(pieces),
        Expr::Name(_)
        | Expr::Int(_)
        | Expr::FStr(_)
        | Expr::None
        | Expr::Bool(_)
        | Expr::Tuple { .. }
        | Expr::List { .. }
        | Expr::Dict { .. }
        | Expr::Paren(_)
        | Expr::Not(_)
        | Expr::And(_, _)
        | Expr::Or(_, _)
        | Expr::Unary(_, _)
        | Expr::Binary(_, _, _)
        | Expr::Compare(_, _)
        | Expr::Cond { .. }
        | Expr::Call { .. }
        | Expr::Index(_, _)
        | Expr::Slice { .. }
        | Expr::Attr(_, _) => None,
    }
}

/// The pieces of a statement that is a docstring where it leads a body.
fn docstring(kind: &StmtKind) -> Option<&[Text]>
    ensures { option_copied result ≡ docstring_in (plain_kind kind.now) }
{
    match *kind {
        StmtKind::Expr(ref e) => string(e),
        StmtKind::Assign { .. } | StmtKind::AugAssign { .. } => None,
        StmtKind::Pass | StmtKind::Break | StmtKind::Continue => None,
        StmtKind::Return(_) | StmtKind::Raise(_) | StmtKind::Assert(_, _) => None,
        StmtKind::Global(_) | StmtKind::Import(_) | StmtKind::From(_, _) => None,
        StmtKind::If { .. } | StmtKind::While { .. } | StmtKind::For { .. } => None,
        StmtKind::Try { .. } | StmtKind::Def { .. } | StmtKind::Match { .. } => None,
    }
}

/// Whether both are there, on the same line, with the same texts.
fn both(line: u32, xs: Option<&[Text]>, other: u32, ys: Option<&[Text]>) -> bool
    ensures { result ≡ are_both line (option_copied xs.entry) other (option_copied ys.entry) }
{
    match xs {
        None => false,
        Some(xs) => match ys {
            None => false,
            Some(ys) => line == other && are_same(xs, ys),
        },
    }
}

/// Whether both are there and the same, or both are missing.
fn same_or_missing(line: u32, xs: Option<&[Text]>, other: u32, ys: Option<&[Text]>) -> bool
    ensures { result ≡ alike line (option_copied xs.entry) other (option_copied ys.entry) }
{
    match xs {
        None => ys.is_none(),
        Some(xs) => match ys {
            None => false,
            Some(ys) => line == other && are_same(xs, ys),
        },
    }
}

/// Whether two statements declare the same names `global`, on the same line.
fn declare_same(s: &Stmt, t: &Stmt) -> bool
    ensures { result ≡ are_both s.now.first (declared_by (plain_kind s.now.kind))
        t.now.first (declared_by (plain_kind t.now.kind)) }
{
    both(s.first, declared(&s.kind), t.first, declared(&t.kind))
}

/// Whether two rows are the same `global` statements.
pub(crate) fn are_silent(a: &[Stmt], b: &[Stmt]) -> bool
    ensures { result ≡ same_silent (plain_stmts a.now) (plain_stmts b.now) }
{
    if a.len() != b.len() {
        return false;
    }
    let mut all = true;
    for i in 0..a.len() {
        all = hold(all, declare_same(&a[i], &b[i]));
    }
    all
}

/// Whether the same docstring leads both bodies, or none leads either.
pub(crate) fn same_docstrings(a: &[Stmt], b: &[Stmt]) -> bool
    ensures { result ≡ lead_alike (plain_stmts a.now) (plain_stmts b.now) }
{
    match a.split_first() {
        None => match b.split_first() {
            None => true,
            Some((t, _)) => docstring(&t.kind).is_none(),
        },
        Some((s, _)) => match b.split_first() {
            None => docstring(&s.kind).is_none(),
            Some((t, _)) => same_or_missing(
                s.first,
                docstring(&s.kind),
                t.first,
                docstring(&t.kind),
            ),
        },
    }
}
