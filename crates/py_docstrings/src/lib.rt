//! Tells whether a string leads a body as its docstring: `is_docstring`, `without_docstring`
//! (Python Language Reference, 8.7).
#![tactic(auto)]

ghost use Rattle.std.specs.Prelude.{◌≡◌, if◌then◌else◌};
ghost use Rattle.py_syntax.specs.View.{plain_expr, plain_stmts, plain_kind};
ghost use Rattle.py_syntax.specs.Functions.{is_string, is_docstring, without_docstring};

use py_syntax::{Expr, Stmt, StmtKind};

/// Whether a statement is a docstring where it leads a body.
pub fn is_docstring(kind: &StmtKind) -> bool
    ensures { result ≡ is_docstring (plain_kind kind.now) }
{
    match kind {
        StmtKind::Expr(e) => is_string(e),
        StmtKind::Assign { .. } | StmtKind::AugAssign { .. } => false,
        StmtKind::Pass | StmtKind::Break | StmtKind::Continue => false,
        StmtKind::Return(_) | StmtKind::Raise(_) | StmtKind::Assert(_, _) => false,
        StmtKind::Global(_) | StmtKind::Import(_) | StmtKind::From(_, _) => false,
        StmtKind::If { .. } | StmtKind::While { .. } | StmtKind::For { .. } => false,
        StmtKind::Try { .. } | StmtKind::Def { .. } | StmtKind::Match { .. } => false,
    }
}

/// The statements of a body without the docstring that may lead it.
pub fn without_docstring(items: &[Stmt]) -> &[Stmt]
    ensures { plain_stmts result.now ≡ without_docstring (plain_stmts items.now) }
{
    match items.split_first() {
        None => items,
        Some((s, rest)) => led(items, is_docstring(&s.kind), rest),
    }
}

fn led<'a>(items: &'a [Stmt], leads: bool, rest: &'a [Stmt]) -> &'a [Stmt]
    ensures { result.now ≡ (if leads then rest.now else items.now) }
{
    if leads { rest } else { items }
}

/// Neighbouring plain strings without parentheses.
fn is_string(e: &Expr) -> bool
    ensures { result ≡ is_string (plain_expr e.now) }
{
    match e {
        Expr::Str(_) => true,
        Expr::Name(_)
        | Expr::Int(_)
        | Expr::FStr(_)
        | Expr::None
        | Expr::Bool(_)
        | Expr::Tuple { .. }
        | Expr::List { .. }
        | Expr::Dict { .. }
        | Expr::Paren(_)
        | Expr::Not(_)
        | Expr::And(_, _)
        | Expr::Or(_, _)
        | Expr::Unary(_, _)
        | Expr::Binary(_, _, _)
        | Expr::Compare(_, _)
        | Expr::Cond { .. }
        | Expr::Call { .. }
        | Expr::Index(_, _)
        | Expr::Slice { .. }
        | Expr::Attr(_, _) => false,
    }
}
