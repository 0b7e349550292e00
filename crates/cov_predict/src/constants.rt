//! Tests and patterns of which a reader knows that they hold.
ghost use Rattle.std.specs.Prelude.{◌≡◌};
ghost use Rattle.py_syntax.specs.Constants.{is_constant};
ghost use Rattle.py_syntax.specs.LastMarks.{is_sure};
ghost use Rattle.py_syntax.specs.Patterns.{is_irrefutable, has_irrefutable};
ghost use Rattle.py_syntax.specs.View.{plain_expr, plain_pattern, plain_patterns};
ghost use Rattle.cov_predict.specs.Leaving.{plain_option};

use py_syntax::{Expr, Pattern};

/// Whether a test of a `while` always holds: `True`, or a whole number other than 0, without
/// parentheses.
pub(crate) fn is_constant(test: &Expr) -> bool
    ensures { result ≡ is_constant (plain_expr test.now) }
{
    match test {
        Expr::Name(_) => false,
        Expr::Int(n) => *n != 0,
        Expr::Str(_) | Expr::FStr(_) | Expr::None => false,
        Expr::Bool(b) => *b,
        Expr::Tuple { .. } | Expr::List { .. } | Expr::Dict { .. } => false,
        Expr::Paren(_) => false,
        Expr::Not(_)
        | Expr::And(_, _)
        | Expr::Or(_, _)
        | Expr::Unary(_, _)
        | Expr::Binary(_, _, _)
        | Expr::Compare(_, _)
        | Expr::Cond { .. }
        | Expr::Call { .. }
        | Expr::Index(_, _)
        | Expr::Slice { .. }
        | Expr::Attr(_, _) => false,
    }
}

/// Whether a case always takes its suite.
pub(crate) fn is_sure(pattern: &Pattern, guard: &Option<Expr>) -> bool
    ensures { result ≡ is_sure (plain_pattern pattern.now) (plain_option guard.now) }
{
    match guard {
        None => is_irrefutable(pattern),
        Some(_) => false,
    }
}

#[cycle(patterns)]
fn is_irrefutable(pattern: &Pattern) -> bool
    ensures { result ≡ is_irrefutable (plain_pattern pattern.now) }
{
    match pattern {
        Pattern::Literal { .. } => false,
        Pattern::Capture(_) | Pattern::Wild => true,
        Pattern::Member(_, _) | Pattern::Sequence { .. } => false,
        Pattern::Or(items) => has_irrefutable(items),
        Pattern::As(inner, _) | Pattern::Paren(inner) => is_irrefutable(inner),
    }
}

#[cycle(patterns)]
fn has_irrefutable(items: &[Pattern]) -> bool
    ensures { result ≡ has_irrefutable (plain_patterns items.now) }
{
    for pattern in items {
        if is_irrefutable(pattern) {
            return true;
        }
    }
    false
}
