// Which expressions may be assigned to.

ghost use Rattle.std.specs.Prelude.{◌≡◌};
ghost use Rattle.py_syntax.specs.Normal.{is_target, are_targets, is_place};
ghost use Rattle.py_syntax.specs.View.{plain_expr, plain_exprs};

use py_syntax::Expr;

/// Whether an expression has the form of a target.
#[cycle(targets)]
pub fn is_target(expr: &Expr) -> bool
    ensures { result ≡ is_target (plain_expr expr.now) }
{
    match expr {
        Expr::Name(_) => true,
        Expr::Int(_) => false,
        Expr::Str(_) => false,
        Expr::FStr(_) => false,
        Expr::None => false,
        Expr::Bool(_) => false,
        Expr::Tuple { items, comma: _ } => are_targets(items),
        Expr::List { items, comma: _ } => are_targets(items),
        Expr::Dict { .. } => false,
        Expr::Paren(inner) => is_target(inner),
        Expr::Not(_) => false,
        Expr::And(_, _) => false,
        Expr::Or(_, _) => false,
        Expr::Unary(_, _) => false,
        Expr::Binary(_, _, _) => false,
        Expr::Compare(_, _) => false,
        Expr::Cond { .. } => false,
        Expr::Call { .. } => false,
        Expr::Index(_, _) => true,
        Expr::Slice { .. } => false,
        Expr::Attr(_, _) => false,
    }
}

#[cycle(targets)]
fn are_targets(items: &[Expr]) -> bool
    ensures { result ≡ are_targets (plain_exprs items.now) }
{
    for item in items {
        if !is_target(item) {
            return false;
        }
    }
    true
}

/// Whether an expression has the form of the place of an augmented assignment.
pub fn is_place(expr: &Expr) -> bool
    ensures { result ≡ is_place (plain_expr expr.now) }
{
    match expr {
        Expr::Name(_) => true,
        Expr::Int(_) => false,
        Expr::Str(_) => false,
        Expr::FStr(_) => false,
        Expr::None => false,
        Expr::Bool(_) => false,
        Expr::Tuple { .. } => false,
        Expr::List { .. } => false,
        Expr::Dict { .. } => false,
        Expr::Paren(_) => false,
        Expr::Not(_) => false,
        Expr::And(_, _) => false,
        Expr::Or(_, _) => false,
        Expr::Unary(_, _) => false,
        Expr::Binary(_, _, _) => false,
        Expr::Compare(_, _) => false,
        Expr::Cond { .. } => false,
        Expr::Call { .. } => false,
        Expr::Index(_, _) => true,
        Expr::Slice { .. } => false,
        Expr::Attr(_, _) => false,
    }
}
