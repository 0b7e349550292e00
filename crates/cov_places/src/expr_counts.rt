// How many mutants expressions have, after so many before them.

ghost use Rattle.std.specs.Prelude.{◌≡◌};
ghost use Rattle.py_syntax.specs.View.{plain_expr, plain_exprs, plain_pairs, plain_links};
ghost use Rattle.py_syntax.specs.View.{plain_fragments, plain_parts};
ghost use Rattle.py_changes.specs.Mutants.{comparison_change, where_operands, expr_mutants};
ghost use Rattle.py_changes.specs.Mutants.{exprs_mutants, pairs_mutants, links_mutants};
ghost use Rattle.py_changes.specs.Mutants.{opt_mutants, fragments_mutants, parts_mutants};
ghost use Rattle.cov_places.specs.Bounds.{plain_bound};
ghost use Rattle.cov_places.specs.ItemRows.{put_fragment, put_part};
ghost use Rattle.cov_places.specs.Counting.{most, one_more, counted, Counts};

use crate::place::other_comparison;
use py_operator::CmpOp;
use py_syntax::{Comparison, Expr, FormatPart, Fragment, Link, Pair};

/// One mutant more. A count stays at the greatest.
pub(crate) fn one_more(so_far: u64) -> u64
    ensures { result ≡ one_more most so_far }
{
    so_far.saturating_add(1)
}

#[cycle(count)]
pub(crate) fn expr(so_far: u64, e: &Expr) -> u64
    ensures { result ≡ counted so_far (expr_mutants (plain_expr e.now)) }
{
    match e {
        Expr::Name(_) => so_far,
        Expr::Int(_) => one_more(so_far),
        Expr::Str(_) => so_far,
        Expr::FStr(pieces) => fragments(so_far, pieces),
        Expr::None => so_far,
        Expr::Bool(_) => one_more(so_far),
        Expr::Tuple { items, comma: _ } => exprs(so_far, items),
        Expr::List { items, comma: _ } => exprs(so_far, items),
        Expr::Dict { items, comma: _ } => pairs(so_far, items),
        Expr::Paren(inner) => expr(so_far, inner),
        Expr::Not(operand) => expr(so_far, operand),
        Expr::And(left, right) => expr(expr(so_far, left), right),
        Expr::Or(left, right) => expr(expr(so_far, left), right),
        Expr::Unary(_, operand) => expr(so_far, operand),
        Expr::Binary(_, left, right) => expr(one_more(expr(so_far, left)), right),
        Expr::Compare(first, rest) => links(expr(so_far, first), rest),
        Expr::Cond { body, test, orelse } => expr(expr(expr(so_far, body), test), orelse),
        Expr::Call {
            callee,
            args,
            comma: _,
        } => exprs(expr(so_far, callee), args),
        Expr::Index(of, place) => expr(expr(so_far, of), place),
        Expr::Slice { of, from, to } => bound(bound(expr(so_far, of), from), to),
        Expr::Attr(of, _) => expr(so_far, of),
    }
}

#[cycle(count)]
fn bound(so_far: u64, e: &Option<Box<Expr>>) -> u64
    ensures { result ≡ counted so_far (opt_mutants (plain_bound e.now)) }
{
    match e {
        None => so_far,
        Some(e) => expr(so_far, e),
    }
}

#[cycle(count)]
pub(crate) fn exprs(so_far: u64, items: &[Expr]) -> u64
    ensures { result ≡ counted so_far (exprs_mutants (plain_exprs items.now)) }
{
    let mut count = so_far;
    for e in items {
        count = expr(count, e);
    }
    count
}

#[cycle(count)]
fn pairs(so_far: u64, items: &[Pair]) -> u64
    ensures { result ≡ counted so_far (pairs_mutants (plain_pairs items.now)) }
{
    let mut count = so_far;
    for pair in items {
        count = expr(expr(count, &pair.key), &pair.value);
    }
    count
}

#[cycle(count)]
fn links(so_far: u64, items: &[Link]) -> u64
    ensures { result ≡ counted so_far (links_mutants (plain_links items.now)) }
{
    let mut count = so_far;
    for link in items {
        count = operand(comparison(count, link.op), link.op, &link.right);
    }
    count
}

fn comparison(so_far: u64, op: Comparison) -> u64
    ensures { result ≡ counted so_far (comparison_change op) }
{
    match op {
        Comparison::Op(op) => compared(so_far, op),
        Comparison::Is | Comparison::IsNot => so_far,
    }
}

fn compared(so_far: u64, op: CmpOp) -> u64
    ensures { result ≡ counted so_far (comparison_change (Comparison.Op op)) }
{
    match other_comparison(op) {
        Some(_) => one_more(so_far),
        None => so_far,
    }
}

/// Of the right operand of a comparison: that of `is` has none.
#[cycle(count)]
fn operand(so_far: u64, op: Comparison, e: &Expr) -> u64
    ensures { result ≡ counted so_far (where_operands op (expr_mutants (plain_expr e.now))) }
{
    match op {
        Comparison::Op(_) => expr(so_far, e),
        Comparison::Is | Comparison::IsNot => so_far,
    }
}

#[cycle(count)]
fn fragments(so_far: u64, items: &[Fragment]) -> u64
    ensures { result ≡ counted so_far (fragments_mutants (plain_fragments items.now)) }
{
    let mut count = so_far;
    for piece in items {
        count = fragment(count, piece);
    }
    count
}

/// Of a piece of an f-string.
#[cycle(count)]
fn fragment(so_far: u64, piece: &Fragment) -> u64
    ensures { Counts fragments_mutants (put_fragment piece.now) so_far result }
{
    match piece {
        Fragment::Plain(_) => so_far,
        Fragment::Format(items) => parts(so_far, items),
    }
}

#[cycle(count)]
fn parts(so_far: u64, items: &[FormatPart]) -> u64
    ensures { result ≡ counted so_far (parts_mutants (plain_parts items.now)) }
{
    let mut count = so_far;
    for item in items {
        count = part(count, item);
    }
    count
}

/// Of a part of a piece.
#[cycle(count)]
fn part(so_far: u64, item: &FormatPart) -> u64
    ensures { Counts parts_mutants (put_part item.now) so_far result }
{
    match item {
        FormatPart::Chars(_) => so_far,
        FormatPart::Field(e) => expr(so_far, e),
    }
}
