// Copies of expressions, with the change of the mutant that a search reaches in them.

ghost use Rattle.std.specs.Prelude.{IfOk, OnOk};
ghost use Rattle.py_syntax.specs.View.{plain_expr, plain_exprs, plain_pairs, plain_links};
ghost use Rattle.py_syntax.specs.View.{plain_fragments, plain_parts};
ghost use Rattle.py_changes.specs.Mutants.{where_operands, expr_mutants, exprs_mutants};
ghost use Rattle.py_changes.specs.Mutants.{pairs_mutants, links_mutants, opt_mutants};
ghost use Rattle.py_changes.specs.Mutants.{fragments_mutants, parts_mutants};
ghost use Rattle.cov_places.specs.Bounds.{plain_bound};
ghost use Rattle.cov_mutants_expr.specs.Search.{Copied};
ghost use Rattle.cov_mutants_expr.specs.SearchView.{seen};
ghost use Rattle.cov_places.specs.ItemRows.{put_fragment, put_part};
ghost use Rattle.cov_mutants_expr.specs.Rows.{Stepped};

use crate::forms;
use crate::nodes::{
    add_chars, add_expr, add_field, add_format, add_link, add_pair, add_plain, boxed, name, string,
};
use crate::search::Search;
use py_syntax::{Comparison, Expr, FormatPart, Fragment, Link, Pair};
use py_text::NoMemory;
use std::alloc::Global;

/// A copy of an expression.
#[cycle(copy)]
pub fn expr(alloc: Global, e: &Expr, at: &mut Search) -> Result<Box<Expr>, NoMemory>
    ensures { IfOk result (λ b. Copied expr_mutants (seen at.old) (seen at.new)
        (plain_expr e.now) (plain_expr b.value)) }
{
    match e {
        Expr::Name(x) => name(alloc, x),
        Expr::Int(n) => boxed(alloc, Expr::Int(at.number(*n))),
        Expr::Str(pieces) => string(alloc, pieces),
        Expr::FStr(pieces) => forms::fstr(alloc, fragments(alloc, pieces, at)),
        Expr::None => boxed(alloc, Expr::None),
        Expr::Bool(b) => boxed(alloc, Expr::Bool(at.truth(*b))),
        Expr::Tuple { items, comma } => forms::tuple(alloc, exprs(alloc, items, at), *comma),
        Expr::List { items, comma } => forms::list(alloc, exprs(alloc, items, at), *comma),
        Expr::Dict { items, comma } => forms::dict(alloc, pairs(alloc, items, at), *comma),
        Expr::Paren(inner) => forms::paren(alloc, expr(alloc, inner, at)),
        Expr::Not(operand) => forms::not(alloc, expr(alloc, operand, at)),
        Expr::And(left, right) => {
            let left = expr(alloc, left, at)?;
            forms::and(alloc, left, expr(alloc, right, at))
        }
        Expr::Or(left, right) => {
            let left = expr(alloc, left, at)?;
            forms::or(alloc, left, expr(alloc, right, at))
        }
        Expr::Unary(sign, operand) => forms::unary(alloc, *sign, expr(alloc, operand, at)),
        Expr::Binary(op, left, right) => {
            let left = expr(alloc, left, at)?;
            let op = at.operator(*op);
            forms::binary(alloc, op, left, expr(alloc, right, at))
        }
        Expr::Compare(first, rest) => {
            let first = expr(alloc, first, at)?;
            forms::compare(alloc, first, links(alloc, rest, at))
        }
        Expr::Cond { body, test, orelse } => {
            let body = expr(alloc, body, at)?;
            let test = expr(alloc, test, at)?;
            forms::cond(alloc, body, test, expr(alloc, orelse, at))
        }
        Expr::Call {
            callee,
            args,
            comma,
        } => {
            let callee = expr(alloc, callee, at)?;
            forms::call(alloc, callee, exprs(alloc, args, at), *comma)
        }
        Expr::Index(of, place) => {
            let of = expr(alloc, of, at)?;
            forms::index(alloc, of, expr(alloc, place, at))
        }
        Expr::Slice { of, from, to } => {
            let of = expr(alloc, of, at)?;
            let from = bound(alloc, from, at)?;
            forms::slice(alloc, of, from, bound(alloc, to, at))
        }
        Expr::Attr(of, x) => forms::attr(alloc, expr(alloc, of, at), x),
    }
}

#[cycle(copy)]
fn bound(
    alloc: Global,
    e: &Option<Box<Expr>>,
    at: &mut Search,
) -> Result<Option<Box<Expr>>, NoMemory>
    ensures { IfOk result (λ o. Copied opt_mutants (seen at.old) (seen at.new)
        (plain_bound e.now) (plain_bound o)) }
{
    match e {
        None => Ok(None),
        Some(e) => Ok(Some(expr(alloc, e, at)?)),
    }
}

/// Copies of expressions in a row.
#[cycle(copy)]
pub fn exprs(alloc: Global, items: &[Expr], at: &mut Search) -> Result<Vec<Expr>, NoMemory>
    ensures { IfOk result (λ out. Copied exprs_mutants (seen at.old) (seen at.new)
        (plain_exprs items.now) (plain_exprs out.items)) }
{
    let mut out = Vec::new(alloc);
    for e in items {
        add_expr(&mut out, expr(alloc, e, at))?;
    }
    Ok(out)
}

#[cycle(copy)]
fn pairs(alloc: Global, items: &[Pair], at: &mut Search) -> Result<Vec<Pair>, NoMemory>
    ensures { IfOk result (λ out. Copied pairs_mutants (seen at.old) (seen at.new)
        (plain_pairs items.now) (plain_pairs out.items)) }
{
    let mut out = Vec::new(alloc);
    for pair in items {
        let key = expr(alloc, &pair.key, at)?;
        add_pair(&mut out, key, expr(alloc, &pair.value, at))?;
    }
    Ok(out)
}

#[cycle(copy)]
fn links(alloc: Global, items: &[Link], at: &mut Search) -> Result<Vec<Link>, NoMemory>
    ensures { IfOk result (λ out. Copied links_mutants (seen at.old) (seen at.new)
        (plain_links items.now) (plain_links out.items)) }
{
    let mut out = Vec::new(alloc);
    for link in items {
        let op = at.comparison(link.op);
        add_link(&mut out, op, compared(alloc, link.op, &link.right, at))?;
    }
    Ok(out)
}

/// The right operand of a comparison. Nothing changes in that of `is`.
#[cycle(copy)]
fn compared(alloc: Global, op: Comparison, e: &Expr, at: &mut Search) -> Result<Box<Expr>, NoMemory>
    ensures { IfOk result (λ b. Copied (λ x. where_operands op (expr_mutants x)) (seen at.old)
        (seen at.new) (plain_expr e.now) (plain_expr b.value)) }
{
    match op {
        Comparison::Op(_) => expr(alloc, e, at),
        Comparison::Is | Comparison::IsNot => {
            let mut ended = Search::ended();
            expr(alloc, e, &mut ended)
        }
    }
}

#[cycle(copy)]
fn fragments(alloc: Global, items: &[Fragment], at: &mut Search) -> Result<Vec<Fragment>, NoMemory>
    ensures { IfOk result (λ out. Copied fragments_mutants (seen at.old) (seen at.new)
        (plain_fragments items.now) (plain_fragments out.items)) }
{
    let mut out = Vec::new(alloc);
    for piece in items {
        fragment(alloc, piece, &mut out, at)?;
    }
    Ok(out)
}

/// One more piece of an f-string.
#[cycle(copy)]
fn fragment(
    alloc: Global,
    piece: &Fragment,
    out: &mut Vec<Fragment>,
    at: &mut Search,
) -> Result<(), NoMemory>
    ensures { OnOk result (Stepped put_fragment fragments_mutants (seen at.old) (seen at.new)
        out.old.items out.new.items (put_fragment piece.now)) }
{
    match piece {
        Fragment::Plain(x) => add_plain(out, x),
        Fragment::Format(items) => add_format(out, parts(alloc, items, at)),
    }
}

#[cycle(copy)]
fn parts(alloc: Global, items: &[FormatPart], at: &mut Search) -> Result<Vec<FormatPart>, NoMemory>
    ensures { IfOk result (λ out. Copied parts_mutants (seen at.old) (seen at.new)
        (plain_parts items.now) (plain_parts out.items)) }
{
    let mut out = Vec::new(alloc);
    for item in items {
        part(alloc, item, &mut out, at)?;
    }
    Ok(out)
}

/// One more part of a piece.
#[cycle(copy)]
fn part(
    alloc: Global,
    item: &FormatPart,
    out: &mut Vec<FormatPart>,
    at: &mut Search,
) -> Result<(), NoMemory>
    ensures { OnOk result (Stepped put_part parts_mutants (seen at.old) (seen at.new)
        out.old.items out.new.items (put_part item.now)) }
{
    match item {
        FormatPart::Chars(x) => add_chars(out, x),
        FormatPart::Field(e) => add_field(out, expr(alloc, e, at)),
    }
}
