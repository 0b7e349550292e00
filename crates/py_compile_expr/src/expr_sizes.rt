// How many instructions the code of an expression takes.

ghost use Rattle.std.specs.Prelude.{◌≡◌, ◌+◌, IfOk};
ghost use Rattle.std.specs.Option.{option_map};
ghost use Rattle.py_syntax.specs.View.{plain_expr, plain_exprs, plain_pairs, plain_links, plain_fragments, plain_parts, opt_of};
ghost use Rattle.py_compile_expr.specs.Expressions.{expr_size, each_size, pairs_size, links_size, opt_size, fragments_size, parts_size};

use crate::cells::sum;
use py_syntax::{Expr, FormatPart, Fragment, Link, Pair};
use py_text::NoMemory;

/// The size of two parts and one instruction.
pub(crate) fn both(left: u32, right: u32) -> Result<u32, NoMemory>
    ensures { IfOk result (λ n. n ≡ left + right + 1) }
{
    let parts = sum(left, right)?;
    sum(parts, 1)
}

#[cycle(sizes)]
pub fn expr_size(e: &Expr) -> Result<u32, NoMemory>
    ensures { IfOk result (λ n. n ≡ expr_size (plain_expr e.now)) }
{
    match e {
        Expr::Name(_) => Ok(1),
        Expr::Int(_) => Ok(1),
        Expr::Str(_) => Ok(1),
        Expr::FStr(pieces) => sum(fragments_size(pieces)?, 1),
        Expr::None => Ok(1),
        Expr::Bool(_) => Ok(1),
        Expr::Tuple { items, comma: _ } => sum(each_size(items)?, 1),
        Expr::List { items, comma: _ } => sum(each_size(items)?, 1),
        Expr::Dict { items, comma: _ } => sum(pairs_size(items)?, 1),
        Expr::Paren(inner) => expr_size(inner),
        Expr::Not(operand) => sum(expr_size(operand)?, 1),
        Expr::And(left, right) => past(expr_size(left)?, right),
        Expr::Or(left, right) => past(expr_size(left)?, right),
        Expr::Unary(_, operand) => sum(expr_size(operand)?, 2),
        Expr::Binary(_, left, right) => past(expr_size(left)?, right),
        Expr::Compare(first, links) => sum(expr_size(first)?, links_size(links)?),
        Expr::Cond { body, test, orelse } => past(past(expr_size(test)?, body)?, orelse),
        Expr::Call {
            callee,
            args,
            comma: _,
        } => both(expr_size(callee)?, each_size(args)?),
        Expr::Index(of, at) => past(expr_size(of)?, at),
        Expr::Slice { of, from, to } => {
            let first = sum(expr_size(of)?, bound_size(from)?)?;
            both(first, bound_size(to)?)
        }
        Expr::Attr(of, _) => sum(expr_size(of)?, 1),
    }
}

/// A size or a place with one instruction and an expression after it.
#[cycle(sizes)]
pub(crate) fn past(at: u32, e: &Expr) -> Result<u32, NoMemory>
    ensures { IfOk result (λ n. n ≡ at + 1 + expr_size (plain_expr e.now)) }
{
    both(at, expr_size(e)?)
}

#[cycle(sizes)]
fn bound_size(e: &Option<Box<Expr>>) -> Result<u32, NoMemory>
    ensures { IfOk result (λ n.
        n ≡ opt_size (opt_of (option_map (λ b. plain_expr b.value) e.now))) }
{
    match e {
        None => Ok(0),
        Some(e) => expr_size(e),
    }
}

#[cycle(sizes)]
pub fn each_size(items: &[Expr]) -> Result<u32, NoMemory>
    ensures { IfOk result (λ n. n ≡ each_size (plain_exprs items.now)) }
{
    let mut size = 0;
    for e in items {
        size = sum(size, expr_size(e)?)?;
    }
    Ok(size)
}

#[cycle(sizes)]
fn pairs_size(items: &[Pair]) -> Result<u32, NoMemory>
    ensures { IfOk result (λ n. n ≡ pairs_size (plain_pairs items.now)) }
{
    let mut size = 0;
    for pair in items {
        let one = both(expr_size(&pair.key)?, expr_size(&pair.value)?)?;
        size = sum(size, one)?;
    }
    Ok(size)
}

#[cycle(sizes)]
pub(crate) fn links_size(items: &[Link]) -> Result<u32, NoMemory>
    ensures { IfOk result (λ n. n ≡ links_size (plain_links items.now)) }
{
    if items.is_empty() {
        return Ok(2);
    }
    let mut size = 0;
    for link in items {
        size = both(size, expr_size(&link.right)?)?;
    }
    Ok(size)
}

#[cycle(sizes)]
fn fragments_size(items: &[Fragment]) -> Result<u32, NoMemory>
    ensures { IfOk result (λ n. n ≡ fragments_size (plain_fragments items.now)) }
{
    let mut size = 0;
    for fragment in items {
        match fragment {
            Fragment::Plain(_) => size = sum(size, 2)?,
            Fragment::Format(parts) => size = sum(size, parts_size(parts)?)?,
        }
    }
    Ok(size)
}

#[cycle(sizes)]
fn parts_size(items: &[FormatPart]) -> Result<u32, NoMemory>
    ensures { IfOk result (λ n. n ≡ parts_size (plain_parts items.now)) }
{
    let mut size = 0;
    for part in items {
        match part {
            FormatPart::Chars(_) => size = sum(size, 2)?,
            FormatPart::Field(e) => size = sum(sum(size, expr_size(e)?)?, 2)?,
        }
    }
    Ok(size)
}
