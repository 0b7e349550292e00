// The names that occur in expressions and targets.

ghost use Rattle.std.specs.Prelude.{◌≡◌, ◌++◌, OnOk};
ghost use Rattle.py_syntax.specs.View.{plain_expr, plain_exprs, plain_pairs, plain_links};
ghost use Rattle.py_syntax.specs.View.{plain_fragments, plain_parts};
ghost use Rattle.py_scope.specs.Occurrences.{in_expr, in_exprs, in_pairs, in_links};
ghost use Rattle.py_scope.specs.Occurrences.{in_fragments, in_parts, in_option};
ghost use Rattle.py_scope.specs.Parts.{in_end};
ghost use Rattle.std.specs.Option.{option_map};

use crate::occurrence::{Occurrence, push_use};
use py_syntax::{Expr, FormatPart, Fragment, Link, Pair};
use py_text::NoMemory;

#[cycle(expr)]
pub(crate) fn expr(out: &mut Vec<Occurrence>, e: &Expr) -> Result<(), NoMemory>
    ensures { OnOk result (out.new.items ≡ out.old.items ++ in_expr (plain_expr e.now)) }
{
    match e {
        Expr::Name(x) => push_use(out, x),
        Expr::Int(_) => Ok(()),
        Expr::Str(_) => Ok(()),
        Expr::FStr(pieces) => fragments(out, pieces),
        Expr::None => Ok(()),
        Expr::Bool(_) => Ok(()),
        Expr::Tuple { items, comma: _ } => exprs(out, items),
        Expr::List { items, comma: _ } => exprs(out, items),
        Expr::Dict { items, comma: _ } => pairs(out, items),
        Expr::Paren(inner) => expr(out, inner),
        Expr::Not(inner) => expr(out, inner),
        Expr::And(left, right) => {
            expr(out, left)?;
            expr(out, right)
        }
        Expr::Or(left, right) => {
            expr(out, left)?;
            expr(out, right)
        }
        Expr::Unary(_, inner) => expr(out, inner),
        Expr::Binary(_, left, right) => {
            expr(out, left)?;
            expr(out, right)
        }
        Expr::Compare(first, rest) => {
            expr(out, first)?;
            links(out, rest)
        }
        Expr::Cond {
            body: value,
            test,
            orelse,
        } => {
            expr(out, value)?;
            expr(out, test)?;
            expr(out, orelse)
        }
        Expr::Call {
            callee,
            args,
            comma: _,
        } => {
            expr(out, callee)?;
            exprs(out, args)
        }
        Expr::Index(of, at) => {
            expr(out, of)?;
            expr(out, at)
        }
        Expr::Slice { of, from, to } => {
            expr(out, of)?;
            bound(out, from)?;
            bound(out, to)
        }
        Expr::Attr(of, _) => expr(out, of),
    }
}

#[cycle(expr)]
fn bound(out: &mut Vec<Occurrence>, e: &Option<Box<Expr>>) -> Result<(), NoMemory>
    ensures { OnOk result (out.new.items ≡ out.old.items ++ in_end e.now) }
{
    match e {
        None => Ok(()),
        Some(e) => expr(out, e),
    }
}

#[cycle(expr)]
pub(crate) fn exprs(out: &mut Vec<Occurrence>, items: &[Expr]) -> Result<(), NoMemory>
    ensures { OnOk result (out.new.items ≡ out.old.items ++ in_exprs (plain_exprs items.now)) }
{
    for e in items {
        expr(out, e)?;
    }
    Ok(())
}

#[cycle(expr)]
fn pairs(out: &mut Vec<Occurrence>, items: &[Pair]) -> Result<(), NoMemory>
    ensures { OnOk result (out.new.items ≡ out.old.items ++ in_pairs (plain_pairs items.now)) }
{
    for pair in items {
        expr(out, &pair.key)?;
        expr(out, &pair.value)?;
    }
    Ok(())
}

#[cycle(expr)]
fn links(out: &mut Vec<Occurrence>, items: &[Link]) -> Result<(), NoMemory>
    ensures { OnOk result (out.new.items ≡ out.old.items ++ in_links (plain_links items.now)) }
{
    for link in items {
        expr(out, &link.right)?;
    }
    Ok(())
}

#[cycle(expr)]
fn fragments(out: &mut Vec<Occurrence>, items: &[Fragment]) -> Result<(), NoMemory>
    ensures { OnOk result (out.new.items ≡ out.old.items
        ++ in_fragments (plain_fragments items.now)) }
{
    for fragment in items {
        match fragment {
            Fragment::Plain(_) => (),
            Fragment::Format(pieces) => parts(out, pieces)?,
        }
    }
    Ok(())
}

#[cycle(expr)]
fn parts(out: &mut Vec<Occurrence>, items: &[FormatPart]) -> Result<(), NoMemory>
    ensures { OnOk result (out.new.items ≡ out.old.items ++ in_parts (plain_parts items.now)) }
{
    for part in items {
        match part {
            FormatPart::Chars(_) => (),
            FormatPart::Field(e) => expr(out, e)?,
        }
    }
    Ok(())
}

pub(crate) fn option(out: &mut Vec<Occurrence>, e: &Option<Expr>) -> Result<(), NoMemory>
    ensures { OnOk result (out.new.items ≡ out.old.items
        ++ in_option (option_map plain_expr e.now)) }
{
    match e {
        None => Ok(()),
        Some(e) => expr(out, e),
    }
}
