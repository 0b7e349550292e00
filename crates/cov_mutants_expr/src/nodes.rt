// Nodes of expressions from their parts, and rows of these.

ghost use Rattle.std.specs.Prelude.{◌≡◌, IfOk, OnOk};
ghost use Rattle.std.specs.Result.{IsOkAnd};
ghost use Rattle.py_syntax.specs.Tree.{str, name, exprs, pair, link, plain, format, text, field};
ghost use Rattle.py_syntax.specs.View.{plain_expr, plain_parts};
ghost use Rattle.cov_places.specs.ItemRows.{put_expr, put_pair, put_link};
ghost use Rattle.cov_mutants_expr.specs.Rows.{Added};
ghost use Rattle.cov_places.specs.ItemRows.{put_fragment, put_part};

use py_syntax::{Comparison, Expr, FormatPart, Fragment, Link, Pair};
use py_text::{NoMemory, Text};
use std::alloc::Global;

pub(crate) fn boxed(alloc: Global, e: Expr) -> Result<Box<Expr>, NoMemory>
    ensures { IfOk result (λ b. b.value ≡ e) }
{
    Ok(Box::new(alloc, e)?)
}

pub(crate) fn name(alloc: Global, x: &Text) -> Result<Box<Expr>, NoMemory>
    ensures { IfOk result (λ b. plain_expr b.value ≡ name x.now) }
{
    let x = x.copy()?;
    boxed(alloc, Expr::Name(x))
}

pub(crate) fn string(alloc: Global, pieces: &[Text]) -> Result<Box<Expr>, NoMemory>
    ensures { IfOk result (λ b. plain_expr b.value ≡ str pieces.now) }
{
    let pieces = texts(alloc, pieces)?;
    boxed(alloc, Expr::Str(pieces))
}

/// The same texts.
pub fn texts(alloc: Global, items: &[Text]) -> Result<Vec<Text>, NoMemory>
    ensures { IfOk result (λ out. out.items ≡ items.now) }
{
    let mut out = Vec::with_capacity(alloc, items.len())?;
    for x in items {
        let x = x.copy()?;
        out.push(x)?;
    }
    Ok(out)
}

pub(crate) fn add_expr(out: &mut Vec<Expr>, e: Result<Box<Expr>, NoMemory>) -> Result<(), NoMemory>
    ensures { OnOk result (IsOkAnd e (λ p.
        Added put_expr out.old.items out.new.items (exprs (plain_expr p.value)))) }
{
    let e = e?;
    out.push(Box::into_inner(e))?;
    Ok(())
}

pub(crate) fn add_pair(
    out: &mut Vec<Pair>,
    key: Box<Expr>,
    value: Result<Box<Expr>, NoMemory>,
) -> Result<(), NoMemory>
    ensures { OnOk result (IsOkAnd value (λ p. Added put_pair out.old.items out.new.items
        (pair (plain_expr key.value) (plain_expr p.value)))) }
{
    let value = value?;
    let pair = Pair {
        key: Box::into_inner(key),
        value: Box::into_inner(value),
    };
    out.push(pair)?;
    Ok(())
}

pub(crate) fn add_link(
    out: &mut Vec<Link>,
    op: Comparison,
    right: Result<Box<Expr>, NoMemory>,
) -> Result<(), NoMemory>
    ensures { OnOk result (IsOkAnd right (λ p. Added put_link out.old.items out.new.items
        (link op (plain_expr p.value)))) }
{
    let right = right?;
    let link = Link {
        op,
        right: Box::into_inner(right),
    };
    out.push(link)?;
    Ok(())
}

pub(crate) fn add_plain(out: &mut Vec<Fragment>, x: &Text) -> Result<(), NoMemory>
    ensures { OnOk result (Added put_fragment out.old.items out.new.items (plain x.now)) }
{
    let x = x.copy()?;
    out.push(Fragment::Plain(x))?;
    Ok(())
}

pub(crate) fn add_format(
    out: &mut Vec<Fragment>,
    parts: Result<Vec<FormatPart>, NoMemory>,
) -> Result<(), NoMemory>
    ensures { OnOk result (IsOkAnd parts (λ p. Added put_fragment out.old.items out.new.items
        (format (plain_parts p.items)))) }
{
    let parts = parts?;
    out.push(Fragment::Format(parts))?;
    Ok(())
}

pub(crate) fn add_chars(out: &mut Vec<FormatPart>, x: &Text) -> Result<(), NoMemory>
    ensures { OnOk result (Added put_part out.old.items out.new.items (text x.now)) }
{
    let x = x.copy()?;
    out.push(FormatPart::Chars(x))?;
    Ok(())
}

pub(crate) fn add_field(
    out: &mut Vec<FormatPart>,
    e: Result<Box<Expr>, NoMemory>,
) -> Result<(), NoMemory>
    ensures { OnOk result (IsOkAnd e (λ p. Added put_part out.old.items out.new.items
        (field (plain_expr p.value)))) }
{
    let e = e?;
    out.push(FormatPart::Field(Box::into_inner(e)))?;
    Ok(())
}
