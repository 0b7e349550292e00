// Copies of patterns, in which nothing changes.

ghost use Rattle.std.specs.Prelude.{◌≡◌, IfOk, OnOk};
ghost use Rattle.std.specs.Result.{IsOkAnd};
ghost use Rattle.py_syntax.specs.Tree.{literal, capture, member, sequence, p_or, p_as, p_paren};
ghost use Rattle.py_syntax.specs.Tree.{patterns};
ghost use Rattle.py_syntax.specs.View.{plain_constant, plain_pattern, plain_patterns};
ghost use Rattle.cov_mutants_expr.specs.Rows.{Added};
ghost use Rattle.cov_mutants_expr.specs.Rows.{put_pattern};

use crate::nodes::texts;
use py_syntax::{Brackets, Constant, Pattern};
use py_text::{NoMemory, Text};
use std::alloc::Global;

/// A copy of a pattern.
#[cycle(pattern)]
pub fn pattern(alloc: Global, p: &Pattern) -> Result<Box<Pattern>, NoMemory>
    ensures { IfOk result (λ b. plain_pattern b.value ≡ plain_pattern p.now) }
{
    match p {
        Pattern::Literal { minus, value } => literal(alloc, *minus, value),
        Pattern::Capture(x) => capture(alloc, x),
        Pattern::Wild => boxed(alloc, Pattern::Wild),
        Pattern::Member(of, x) => member(alloc, of, x),
        Pattern::Sequence {
            brackets,
            items,
            comma,
        } => sequence(alloc, *brackets, patterns(alloc, items), *comma),
        Pattern::Or(items) => alternatives(alloc, patterns(alloc, items)),
        Pattern::As(inner, x) => bound(alloc, pattern(alloc, inner), x),
        Pattern::Paren(inner) => paren(alloc, pattern(alloc, inner)),
    }
}

#[cycle(pattern)]
fn patterns(alloc: Global, items: &[Pattern]) -> Result<Vec<Pattern>, NoMemory>
    ensures { IfOk result (λ out. plain_patterns out.items ≡ plain_patterns items.now) }
{
    let mut out = Vec::new(alloc);
    for p in items {
        add_pattern(&mut out, pattern(alloc, p))?;
    }
    Ok(out)
}

fn add_pattern(out: &mut Vec<Pattern>, p: Result<Box<Pattern>, NoMemory>) -> Result<(), NoMemory>
    ensures { OnOk result (IsOkAnd p (λ b.
        Added put_pattern out.old.items out.new.items (patterns (plain_pattern b.value)))) }
{
    let p = p?;
    out.push(Box::into_inner(p))?;
    Ok(())
}

fn boxed(alloc: Global, p: Pattern) -> Result<Box<Pattern>, NoMemory>
    ensures { IfOk result (λ b. b.value ≡ p) }
{
    Ok(Box::new(alloc, p)?)
}

fn constant(alloc: Global, c: &Constant) -> Result<Constant, NoMemory>
    ensures { IfOk result (λ d. plain_constant d ≡ plain_constant c.now) }
{
    match c {
        Constant::Int(n) => Ok(Constant::Int(*n)),
        Constant::Str(pieces) => Ok(Constant::Str(texts(alloc, pieces)?)),
        Constant::None => Ok(Constant::None),
        Constant::Bool(b) => Ok(Constant::Bool(*b)),
    }
}

fn literal(alloc: Global, minus: bool, value: &Constant) -> Result<Box<Pattern>, NoMemory>
    ensures { IfOk result (λ b. plain_pattern b.value ≡ literal minus (plain_constant value.now)) }
{
    let value = constant(alloc, value)?;
    boxed(alloc, Pattern::Literal { minus, value })
}

fn capture(alloc: Global, x: &Text) -> Result<Box<Pattern>, NoMemory>
    ensures { IfOk result (λ b. plain_pattern b.value ≡ capture x.now) }
{
    let x = x.copy()?;
    boxed(alloc, Pattern::Capture(x))
}

fn member(alloc: Global, of: &Text, x: &Text) -> Result<Box<Pattern>, NoMemory>
    ensures { IfOk result (λ b. plain_pattern b.value ≡ member of.now x.now) }
{
    let of = of.copy()?;
    let x = x.copy()?;
    boxed(alloc, Pattern::Member(of, x))
}

fn sequence(
    alloc: Global,
    brackets: Brackets,
    items: Result<Vec<Pattern>, NoMemory>,
    comma: bool,
) -> Result<Box<Pattern>, NoMemory>
    ensures { IfOk result (λ b. IsOkAnd items (λ p.
        plain_pattern b.value ≡ sequence brackets (plain_patterns p.items) comma)) }
{
    let items = items?;
    boxed(
        alloc,
        Pattern::Sequence {
            brackets,
            items,
            comma,
        },
    )
}

fn alternatives(
    alloc: Global,
    items: Result<Vec<Pattern>, NoMemory>,
) -> Result<Box<Pattern>, NoMemory>
    ensures { IfOk result (λ b. IsOkAnd items (λ p.
        plain_pattern b.value ≡ p_or (plain_patterns p.items))) }
{
    let items = items?;
    boxed(alloc, Pattern::Or(items))
}

fn bound(
    alloc: Global,
    inner: Result<Box<Pattern>, NoMemory>,
    x: &Text,
) -> Result<Box<Pattern>, NoMemory>
    ensures { IfOk result (λ b. IsOkAnd inner (λ p.
        plain_pattern b.value ≡ p_as (plain_pattern p.value) x.now)) }
{
    let x = x.copy()?;
    let inner = inner?;
    boxed(alloc, Pattern::As(inner, x))
}

fn paren(alloc: Global, inner: Result<Box<Pattern>, NoMemory>) -> Result<Box<Pattern>, NoMemory>
    ensures { IfOk result (λ b. IsOkAnd inner (λ p.
        plain_pattern b.value ≡ p_paren (plain_pattern p.value))) }
{
    let inner = inner?;
    boxed(alloc, Pattern::Paren(inner))
}
