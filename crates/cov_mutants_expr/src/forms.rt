// Each form of an expression from its parts, of which the last may want memory.

ghost use Rattle.std.specs.Prelude.{◌≡◌, IfOk};
ghost use Rattle.std.specs.Result.{IsOkAnd};
ghost use Rattle.py_syntax.specs.Tree.{fstr, tuple, list, dict, paren, not', and, or, unary};
ghost use Rattle.py_syntax.specs.Tree.{binary, compare, cond, call, index, slice, attr};
ghost use Rattle.py_syntax.specs.View.{plain_expr, plain_exprs, plain_pairs, plain_links};
ghost use Rattle.py_syntax.specs.View.{plain_fragments};
ghost use Rattle.cov_places.specs.Bounds.{plain_bound};

use crate::nodes::boxed;
use py_operator::BinOp;
use py_syntax::{Expr, Fragment, Link, Pair, Sign};
use py_text::{NoMemory, Text};
use std::alloc::Global;

pub(crate) fn fstr(
    alloc: Global,
    pieces: Result<Vec<Fragment>, NoMemory>,
) -> Result<Box<Expr>, NoMemory>
    ensures { IfOk result (λ b. IsOkAnd pieces (λ p.
        plain_expr b.value ≡ fstr (plain_fragments p.items))) }
{
    let pieces = pieces?;
    boxed(alloc, Expr::FStr(pieces))
}

pub(crate) fn tuple(
    alloc: Global,
    items: Result<Vec<Expr>, NoMemory>,
    comma: bool,
) -> Result<Box<Expr>, NoMemory>
    ensures { IfOk result (λ b. IsOkAnd items (λ p.
        plain_expr b.value ≡ tuple (plain_exprs p.items) comma)) }
{
    let items = items?;
    boxed(alloc, Expr::Tuple { items, comma })
}

pub(crate) fn list(
    alloc: Global,
    items: Result<Vec<Expr>, NoMemory>,
    comma: bool,
) -> Result<Box<Expr>, NoMemory>
    ensures { IfOk result (λ b. IsOkAnd items (λ p.
        plain_expr b.value ≡ list (plain_exprs p.items) comma)) }
{
    let items = items?;
    boxed(alloc, Expr::List { items, comma })
}

pub(crate) fn dict(
    alloc: Global,
    items: Result<Vec<Pair>, NoMemory>,
    comma: bool,
) -> Result<Box<Expr>, NoMemory>
    ensures { IfOk result (λ b. IsOkAnd items (λ p.
        plain_expr b.value ≡ dict (plain_pairs p.items) comma)) }
{
    let items = items?;
    boxed(alloc, Expr::Dict { items, comma })
}

pub(crate) fn paren(
    alloc: Global,
    inner: Result<Box<Expr>, NoMemory>,
) -> Result<Box<Expr>, NoMemory>
    ensures { IfOk result (λ b. IsOkAnd inner (λ p.
        plain_expr b.value ≡ paren (plain_expr p.value))) }
{
    let inner = inner?;
    boxed(alloc, Expr::Paren(inner))
}

pub(crate) fn not(
    alloc: Global,
    operand: Result<Box<Expr>, NoMemory>,
) -> Result<Box<Expr>, NoMemory>
    ensures { IfOk result (λ b. IsOkAnd operand (λ p.
        plain_expr b.value ≡ not' (plain_expr p.value))) }
{
    let operand = operand?;
    boxed(alloc, Expr::Not(operand))
}

pub(crate) fn and(
    alloc: Global,
    left: Box<Expr>,
    right: Result<Box<Expr>, NoMemory>,
) -> Result<Box<Expr>, NoMemory>
    ensures { IfOk result (λ b. IsOkAnd right (λ p.
        plain_expr b.value ≡ and (plain_expr left.value) (plain_expr p.value))) }
{
    let right = right?;
    boxed(alloc, Expr::And(left, right))
}

pub(crate) fn or(
    alloc: Global,
    left: Box<Expr>,
    right: Result<Box<Expr>, NoMemory>,
) -> Result<Box<Expr>, NoMemory>
    ensures { IfOk result (λ b. IsOkAnd right (λ p.
        plain_expr b.value ≡ or (plain_expr left.value) (plain_expr p.value))) }
{
    let right = right?;
    boxed(alloc, Expr::Or(left, right))
}

pub(crate) fn unary(
    alloc: Global,
    sign: Sign,
    operand: Result<Box<Expr>, NoMemory>,
) -> Result<Box<Expr>, NoMemory>
    ensures { IfOk result (λ b. IsOkAnd operand (λ p.
        plain_expr b.value ≡ unary sign (plain_expr p.value))) }
{
    let operand = operand?;
    boxed(alloc, Expr::Unary(sign, operand))
}

pub(crate) fn binary(
    alloc: Global,
    op: BinOp,
    left: Box<Expr>,
    right: Result<Box<Expr>, NoMemory>,
) -> Result<Box<Expr>, NoMemory>
    ensures { IfOk result (λ b. IsOkAnd right (λ p.
        plain_expr b.value ≡ binary op (plain_expr left.value) (plain_expr p.value))) }
{
    let right = right?;
    boxed(alloc, Expr::Binary(op, left, right))
}

pub(crate) fn compare(
    alloc: Global,
    first: Box<Expr>,
    rest: Result<Vec<Link>, NoMemory>,
) -> Result<Box<Expr>, NoMemory>
    ensures { IfOk result (λ b. IsOkAnd rest (λ p.
        plain_expr b.value ≡ compare (plain_expr first.value) (plain_links p.items))) }
{
    let rest = rest?;
    boxed(alloc, Expr::Compare(first, rest))
}

pub(crate) fn cond(
    alloc: Global,
    body: Box<Expr>,
    test: Box<Expr>,
    orelse: Result<Box<Expr>, NoMemory>,
) -> Result<Box<Expr>, NoMemory>
    ensures { IfOk result (λ b. IsOkAnd orelse (λ p.
        plain_expr b.value
        ≡ cond (plain_expr body.value) (plain_expr test.value) (plain_expr p.value))) }
{
    let orelse = orelse?;
    boxed(alloc, Expr::Cond { body, test, orelse })
}

pub(crate) fn call(
    alloc: Global,
    callee: Box<Expr>,
    args: Result<Vec<Expr>, NoMemory>,
    comma: bool,
) -> Result<Box<Expr>, NoMemory>
    ensures { IfOk result (λ b. IsOkAnd args (λ p.
        plain_expr b.value ≡ call (plain_expr callee.value) (plain_exprs p.items) comma)) }
{
    let args = args?;
    boxed(
        alloc,
        Expr::Call {
            callee,
            args,
            comma,
        },
    )
}

pub(crate) fn index(
    alloc: Global,
    of: Box<Expr>,
    place: Result<Box<Expr>, NoMemory>,
) -> Result<Box<Expr>, NoMemory>
    ensures { IfOk result (λ b. IsOkAnd place (λ p.
        plain_expr b.value ≡ index (plain_expr of.value) (plain_expr p.value))) }
{
    let place = place?;
    boxed(alloc, Expr::Index(of, place))
}

pub(crate) fn slice(
    alloc: Global,
    of: Box<Expr>,
    from: Option<Box<Expr>>,
    to: Result<Option<Box<Expr>>, NoMemory>,
) -> Result<Box<Expr>, NoMemory>
    ensures { IfOk result (λ b. IsOkAnd to (λ p.
        plain_expr b.value ≡ slice (plain_expr of.value) (plain_bound from) (plain_bound p))) }
{
    let to = to?;
    boxed(alloc, Expr::Slice { of, from, to })
}

pub(crate) fn attr(
    alloc: Global,
    of: Result<Box<Expr>, NoMemory>,
    x: &Text,
) -> Result<Box<Expr>, NoMemory>
    ensures { IfOk result (λ b. IsOkAnd of (λ p.
        plain_expr b.value ≡ attr (plain_expr p.value) x.now)) }
{
    let x = x.copy()?;
    let of = of?;
    boxed(alloc, Expr::Attr(of, x))
}
