//! The words of expressions.
ghost use Rattle.std.specs.Prelude.{◌≡◌, ◌∷◌, [], ◌++◌, false};
ghost use Rattle.std.specs.Option.{option_map};
ghost use Rattle.py_syntax.specs.View.{plain_expr, plain_exprs, plain_pairs, plain_links};
ghost use Rattle.py_syntax.specs.View.{plain_fragments, plain_parts};
ghost use Rattle.cov_pieces.specs.Pieces.{words};
ghost use Rattle.cov_pieces.specs.Views.{Adds, AddsFirst, bound_end, in_fragments, in_parts};
ghost use Rattle.cov_pieces.specs.Words.{a_number, truth, operator_number, comparison_number, sign_number, texts_words, expr_words, exprs_words, pairs_words, links_words, fragments_words, parts_words, maybe_words};

use crate::outline::Outline;
use crate::piece::Piece;
use py_operator::{BinOp, CmpOp};
use py_syntax::{Comparison, Expr, FormatPart, Fragment, Link, Pair, Sign};
use py_text::Text;

/// Adds the words of an expression, and tells whether its targets are assigned.
#[cycle(expr)]
pub(crate) fn expr<'a>(out: &mut Outline<'a>, binds: bool, e: &'a Expr)
    ensures { Adds out.old out.new (words (expr_words binds (plain_expr e.now))) }
{
    match e {
        Expr::Name(x) => {
            out.number(0);
            out.named(binds, x)
        }
        Expr::Int(n) => {
            out.number(1);
            out.push(Piece::Int(n))
        }
        Expr::Str(pieces) => {
            out.number(2);
            texts(out, pieces)
        }
        Expr::FStr(pieces) => {
            out.number(3);
            fragments(out, pieces)
        }
        Expr::None => out.number(4),
        Expr::Bool(b) => {
            out.number(5);
            out.truth(*b)
        }
        Expr::Tuple { items, comma } => {
            out.number(6);
            listed(out, binds, items, *comma)
        }
        Expr::List { items, comma } => {
            out.number(7);
            listed(out, binds, items, *comma)
        }
        Expr::Dict { items, comma } => {
            out.number(8);
            pairs(out, items);
            out.truth(*comma)
        }
        Expr::Paren(inner) => {
            out.number(9);
            expr(out, binds, inner)
        }
        Expr::Not(inner) => {
            out.number(10);
            expr(out, false, inner)
        }
        Expr::And(left, right) => {
            out.number(11);
            expr(out, false, left);
            expr(out, false, right)
        }
        Expr::Or(left, right) => {
            out.number(12);
            expr(out, false, left);
            expr(out, false, right)
        }
        Expr::Unary(sign, inner) => {
            out.number(13);
            out.number(sign_number(*sign));
            expr(out, false, inner)
        }
        Expr::Binary(op, left, right) => {
            out.number(14);
            out.number(operator_number(*op));
            expr(out, false, left);
            expr(out, false, right)
        }
        Expr::Compare(first, rest) => {
            out.number(15);
            expr(out, false, first);
            links(out, rest)
        }
        Expr::Cond {
            body: value,
            test,
            orelse,
        } => {
            out.number(16);
            expr(out, false, value);
            expr(out, false, test);
            expr(out, false, orelse)
        }
        Expr::Call {
            callee,
            args,
            comma,
        } => {
            out.number(17);
            expr(out, false, callee);
            listed(out, false, args, *comma)
        }
        Expr::Index(of, at) => {
            out.number(18);
            expr(out, false, of);
            expr(out, false, at)
        }
        Expr::Slice { of, from, to } => {
            out.number(19);
            expr(out, false, of);
            bound(out, from);
            bound(out, to)
        }
        Expr::Attr(of, x) => {
            out.number(20);
            expr(out, false, of);
            out.push(Piece::Name(x))
        }
    }
}

/// Adds items, and whether a comma stands after the last.
#[cycle(expr)]
fn listed<'a>(out: &mut Outline<'a>, binds: bool, items: &'a [Expr], comma: bool)
    ensures { Adds out.old out.new (words (exprs_words binds (plain_exprs items.now)
        ++ truth comma ∷ [])) }
{
    exprs(out, binds, items);
    out.truth(comma)
}

#[cycle(expr)]
fn bound<'a>(out: &mut Outline<'a>, e: &'a Option<Box<Expr>>)
    ensures { Adds out.old out.new (words (bound_end e.now)) }
{
    match e {
        None => out.number(0),
        Some(e) => {
            out.number(1);
            expr(out, false, e)
        }
    }
}

#[cycle(expr)]
pub(crate) fn exprs<'a>(out: &mut Outline<'a>, binds: bool, items: &'a [Expr])
    ensures { Adds out.old out.new (words (exprs_words binds (plain_exprs items.now))) }
{
    for e in items {
        out.number(1);
        expr(out, binds, e);
    }
    out.number(0)
}

#[cycle(expr)]
fn pairs<'a>(out: &mut Outline<'a>, items: &'a [Pair])
    ensures { Adds out.old out.new (words (pairs_words (plain_pairs items.now))) }
{
    for pair in items {
        out.number(1);
        expr(out, false, &pair.key);
        expr(out, false, &pair.value);
    }
    out.number(0)
}

#[cycle(expr)]
fn links<'a>(out: &mut Outline<'a>, items: &'a [Link])
    ensures { Adds out.old out.new (words (links_words (plain_links items.now))) }
{
    for link in items {
        out.number(1);
        out.number(comparison_number(link.op));
        expr(out, false, &link.right);
    }
    out.number(0)
}

#[cycle(expr)]
fn fragments<'a>(out: &mut Outline<'a>, items: &'a [Fragment])
    ensures { Adds out.old out.new (words (fragments_words (plain_fragments items.now))) }
{
    for item in items {
        fragment(out, item);
    }
    out.number(0)
}

#[cycle(expr)]
fn fragment<'a>(out: &mut Outline<'a>, item: &'a Fragment)
    ensures { AddsFirst in_fragments out.old out.new item.now }
{
    match item {
        Fragment::Plain(x) => {
            out.number(1);
            out.push(Piece::Name(x))
        }
        Fragment::Format(pieces) => {
            out.number(2);
            parts(out, pieces)
        }
    }
}

#[cycle(expr)]
fn parts<'a>(out: &mut Outline<'a>, items: &'a [FormatPart])
    ensures { Adds out.old out.new (words (parts_words (plain_parts items.now))) }
{
    for item in items {
        part(out, item);
    }
    out.number(0)
}

#[cycle(expr)]
fn part<'a>(out: &mut Outline<'a>, item: &'a FormatPart)
    ensures { AddsFirst in_parts out.old out.new item.now }
{
    match item {
        FormatPart::Chars(x) => {
            out.number(1);
            out.push(Piece::Name(x))
        }
        FormatPart::Field(e) => {
            out.number(2);
            expr(out, false, e)
        }
    }
}

/// Adds the words of an expression that may be missing.
pub(crate) fn option<'a>(out: &mut Outline<'a>, e: &'a Option<Expr>)
    ensures { Adds out.old out.new (words (maybe_words (option_map plain_expr e.now))) }
{
    match e {
        None => out.number(0),
        Some(e) => {
            out.number(1);
            expr(out, false, e)
        }
    }
}

/// Adds names, or the pieces of a string.
pub(crate) fn texts<'a>(out: &mut Outline<'a>, items: &'a [Text])
    ensures { Adds out.old out.new (words (texts_words items.now)) }
{
    for x in items {
        out.number(1);
        out.push(Piece::Name(x));
    }
    out.number(0)
}

fn sign_number(sign: Sign) -> u32
    ensures { result ≡ sign_number sign }
{
    match sign {
        Sign::Minus => 0,
        Sign::Plus => 1,
    }
}

pub(crate) fn operator_number(op: BinOp) -> u32
    ensures { result ≡ operator_number op }
{
    match op {
        BinOp::Add => 0,
        BinOp::Sub => 1,
        BinOp::Mul => 2,
        BinOp::Floor => 3,
        BinOp::Mod => 4,
    }
}

fn comparison_number(comparison: Comparison) -> u32
    ensures { result ≡ comparison_number comparison }
{
    match comparison {
        Comparison::Op(CmpOp::Eq) => 0,
        Comparison::Op(CmpOp::Ne) => 1,
        Comparison::Op(CmpOp::Lt) => 2,
        Comparison::Op(CmpOp::Le) => 3,
        Comparison::Op(CmpOp::Gt) => 4,
        Comparison::Op(CmpOp::Ge) => 5,
        Comparison::Op(CmpOp::In) => 6,
        Comparison::Op(CmpOp::NotIn) => 7,
        Comparison::Is => 8,
        Comparison::IsNot => 9,
    }
}
