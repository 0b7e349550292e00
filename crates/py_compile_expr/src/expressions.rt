// Emission of expressions: each leaves its value on top.

ghost use Rattle.std.specs.Prelude.{◌≡◌, ◌+◌, [], ◌++◌, IfOk, OnOk};
ghost use Rattle.std.specs.Option.{option_map};
ghost use Rattle.py_syntax.specs.Tree.{unary};
ghost use Rattle.py_syntax.specs.View.{plain_expr, plain_exprs, plain_pairs, plain_links, plain_fragments, plain_parts, opt_of};
ghost use Rattle.py_code.specs.declared.instr.Instr.TheVariants.{IfFalse, Call as CallInstr};
ghost use Rattle.py_compile_expr.specs.Cells.{load, put};
ghost use Rattle.py_compile_expr.specs.CellView.{plain_op, plain_guard};
ghost use Rattle.py_compile_expr.specs.Callees.{callee_code};
ghost use Rattle.py_compile_expr.specs.Pieces.{then_code, after_code, row_code, skip_instr};
ghost use Rattle.py_compile_expr.specs.Expressions.{count, expr_size, expr_code, each_size, each_code, pairs_size, pairs_code, links_size, links_code, opt_size, opt_code, fragments_size, fragments_code, parts_size, parts_code};

use crate::cells::{Builder, Guard, Op, sum};
use crate::expr_sizes::{links_size, past};
use crate::operators::{Skip, bounds, count, link_instr, question, sign_operator, skip_instr};
use crate::texts::{put_chars, put_string, put_text};
use py_code::{Constant, Instr};
use py_syntax::{Expr, FormatPart, Fragment, Link, Pair, Sign};
use py_text::{NoMemory, Text};

/// Adds the code of an expression at a place, with the handler that holds there. Answers the place
/// after it.
#[cycle(expressions)]
pub fn put_expr(out: &mut Builder, guard: Option<Guard>, at: u32, e: &Expr) -> Result<u32, NoMemory>
    ensures cells { OnOk result (out.new
        ≡ out.old ++ expr_code (plain_guard guard) at (plain_expr e.now)) }
    ensures place { IfOk result (λ n. n ≡ at + expr_size (plain_expr e.now)) }
{
    match e {
        Expr::Name(name) => put_load(out, guard, at, name),
        Expr::Int(n) => out.put(guard, at, Op::Constant(Constant::Int(*n))),
        Expr::Str(pieces) => put_string(out, guard, at, pieces),
        Expr::FStr(pieces) => {
            let at = put_text(out, guard, at)?;
            put_fragments(out, guard, at, pieces)
        }
        Expr::None => out.put(guard, at, Op::Constant(Constant::None)),
        Expr::Bool(b) => out.put(guard, at, Op::Constant(Constant::Bool(*b))),
        Expr::Tuple { items, comma: _ } => {
            let size = count(items)?;
            put_row(out, guard, at, items, Instr::Tuple(size))
        }
        Expr::List { items, comma: _ } => {
            let size = count(items)?;
            put_row(out, guard, at, items, Instr::List(size))
        }
        Expr::Dict { items, comma: _ } => {
            let at = out.put(guard, at, Op::Plain(Instr::Dict))?;
            put_pairs(out, guard, at, items)
        }
        Expr::Paren(inner) => put_expr(out, guard, at, inner),
        Expr::Not(operand) => put_then(out, guard, at, operand, Op::Plain(Instr::Not)),
        Expr::And(left, right) => {
            let at = put_expr(out, guard, at, left)?;
            put_skipped(out, guard, at, right, Skip::And)
        }
        Expr::Or(left, right) => {
            let at = put_expr(out, guard, at, left)?;
            put_skipped(out, guard, at, right, Skip::Or)
        }
        Expr::Unary(sign, operand) => put_unary(out, guard, at, *sign, operand),
        Expr::Binary(op, left, right) => {
            let at = put_expr(out, guard, at, left)?;
            put_then(out, guard, at, right, Op::Plain(Instr::Binary(*op)))
        }
        Expr::Compare(first, links) => {
            let at = put_expr(out, guard, at, first)?;
            put_chain(out, guard, at, links)
        }
        Expr::Cond { body, test, orelse } => {
            let at = put_expr(out, guard, at, test)?;
            let at = put_chosen(out, guard, at, body)?;
            put_skipped(out, guard, at, orelse, Skip::Goto)
        }
        Expr::Call {
            callee,
            args,
            comma: _,
        } => {
            let at = put_callee(out, guard, at, callee)?;
            put_args(out, guard, at, args)
        }
        Expr::Index(of, index) => {
            let at = put_expr(out, guard, at, of)?;
            put_then(out, guard, at, index, Op::Plain(Instr::Index))
        }
        Expr::Slice { of, from, to } => {
            let at = put_expr(out, guard, at, of)?;
            let at = put_bound(out, guard, at, from)?;
            let at = put_bound(out, guard, at, to)?;
            out.put(guard, at, Op::Plain(Instr::Slice(bounds(from, to))))
        }
        Expr::Attr(of, name) => {
            let name = name.copy()?;
            put_then(out, guard, at, of, Op::Attribute(name))
        }
    }
}

/// An expression that an instruction in front of it may lead past.
#[cycle(expressions)]
fn put_skipped(
    out: &mut Builder,
    guard: Option<Guard>,
    at: u32,
    e: &Expr,
    skip: Skip,
) -> Result<u32, NoMemory>
    ensures cells { OnOk result (out.new
        ≡ out.old
        ++ after_code (plain_guard guard) at
        (skip_instr skip (at + 1 + expr_size (plain_expr e.now))) (plain_expr e.now)) }
    ensures place { IfOk result (λ n. n ≡ at + 1 + expr_size (plain_expr e.now)) }
{
    let end = past(at, e)?;
    put_after(out, guard, at, skip_instr(skip, end), e)
}

/// A sign is the operator after 0.
#[cycle(expressions)]
fn put_unary(
    out: &mut Builder,
    guard: Option<Guard>,
    at: u32,
    sign: Sign,
    operand: &Expr,
) -> Result<u32, NoMemory>
    ensures cells { OnOk result (out.new
        ≡ out.old ++ expr_code (plain_guard guard) at (unary sign (plain_expr operand.now))) }
    ensures place { IfOk result (λ n. n ≡ at + expr_size (unary sign (plain_expr operand.now))) }
{
    let at = out.put(guard, at, Op::Constant(Constant::Int(0)))?;
    let instr = Instr::Binary(sign_operator(sign));
    put_then(out, guard, at, operand, Op::Plain(instr))
}

/// The comparisons after the first operand of a chain.
#[cycle(expressions)]
fn put_chain(
    out: &mut Builder,
    guard: Option<Guard>,
    at: u32,
    links: &[Link],
) -> Result<u32, NoMemory>
    ensures cells { OnOk result (out.new
        ≡ out.old
        ++ links_code (plain_guard guard) at (at + links_size (plain_links links.now))
        (plain_links links.now)) }
    ensures place { IfOk result (λ n. n ≡ at + links_size (plain_links links.now)) }
{
    let end = sum(at, links_size(links)?)?;
    put_links(out, guard, at, end, links)
}

/// The value where a test is true. A false one skips it and what leads past the other value.
#[cycle(expressions)]
fn put_chosen(
    out: &mut Builder,
    guard: Option<Guard>,
    at: u32,
    body: &Expr,
) -> Result<u32, NoMemory>
    ensures cells { OnOk result (out.new
        ≡ out.old
        ++ after_code (plain_guard guard) at
        (IfFalse (at + 1 + expr_size (plain_expr body.now) + 1)) (plain_expr body.now)) }
    ensures place { IfOk result (λ n. n ≡ at + 1 + expr_size (plain_expr body.now)) }
{
    let no = sum(past(at, body)?, 1)?;
    put_after(out, guard, at, Instr::IfFalse(no), body)
}

/// The arguments of a call, and the call.
#[cycle(expressions)]
fn put_args(
    out: &mut Builder,
    guard: Option<Guard>,
    at: u32,
    args: &[Expr],
) -> Result<u32, NoMemory>
    ensures cells { OnOk result (out.new
        ≡ out.old
        ++ row_code (plain_guard guard) at (plain_exprs args.now)
        (CallInstr (count (plain_exprs args.now)))) }
    ensures place { IfOk result (λ n. n ≡ at + each_size (plain_exprs args.now) + 1) }
{
    let size = count(args)?;
    put_row(out, guard, at, args, Instr::Call(size))
}

/// The value of a name.
fn put_load(out: &mut Builder, guard: Option<Guard>, at: u32, name: &Text) -> Result<u32, NoMemory>
    ensures cells { OnOk result (out.new ≡ out.old ++ put (plain_guard guard) (load name.now) []) }
    ensures place { IfOk result (λ n. n ≡ at + 1) }
{
    let name = name.copy()?;
    out.put(guard, at, Op::Load(name))
}

/// An expression, and an instruction after it.
#[cycle(expressions)]
fn put_then(
    out: &mut Builder,
    guard: Option<Guard>,
    at: u32,
    e: &Expr,
    op: Op,
) -> Result<u32, NoMemory>
    ensures cells { OnOk result (out.new
        ≡ out.old ++ then_code (plain_guard guard) at (plain_expr e.now) (plain_op op)) }
    ensures place { IfOk result (λ n. n ≡ at + expr_size (plain_expr e.now) + 1) }
{
    let at = put_expr(out, guard, at, e)?;
    out.put(guard, at, op)
}

/// An instruction, and an expression after it.
#[cycle(expressions)]
fn put_after(
    out: &mut Builder,
    guard: Option<Guard>,
    at: u32,
    instr: Instr,
    e: &Expr,
) -> Result<u32, NoMemory>
    ensures cells { OnOk result (out.new
        ≡ out.old ++ after_code (plain_guard guard) at instr (plain_expr e.now)) }
    ensures place { IfOk result (λ n. n ≡ at + 1 + expr_size (plain_expr e.now)) }
{
    let at = out.put(guard, at, Op::Plain(instr))?;
    put_expr(out, guard, at, e)
}

/// Expressions in a row, and an instruction after them.
#[cycle(expressions)]
fn put_row(
    out: &mut Builder,
    guard: Option<Guard>,
    at: u32,
    items: &[Expr],
    instr: Instr,
) -> Result<u32, NoMemory>
    ensures cells { OnOk result (out.new
        ≡ out.old ++ row_code (plain_guard guard) at (plain_exprs items.now) instr) }
    ensures place { IfOk result (λ n. n ≡ at + each_size (plain_exprs items.now) + 1) }
{
    let at = put_each(out, guard, at, items)?;
    out.put(guard, at, Op::Plain(instr))
}

/// The place after one instruction and a part of this size.
pub fn over(at: u32, size: u32) -> Result<u32, NoMemory>
    ensures { IfOk result (λ n. n ≡ at + 1 + size) }
{
    let next = sum(at, 1)?;
    sum(next, size)
}

/// What is called: a method by the name after a dot, or else the value of an expression.
#[cycle(expressions)]
fn put_callee(
    out: &mut Builder,
    guard: Option<Guard>,
    at: u32,
    callee: &Expr,
) -> Result<u32, NoMemory>
    ensures cells { OnOk result (out.new
        ≡ out.old ++ callee_code (plain_guard guard) at (plain_expr callee.now)) }
    ensures place { IfOk result (λ n. n ≡ at + expr_size (plain_expr callee.now)) }
{
    match callee {
        Expr::Name(_) | Expr::Int(_) | Expr::Str(_) | Expr::FStr(_) | Expr::None | Expr::Bool(_) =>
            put_expr(out, guard, at, callee),
        Expr::Tuple { .. } | Expr::List { .. } | Expr::Dict { .. } | Expr::Paren(_) => {
            put_expr(out, guard, at, callee)
        }
        Expr::Not(_) | Expr::And(_, _) | Expr::Or(_, _) | Expr::Unary(_, _) => {
            put_expr(out, guard, at, callee)
        }
        Expr::Binary(_, _, _) | Expr::Compare(_, _) | Expr::Cond { .. } | Expr::Call { .. } => {
            put_expr(out, guard, at, callee)
        }
        Expr::Index(_, _) | Expr::Slice { .. } => put_expr(out, guard, at, callee),
        Expr::Attr(of, name) => {
            let name = name.copy()?;
            put_then(out, guard, at, of, Op::Method(name))
        }
    }
}

/// Adds the code of expressions in a row.
#[cycle(expressions)]
pub fn put_each(
    out: &mut Builder,
    guard: Option<Guard>,
    at: u32,
    items: &[Expr],
) -> Result<u32, NoMemory>
    ensures cells { OnOk result (out.new
        ≡ out.old ++ each_code (plain_guard guard) at (plain_exprs items.now)) }
    ensures place { IfOk result (λ n. n ≡ at + each_size (plain_exprs items.now)) }
{
    let mut to = at;
    for e in items {
        to = put_expr(out, guard, to, e)?;
    }
    Ok(to)
}

#[cycle(expressions)]
fn put_pairs(
    out: &mut Builder,
    guard: Option<Guard>,
    at: u32,
    items: &[Pair],
) -> Result<u32, NoMemory>
    ensures cells { OnOk result (out.new
        ≡ out.old ++ pairs_code (plain_guard guard) at (plain_pairs items.now)) }
    ensures place { IfOk result (λ n. n ≡ at + pairs_size (plain_pairs items.now)) }
{
    let mut to = at;
    for pair in items {
        to = put_expr(out, guard, to, &pair.key)?;
        to = put_expr(out, guard, to, &pair.value)?;
        to = out.put(guard, to, Op::Plain(Instr::AddPair))?;
    }
    Ok(to)
}

/// The comparisons of a chain. The first false one leads to the end.
#[cycle(expressions)]
fn put_links(
    out: &mut Builder,
    guard: Option<Guard>,
    at: u32,
    end: u32,
    items: &[Link],
) -> Result<u32, NoMemory>
    ensures cells { OnOk result (out.new
        ≡ out.old ++ links_code (plain_guard guard) at end (plain_links items.now)) }
    ensures place { IfOk result (λ n. n ≡ at + links_size (plain_links items.now)) }
{
    if items.is_empty() {
        let at = out.put(guard, at, Op::Plain(Instr::Pop))?;
        return out.put(guard, at, Op::Constant(Constant::Bool(true)));
    }
    let mut to = at;
    for i in 0..items.len() {
        let link = &items[i];
        to = put_expr(out, guard, to, &link.right)?;
        let instr = link_instr(question(link.op), end, items.len() - i);
        to = out.put(guard, to, Op::Plain(instr))?;
    }
    Ok(to)
}

#[cycle(expressions)]
fn put_bound(
    out: &mut Builder,
    guard: Option<Guard>,
    at: u32,
    e: &Option<Box<Expr>>,
) -> Result<u32, NoMemory>
    ensures cells { OnOk result (out.new
        ≡ out.old
        ++ opt_code (plain_guard guard) at (opt_of (option_map (λ b. plain_expr b.value) e.now))) }
    ensures place { IfOk result (λ n.
        n ≡ at + opt_size (opt_of (option_map (λ b. plain_expr b.value) e.now))) }
{
    match e {
        None => Ok(at),
        Some(e) => put_expr(out, guard, at, e),
    }
}

/// Neighbouring strings, each after the text on top.
#[cycle(expressions)]
fn put_fragments(
    out: &mut Builder,
    guard: Option<Guard>,
    at: u32,
    items: &[Fragment],
) -> Result<u32, NoMemory>
    ensures cells { OnOk result (out.new
        ≡ out.old ++ fragments_code (plain_guard guard) at (plain_fragments items.now)) }
    ensures place { IfOk result (λ n. n ≡ at + fragments_size (plain_fragments items.now)) }
{
    let mut to = at;
    for fragment in items {
        to = match fragment {
            Fragment::Plain(text) => put_chars(out, guard, to, text)?,
            Fragment::Format(parts) => put_parts(out, guard, to, parts)?,
        };
    }
    Ok(to)
}

/// The parts of an f-string, each after the text on top.
#[cycle(expressions)]
fn put_parts(
    out: &mut Builder,
    guard: Option<Guard>,
    at: u32,
    items: &[FormatPart],
) -> Result<u32, NoMemory>
    ensures cells { OnOk result (out.new
        ≡ out.old ++ parts_code (plain_guard guard) at (plain_parts items.now)) }
    ensures place { IfOk result (λ n. n ≡ at + parts_size (plain_parts items.now)) }
{
    let mut to = at;
    for part in items {
        match part {
            FormatPart::Chars(text) => to = put_chars(out, guard, to, text)?,
            FormatPart::Field(e) => {
                to = put_expr(out, guard, to, e)?;
                to = out.put(guard, to, Op::Plain(Instr::Text))?;
                to = out.put(guard, to, Op::Plain(Instr::Extend))?;
            }
        }
    }
    Ok(to)
}
