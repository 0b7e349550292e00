// Emission of targets: each takes the value on top.

ghost use Rattle.std.specs.Prelude.{◌≡◌, ◌+◌, [], ◌++◌, IfOk, OnOk};
ghost use Rattle.py_syntax.specs.Tree.{index};
ghost use Rattle.py_syntax.specs.View.{plain_expr, plain_exprs};
ghost use Rattle.py_compile_expr.specs.Cells.{store, put};
ghost use Rattle.py_compile_expr.specs.CellView.{plain_guard};
ghost use Rattle.py_compile_expr.specs.Targets.{no_target_code, target_size, target_code, targets_size, targets_code, unpack_code, all_size, all_code};

use crate::cells::{Builder, Guard, Op, sum};
use crate::expr_sizes::{both, expr_size};
use crate::expressions::put_expr;
use crate::operators::count;
use py_code::{Constant, Instr};
use py_syntax::Expr;
use py_text::{NoMemory, Text};

/// How many instructions a target takes.
#[cycle(target_sizes)]
pub fn target_size(e: &Expr) -> Result<u32, NoMemory>
    ensures { IfOk result (λ n. n ≡ target_size (plain_expr e.now)) }
{
    match e {
        Expr::Name(_) => Ok(1),
        Expr::Int(_) | Expr::Str(_) | Expr::FStr(_) | Expr::None | Expr::Bool(_) => Ok(5),
        Expr::Tuple { items, comma: _ } => sum(targets_size(items)?, 1),
        Expr::List { items, comma: _ } => sum(targets_size(items)?, 1),
        Expr::Dict { .. } => Ok(5),
        Expr::Paren(inner) => target_size(inner),
        Expr::Not(_)
        | Expr::And(_, _)
        | Expr::Or(_, _)
        | Expr::Unary(_, _)
        | Expr::Binary(_, _, _)
        | Expr::Compare(_, _)
        | Expr::Cond { .. }
        | Expr::Call { .. } => Ok(5),
        Expr::Index(of, at) => both(expr_size(of)?, expr_size(at)?),
        Expr::Slice { .. } | Expr::Attr(_, _) => Ok(5),
    }
}

#[cycle(target_sizes)]
fn targets_size(items: &[Expr]) -> Result<u32, NoMemory>
    ensures { IfOk result (λ n. n ≡ targets_size (plain_exprs items.now)) }
{
    let mut size = 0;
    for e in items {
        size = sum(size, target_size(e)?)?;
    }
    Ok(size)
}

/// How many instructions it takes to give one value to each of these targets.
pub fn all_size(items: &[Expr]) -> Result<u32, NoMemory>
    ensures { IfOk result (λ n. n ≡ all_size (plain_exprs items.now)) }
{
    let mut size = 1;
    for e in items {
        size = both(size, target_size(e)?)?;
    }
    Ok(size)
}

/// What is no target raises as None has no items.
fn put_no_target(out: &mut Builder, guard: Option<Guard>, at: u32) -> Result<u32, NoMemory>
    ensures cells { OnOk result (out.new ≡ out.old ++ no_target_code (plain_guard guard)) }
    ensures place { IfOk result (λ n. n ≡ at + 5) }
{
    let at = out.put(guard, at, Op::Constant(Constant::None))?;
    let at = out.put(guard, at, Op::Constant(Constant::None))?;
    let at = out.put(guard, at, Op::Plain(Instr::Index))?;
    let at = out.put(guard, at, Op::Plain(Instr::Pop))?;
    out.put(guard, at, Op::Plain(Instr::Pop))
}

/// Adds the code of a target.
#[cycle(targets)]
pub fn put_target(
    out: &mut Builder,
    guard: Option<Guard>,
    at: u32,
    e: &Expr,
) -> Result<u32, NoMemory>
    ensures cells { OnOk result (out.new
        ≡ out.old ++ target_code (plain_guard guard) at (plain_expr e.now)) }
    ensures place { IfOk result (λ n. n ≡ at + target_size (plain_expr e.now)) }
{
    match e {
        Expr::Name(name) => put_store(out, guard, at, name),
        Expr::Int(_) | Expr::Str(_) | Expr::FStr(_) | Expr::None | Expr::Bool(_) => {
            put_no_target(out, guard, at)
        }
        Expr::Tuple { items, comma: _ } => put_unpack(out, guard, at, items),
        Expr::List { items, comma: _ } => put_unpack(out, guard, at, items),
        Expr::Dict { .. } => put_no_target(out, guard, at),
        Expr::Paren(inner) => put_target(out, guard, at, inner),
        Expr::Not(_)
        | Expr::And(_, _)
        | Expr::Or(_, _)
        | Expr::Unary(_, _)
        | Expr::Binary(_, _, _)
        | Expr::Compare(_, _)
        | Expr::Cond { .. }
        | Expr::Call { .. } => put_no_target(out, guard, at),
        Expr::Index(of, key) => put_item(out, guard, at, of, key),
        Expr::Slice { .. } | Expr::Attr(_, _) => put_no_target(out, guard, at),
    }
}

/// A name takes the value.
fn put_store(out: &mut Builder, guard: Option<Guard>, at: u32, name: &Text) -> Result<u32, NoMemory>
    ensures cells { OnOk result (out.new ≡ out.old ++ put (plain_guard guard) (store name.now) []) }
    ensures place { IfOk result (λ n. n ≡ at + 1) }
{
    let name = name.copy()?;
    out.put(guard, at, Op::Store(name))
}

/// The place under a key takes the value.
fn put_item(
    out: &mut Builder,
    guard: Option<Guard>,
    at: u32,
    of: &Expr,
    key: &Expr,
) -> Result<u32, NoMemory>
    ensures cells { OnOk result (out.new
        ≡ out.old
        ++ target_code (plain_guard guard) at (index (plain_expr of.now) (plain_expr key.now))) }
    ensures place { IfOk result (λ n.
        n ≡ at + target_size (index (plain_expr of.now) (plain_expr key.now))) }
{
    let at = put_expr(out, guard, at, of)?;
    let at = put_expr(out, guard, at, key)?;
    out.put(guard, at, Op::Plain(Instr::StoreIndex))
}

/// Targets in a row take the items of the value.
#[cycle(targets)]
fn put_unpack(
    out: &mut Builder,
    guard: Option<Guard>,
    at: u32,
    items: &[Expr],
) -> Result<u32, NoMemory>
    ensures cells { OnOk result (out.new
        ≡ out.old ++ unpack_code (plain_guard guard) at (plain_exprs items.now)) }
    ensures place { IfOk result (λ n. n ≡ at + 1 + targets_size (plain_exprs items.now)) }
{
    let size = count(items)?;
    let at = out.put(guard, at, Op::Plain(Instr::Unpack(size)))?;
    put_targets(out, guard, at, items)
}

/// Targets in a row, the first for the value on top.
#[cycle(targets)]
fn put_targets(
    out: &mut Builder,
    guard: Option<Guard>,
    mut at: u32,
    items: &[Expr],
) -> Result<u32, NoMemory>
    ensures cells { OnOk result (out.new
        ≡ out.old ++ targets_code (plain_guard guard) at (plain_exprs items.now)) }
    ensures place { IfOk result (λ n. n ≡ at + targets_size (plain_exprs items.now)) }
{
    for e in items {
        at = put_target(out, guard, at, e)?;
    }
    Ok(at)
}

/// Gives the value on top to each of these targets, and takes it away.
pub fn put_all(
    out: &mut Builder,
    guard: Option<Guard>,
    at: u32,
    items: &[Expr],
) -> Result<u32, NoMemory>
    ensures cells { OnOk result (out.new
        ≡ out.old ++ all_code (plain_guard guard) at (plain_exprs items.now)) }
    ensures place { IfOk result (λ n. n ≡ at + all_size (plain_exprs items.now)) }
{
    let mut to = at;
    for e in items {
        to = out.put(guard, to, Op::Plain(Instr::Copy(0)))?;
        to = put_target(out, guard, to, e)?;
    }
    out.put(guard, to, Op::Plain(Instr::Pop))
}
