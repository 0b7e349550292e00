// Emission of the parts of statements that are no suites.

ghost use Rattle.std.specs.Prelude.{◌≡◌, ◌+◌, ◌-◌, ◌++◌, [], None, IfOk, OnOk};
ghost use Rattle.std.specs.Option.{option_map};
ghost use Rattle.py_syntax.specs.Names.{alias_name};
ghost use Rattle.py_syntax.specs.Tree.{name, index};
ghost use Rattle.py_syntax.specs.View.{plain_expr, plain_exprs, plain_alias, plain_aliases};
ghost use Rattle.py_compile_expr.specs.Cells.{store, takes, marks, put};
ghost use Rattle.py_compile_expr.specs.CellView.{plain_guard};
ghost use Rattle.py_compile_expr.specs.Expressions.{expr_size, expr_code};
ghost use Rattle.py_compile.specs.Statements.{option_size, option_code, module_code, import_size, import_code, take_size, take_code, no_place_code, augment_size, augment_code, raise_size, raise_code, assert_size, assert_code, function_size, function_code, caught_size, caught_code, guard_size, guard_code, exits_code};
ghost use Rattle.py_compile.specs.Ways.{in_hand};
ghost use Rattle.py_compile_body.specs.Parts.{read_item_code, written_item_code};
ghost use Rattle.py_compile_body.specs.WaysView.{plain_ways};

use crate::ways::{Ways, break_exit, continue_exit, return_exit};
use py_code::{Constant, Instr};
use py_compile_expr::{Builder, Guard, Op, count, put_each, put_expr, sum};
use py_operator::BinOp;
use py_syntax::{Alias, Expr};
use py_text::{NoMemory, Text};

/// An expression, or else None.
pub(crate) fn put_option(
    out: &mut Builder,
    guard: Option<Guard>,
    at: u32,
    e: &Option<Expr>,
) -> Result<u32, NoMemory>
    ensures cells { OnOk result (out.new
        ≡ out.old ++ option_code (plain_guard guard) at (option_map plain_expr e.now)) }
    ensures place { IfOk result (λ n. n ≡ at + option_size (option_map plain_expr e.now)) }
{
    match e {
        None => out.put(guard, at, Op::Constant(Constant::None)),
        Some(e) => put_expr(out, guard, at, e),
    }
}

/// The mark of a line, and an expression.
pub(crate) fn put_marked_expr(
    out: &mut Builder,
    guard: Option<Guard>,
    at: u32,
    line: u32,
    e: &Expr,
) -> Result<u32, NoMemory>
    ensures cells { OnOk result (out.new
        ≡ out.old ++ put (plain_guard guard) (marks line)
        (expr_code (plain_guard guard) (at + 1) (plain_expr e.now))) }
    ensures place { IfOk result (λ n. n ≡ at + 1 + expr_size (plain_expr e.now)) }
{
    let at = out.put(guard, at, Op::Mark(line))?;
    put_expr(out, guard, at, e)
}

/// Stores the top operand under a name.
pub(crate) fn put_store(
    out: &mut Builder,
    guard: Option<Guard>,
    at: u32,
    variable: &Text,
) -> Result<u32, NoMemory>
    ensures cells { OnOk result (out.new
        ≡ out.old ++ put (plain_guard guard) (store variable.now) []) }
    ensures place { IfOk result (λ n. n ≡ at + 1) }
{
    let variable = variable.copy()?;
    out.put(guard, at, Op::Store(variable))
}

/// The module of a name, run where it isn't begun.
pub(crate) fn put_module(
    out: &mut Builder,
    guard: Option<Guard>,
    at: u32,
    module: &Text,
) -> Result<u32, NoMemory>
    ensures cells { OnOk result (out.new
        ≡ out.old ++ module_code (plain_guard guard) «module».now) }
    ensures place { IfOk result (λ n. n ≡ at + 3) }
{
    let first = module.copy()?;
    let at = out.put(guard, at, Op::Import(first))?;
    let at = out.put(guard, at, Op::Plain(Instr::Pop))?;
    let second = module.copy()?;
    out.put(guard, at, Op::Module(second))
}

/// Stores the top operand under the name of an import.
fn put_alias(
    out: &mut Builder,
    guard: Option<Guard>,
    at: u32,
    alias: &Alias,
) -> Result<u32, NoMemory>
    ensures cells { OnOk result (out.new
        ≡ out.old ++ put (plain_guard guard) (store (alias_name (plain_alias alias.now))) []) }
    ensures place { IfOk result (λ n. n ≡ at + 1) }
{
    match &alias.bound {
        Some(name) => put_store(out, guard, at, name),
        None => put_store(out, guard, at, &alias.name),
    }
}

pub(crate) fn put_imported(
    out: &mut Builder,
    guard: Option<Guard>,
    at: u32,
    names: &[Alias],
) -> Result<u32, NoMemory>
    ensures cells { OnOk result (out.new
        ≡ out.old ++ import_code (plain_guard guard) (plain_aliases names.now)) }
    ensures place { IfOk result (λ n. n ≡ at + import_size (plain_aliases names.now)) }
{
    let mut to = at;
    for alias in names {
        to = put_module(out, guard, to, &alias.name)?;
        to = put_alias(out, guard, to, alias)?;
    }
    Ok(to)
}

/// Names of the module on top, which is taken away.
pub(crate) fn put_taken(
    out: &mut Builder,
    guard: Option<Guard>,
    at: u32,
    of: &Text,
    names: &[Alias],
) -> Result<u32, NoMemory>
    ensures cells { OnOk result (out.new
        ≡ out.old ++ take_code (plain_guard guard) of.now (plain_aliases names.now)) }
    ensures place { IfOk result (λ n. n ≡ at + take_size (plain_aliases names.now)) }
{
    let mut to = at;
    for alias in names {
        to = put_name_of(out, guard, to, of, &alias.name)?;
        to = put_alias(out, guard, to, alias)?;
    }
    out.put(guard, to, Op::Plain(Instr::Pop))
}

/// One name of the module on top.
fn put_name_of(
    out: &mut Builder,
    guard: Option<Guard>,
    at: u32,
    of: &Text,
    taken: &Text,
) -> Result<u32, NoMemory>
    ensures cells { OnOk result (out.new
        ≡ out.old ++ put (plain_guard guard) (takes of.now taken.now) []) }
    ensures place { IfOk result (λ n. n ≡ at + 1) }
{
    let of = of.copy()?;
    let taken = taken.copy()?;
    out.put(guard, at, Op::Take(of, taken))
}

/// What is no place to assign to raises as None has no items.
fn put_no_place(out: &mut Builder, guard: Option<Guard>, at: u32) -> Result<u32, NoMemory>
    ensures cells { OnOk result (out.new ≡ out.old ++ no_place_code (plain_guard guard)) }
    ensures place { IfOk result (λ n. n ≡ at + 4) }
{
    let at = out.put(guard, at, Op::Constant(Constant::None))?;
    let at = out.put(guard, at, Op::Constant(Constant::None))?;
    let at = out.put(guard, at, Op::Plain(Instr::Index))?;
    out.put(guard, at, Op::Plain(Instr::Pop))
}

/// An object, an index, and the item there, which are evaluated once.
fn put_read_item(
    out: &mut Builder,
    guard: Option<Guard>,
    at: u32,
    of: &Expr,
    key: &Expr,
) -> Result<u32, NoMemory>
    ensures cells { OnOk result (out.new
        ≡ out.old ++ read_item_code (plain_guard guard) at (plain_expr of.now)
        (plain_expr key.now)) }
    ensures place { IfOk result (λ n.
        n ≡ at + expr_size (plain_expr of.now) + expr_size (plain_expr key.now) + 3) }
{
    let at = put_expr(out, guard, at, of)?;
    let at = put_expr(out, guard, at, key)?;
    let at = out.put(guard, at, Op::Plain(Instr::Copy(1)))?;
    let at = out.put(guard, at, Op::Plain(Instr::Copy(1)))?;
    out.put(guard, at, Op::Plain(Instr::Index))
}

/// The item with the value on top, stored at its index.
fn put_written_item(
    out: &mut Builder,
    guard: Option<Guard>,
    at: u32,
    op: BinOp,
) -> Result<u32, NoMemory>
    ensures cells { OnOk result (out.new ≡ out.old ++ written_item_code (plain_guard guard) op) }
    ensures place { IfOk result (λ n. n ≡ at + 3) }
{
    let at = out.put(guard, at, Op::Plain(Instr::InPlace(op)))?;
    let at = out.put(guard, at, Op::Plain(Instr::Sink(2)))?;
    out.put(guard, at, Op::Plain(Instr::StoreIndex))
}

/// `name op= e`, without its mark.
fn put_augment_name(
    out: &mut Builder,
    guard: Option<Guard>,
    at: u32,
    variable: &Text,
    op: BinOp,
    e: &Expr,
) -> Result<u32, NoMemory>
    ensures cells { OnOk result (out.new
        ≡ out.old ++ augment_code (plain_guard guard) at (name variable.now) op
        (plain_expr e.now)) }
    ensures place { IfOk result (λ n.
        n ≡ at + augment_size (name variable.now) (plain_expr e.now)) }
{
    let first = variable.copy()?;
    let at = out.put(guard, at, Op::Load(first))?;
    let at = put_expr(out, guard, at, e)?;
    let at = out.put(guard, at, Op::Plain(Instr::InPlace(op)))?;
    put_store(out, guard, at, variable)
}

/// `of[key] op= e`, without its mark.
fn put_augment_item(
    out: &mut Builder,
    guard: Option<Guard>,
    at: u32,
    of: &Expr,
    key: &Expr,
    op: BinOp,
    e: &Expr,
) -> Result<u32, NoMemory>
    ensures cells { OnOk result (out.new
        ≡ out.old ++ augment_code (plain_guard guard) at (index (plain_expr of.now)
        (plain_expr key.now)) op (plain_expr e.now)) }
    ensures place { IfOk result (λ n.
        n ≡ at + augment_size (index (plain_expr of.now) (plain_expr key.now)) (plain_expr e.now)) }
{
    let read = put_read_item(out, guard, at, of, key)?;
    let written = put_expr(out, guard, read, e)?;
    put_written_item(out, guard, written, op)
}

/// `place op= e`, without its mark.
pub(crate) fn put_augment(
    out: &mut Builder,
    guard: Option<Guard>,
    at: u32,
    place: &Expr,
    op: BinOp,
    e: &Expr,
) -> Result<u32, NoMemory>
    ensures cells { OnOk result (out.new
        ≡ out.old ++ augment_code (plain_guard guard) at (plain_expr place.now) op
        (plain_expr e.now)) }
    ensures place { IfOk result (λ n.
        n ≡ at + augment_size (plain_expr place.now) (plain_expr e.now)) }
{
    match place {
        Expr::Name(variable) => put_augment_name(out, guard, at, variable, op, e),
        Expr::Int(_) | Expr::Str(_) | Expr::FStr(_) | Expr::None | Expr::Bool(_) => {
            put_no_place(out, guard, at)
        }
        Expr::Tuple { .. } | Expr::List { .. } | Expr::Dict { .. } | Expr::Paren(_) => {
            put_no_place(out, guard, at)
        }
        Expr::Not(_) | Expr::And(_, _) | Expr::Or(_, _) | Expr::Unary(_, _) => {
            put_no_place(out, guard, at)
        }
        Expr::Binary(_, _, _) | Expr::Compare(_, _) | Expr::Cond { .. } | Expr::Call { .. } => {
            put_no_place(out, guard, at)
        }
        Expr::Index(of, key) => put_augment_item(out, guard, at, of, key, op, e),
        Expr::Slice { .. } | Expr::Attr(_, _) => put_no_place(out, guard, at),
    }
}

/// How many operands stand above those below the exception that is handled, without the exception.
fn above(depth: u32, below: u32) -> u32
    ensures { result ≡ depth - below - 1 }
{
    depth.saturating_sub(below).saturating_sub(1)
}

/// `raise`, without its mark.
pub(crate) fn put_raised(
    out: &mut Builder,
    ways: Ways,
    at: u32,
    e: &Option<Expr>,
) -> Result<u32, NoMemory>
    ensures cells { OnOk result (out.new
        ≡ out.old ++ raise_code (plain_ways ways).handled (plain_ways ways) at
        (option_map plain_expr e.now)) }
    ensures place { IfOk result (λ n.
        n ≡ at + raise_size (in_hand (plain_ways ways)) (option_map plain_expr e.now)) }
{
    match e {
        Some(e) => {
            let at = put_expr(out, ways.guard, at, e)?;
            out.put(ways.guard, at, Op::Plain(Instr::Raise))
        }
        None => put_raise_again(out, ways, at),
    }
}

/// A bare `raise`.
fn put_raise_again(out: &mut Builder, ways: Ways, at: u32) -> Result<u32, NoMemory>
    ensures cells { OnOk result (out.new
        ≡ out.old ++ raise_code (plain_ways ways).handled (plain_ways ways) at None) }
    ensures place { IfOk result (λ n. n ≡ at + raise_size (in_hand (plain_ways ways)) None) }
{
    match ways.handled {
        Some(below) => {
            let instr = Instr::Reraise(above(ways.depth, below));
            out.put(ways.guard, at, Op::Plain(instr))
        }
        None => {
            let at = out.put(ways.guard, at, Op::Constant(Constant::None))?;
            out.put(ways.guard, at, Op::Plain(Instr::Raise))
        }
    }
}

/// The failure of an `assert`.
pub(crate) fn put_failure(
    out: &mut Builder,
    guard: Option<Guard>,
    at: u32,
    why: &Option<Expr>,
) -> Result<u32, NoMemory>
    ensures cells { OnOk result (out.new
        ≡ out.old ++ assert_code (plain_guard guard) at (option_map plain_expr why.now)) }
    ensures place { IfOk result (λ n. n ≡ at + assert_size (option_map plain_expr why.now)) }
{
    match why {
        None => out.put(guard, at, Op::Plain(Instr::Assertion)),
        Some(e) => {
            let at = put_expr(out, guard, at, e)?;
            out.put(guard, at, Op::Plain(Instr::AssertionWith))
        }
    }
}

/// A function, and its defaults where there are some.
pub(crate) fn put_function(
    out: &mut Builder,
    guard: Option<Guard>,
    at: u32,
    unit: u32,
    defaults: &[Expr],
) -> Result<u32, NoMemory>
    ensures cells { OnOk result (out.new
        ≡ out.old ++ function_code (plain_guard guard) at unit (plain_exprs defaults.now)) }
    ensures place { IfOk result (λ n. n ≡ at + function_size (plain_exprs defaults.now)) }
{
    if defaults.is_empty() {
        return out.put(guard, at, Op::Plain(Instr::Function(unit)));
    }
    let size = count(defaults)?;
    let at = put_each(out, guard, at, defaults)?;
    let at = out.put(guard, at, Op::Plain(Instr::List(size)))?;
    out.put(guard, at, Op::Plain(Instr::FunctionWith(unit)))
}

/// Whether a clause catches the exception on top. Else the next one is tried.
pub(crate) fn put_caught(
    out: &mut Builder,
    guard: Option<Guard>,
    at: u32,
    next: u32,
    kind: &Option<Expr>,
) -> Result<u32, NoMemory>
    ensures cells { OnOk result (out.new
        ≡ out.old ++ caught_code (plain_guard guard) at next (option_map plain_expr kind.now)) }
    ensures place { IfOk result (λ n. n ≡ at + caught_size (option_map plain_expr kind.now)) }
{
    match kind {
        None => Ok(at),
        Some(e) => {
            let at = put_expr(out, guard, at, e)?;
            let at = out.put(guard, at, Op::Plain(Instr::Catches))?;
            out.put(guard, at, Op::Plain(Instr::IfFalse(next)))
        }
    }
}

/// The guard of a case. Where it is false, the next case is tried.
pub(crate) fn put_guard(
    out: &mut Builder,
    handler: Option<Guard>,
    at: u32,
    next: u32,
    guard: &Option<Expr>,
) -> Result<u32, NoMemory>
    ensures cells { OnOk result (out.new
        ≡ out.old ++ guard_code (plain_guard handler) at next (option_map plain_expr guard.now)) }
    ensures place { IfOk result (λ n. n ≡ at + guard_size (option_map plain_expr guard.now)) }
{
    let Some(test) = guard else {
        return Ok(at);
    };
    let at = put_expr(out, handler, at, test)?;
    out.put(handler, at, Op::Plain(Instr::IfFalse(next)))
}

/// The ways after a suite that each way out goes through: by `break`, by `continue` and by
/// `return`.
pub(crate) fn put_exits(out: &mut Builder, ways: Ways, at: u32) -> Result<u32, NoMemory>
    ensures cells { OnOk result (out.new ≡ out.old ++ exits_code (plain_ways ways) at) }
    ensures place { IfOk result (λ n. n ≡ at + 3) }
{
    let next = sum(at, 3)?;
    let by_break = break_exit(ways.on_break, next);
    let by_continue = continue_exit(ways.on_continue, next);
    let at = out.put(ways.guard, at, Op::Plain(by_break))?;
    let at = out.put(ways.guard, at, Op::Plain(by_continue))?;
    out.put(ways.guard, at, Op::Plain(return_exit(ways.on_return)))
}
