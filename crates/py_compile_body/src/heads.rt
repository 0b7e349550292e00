// Emission of what stands in front of the suites of compound statements, and between them.

ghost use Rattle.std.specs.Prelude.{◌≡◌, ◌+◌, ◌++◌, None, IfOk, OnOk};
ghost use Rattle.std.specs.Option.{option_map};
ghost use Rattle.py_syntax.specs.View.{plain_expr, plain_pattern};
ghost use Rattle.py_compile_expr.specs.Expressions.{expr_size};
ghost use Rattle.py_compile_expr.specs.CellView.{plain_guard};
ghost use Rattle.py_compile_expr.specs.Patterns.{captured, names_size, names_code};
ghost use Rattle.py_compile_body.specs.Parts.{arm_head, while_head, for_head, clause_begin, clause_head, clause_end, clause_end_size, release_code, case_begin, case_head};
ghost use Rattle.py_compile_body.specs.WaysView.{plain_ways};

use crate::parts::{put_caught, put_exits, put_guard, put_marked_expr, put_store};
use crate::ways::{Ways, under};
use py_code::Instr;
use py_compile_expr::{
    Builder, Guard, Op, Site, push_captured, put_expr, put_names, put_pattern, sum,
};
use py_syntax::{Expr, Pattern};
use py_text::{NoMemory, Text};

/// The marks and the test of a `while`.
pub(crate) fn put_while_head(
    out: &mut Builder,
    guard: Option<Guard>,
    at: u32,
    line: u32,
    test: &Expr,
    rest: u32,
) -> Result<u32, NoMemory>
    ensures cells { OnOk result (out.new
        ≡ out.old ++ while_head (plain_guard guard) at line (plain_expr test.now) rest) }
    ensures place { IfOk result (λ n. n ≡ at + 3 + expr_size (plain_expr test.now) + 1) }
{
    let first = sum(at, 3)?;
    let at = out.put(guard, at, Op::Mark(line))?;
    let at = out.put(guard, at, Op::Plain(Instr::Goto(first)))?;
    let at = out.put(guard, at, Op::Again(line))?;
    let at = put_expr(out, guard, at, test)?;
    out.put(guard, at, Op::Plain(Instr::IfFalse(rest)))
}

/// The mark of an `if` or `elif`, and its test.
pub(crate) fn put_arm_head(
    out: &mut Builder,
    guard: Option<Guard>,
    at: u32,
    line: u32,
    next: u32,
    test: &Expr,
) -> Result<u32, NoMemory>
    ensures cells { OnOk result (out.new
        ≡ out.old ++ arm_head (plain_guard guard) at line next (plain_expr test.now)) }
    ensures place { IfOk result (λ n. n ≡ at + 1 + expr_size (plain_expr test.now) + 1) }
{
    let at = put_marked_expr(out, guard, at, line, test)?;
    out.put(guard, at, Op::Plain(Instr::IfFalse(next)))
}

/// The walk of a `for`, and its marks. The next item is on top then.
pub(crate) fn put_for_head(
    out: &mut Builder,
    guard: Option<Guard>,
    at: u32,
    line: u32,
    items: &Expr,
    rest: u32,
) -> Result<u32, NoMemory>
    ensures cells { OnOk result (out.new
        ≡ out.old ++ for_head (plain_guard guard) at line (plain_expr items.now) rest) }
    ensures place { IfOk result (λ n. n ≡ at + 1 + expr_size (plain_expr items.now) + 4) }
{
    let at = put_marked_expr(out, guard, at, line, items)?;
    let again = sum(at, 2)?;
    let first = sum(again, 1)?;
    let at = out.put(guard, at, Op::Plain(Instr::Walk))?;
    let at = out.put(guard, at, Op::Plain(Instr::Goto(first)))?;
    let at = out.put(guard, at, Op::Again(line))?;
    out.put(guard, at, Op::Plain(Instr::Next(rest)))
}

/// The mark of a clause, its kind, and the name that the exception is bound to.
pub(crate) fn put_clause_head(
    out: &mut Builder,
    guard: Option<Guard>,
    at: u32,
    line: u32,
    next: u32,
    kind: &Option<Expr>,
    name: &Option<Text>,
) -> Result<u32, NoMemory>
    ensures cells { OnOk result (out.new
        ≡ out.old ++ clause_head (plain_guard guard) at line next
        (option_map plain_expr kind.now) name.now) }
    ensures place { IfOk result (λ n.
        n ≡ clause_begin at (option_map plain_expr kind.now) name.now) }
{
    let at = out.put(guard, at, Op::Mark(line))?;
    let at = put_caught(out, guard, at, next, kind)?;
    match name {
        None => Ok(at),
        Some(name) => {
            let at = out.put(guard, at, Op::Plain(Instr::Caught))?;
            put_store(out, guard, at, name)
        }
    }
}

/// The end of a clause: its name is unset on every way out, and the exception is taken away.
pub(crate) fn put_clause_end(
    out: &mut Builder,
    ways: Ways,
    at: u32,
    end: u32,
    name: &Option<Text>,
) -> Result<u32, NoMemory>
    ensures cells { OnOk result (out.new
        ≡ out.old ++ clause_end (plain_ways ways) at end name.now) }
    ensures place { IfOk result (λ n. n ≡ at + clause_end_size name.now) }
{
    match name {
        None => put_over(out, ways, at, end),
        Some(name) => {
            let at = put_release(out, ways, at, name)?;
            put_over(out, ways, at, end)
        }
    }
}

/// The exception is taken away, and it goes on after the clauses.
fn put_over(out: &mut Builder, ways: Ways, at: u32, end: u32) -> Result<u32, NoMemory>
    ensures cells { OnOk result (out.new ≡ out.old ++ clause_end (plain_ways ways) at end None) }
    ensures place { IfOk result (λ n. n ≡ at + 2) }
{
    let at = out.put(ways.guard, at, Op::Plain(Instr::Pop))?;
    out.put(ways.guard, at, Op::Plain(Instr::Goto(end)))
}

/// The name of a clause is unset on every way out of its suite.
fn put_release(out: &mut Builder, ways: Ways, at: u32, name: &Text) -> Result<u32, NoMemory>
    ensures cells { OnOk result (out.new ≡ out.old ++ release_code (plain_ways ways) at name.now) }
    ensures place { IfOk result (λ n. n ≡ at + 6) }
{
    let lower = under(ways)?;
    let at = out.put(ways.guard, at, Op::Plain(Instr::Ending))?;
    let unset = name.copy()?;
    let at = out.put(ways.guard, at, Op::Unset(unset))?;
    let at = out.put(ways.guard, at, Op::Plain(Instr::Release))?;
    put_exits(out, lower, at)
}

/// Binds the names that a pattern captures, whose values stand on top.
fn put_captured(
    out: &mut Builder,
    guard: Option<Guard>,
    at: u32,
    pattern: &Pattern,
) -> Result<u32, NoMemory>
    ensures cells { OnOk result (out.new
        ≡ out.old ++ names_code (plain_guard guard) (captured (plain_pattern pattern.now))) }
    ensures place { IfOk result (λ n. n ≡ at + names_size (captured (plain_pattern pattern.now))) }
{
    let mut names = Vec::new(out.alloc());
    push_captured(&mut names, pattern)?;
    put_names(out, guard, at, &names)
}

/// A case in front of its suite: the mark, the pattern on a copy of the subject, its names, and the
/// guard.
pub(crate) fn put_case_head(
    out: &mut Builder,
    handler: Option<Guard>,
    at: u32,
    line: u32,
    next: u32,
    pattern: &Pattern,
    guard: &Option<Expr>,
) -> Result<u32, NoMemory>
    ensures cells { OnOk result (out.new
        ≡ out.old ++ case_head (plain_guard handler) at line next (plain_pattern pattern.now)
        (option_map plain_expr guard.now)) }
    ensures place { IfOk result (λ n.
        n ≡ case_begin at (plain_pattern pattern.now) (option_map plain_expr guard.now)) }
{
    let site = Site {
        guard: handler,
        waiting: 0,
        fail: next,
        extra: 0,
    };
    let at = out.put(handler, at, Op::Mark(line))?;
    let at = out.put(handler, at, Op::Plain(Instr::Copy(0)))?;
    let at = put_pattern(out, site, at, pattern)?;
    let at = put_captured(out, handler, at, pattern)?;
    let at = put_guard(out, handler, at, next, guard)?;
    out.put(handler, at, Op::Plain(Instr::Pop))
}
