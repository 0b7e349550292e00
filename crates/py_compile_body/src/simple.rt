// Emission of simple statements.

ghost use Rattle.std.specs.Prelude.{◌≡◌, ◌+◌, ◌++◌, [], IfOk, OnOk};
ghost use Rattle.std.specs.Option.{option_map};
ghost use Rattle.py_syntax.specs.Tree.{expr, assign, aug_assign, break, continue, return, raise, assert, import, from};
ghost use Rattle.py_syntax.specs.View.{plain_expr, plain_exprs, plain_aliases};
ghost use Rattle.py_compile_expr.specs.Cells.{marks, plain, put};
ghost use Rattle.py_compile_expr.specs.CellView.{plain_guard};
ghost use Rattle.py_compile.specs.Statements.{kind_size, kind_code};
ghost use Rattle.py_compile.specs.Ways.{in_hand};
ghost use Rattle.py_compile_body.specs.WaysView.{plain_ways};

use crate::parts::{
    put_augment, put_failure, put_imported, put_marked_expr, put_module, put_option, put_raised,
    put_taken,
};
use crate::suite_sizes::assert_size;
use crate::ways::{Ways, break_exit, continue_exit, return_exit};
use py_code::Instr;
use py_compile_expr::{Builder, Guard, Op, over, put_all, sum};
use py_operator::BinOp;
use py_syntax::{Alias, Expr};
use py_text::{NoMemory, Text};

/// An expression as a statement.
pub(crate) fn put_value(
    out: &mut Builder,
    ways: Ways,
    at: u32,
    line: u32,
    e: &Expr,
) -> Result<u32, NoMemory>
    ensures cells { OnOk result (out.new
        ≡ out.old ++ kind_code [] (plain_ways ways) at line (expr (plain_expr e.now))) }
    ensures place { IfOk result (λ n.
        n ≡ at + kind_size (in_hand (plain_ways ways)) (expr (plain_expr e.now))) }
{
    let at = put_marked_expr(out, ways.guard, at, line, e)?;
    out.put(ways.guard, at, Op::Plain(Instr::Pop))
}

/// `targets = value`.
pub(crate) fn put_assign(
    out: &mut Builder,
    ways: Ways,
    at: u32,
    line: u32,
    targets: &[Expr],
    value: &Expr,
) -> Result<u32, NoMemory>
    ensures cells { OnOk result (out.new
        ≡ out.old ++ kind_code [] (plain_ways ways) at line (assign (plain_exprs targets.now)
        (plain_expr value.now))) }
    ensures place { IfOk result (λ n.
        n ≡ at + kind_size (in_hand (plain_ways ways)) (assign (plain_exprs targets.now)
        (plain_expr value.now))) }
{
    let at = put_marked_expr(out, ways.guard, at, line, value)?;
    put_all(out, ways.guard, at, targets)
}

/// `place op= value`.
pub(crate) fn put_aug_assign(
    out: &mut Builder,
    ways: Ways,
    at: u32,
    line: u32,
    place: &Expr,
    op: BinOp,
    value: &Expr,
) -> Result<u32, NoMemory>
    ensures cells { OnOk result (out.new
        ≡ out.old ++ kind_code [] (plain_ways ways) at line (aug_assign (plain_expr place.now) op
        (plain_expr value.now))) }
    ensures place { IfOk result (λ n.
        n ≡ at + kind_size (in_hand (plain_ways ways)) (aug_assign (plain_expr place.now) op
        (plain_expr value.now))) }
{
    let at = out.put(ways.guard, at, Op::Mark(line))?;
    put_augment(out, ways.guard, at, place, op, value)
}

/// `break`. Outside of a loop, the next place is as good as any.
pub(crate) fn put_break(out: &mut Builder, ways: Ways, at: u32, line: u32) -> Result<u32, NoMemory>
    ensures cells { OnOk result (out.new
        ≡ out.old ++ kind_code [] (plain_ways ways) at line break) }
    ensures place { IfOk result (λ n. n ≡ at + kind_size (in_hand (plain_ways ways)) break) }
{
    let instr = break_exit(ways.on_break, sum(at, 2)?);
    put_marked(out, ways.guard, at, line, instr)
}

/// `continue`, as `break`.
pub(crate) fn put_continue(
    out: &mut Builder,
    ways: Ways,
    at: u32,
    line: u32,
) -> Result<u32, NoMemory>
    ensures cells { OnOk result (out.new
        ≡ out.old ++ kind_code [] (plain_ways ways) at line continue) }
    ensures place { IfOk result (λ n. n ≡ at + kind_size (in_hand (plain_ways ways)) continue) }
{
    let instr = continue_exit(ways.on_continue, sum(at, 2)?);
    put_marked(out, ways.guard, at, line, instr)
}

/// The mark of a line, and an instruction.
fn put_marked(
    out: &mut Builder,
    guard: Option<Guard>,
    at: u32,
    line: u32,
    instr: Instr,
) -> Result<u32, NoMemory>
    ensures cells { OnOk result (out.new
        ≡ out.old ++ put (plain_guard guard) (marks line) (put (plain_guard guard) (plain instr)
        [])) }
    ensures place { IfOk result (λ n. n ≡ at + 2) }
{
    let at = out.put(guard, at, Op::Mark(line))?;
    out.put(guard, at, Op::Plain(instr))
}

/// `return`.
pub(crate) fn put_return(
    out: &mut Builder,
    ways: Ways,
    at: u32,
    line: u32,
    e: &Option<Expr>,
) -> Result<u32, NoMemory>
    ensures cells { OnOk result (out.new
        ≡ out.old ++ kind_code [] (plain_ways ways) at line (return
        (option_map plain_expr e.now))) }
    ensures place { IfOk result (λ n.
        n ≡ at + kind_size (in_hand (plain_ways ways)) (return (option_map plain_expr e.now))) }
{
    let at = out.put(ways.guard, at, Op::Mark(line))?;
    let at = put_option(out, ways.guard, at, e)?;
    out.put(ways.guard, at, Op::Plain(return_exit(ways.on_return)))
}

/// `raise`.
pub(crate) fn put_raise(
    out: &mut Builder,
    ways: Ways,
    at: u32,
    line: u32,
    e: &Option<Expr>,
) -> Result<u32, NoMemory>
    ensures cells { OnOk result (out.new
        ≡ out.old ++ kind_code [] (plain_ways ways) at line (raise (option_map plain_expr e.now))) }
    ensures place { IfOk result (λ n.
        n ≡ at + kind_size (in_hand (plain_ways ways)) (raise (option_map plain_expr e.now))) }
{
    let at = out.put(ways.guard, at, Op::Mark(line))?;
    put_raised(out, ways, at, e)
}

/// `assert`.
pub(crate) fn put_assert(
    out: &mut Builder,
    ways: Ways,
    at: u32,
    line: u32,
    test: &Expr,
    why: &Option<Expr>,
) -> Result<u32, NoMemory>
    ensures cells { OnOk result (out.new
        ≡ out.old ++ kind_code [] (plain_ways ways) at line (assert (plain_expr test.now)
        (option_map plain_expr why.now))) }
    ensures place { IfOk result (λ n.
        n ≡ at + kind_size (in_hand (plain_ways ways)) (assert (plain_expr test.now)
        (option_map plain_expr why.now))) }
{
    let size = assert_size(why)?;
    let at = put_marked_expr(out, ways.guard, at, line, test)?;
    let end = over(at, size)?;
    let at = out.put(ways.guard, at, Op::Plain(Instr::IfTrue(end)))?;
    put_failure(out, ways.guard, at, why)
}

/// `import`.
pub(crate) fn put_import(
    out: &mut Builder,
    ways: Ways,
    at: u32,
    line: u32,
    names: &[Alias],
) -> Result<u32, NoMemory>
    ensures cells { OnOk result (out.new
        ≡ out.old ++ kind_code [] (plain_ways ways) at line (import (plain_aliases names.now))) }
    ensures place { IfOk result (λ n.
        n ≡ at + kind_size (in_hand (plain_ways ways)) (import (plain_aliases names.now))) }
{
    let at = out.put(ways.guard, at, Op::Mark(line))?;
    put_imported(out, ways.guard, at, names)
}

/// `from .. import`.
pub(crate) fn put_from(
    out: &mut Builder,
    ways: Ways,
    at: u32,
    line: u32,
    of: &Text,
    names: &[Alias],
) -> Result<u32, NoMemory>
    ensures cells { OnOk result (out.new
        ≡ out.old ++ kind_code [] (plain_ways ways) at line (from of.now
        (plain_aliases names.now))) }
    ensures place { IfOk result (λ n.
        n ≡ at + kind_size (in_hand (plain_ways ways)) (from of.now (plain_aliases names.now))) }
{
    let at = out.put(ways.guard, at, Op::Mark(line))?;
    let at = put_module(out, ways.guard, at, of)?;
    put_taken(out, ways.guard, at, of, names)
}
