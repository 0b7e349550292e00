// Emission of `try` and of `def`.

ghost use Rattle.std.specs.Prelude.{◌≡◌, ◌+◌, ◌++◌, IfOk, OnOk};
ghost use Rattle.py_syntax.specs.Tree.{has_suite};
ghost use Rattle.py_syntax.specs.View.{plain_exprs, plain_suite, plain_opt_suite, plain_clauses};
ghost use Rattle.py_compile_expr.specs.CellView.{plain_guard};
ghost use Rattle.py_compile.specs.Statements.{function_size};
ghost use Rattle.py_compile.specs.Ways.{in_hand};
ghost use Rattle.py_compile_body.specs.Parts.{suite_size, try_end, finally_ways, try_body, handlers_size, handlers_code, finally_size, finally_code, def_code, at_lines};
ghost use Rattle.py_compile_body.specs.WaysView.{plain_ways};

use crate::branches::put_clauses;
use crate::defs::Defs;
use crate::parts::{put_exits, put_function, put_store};
use crate::places::{TryPlaces, try_places};
use crate::statements::put_suite;
use crate::ways::{Ways, under};
use py_code::Instr;
use py_compile_expr::{Builder, Guard, Op};
use py_syntax::{Clause, Expr, Suite};
use py_text::{NoMemory, Text};

/// `try`, up to its `else`. The suite comes first among the trees, since it is what the recursion
/// goes down.
#[cycle(statements)]
pub(crate) fn put_try_body(
    out: &mut Builder,
    defs: &Defs,
    ways: Ways,
    at: u32,
    line: u32,
    body: &Suite,
    clauses: &[Clause],
    orelse: &Option<Suite>,
    finally: &Option<Suite>,
) -> Result<TryPlaces, NoMemory>
    ensures cells { OnOk result (out.new
        ≡ out.old ++ try_body (at_lines defs.now) (plain_ways ways) at line (plain_suite body.now)
        (plain_clauses clauses.now) (plain_opt_suite orelse.now) (plain_opt_suite finally.now)) }
    ensures normal { IfOk result (λ r.
        r.normal ≡ at + 1 + suite_size (in_hand (plain_ways ways)) (plain_suite body.now)) }
    ensures end { IfOk result (λ r. r.end
        ≡ try_end (in_hand (plain_ways ways)) at (plain_suite body.now)
        (plain_clauses clauses.now) (plain_opt_suite orelse.now)) }
    ensures inside { IfOk result (λ r. plain_ways r.inside
        ≡ finally_ways (plain_opt_suite finally.now) (plain_ways ways) (r.end + 1)) }
{
    let places = try_places(ways, at, body, clauses, orelse, finally)?;
    let begin = out.put(ways.guard, at, Op::Mark(line))?;
    put_suite(out, defs, places.tried, begin, body)?;
    Ok(places)
}

/// The clauses of a `try`, and the jump over them.
#[cycle(statements)]
pub(crate) fn put_handlers(
    out: &mut Builder,
    defs: &Defs,
    ways: Ways,
    at: u32,
    end: u32,
    items: &[Clause],
) -> Result<u32, NoMemory>
    ensures cells { OnOk result (out.new
        ≡ out.old ++ handlers_code (at_lines defs.now) (plain_ways ways) at end
        (plain_clauses items.now)) }
    ensures place { IfOk result (λ n.
        n ≡ at + handlers_size (in_hand (plain_ways ways)) (plain_clauses items.now)) }
{
    if items.is_empty() {
        return Ok(at);
    }
    let begin = out.put(ways.guard, at, Op::Plain(Instr::Goto(end)))?;
    put_clauses(out, defs, ways, begin, end, items)
}

/// The suite of a `finally`, and where each way out goes on after it.
#[cycle(statements)]
pub(crate) fn put_finally(
    out: &mut Builder,
    defs: &Defs,
    ways: Ways,
    at: u32,
    s: &Option<Suite>,
) -> Result<u32, NoMemory>
    ensures cells { OnOk result (out.new
        ≡ out.old ++ finally_code (at_lines defs.now) (plain_ways ways) at
        (plain_opt_suite s.now)) }
    ensures place { IfOk result (λ n.
        n ≡ at + finally_size (in_hand (plain_ways ways)) (plain_opt_suite s.now)) }
{
    match s {
        None => Ok(at),
        Some(s) => put_finally_suite(out, defs, ways, at, s),
    }
}

#[cycle(statements)]
fn put_finally_suite(
    out: &mut Builder,
    defs: &Defs,
    ways: Ways,
    at: u32,
    s: &Suite,
) -> Result<u32, NoMemory>
    ensures cells { OnOk result (out.new
        ≡ out.old ++ finally_code (at_lines defs.now) (plain_ways ways) at (has_suite
        (plain_suite s.now))) }
    ensures place { IfOk result (λ n.
        n ≡ at + finally_size (in_hand (plain_ways ways)) (has_suite (plain_suite s.now))) }
{
    let lower = under(ways)?;
    let begin = out.put(ways.guard, at, Op::Plain(Instr::Ending))?;
    let settle = put_suite(out, defs, lower, begin, s)?;
    let exits = out.put(ways.guard, settle, Op::Plain(Instr::Settle))?;
    put_exits(out, ways, exits)
}

/// `def`: the function, and its name.
pub(crate) fn put_def(
    out: &mut Builder,
    defs: &Defs,
    guard: Option<Guard>,
    at: u32,
    line: u32,
    name: &Text,
    defaults: &[Expr],
) -> Result<u32, NoMemory>
    ensures cells { OnOk result (out.new
        ≡ out.old ++ def_code (at_lines defs.now) (plain_guard guard) at line name.now
        (plain_exprs defaults.now)) }
    ensures place { IfOk result (λ n. n ≡ at + (1 + function_size (plain_exprs defaults.now) + 1)) }
{
    let unit = defs.unit(line)?;
    let at = out.put(guard, at, Op::Mark(line))?;
    let at = put_function(out, guard, at, unit, defaults)?;
    put_store(out, guard, at, name)
}
