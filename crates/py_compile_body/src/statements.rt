// Emission of statements.

ghost use Rattle.std.specs.Prelude.{◌≡◌, ◌+◌, ◌++◌, IfOk, OnOk};
ghost use Rattle.py_syntax.specs.View.{plain_stmts, plain_kind, plain_suite, plain_opt_suite};
ghost use Rattle.py_compile.specs.Statements.{stmts_size, stmts_code, kind_size, kind_code, opt_size, opt_code};
ghost use Rattle.py_compile.specs.Ways.{in_hand};
ghost use Rattle.py_compile_body.specs.Parts.{suite_body, suite_size, at_lines};
ghost use Rattle.py_compile_body.specs.WaysView.{plain_ways};

use crate::branches::{put_if, put_match};
use crate::compound::{put_def, put_finally, put_handlers, put_try_body};
use crate::defs::Defs;
use crate::loops::{put_for, put_while};
use crate::simple::{
    put_assert, put_assign, put_aug_assign, put_break, put_continue, put_from, put_import,
    put_raise, put_return, put_value,
};
use crate::ways::Ways;
use py_compile_expr::{Builder, Op};
use py_syntax::{Stmt, StmtKind, Suite};
use py_text::NoMemory;

/// Adds the code of statements, from a place on.
#[cycle(statements)]
pub(crate) fn put_stmts(
    out: &mut Builder,
    defs: &Defs,
    ways: Ways,
    at: u32,
    items: &[Stmt],
) -> Result<u32, NoMemory>
    ensures cells { OnOk result (out.new
        ≡ out.old ++ stmts_code (at_lines defs.now) (plain_ways ways) at (plain_stmts items.now)) }
    ensures place { IfOk result (λ n.
        n ≡ at + stmts_size (in_hand (plain_ways ways)) (plain_stmts items.now)) }
{
    let mut to = at;
    for s in items {
        to = put_kind(out, defs, ways, to, s.first, &s.kind)?;
    }
    Ok(to)
}

/// Adds the code of a statement with this first line.
#[cycle(statements)]
fn put_kind(
    out: &mut Builder,
    defs: &Defs,
    ways: Ways,
    at: u32,
    line: u32,
    kind: &StmtKind,
) -> Result<u32, NoMemory>
    ensures cells { OnOk result (out.new
        ≡ out.old ++ kind_code (at_lines defs.now) (plain_ways ways) at line
        (plain_kind kind.now)) }
    ensures place { IfOk result (λ n.
        n ≡ at + kind_size (in_hand (plain_ways ways)) (plain_kind kind.now)) }
{
    match kind {
        StmtKind::Expr(e) => put_value(out, ways, at, line, e),
        StmtKind::Assign { targets, value } => put_assign(out, ways, at, line, targets, value),
        StmtKind::AugAssign { place, op, value } => {
            put_aug_assign(out, ways, at, line, place, *op, value)
        }
        StmtKind::Pass => out.put(ways.guard, at, Op::Mark(line)),
        StmtKind::Break => put_break(out, ways, at, line),
        StmtKind::Continue => put_continue(out, ways, at, line),
        StmtKind::Return(e) => put_return(out, ways, at, line, e),
        StmtKind::Raise(e) => put_raise(out, ways, at, line, e),
        StmtKind::Assert(test, why) => put_assert(out, ways, at, line, test, why),
        StmtKind::Global(_) => Ok(at),
        StmtKind::Import(names) => put_import(out, ways, at, line, names),
        StmtKind::From(of, names) => put_from(out, ways, at, line, of, names),
        StmtKind::If { arms, orelse } => {
            let next = put_if(out, defs, ways, at, arms, orelse)?;
            put_opt(out, defs, ways, next, orelse)
        }
        StmtKind::While { test, body, orelse } => {
            let rest = put_while(out, defs, ways, at, line, body, test, orelse)?;
            put_opt(out, defs, ways, rest, orelse)
        }
        StmtKind::For {
            target,
            over,
            body,
            orelse,
        } => {
            let rest = put_for(out, defs, ways, at, line, body, target, over, orelse)?;
            put_opt(out, defs, ways, rest, orelse)
        }
        StmtKind::Try {
            body,
            clauses,
            orelse,
            finally,
        } => {
            let tried = put_try_body(out, defs, ways, at, line, body, clauses, orelse, finally)?;
            let jump = put_opt(out, defs, tried.inside, tried.normal, orelse)?;
            let end = put_handlers(out, defs, tried.inside, jump, tried.end, clauses)?;
            put_finally(out, defs, ways, end, finally)
        }
        StmtKind::Def { name, defaults, .. } => {
            put_def(out, defs, ways.guard, at, line, name, defaults)
        }
        StmtKind::Match { subject, cases, .. } => {
            put_match(out, defs, ways, at, line, cases, subject)
        }
    }
}

#[cycle(statements)]
pub(crate) fn put_suite(
    out: &mut Builder,
    defs: &Defs,
    ways: Ways,
    at: u32,
    s: &Suite,
) -> Result<u32, NoMemory>
    ensures cells { OnOk result (out.new
        ≡ out.old ++ stmts_code (at_lines defs.now) (plain_ways ways) at (suite_body
        (plain_suite s.now))) }
    ensures place { IfOk result (λ n.
        n ≡ at + suite_size (in_hand (plain_ways ways)) (plain_suite s.now)) }
{
    put_stmts(out, defs, ways, at, &s.body)
}

/// The suite of an `else`, where there is one.
#[cycle(statements)]
pub(crate) fn put_opt(
    out: &mut Builder,
    defs: &Defs,
    ways: Ways,
    at: u32,
    s: &Option<Suite>,
) -> Result<u32, NoMemory>
    ensures cells { OnOk result (out.new
        ≡ out.old ++ opt_code (at_lines defs.now) (plain_ways ways) at (plain_opt_suite s.now)) }
    ensures place { IfOk result (λ n.
        n ≡ at + opt_size (in_hand (plain_ways ways)) (plain_opt_suite s.now)) }
{
    match s {
        None => Ok(at),
        Some(s) => put_suite(out, defs, ways, at, s),
    }
}
