//! The arcs of bodies: of a module, and of the functions that statements define.
ghost use Rattle.std.specs.Prelude.{◌≡◌, ◌++◌, ◌∷◌, [], pos, neg_ℤ, OnOk};
ghost use Rattle.py_syntax.specs.Functions.{without_docstring};
ghost use Rattle.py_syntax.specs.View.{plain_stmts, plain_kind, plain_suite, plain_opt_suite, plain_arms, plain_clauses, plain_cases};
ghost use Rattle.cov_predict.specs.Defs.{stmts_defs, kind_defs, suite_defs, opt_defs, arms_defs, clauses_defs, cases_defs, function_defs};
ghost use Rattle.cov_predict.specs.Leaving.{targets_of};
ghost use Rattle.cov_predict.specs.Parts.{entry};
ghost use Rattle.cov_predict.specs.Walk.{body_walk, leaving};

use crate::first_marks::first_of;
use crate::jumps::{Jumps, leaving};
use crate::lines::{add_arc, end_of};
use crate::walk::{Rules, statements};
use py_docstrings::without_docstring;
use py_syntax::{Arm, Case, Clause, Stmt, StmtKind, Suite};
use py_text::NoMemory;

/// Adds the arcs of the body of a module or a function.
pub(crate) fn body(
    out: &mut Vec<(i32, i32)>,
    rules: Rules,
    first: u32,
    items: &[Stmt],
) -> Result<(), NoMemory>
    ensures { OnOk result (out.new.items ≡ out.old.items
        ++ body_walk rules.any first (without_docstring (plain_stmts items.now))) }
{
    let items = without_docstring(items);
    enter(out, first, first_of(items))?;
    statements(out, rules, out_of(first), items)?;
    Ok(())
}

/// Where a run is outside a body with this first line.
fn outside(first: u32) -> i64
    ensures { result ≡ neg_ℤ (pos first) }
{
    -end_of(first)
}

/// Out of a body with this first line.
fn out_of<'a>(first: u32) -> Jumps<'a>
    ensures { targets_of result ≡ leaving (neg_ℤ (pos first)) }
{
    leaving(outside(first))
}

/// Adds the arc into a body with this first line and this first mark, or the one arc of a body
/// without a mark.
fn enter(out: &mut Vec<(i32, i32)>, first: u32, mark: Option<u32>) -> Result<(), NoMemory>
    ensures { OnOk result (out.new.items ≡ out.old.items ++ entry (neg_ℤ (pos first)) mark ∷ []) }
{
    match mark {
        Some(line) => add_arc(out, outside(first), end_of(line)),
        None => add_arc(out, outside(first), outside(first)),
    }
}

/// Adds the arcs of the functions that these statements define.
#[cycle(functions)]
pub(crate) fn functions(
    out: &mut Vec<(i32, i32)>,
    rules: Rules,
    items: &[Stmt],
) -> Result<(), NoMemory>
    ensures { OnOk result (out.new.items ≡ out.old.items
        ++ stmts_defs rules.any (plain_stmts items.now)) }
{
    for s in items {
        in_statement(out, rules, s.first, &s.kind)?;
    }
    Ok(())
}

#[cycle(functions)]
fn in_statement(
    out: &mut Vec<(i32, i32)>,
    rules: Rules,
    line: u32,
    kind: &StmtKind,
) -> Result<(), NoMemory>
    ensures { OnOk result (out.new.items ≡ out.old.items
        ++ kind_defs rules.any line (plain_kind kind.now)) }
{
    match kind {
        StmtKind::Expr(_) | StmtKind::Assign { .. } | StmtKind::AugAssign { .. } => Ok(()),
        StmtKind::Pass | StmtKind::Break | StmtKind::Continue => Ok(()),
        StmtKind::Return(_) | StmtKind::Raise(_) | StmtKind::Assert(_, _) => Ok(()),
        StmtKind::Global(_) | StmtKind::Import(_) | StmtKind::From(_, _) => Ok(()),
        StmtKind::If { arms, orelse } => {
            in_arms(out, rules, arms)?;
            in_optional(out, rules, orelse)
        }
        StmtKind::While { body, orelse, .. } => {
            in_suite(out, rules, body)?;
            in_optional(out, rules, orelse)
        }
        StmtKind::For { body, orelse, .. } => {
            in_suite(out, rules, body)?;
            in_optional(out, rules, orelse)
        }
        StmtKind::Try {
            body,
            clauses,
            orelse,
            finally,
        } => {
            in_suite(out, rules, body)?;
            in_clauses(out, rules, clauses)?;
            in_optional(out, rules, orelse)?;
            in_optional(out, rules, finally)
        }
        StmtKind::Def { body, .. } => function(out, rules, line, body),
        StmtKind::Match { cases, .. } => in_cases(out, rules, cases),
    }
}

fn function(
    out: &mut Vec<(i32, i32)>,
    rules: Rules,
    line: u32,
    suite: &Suite,
) -> Result<(), NoMemory>
    ensures { OnOk result (out.new.items ≡ out.old.items
        ++ function_defs rules.any line (plain_suite suite.now)) }
{
    body(out, rules, line, &suite.body)
}

#[cycle(functions)]
fn in_suite(out: &mut Vec<(i32, i32)>, rules: Rules, suite: &Suite) -> Result<(), NoMemory>
    ensures { OnOk result (out.new.items ≡ out.old.items
        ++ suite_defs rules.any (plain_suite suite.now)) }
{
    functions(out, rules, &suite.body)
}

#[cycle(functions)]
fn in_optional(
    out: &mut Vec<(i32, i32)>,
    rules: Rules,
    suite: &Option<Suite>,
) -> Result<(), NoMemory>
    ensures { OnOk result (out.new.items ≡ out.old.items
        ++ opt_defs rules.any (plain_opt_suite suite.now)) }
{
    match suite {
        None => Ok(()),
        Some(suite) => in_suite(out, rules, suite),
    }
}

#[cycle(functions)]
fn in_arms(out: &mut Vec<(i32, i32)>, rules: Rules, arms: &[Arm]) -> Result<(), NoMemory>
    ensures { OnOk result (out.new.items ≡ out.old.items
        ++ arms_defs rules.any (plain_arms arms.now)) }
{
    for arm in arms {
        in_suite(out, rules, &arm.body)?;
    }
    Ok(())
}

#[cycle(functions)]
fn in_clauses(out: &mut Vec<(i32, i32)>, rules: Rules, clauses: &[Clause]) -> Result<(), NoMemory>
    ensures { OnOk result (out.new.items ≡ out.old.items
        ++ clauses_defs rules.any (plain_clauses clauses.now)) }
{
    for clause in clauses {
        in_suite(out, rules, &clause.body)?;
    }
    Ok(())
}

#[cycle(functions)]
fn in_cases(out: &mut Vec<(i32, i32)>, rules: Rules, cases: &[Case]) -> Result<(), NoMemory>
    ensures { OnOk result (out.new.items ≡ out.old.items
        ++ cases_defs rules.any (plain_cases cases.now)) }
{
    for case in cases {
        in_suite(out, rules, &case.body)?;
    }
    Ok(())
}
