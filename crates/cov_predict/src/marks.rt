//! The lines of all marks, in the order of the text.
ghost use Rattle.std.specs.Prelude.{◌≡◌, ◌++◌, ◌∷◌, [], OnOk};
ghost use Rattle.py_syntax.specs.View.{plain_stmts, plain_kind, plain_suite, plain_opt_suite, plain_arms, plain_clauses, plain_cases};
ghost use Rattle.py_syntax.specs.Marks.{kind_marks, suite_marks, opt_marks, arms_marks, clauses_marks, cases_marks, function_marks};
ghost use Rattle.cov_predict.specs.Leading.{first_marks, lines_of};

use py_docstrings::is_docstring;
use py_syntax::{Arm, Case, Clause, Stmt, StmtKind, Suite};
use py_text::NoMemory;

/// Adds the lines of the body of a module or a function, where these statements lead one, and else
/// their own.
#[cycle(marks)]
pub(crate) fn statements(out: &mut Vec<u32>, leads: bool, items: &[Stmt]) -> Result<(), NoMemory>
    ensures { OnOk result (out.new.items ≡ out.old.items
        ++ lines_of leads (plain_stmts items.now)) }
{
    let mut first = leads;
    for s in items {
        leading(out, first, s)?;
        first = false;
    }
    Ok(())
}

#[cycle(marks)]
fn leading(out: &mut Vec<u32>, leads: bool, s: &Stmt) -> Result<(), NoMemory>
    ensures { OnOk result (out.new.items ≡ out.old.items
        ++ first_marks leads s.now.first (plain_kind s.now.kind)) }
{
    if leads && is_docstring(&s.kind) {
        return Ok(());
    }
    statement(out, s.first, &s.kind)
}

#[cycle(marks)]
fn statement(out: &mut Vec<u32>, line: u32, kind: &StmtKind) -> Result<(), NoMemory>
    ensures { OnOk result (out.new.items ≡ out.old.items ++ kind_marks line (plain_kind kind.now)) }
{
    match kind {
        StmtKind::Expr(_)
        | StmtKind::Assign { .. }
        | StmtKind::AugAssign { .. }
        | StmtKind::Pass
        | StmtKind::Break
        | StmtKind::Continue
        | StmtKind::Return(_)
        | StmtKind::Raise(_)
        | StmtKind::Assert(_, _) => mark(out, line),
        StmtKind::Global(_) => Ok(()),
        StmtKind::Import(_) | StmtKind::From(_, _) => mark(out, line),
        StmtKind::If { arms, orelse } => {
            tests(out, arms)?;
            opt(out, orelse)
        }
        StmtKind::While { body, orelse, .. } => {
            headed(out, line, body)?;
            opt(out, orelse)
        }
        StmtKind::For { body, orelse, .. } => {
            headed(out, line, body)?;
            opt(out, orelse)
        }
        StmtKind::Try {
            body,
            clauses: handlers,
            orelse,
            finally,
        } => {
            headed(out, line, body)?;
            clauses(out, handlers)?;
            opt(out, orelse)?;
            opt(out, finally)
        }
        StmtKind::Def { body, .. } => defined(out, line, body),
        StmtKind::Match { cases: list, .. } => matched(out, line, list),
    }
}

/// Adds the line of a header and the lines of its suite.
#[cycle(marks)]
fn headed(out: &mut Vec<u32>, line: u32, body: &Suite) -> Result<(), NoMemory>
    ensures { OnOk result (out.new.items ≡ out.old.items
        ++ line ∷ suite_marks (plain_suite body.now)) }
{
    mark(out, line)?;
    suite(out, body)
}

#[cycle(marks)]
fn defined(out: &mut Vec<u32>, line: u32, body: &Suite) -> Result<(), NoMemory>
    ensures { OnOk result (out.new.items ≡ out.old.items
        ++ line ∷ function_marks (plain_suite body.now)) }
{
    mark(out, line)?;
    function(out, body)
}

#[cycle(marks)]
fn matched(out: &mut Vec<u32>, line: u32, list: &[Case]) -> Result<(), NoMemory>
    ensures { OnOk result (out.new.items ≡ out.old.items
        ++ line ∷ cases_marks (plain_cases list.now)) }
{
    mark(out, line)?;
    cases(out, list)
}

fn mark(out: &mut Vec<u32>, line: u32) -> Result<(), NoMemory>
    ensures { OnOk result (out.new.items ≡ out.old.items ++ line ∷ []) }
{
    out.push(line)?;
    Ok(())
}

#[cycle(marks)]
fn suite(out: &mut Vec<u32>, s: &Suite) -> Result<(), NoMemory>
    ensures { OnOk result (out.new.items ≡ out.old.items ++ suite_marks (plain_suite s.now)) }
{
    statements(out, false, &s.body)
}

#[cycle(marks)]
fn function(out: &mut Vec<u32>, s: &Suite) -> Result<(), NoMemory>
    ensures { OnOk result (out.new.items ≡ out.old.items ++ function_marks (plain_suite s.now)) }
{
    statements(out, true, &s.body)
}

#[cycle(marks)]
fn opt(out: &mut Vec<u32>, s: &Option<Suite>) -> Result<(), NoMemory>
    ensures { OnOk result (out.new.items ≡ out.old.items ++ opt_marks (plain_opt_suite s.now)) }
{
    match s {
        None => Ok(()),
        Some(s) => suite(out, s),
    }
}

#[cycle(marks)]
fn tests(out: &mut Vec<u32>, items: &[Arm]) -> Result<(), NoMemory>
    ensures { OnOk result (out.new.items ≡ out.old.items ++ arms_marks (plain_arms items.now)) }
{
    for arm in items {
        mark(out, arm.body.first)?;
        suite(out, &arm.body)?;
    }
    Ok(())
}

#[cycle(marks)]
fn clauses(out: &mut Vec<u32>, items: &[Clause]) -> Result<(), NoMemory>
    ensures { OnOk result (out.new.items ≡ out.old.items
        ++ clauses_marks (plain_clauses items.now)) }
{
    for clause in items {
        mark(out, clause.body.first)?;
        suite(out, &clause.body)?;
    }
    Ok(())
}

#[cycle(marks)]
fn cases(out: &mut Vec<u32>, items: &[Case]) -> Result<(), NoMemory>
    ensures { OnOk result (out.new.items ≡ out.old.items ++ cases_marks (plain_cases items.now)) }
{
    for case in items {
        mark(out, case.body.first)?;
        suite(out, &case.body)?;
    }
    Ok(())
}
