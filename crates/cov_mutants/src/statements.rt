// Copies of statements, with the change of the mutant that a search reaches in them.

ghost use Rattle.std.specs.Prelude.{IfOk};
ghost use Rattle.py_syntax.specs.View.{plain_stmts, plain_kind, plain_suite, plain_opt_suite};
ghost use Rattle.py_syntax.specs.View.{plain_arms, plain_clauses, plain_cases};
ghost use Rattle.py_changes.specs.Mutants.{stmts_mutants, kind_mutants, suite_mutants};
ghost use Rattle.py_changes.specs.Mutants.{opt_suite_mutants, arms_mutants, clauses_mutants};
ghost use Rattle.py_changes.specs.Mutants.{cases_mutants};
ghost use Rattle.cov_mutants_expr.specs.Search.{Copied};
ghost use Rattle.cov_mutants.specs.MarksView.{marked};

use crate::marks::Marks;
use crate::suites::{add_arm, add_case, add_clause, add_stmt};
use crate::{kinds, simple};
use cov_mutants_expr::pattern;
use py_syntax::{Arm, Case, Clause, Stmt, StmtKind, Suite};
use py_text::NoMemory;
use std::alloc::Global;

/// A copy of statements in a row.
#[cycle(walk)]
pub(crate) fn statements(
    alloc: Global,
    items: &[Stmt],
    at: &mut Marks,
) -> Result<Vec<Stmt>, NoMemory>
    ensures { IfOk result (λ out. Copied stmts_mutants (marked at.old) (marked at.new)
        (plain_stmts items.now) (plain_stmts out.items)) }
{
    let mut out = Vec::new(alloc);
    for s in items {
        add_stmt(
            &mut out,
            s.first,
            s.last,
            statement(alloc, s.first, &s.kind, at),
            s.end,
        )?;
    }
    Ok(out)
}

/// A copy of a statement with this first line.
#[cycle(walk)]
fn statement(
    alloc: Global,
    line: u32,
    kind: &StmtKind,
    at: &mut Marks,
) -> Result<Box<StmtKind>, NoMemory>
    ensures { IfOk result (λ b. Copied (kind_mutants line) (marked at.old) (marked at.new)
        (plain_kind kind.now) (plain_kind b.value)) }
{
    match kind {
        StmtKind::Expr(e) => simple::expression(alloc, line, e, at),
        StmtKind::Assign { targets, value } => simple::assignment(alloc, line, targets, value, at),
        StmtKind::AugAssign { place, op, value } => {
            simple::augmented(alloc, line, place, *op, value, at)
        }
        StmtKind::Pass => kinds::boxed(alloc, StmtKind::Pass),
        StmtKind::Break => kinds::boxed(alloc, StmtKind::Break),
        StmtKind::Continue => kinds::boxed(alloc, StmtKind::Continue),
        StmtKind::Return(e) => simple::returning(alloc, line, e, at),
        StmtKind::Raise(e) => simple::raising(alloc, line, e, at),
        StmtKind::Assert(test, why) => simple::assertion(alloc, line, test, why, at),
        StmtKind::Global(names) => kinds::global_of(alloc, names),
        StmtKind::Import(names) => kinds::import_of(alloc, names),
        StmtKind::From(of, names) => kinds::from_of(alloc, of, names),
        StmtKind::If { arms, orelse } => {
            let arms = branches(alloc, arms, at)?;
            kinds::if_of(alloc, arms, opt(alloc, orelse, at))
        }
        StmtKind::While { test, body, orelse } => {
            let test = at.expr(alloc, line, test)?;
            let body = suite(alloc, body, at)?;
            kinds::while_of(alloc, test, body, opt(alloc, orelse, at))
        }
        StmtKind::For {
            target,
            over,
            body,
            orelse,
        } => {
            let target = at.expr(alloc, line, target)?;
            let over = at.expr(alloc, line, over)?;
            let body = suite(alloc, body, at)?;
            kinds::for_of(alloc, target, over, body, opt(alloc, orelse, at))
        }
        StmtKind::Try {
            body,
            clauses,
            orelse,
            finally,
        } => {
            let body = suite(alloc, body, at)?;
            let clauses = handlers(alloc, clauses, at)?;
            let orelse = opt(alloc, orelse, at)?;
            kinds::try_of(alloc, body, clauses, orelse, opt(alloc, finally, at))
        }
        StmtKind::Def {
            name,
            params,
            defaults,
            comma,
            body,
        } => {
            let defaults = at.exprs(alloc, line, defaults)?;
            kinds::def_of(
                alloc,
                name,
                params,
                defaults,
                *comma,
                suite(alloc, body, at),
            )
        }
        StmtKind::Match {
            subject,
            header_last,
            cases: list,
        } => {
            let subject = at.expr(alloc, line, subject)?;
            kinds::match_of(alloc, subject, *header_last, cases(alloc, list, at))
        }
    }
}

#[cycle(walk)]
fn suite(alloc: Global, s: &Suite, at: &mut Marks) -> Result<Suite, NoMemory>
    ensures { IfOk result (λ copy. Copied suite_mutants (marked at.old) (marked at.new)
        (plain_suite s.now) (plain_suite copy)) }
{
    kinds::suite_of(s, statements(alloc, &s.body, at))
}

#[cycle(walk)]
fn opt(alloc: Global, s: &Option<Suite>, at: &mut Marks) -> Result<Option<Suite>, NoMemory>
    ensures { IfOk result (λ copy. Copied opt_suite_mutants (marked at.old) (marked at.new)
        (plain_opt_suite s.now) (plain_opt_suite copy)) }
{
    match s {
        None => Ok(None),
        Some(s) => Ok(Some(suite(alloc, s, at)?)),
    }
}

#[cycle(walk)]
fn branches(alloc: Global, items: &[Arm], at: &mut Marks) -> Result<Vec<Arm>, NoMemory>
    ensures { IfOk result (λ out. Copied arms_mutants (marked at.old) (marked at.new)
        (plain_arms items.now) (plain_arms out.items)) }
{
    let mut out = Vec::new(alloc);
    for arm in items {
        let test = at.expr(alloc, arm.body.first, &arm.test)?;
        add_arm(&mut out, test, suite(alloc, &arm.body, at))?;
    }
    Ok(out)
}

#[cycle(walk)]
fn handlers(alloc: Global, items: &[Clause], at: &mut Marks) -> Result<Vec<Clause>, NoMemory>
    ensures { IfOk result (λ out. Copied clauses_mutants (marked at.old) (marked at.new)
        (plain_clauses items.now) (plain_clauses out.items)) }
{
    let mut out = Vec::new(alloc);
    for clause in items {
        let kind = at.maybe(alloc, clause.body.first, &clause.kind)?;
        add_clause(&mut out, kind, &clause.name, suite(alloc, &clause.body, at))?;
    }
    Ok(out)
}

#[cycle(walk)]
fn cases(alloc: Global, items: &[Case], at: &mut Marks) -> Result<Vec<Case>, NoMemory>
    ensures { IfOk result (λ out. Copied cases_mutants (marked at.old) (marked at.new)
        (plain_cases items.now) (plain_cases out.items)) }
{
    let mut out = Vec::new(alloc);
    for case in items {
        let matched = pattern(alloc, &case.pattern)?;
        let guard = at.maybe(alloc, case.body.first, &case.guard)?;
        add_case(&mut out, matched, guard, suite(alloc, &case.body, at))?;
    }
    Ok(out)
}
