// How many mutants statements have, after so many before them.

ghost use Rattle.std.specs.Prelude.{◌≡◌, ℕ};
ghost use Rattle.std.specs.Option.{option_map};
ghost use Rattle.py_syntax.specs.View.{plain_expr, plain_stmts, plain_kind, plain_suite};
ghost use Rattle.py_syntax.specs.View.{plain_opt_suite, plain_arms, plain_clauses, plain_cases};
ghost use Rattle.py_changes.specs.Mutants.{maybe_mutants, stmts_mutants, kind_mutants};
ghost use Rattle.py_changes.specs.Mutants.{suite_mutants, opt_suite_mutants, arms_mutants};
ghost use Rattle.py_changes.specs.Mutants.{clauses_mutants, cases_mutants};
ghost use Rattle.cov_places.specs.Counting.{counted};

use crate::expr_counts::{expr, exprs, one_more};
use py_syntax::{Arm, Case, Clause, Expr, Stmt, StmtKind, Suite};

/// Of statements in a row.
#[cycle(tally)]
pub(crate) fn statements(so_far: u64, items: &[Stmt]) -> u64
    ensures { result ≡ counted so_far (stmts_mutants (plain_stmts items.now)) }
{
    let mut count = so_far;
    for s in items {
        count = statement(count, &s.kind);
    }
    count
}

/// Of a statement, whatever its first line is.
#[cycle(tally)]
fn statement(so_far: u64, kind: &StmtKind) -> u64
    ensures { (line : ℕ) → result ≡ counted so_far (kind_mutants line (plain_kind kind.now)) }
{
    match kind {
        StmtKind::Expr(e) => expr(so_far, e),
        StmtKind::Assign { targets, value } => expr(exprs(so_far, targets), value),
        StmtKind::AugAssign {
            place,
            op: _,
            value,
        } => expr(one_more(expr(so_far, place)), value),
        StmtKind::Pass => so_far,
        StmtKind::Break => so_far,
        StmtKind::Continue => so_far,
        StmtKind::Return(e) => maybe(so_far, e),
        StmtKind::Raise(e) => maybe(so_far, e),
        StmtKind::Assert(test, why) => maybe(expr(so_far, test), why),
        StmtKind::Global(_) => so_far,
        StmtKind::Import(_) => so_far,
        StmtKind::From(_, _) => so_far,
        StmtKind::If { arms, orelse } => opt(branches(so_far, arms), orelse),
        StmtKind::While { test, body, orelse } => opt(suite(expr(so_far, test), body), orelse),
        StmtKind::For {
            target,
            over,
            body,
            orelse,
        } => opt(suite(expr(expr(so_far, target), over), body), orelse),
        StmtKind::Try {
            body,
            clauses,
            orelse,
            finally,
        } => opt(opt(handlers(suite(so_far, body), clauses), orelse), finally),
        StmtKind::Def {
            name: _,
            params: _,
            defaults,
            comma: _,
            body,
        } => suite(exprs(so_far, defaults), body),
        StmtKind::Match {
            subject,
            header_last: _,
            cases: list,
        } => cases(expr(so_far, subject), list),
    }
}

/// Of an expression that may be missing.
fn maybe(so_far: u64, e: &Option<Expr>) -> u64
    ensures { result ≡ counted so_far (maybe_mutants (option_map plain_expr e.now)) }
{
    match e {
        None => so_far,
        Some(e) => expr(so_far, e),
    }
}

#[cycle(tally)]
fn suite(so_far: u64, s: &Suite) -> u64
    ensures { result ≡ counted so_far (suite_mutants (plain_suite s.now)) }
{
    statements(so_far, &s.body)
}

#[cycle(tally)]
fn opt(so_far: u64, s: &Option<Suite>) -> u64
    ensures { result ≡ counted so_far (opt_suite_mutants (plain_opt_suite s.now)) }
{
    match s {
        None => so_far,
        Some(s) => suite(so_far, s),
    }
}

#[cycle(tally)]
fn branches(so_far: u64, items: &[Arm]) -> u64
    ensures { result ≡ counted so_far (arms_mutants (plain_arms items.now)) }
{
    let mut count = so_far;
    for arm in items {
        count = suite(expr(count, &arm.test), &arm.body);
    }
    count
}

#[cycle(tally)]
fn handlers(so_far: u64, items: &[Clause]) -> u64
    ensures { result ≡ counted so_far (clauses_mutants (plain_clauses items.now)) }
{
    let mut count = so_far;
    for clause in items {
        count = suite(maybe(count, &clause.kind), &clause.body);
    }
    count
}

#[cycle(tally)]
fn cases(so_far: u64, items: &[Case]) -> u64
    ensures { result ≡ counted so_far (cases_mutants (plain_cases items.now)) }
{
    let mut count = so_far;
    for case in items {
        count = suite(maybe(count, &case.guard), &case.body);
    }
    count
}
