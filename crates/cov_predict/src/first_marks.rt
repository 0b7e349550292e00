//! The mark that comes first in a part of a tree. A part without one is empty.
ghost use Rattle.std.specs.Prelude.{[], ◌∷◌, true, not};
ghost use Rattle.py_syntax.specs.FirstMarks.{kind_first, kind_empty, arms_first, arms_empty, cases_first};
ghost use Rattle.py_syntax.specs.LastMarks.{has_case};
ghost use Rattle.py_syntax.specs.View.{plain_kind, plain_opt_suite, plain_arms, plain_clauses, plain_cases};
ghost use Rattle.cov_predict.specs.Leaving.{IsFirst};
ghost use Rattle.cov_predict.specs.Steps.{FirstIn, FirstOfElse, FirstClause, FirstOf};

use py_syntax::{Arm, Case, Clause, Stmt, StmtKind, Suite};

/// Of statements in a row.
#[cycle(first)]
pub(crate) fn first_of(items: &[Stmt]) -> Option<u32>
    ensures { FirstIn items.now result }
{
    for s in items {
        match kind_first(s.first, &s.kind) {
            Some(line) => return Some(line),
            None => (),
        }
    }
    None
}

/// After a statement, of which is known what comes first from it on. So a row of statements that
/// mark nothing is passed once.
pub(crate) fn first_after(s: &Stmt, from: Option<u32>, rest: &[Stmt]) -> Option<u32>
    ensures { FirstIn (s.now ∷ rest.now) from → FirstIn rest.now result }
{
    match kind_first(s.first, &s.kind) {
        Some(_) => first_of(rest),
        None => from,
    }
}

/// Of a statement with this first line.
#[cycle(first)]
#[tactic(auto, unfolding(py_syntax::specs::FirstMarks::kind_first, py_syntax::specs::FirstMarks::kind_empty))]
fn kind_first(line: u32, kind: &StmtKind) -> Option<u32>
    ensures { IsFirst result
        (kind_first line (plain_kind kind.now)) (kind_empty (plain_kind kind.now)) }
{
    match kind {
        StmtKind::Expr(_)
        | StmtKind::Assign { .. }
        | StmtKind::AugAssign { .. }
        | StmtKind::Pass
        | StmtKind::Break
        | StmtKind::Continue
        | StmtKind::Return(_)
        | StmtKind::Raise(_)
        | StmtKind::Assert(_, _) => Some(line),
        StmtKind::Global(_) => None,
        StmtKind::Import(_) | StmtKind::From(_, _) => Some(line),
        StmtKind::If { arms, orelse } => match next_test(arms) {
            Some(line) => Some(line),
            None => first_in(orelse),
        },
        StmtKind::While { .. }
        | StmtKind::For { .. }
        | StmtKind::Try { .. }
        | StmtKind::Def { .. }
        | StmtKind::Match { .. } => Some(line),
    }
}

/// Of the suite of an `else` or a `finally`. One that is missing is empty.
#[cycle(first)]
#[tactic(auto, unfolding(py_syntax::specs::FirstMarks::opt_first, py_syntax::specs::FirstMarks::opt_empty))]
pub(crate) fn first_in(suite: &Option<Suite>) -> Option<u32>
    ensures { FirstOfElse (plain_opt_suite suite.now) result }
{
    match suite {
        None => None,
        Some(suite) => first_of(&suite.body),
    }
}

/// The line of the first test, if there is one.
pub(crate) fn next_test(arms: &[Arm]) -> Option<u32>
    ensures { IsFirst result
        (arms_first (plain_arms arms.now) []) (arms_empty (plain_arms arms.now) true) }
{
    match arms.first() {
        Some(arm) => Some(arm.body.first),
        None => None,
    }
}

/// The line of the first clause, if there is one.
pub(crate) fn next_clause(clauses: &[Clause]) -> Option<u32>
    ensures { FirstClause (plain_clauses clauses.now) result }
{
    match clauses.first() {
        Some(clause) => Some(clause.body.first),
        None => None,
    }
}

/// The line of the first case, if there is one.
pub(crate) fn next_case(cases: &[Case]) -> Option<u32>
    ensures { IsFirst result
        (cases_first (plain_cases cases.now)) (not (has_case (plain_cases cases.now))) }
{
    match cases.first() {
        Some(case) => Some(case.body.first),
        None => None,
    }
}

/// The first mark of two parts in a row: that of the first part, if it has one.
pub(crate) fn or_else(first: Option<u32>, after: Option<u32>) -> Option<u32>
    ensures { FirstOf first after result }
{
    match first {
        Some(line) => Some(line),
        None => after,
    }
}
