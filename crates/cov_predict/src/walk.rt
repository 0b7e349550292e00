//! The arcs of statements, by one walk that knows where each way out of a statement leads, and
//! tells by which ways it is left.
ghost use Rattle.std.specs.Prelude.{◌≡◌, ◌++◌, OnOk, IfOk};
ghost use Rattle.py_syntax.specs.LastMarks.{stmts_last, kind_last, opt_last};
ghost use Rattle.py_syntax.specs.View.{plain_stmts, plain_kind, plain_suite, plain_opt_suite};
ghost use Rattle.cov_predict.specs.Leaving.{targets_of, IsLeft};
ghost use Rattle.cov_predict.specs.Parts.{suite_last};
ghost use Rattle.cov_predict.specs.Steps.{JoinsElse};
ghost use Rattle.cov_predict.specs.Walk.{stmts_walk, kind_walk, suite_walk, opt_walk};

use crate::branches::{matched, tests};
use crate::constants::is_constant;
use crate::first_marks::{first_after, first_in, first_of};
use crate::handlers::{attempt, finish, handlers};
use crate::jumps::{Jumps, ahead, before_finally, entering};
use crate::loops::looped;
use crate::simple::{leaves, own, raises};
use crate::ways::{Way, Ways};
use py_syntax::{Stmt, StmtKind, Suite};
use py_text::NoMemory;
use std::alloc::Global;

/// What raises: everything that marks, or `raise` alone; and where memory comes from.
#[derive(Clone, Copy)]
pub(crate) struct Rules {
    pub(crate) any: bool,
    pub(crate) alloc: Global,
}

/// Adds the arcs of statements in a row.
#[cycle(walk)]
pub(crate) fn statements(
    out: &mut Vec<(i32, i32)>,
    rules: Rules,
    jumps: Jumps,
    items: &[Stmt],
) -> Result<Ways, NoMemory>
    ensures arcs { OnOk result (out.new.items ≡ out.old.items
        ++ stmts_walk rules.any (targets_of jumps.entry) (plain_stmts items.now)) }
    ensures ways { IfOk result (λ left.
        IsLeft left (λ w. stmts_last rules.any w (plain_stmts items.now))) }
{
    let mut left = Ways::none();
    let mut passed = 0;
    let mut next = first_of(items);
    for s in items {
        passed += 1;
        next = first_after(s, next, &items[passed..]);
        let by = statement(out, rules, ahead(jumps, next), s.first, &s.kind)?;
        left = left.or(by.before(next.is_none()));
    }
    Ok(left)
}

/// Adds the arcs of a statement with this first line.
#[cycle(walk)]
#[tactic(auto, unfolding(py_syntax::specs::LastMarks::kind_last))]
fn statement(
    out: &mut Vec<(i32, i32)>,
    rules: Rules,
    jumps: Jumps,
    line: u32,
    kind: &StmtKind,
) -> Result<Ways, NoMemory>
    ensures arcs { OnOk result (out.new.items ≡ out.old.items
        ++ kind_walk rules.any (targets_of jumps.entry) line (plain_kind kind.now)) }
    ensures ways { IfOk result (λ left.
        IsLeft left (λ w. kind_last rules.any w line (plain_kind kind.now))) }
{
    match kind {
        StmtKind::Expr(_) | StmtKind::Assign { .. } | StmtKind::AugAssign { .. } | StmtKind::Pass =>
            leaves(out, rules, jumps, line, Way::Onward),
        StmtKind::Break => leaves(out, rules, jumps, line, Way::Breaking),
        StmtKind::Continue => leaves(out, rules, jumps, line, Way::Continuing),
        StmtKind::Return(_) => leaves(out, rules, jumps, line, Way::Returning),
        StmtKind::Raise(_) => raises(out, rules, jumps, line),
        StmtKind::Assert(_, _) => leaves(out, rules, jumps, line, Way::Onward),
        StmtKind::Global(_) => Ok(Ways::none()),
        StmtKind::Import(_) | StmtKind::From(_, _) => leaves(out, rules, jumps, line, Way::Onward),
        StmtKind::If { arms, orelse } => {
            let left = tests(out, rules, jumps, arms, first_in(orelse))?;
            with_else(out, rules, jumps, left, orelse)
        }
        StmtKind::While { test, body, orelse } => {
            let left = looped(out, rules, jumps, line, is_constant(test), body, orelse)?;
            with_else(out, rules, jumps, left, orelse)
        }
        StmtKind::For { body, orelse, .. } => {
            let left = looped(out, rules, jumps, line, false, body, orelse)?;
            with_else(out, rules, jumps, left, orelse)
        }
        StmtKind::Try {
            body,
            clauses,
            orelse,
            finally,
        } => {
            let inner = before_finally(jumps, first_in(finally));
            let ended = attempt(out, rules, jumps, inner, line, body, clauses, orelse)?;
            let handled = handlers(out, rules, inner, clauses)?;
            let others = optional(out, rules, inner, orelse)?;
            finish(out, rules, jumps, ended.or(handled.or(others)), finally)
        }
        StmtKind::Def { .. } => leaves(out, rules, jumps, line, Way::Onward),
        StmtKind::Match { cases, .. } => matched(out, rules, jumps, line, cases),
    }
}

/// Adds the arcs of an `else`, and tells by which ways it is left, or what stands in front of it.
#[cycle(walk)]
fn with_else(
    out: &mut Vec<(i32, i32)>,
    rules: Rules,
    jumps: Jumps,
    left: Ways,
    orelse: &Option<Suite>,
) -> Result<Ways, NoMemory>
    ensures arcs { OnOk result (out.new.items ≡ out.old.items
        ++ opt_walk rules.any (targets_of jumps.entry) (plain_opt_suite orelse.now)) }
    ensures ways { IfOk result (JoinsElse rules.any left (plain_opt_suite orelse.now)) }
{
    let others = optional(out, rules, jumps, orelse)?;
    Ok(left.or(others))
}

/// Adds the arcs of the suite of an `else` or a `finally`.
#[cycle(walk)]
pub(crate) fn optional(
    out: &mut Vec<(i32, i32)>,
    rules: Rules,
    jumps: Jumps,
    suite: &Option<Suite>,
) -> Result<Ways, NoMemory>
    ensures arcs { OnOk result (out.new.items ≡ out.old.items
        ++ opt_walk rules.any (targets_of jumps.entry) (plain_opt_suite suite.now)) }
    ensures ways { IfOk result (λ left.
        IsLeft left (λ w. opt_last rules.any w (plain_opt_suite suite.now))) }
{
    match suite {
        None => Ok(Ways::none()),
        Some(suite) => statements(out, rules, jumps, &suite.body),
    }
}

/// Adds the arcs of a header that leads into its suite, and of the suite, in which other jumps
/// hold. Tells by which ways the suite is left.
#[cycle(walk)]
pub(crate) fn entered(
    out: &mut Vec<(i32, i32)>,
    rules: Rules,
    jumps: Jumps,
    within: Jumps,
    line: u32,
    suite: &Suite,
) -> Result<Ways, NoMemory>
    ensures arcs { OnOk result (out.new.items ≡ out.old.items
        ++ suite_walk rules.any (targets_of jumps.entry) (targets_of within.entry) line
        (plain_suite suite.now)) }
    ensures ways { IfOk result (λ left.
        IsLeft left (λ w. suite_last rules.any w (plain_suite suite.now))) }
{
    let first = first_of(&suite.body);
    own(out, rules, jumps, line, entering(first, within.onward))?;
    statements(out, rules, within, &suite.body)
}
