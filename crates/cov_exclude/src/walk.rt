//! The walk over a tree that gathers marks, in the order of the text.
ghost use Rattle.std.specs.Prelude.{◌≡◌, ◌++◌, OnOk};
ghost use Rattle.py_syntax.specs.View.{plain_stmts, plain_kind, plain_suite, plain_opt_suite, plain_arms, plain_clauses, plain_cases};
ghost use Rattle.cov_exclude.specs.Touched.{mark_if};
ghost use Rattle.cov_exclude.specs.Walk.{is_gathered, is_whole, stmts_walk, leading_walk, kind_walk, headed_walk, inside_walk, opt_walk, arms_walk, clauses_walk, cases_walk};
ghost use Rattle.cov_exclude.specs.Views.{rule_view};

use crate::matched::Matched;
use py_docstrings::is_docstring;
use py_syntax::{Arm, Case, Clause, Stmt, StmtKind, Suite};
use py_text::NoMemory;

/// Which marks are gathered: those of a statement or a header with a matched line.
#[derive(Clone, Copy)]
pub(crate) struct Rule<'a> {
    pub(crate) matched: &'a Matched,
    /// Whether all marks of the suite after such a header are gathered too.
    pub(crate) spreads: bool,
}

fn is_gathered(rule: Rule<'_>, whole: bool, first: u32, last: u32) -> bool
    ensures { result ≡ is_gathered (rule_view rule.entry) whole first last }
{
    whole || rule.matched.touches(first, last)
}

fn is_whole(rule: Rule<'_>, whole: bool, first: u32, last: u32) -> bool
    ensures { result ≡ is_whole (rule_view rule.entry) whole first last }
{
    whole || (rule.spreads && rule.matched.touches(first, last))
}

/// Adds the marks of statements, all of them where `whole` says so. Where they lead a body, the
/// first may be a docstring.
#[cycle(walk)]
pub(crate) fn statements(
    out: &mut Vec<u32>,
    rule: Rule<'_>,
    whole: bool,
    leads: bool,
    items: &[Stmt],
) -> Result<(), NoMemory>
    ensures { OnOk result (out.new.items
        ≡ out.old.items ++ stmts_walk (rule_view rule.entry) whole leads (plain_stmts items.now)) }
{
    let mut first = leads;
    for s in items {
        leading(out, rule, whole, first, s)?;
        first = false;
    }
    Ok(())
}

#[cycle(walk)]
fn leading(
    out: &mut Vec<u32>,
    rule: Rule<'_>,
    whole: bool,
    leads: bool,
    s: &Stmt,
) -> Result<(), NoMemory>
    ensures { OnOk result (out.new.items
        ≡ out.old.items
        ++ leading_walk (rule_view rule.entry) whole leads s.now.first s.now.last
        (plain_kind s.now.kind)) }
{
    if leads && is_docstring(&s.kind) {
        return Ok(());
    }
    statement(out, rule, whole, s.first, s.last, &s.kind)
}

#[cycle(walk)]
fn statement(
    out: &mut Vec<u32>,
    rule: Rule<'_>,
    whole: bool,
    line: u32,
    last: u32,
    kind: &StmtKind,
) -> Result<(), NoMemory>
    ensures { OnOk result (out.new.items
        ≡ out.old.items ++ kind_walk (rule_view rule.entry) whole line last (plain_kind kind.now)) }
{
    match kind {
        StmtKind::Expr(_)
        | StmtKind::Assign { .. }
        | StmtKind::AugAssign { .. }
        | StmtKind::Pass
        | StmtKind::Break
        | StmtKind::Continue
        | StmtKind::Return(_)
        | StmtKind::Raise(_)
        | StmtKind::Assert(_, _) => mark(out, rule, whole, line, line, last),
        StmtKind::Global(_) => Ok(()),
        StmtKind::Import(_) | StmtKind::From(_, _) => mark(out, rule, whole, line, line, last),
        StmtKind::If { arms, orelse } => {
            tests(out, rule, whole, arms)?;
            opt(out, rule, whole, orelse)
        }
        StmtKind::While { body, orelse, .. } => {
            headed(out, rule, whole, false, line, body)?;
            opt(out, rule, whole, orelse)
        }
        StmtKind::For { body, orelse, .. } => {
            headed(out, rule, whole, false, line, body)?;
            opt(out, rule, whole, orelse)
        }
        StmtKind::Try {
            body,
            clauses: handlers,
            orelse,
            finally,
        } => {
            headed(out, rule, whole, false, line, body)?;
            clauses(out, rule, whole, handlers)?;
            opt(out, rule, whole, orelse)?;
            opt(out, rule, whole, finally)
        }
        StmtKind::Def { body, .. } => headed(out, rule, whole, true, line, body),
        StmtKind::Match {
            header_last,
            cases: list,
            ..
        } => matched(out, rule, whole, line, *header_last, list),
    }
}

/// Adds the mark of the header of a `match`, which ends at this line, and those of its cases.
#[cycle(walk)]
fn matched(
    out: &mut Vec<u32>,
    rule: Rule<'_>,
    whole: bool,
    line: u32,
    header_last: u32,
    list: &[Case],
) -> Result<(), NoMemory>
    ensures { OnOk result (out.new.items
        ≡ out.old.items
        ++ (mark_if (is_gathered (rule_view rule.entry) whole line header_last) line
        ++ cases_walk (rule_view rule.entry)
        (is_whole (rule_view rule.entry) whole line header_last) (plain_cases list.now))) }
{
    let all = is_whole(rule, whole, line, header_last);
    mark(out, rule, whole, line, line, header_last)?;
    cases(out, rule, all, list)
}

/// Adds a mark whose statement or header has these lines.
fn mark(
    out: &mut Vec<u32>,
    rule: Rule<'_>,
    whole: bool,
    line: u32,
    first: u32,
    last: u32,
) -> Result<(), NoMemory>
    ensures { OnOk result (out.new.items
        ≡ out.old.items ++ mark_if (is_gathered (rule_view rule.entry) whole first last) line) }
{
    if is_gathered(rule, whole, first, last) {
        out.push(line)?;
    }
    Ok(())
}

/// Adds the mark of a header, and those of its suite.
#[cycle(walk)]
fn headed(
    out: &mut Vec<u32>,
    rule: Rule<'_>,
    whole: bool,
    leads: bool,
    line: u32,
    s: &Suite,
) -> Result<(), NoMemory>
    ensures { OnOk result (out.new.items
        ≡ out.old.items
        ++ headed_walk (rule_view rule.entry) whole leads line (plain_suite s.now)) }
{
    let inner = is_whole(rule, whole, s.first, s.last);
    mark(out, rule, whole, line, s.first, s.last)?;
    statements(out, rule, inner, leads, &s.body)
}

#[cycle(walk)]
fn opt(out: &mut Vec<u32>, rule: Rule<'_>, whole: bool, s: &Option<Suite>) -> Result<(), NoMemory>
    ensures { OnOk result (out.new.items
        ≡ out.old.items ++ opt_walk (rule_view rule.entry) whole (plain_opt_suite s.now)) }
{
    match s {
        None => Ok(()),
        Some(s) => inside(out, rule, whole, s),
    }
}

/// Adds the marks of a suite whose header has none.
#[cycle(walk)]
fn inside(out: &mut Vec<u32>, rule: Rule<'_>, whole: bool, s: &Suite) -> Result<(), NoMemory>
    ensures { OnOk result (out.new.items
        ≡ out.old.items ++ inside_walk (rule_view rule.entry) whole (plain_suite s.now)) }
{
    let within = is_whole(rule, whole, s.first, s.last);
    statements(out, rule, within, false, &s.body)
}

#[cycle(walk)]
fn tests(out: &mut Vec<u32>, rule: Rule<'_>, whole: bool, items: &[Arm]) -> Result<(), NoMemory>
    ensures { OnOk result (out.new.items
        ≡ out.old.items ++ arms_walk (rule_view rule.entry) whole (plain_arms items.now)) }
{
    for arm in items {
        headed(out, rule, whole, false, arm.body.first, &arm.body)?;
    }
    Ok(())
}

#[cycle(walk)]
fn clauses(
    out: &mut Vec<u32>,
    rule: Rule<'_>,
    whole: bool,
    items: &[Clause],
) -> Result<(), NoMemory>
    ensures { OnOk result (out.new.items
        ≡ out.old.items ++ clauses_walk (rule_view rule.entry) whole (plain_clauses items.now)) }
{
    for clause in items {
        headed(out, rule, whole, false, clause.body.first, &clause.body)?;
    }
    Ok(())
}

#[cycle(walk)]
fn cases(out: &mut Vec<u32>, rule: Rule<'_>, whole: bool, items: &[Case]) -> Result<(), NoMemory>
    ensures { OnOk result (out.new.items
        ≡ out.old.items ++ cases_walk (rule_view rule.entry) whole (plain_cases items.now)) }
{
    for case in items {
        headed(out, rule, whole, false, case.body.first, &case.body)?;
    }
    Ok(())
}
