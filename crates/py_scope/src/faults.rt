// The walk over a module that finds its faults and its functions.

ghost use Rattle.std.specs.Prelude.{◌≡◌, not, ◌&&◌, ◌||◌, OnOk};
ghost use Rattle.py_syntax.specs.View.{plain_pattern, plain_stmts, plain_kind, plain_suite};
ghost use Rattle.py_syntax.specs.View.{plain_opt_suite, plain_arms, plain_clauses, plain_cases};
ghost use Rattle.py_scope.specs.Parts.{clause_part, case_part, function_part};
ghost use Rattle.py_scope.specs.Faults.{◌&◌, blame_case, findings, kind_findings};
ghost use Rattle.py_scope.specs.Faults.{suite_findings, function_findings, opt_findings};
ghost use Rattle.py_scope.specs.Faults.{arms_findings, clauses_findings, cases_findings};

use crate::error::ScopeError;
use crate::lists::has_repeats;
use crate::patterns::{PatternFacts, pattern_facts, push_names};
use crate::place::Place;
use crate::report::Report;
use py_syntax::{Arm, Case, Clause, Pattern, Stmt, StmtKind, Suite};
use py_text::{NoMemory, Text};
use std::alloc::Global;

/// Finds what there is in these statements.
#[cycle(walk)]
pub(crate) fn statements(
    alloc: Global,
    report: &mut Report,
    at: Place,
    items: &[Stmt],
) -> Result<(), NoMemory>
    ensures { OnOk result (report.new ≡ report.old & findings at (plain_stmts items.now)) }
{
    for s in items {
        statement(alloc, report, at, s.first, &s.kind)?;
    }
    Ok(())
}

#[cycle(walk)]
fn statement(
    alloc: Global,
    report: &mut Report,
    at: Place,
    line: u32,
    kind: &StmtKind,
) -> Result<(), NoMemory>
    ensures { OnOk result (report.new ≡ report.old & kind_findings at line (plain_kind kind.now)) }
{
    match kind {
        StmtKind::Expr(_) | StmtKind::Assign { .. } | StmtKind::AugAssign { .. } | StmtKind::Pass =>
            Ok(()),
        StmtKind::Break | StmtKind::Continue => report.blame(
            !at.looped,
            ScopeError::BreakOutside(line),
        ),
        StmtKind::Return(_) => report.blame(!at.function, ScopeError::ReturnOutside(line)),
        StmtKind::Raise(e) => report.blame(
            e.is_none() && !at.handled,
            ScopeError::ReturnOutside(line),
        ),
        StmtKind::Assert(_, _) | StmtKind::Global(_) | StmtKind::Import(_) | StmtKind::From(_, _) =>
            Ok(()),
        StmtKind::If { arms, orelse } => {
            branches(alloc, report, at, arms)?;
            opt(alloc, report, at, orelse)
        }
        StmtKind::While { body, orelse, .. } => {
            suite(alloc, report, at.in_loop(), body)?;
            opt(alloc, report, at, orelse)
        }
        StmtKind::For { body, orelse, .. } => {
            suite(alloc, report, at.in_loop(), body)?;
            opt(alloc, report, at, orelse)
        }
        StmtKind::Try {
            body,
            clauses,
            orelse,
            finally,
        } => {
            suite(alloc, report, at, body)?;
            handlers(alloc, report, at, clauses)?;
            opt(alloc, report, at, orelse)?;
            opt(alloc, report, at.in_finally(), finally)
        }
        StmtKind::Def { params, body, .. } => definition(alloc, report, at, line, params, body),
        StmtKind::Match { cases: list, .. } => cases(alloc, report, at, list),
    }
}

#[cycle(walk)]
fn suite(alloc: Global, report: &mut Report, at: Place, s: &Suite) -> Result<(), NoMemory>
    ensures { OnOk result (report.new ≡ report.old & suite_findings at (plain_suite s.now)) }
{
    statements(alloc, report, at, &s.body)
}

/// Finds what there is in a function that begins on the line.
#[cycle(walk)]
fn definition(
    alloc: Global,
    report: &mut Report,
    at: Place,
    line: u32,
    params: &[Text],
    body: &Suite,
) -> Result<(), NoMemory>
    ensures { OnOk result (report.new ≡ report.old & function_part at line params.now body.now) }
{
    report.blame(at.function, ScopeError::NestedFunction(line))?;
    let repeated = has_repeats(alloc, params)?;
    report.blame(repeated, ScopeError::TwiceNamed(line))?;
    function(alloc, report, params, body)
}

#[cycle(walk)]
fn function(
    alloc: Global,
    report: &mut Report,
    params: &[Text],
    body: &Suite,
) -> Result<(), NoMemory>
    ensures { OnOk result (report.new ≡ report.old
        & function_findings params.now (plain_suite body.now)) }
{
    report.function(alloc, params, &body.body)?;
    statements(alloc, report, Place::of_function(), &body.body)
}

#[cycle(walk)]
fn opt(alloc: Global, report: &mut Report, at: Place, s: &Option<Suite>) -> Result<(), NoMemory>
    ensures { OnOk result (report.new ≡ report.old & opt_findings at (plain_opt_suite s.now)) }
{
    match s {
        None => Ok(()),
        Some(s) => suite(alloc, report, at, s),
    }
}

#[cycle(walk)]
fn branches(alloc: Global, report: &mut Report, at: Place, items: &[Arm]) -> Result<(), NoMemory>
    ensures { OnOk result (report.new ≡ report.old & arms_findings at (plain_arms items.now)) }
{
    for arm in items {
        suite(alloc, report, at, &arm.body)?;
    }
    Ok(())
}

#[cycle(walk)]
fn handlers(alloc: Global, report: &mut Report, at: Place, items: &[Clause]) -> Result<(), NoMemory>
    ensures { OnOk result (report.new ≡ report.old
        & clauses_findings at (plain_clauses items.now)) }
{
    let mut later = items.len();
    for clause in items {
        later -= 1;
        one_clause(alloc, report, at, clause, later > 0)?;
    }
    Ok(())
}

#[cycle(walk)]
fn cases(alloc: Global, report: &mut Report, at: Place, items: &[Case]) -> Result<(), NoMemory>
    ensures { OnOk result (report.new ≡ report.old & cases_findings at (plain_cases items.now)) }
{
    let mut later = items.len();
    for case in items {
        later -= 1;
        one_case(alloc, report, at, case, later > 0)?;
    }
    Ok(())
}

/// `follows` says whether another clause does.
#[cycle(walk)]
fn one_clause(
    alloc: Global,
    report: &mut Report,
    at: Place,
    clause: &Clause,
    follows: bool,
) -> Result<(), NoMemory>
    ensures { OnOk result (report.new ≡ report.old & clause_part at clause.now follows) }
{
    let early = clause.kind.is_none() && follows;
    report.blame(early, ScopeError::EarlyIrrefutable(clause.body.first))?;
    suite(alloc, report, at.in_clause(), &clause.body)
}

/// `follows` says whether another case does.
#[cycle(walk)]
fn one_case(
    alloc: Global,
    report: &mut Report,
    at: Place,
    case: &Case,
    follows: bool,
) -> Result<(), NoMemory>
    ensures { OnOk result (report.new ≡ report.old & case_part at case.now follows) }
{
    header(
        alloc,
        report,
        case.body.first,
        &case.pattern,
        case.guard.is_some(),
        follows,
    )?;
    suite(alloc, report, at, &case.body)
}

/// Notes the faults of the header of a case; `follows` says whether another case does.
fn header(
    alloc: Global,
    report: &mut Report,
    line: u32,
    pattern: &Pattern,
    guarded: bool,
    follows: bool,
) -> Result<(), NoMemory>
    ensures { OnOk result (report.new ≡ report.old
        & blame_case line (plain_pattern pattern.now) guarded follows) }
{
    let facts = pattern_facts(pattern);
    report.blame(
        is_early(facts, guarded, follows),
        ScopeError::EarlyIrrefutable(line),
    )?;
    let mut names = Vec::new(alloc);
    push_names(&mut names, pattern)?;
    let repeated = has_repeats(alloc, &names)?;
    report.blame(
        repeated || facts.alternative_binds,
        ScopeError::TwiceNamed(line),
    )
}

fn is_early(facts: PatternFacts, guarded: bool, follows: bool) -> bool
    ensures { result ≡ (not guarded && (facts.irrefutable && follows)) || facts.early }
{
    (!guarded && facts.irrefutable && follows) || facts.early
}
