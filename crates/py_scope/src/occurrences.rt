// The names that occur in statements.

ghost use Rattle.std.specs.Prelude.{◌≡◌, ◌++◌, OnOk};
ghost use Rattle.py_syntax.specs.View.{plain_expr, plain_exprs, plain_pattern, plain_patterns};
ghost use Rattle.py_syntax.specs.View.{plain_aliases, plain_stmts, plain_kind, plain_suite};
ghost use Rattle.py_syntax.specs.View.{plain_opt_suite, plain_arms, plain_clauses, plain_cases};
ghost use Rattle.py_scope.specs.Occurrences.{in_aliases, declaring, in_bound};
ghost use Rattle.py_scope.specs.Occurrences.{in_target, in_targets};
ghost use Rattle.py_scope.specs.Occurrences.{in_pattern, in_patterns, occurrences, in_kind};
ghost use Rattle.py_scope.specs.Occurrences.{in_suite, in_opt, in_arms, in_clauses, in_cases};
ghost use Rattle.py_scope.specs.Parts.{in_assignment, in_augmented, in_assertion, in_definition};

use crate::expressions::{expr, exprs, option};
use crate::occurrence::{Occurrence, push_assigned, push_declared, push_use};
use py_syntax::{Alias, Arm, Case, Clause, Expr, Pattern, Stmt, StmtKind, Suite};
use py_text::{NoMemory, Text};

#[cycle(target)]
fn target(out: &mut Vec<Occurrence>, e: &Expr) -> Result<(), NoMemory>
    ensures { OnOk result (out.new.items ≡ out.old.items ++ in_target (plain_expr e.now)) }
{
    match e {
        Expr::Name(x) => push_assigned(out, x),
        Expr::Int(_) | Expr::Str(_) | Expr::FStr(_) | Expr::None | Expr::Bool(_) => expr(out, e),
        Expr::Tuple { items, .. } => targets(out, items),
        Expr::List { items, .. } => targets(out, items),
        Expr::Dict { .. } => expr(out, e),
        Expr::Paren(inner) => target(out, inner),
        Expr::Not(_)
        | Expr::And(_, _)
        | Expr::Or(_, _)
        | Expr::Unary(_, _)
        | Expr::Binary(_, _, _)
        | Expr::Compare(_, _)
        | Expr::Cond { .. }
        | Expr::Call { .. }
        | Expr::Index(_, _)
        | Expr::Slice { .. }
        | Expr::Attr(_, _) => expr(out, e),
    }
}

#[cycle(target)]
fn targets(out: &mut Vec<Occurrence>, items: &[Expr]) -> Result<(), NoMemory>
    ensures { OnOk result (out.new.items ≡ out.old.items ++ in_targets (plain_exprs items.now)) }
{
    for e in items {
        target(out, e)?;
    }
    Ok(())
}

#[cycle(pattern)]
fn pattern(out: &mut Vec<Occurrence>, p: &Pattern) -> Result<(), NoMemory>
    ensures { OnOk result (out.new.items ≡ out.old.items ++ in_pattern (plain_pattern p.now)) }
{
    match p {
        Pattern::Literal { minus: _, value: _ } => Ok(()),
        Pattern::Capture(x) => push_assigned(out, x),
        Pattern::Wild => Ok(()),
        Pattern::Member(name, _) => push_use(out, name),
        Pattern::Sequence {
            brackets: _,
            items,
            comma: _,
        } => patterns(out, items),
        Pattern::Or(alternatives) => patterns(out, alternatives),
        Pattern::As(inner, x) => {
            pattern(out, inner)?;
            push_assigned(out, x)
        }
        Pattern::Paren(inner) => pattern(out, inner),
    }
}

#[cycle(pattern)]
fn patterns(out: &mut Vec<Occurrence>, items: &[Pattern]) -> Result<(), NoMemory>
    ensures { OnOk result (out.new.items ≡ out.old.items
        ++ in_patterns (plain_patterns items.now)) }
{
    for p in items {
        pattern(out, p)?;
    }
    Ok(())
}

fn aliases(out: &mut Vec<Occurrence>, names: &[Alias]) -> Result<(), NoMemory>
    ensures { OnOk result (out.new.items ≡ out.old.items ++ in_aliases (plain_aliases names.now)) }
{
    for alias in names {
        match &alias.bound {
            Some(name) => push_assigned(out, name)?,
            None => push_assigned(out, &alias.name)?,
        }
    }
    Ok(())
}

fn declared(out: &mut Vec<Occurrence>, names: &[Text], line: u32) -> Result<(), NoMemory>
    ensures { OnOk result (out.new.items ≡ out.old.items ++ declaring line names.now) }
{
    for name in names {
        push_declared(out, name, line)?;
    }
    Ok(())
}

fn bound(out: &mut Vec<Occurrence>, name: &Option<Text>) -> Result<(), NoMemory>
    ensures { OnOk result (out.new.items ≡ out.old.items ++ in_bound name.now) }
{
    match name {
        None => Ok(()),
        Some(x) => push_assigned(out, x),
    }
}

/// Takes the names that occur in these statements.
#[cycle(statements)]
pub(crate) fn statements(out: &mut Vec<Occurrence>, items: &[Stmt]) -> Result<(), NoMemory>
    ensures { OnOk result (out.new.items ≡ out.old.items ++ occurrences (plain_stmts items.now)) }
{
    for s in items {
        statement(out, s.first, &s.kind)?;
    }
    Ok(())
}

#[cycle(statements)]
fn statement(out: &mut Vec<Occurrence>, line: u32, kind: &StmtKind) -> Result<(), NoMemory>
    ensures { OnOk result (out.new.items ≡ out.old.items ++ in_kind line (plain_kind kind.now)) }
{
    match kind {
        StmtKind::Expr(e) => expr(out, e),
        StmtKind::Assign { targets: to, value } => assignment(out, to, value),
        StmtKind::AugAssign { place, value, .. } => augmented(out, place, value),
        StmtKind::Pass | StmtKind::Break | StmtKind::Continue => Ok(()),
        StmtKind::Return(e) => option(out, e),
        StmtKind::Raise(e) => option(out, e),
        StmtKind::Assert(test, why) => assertion(out, test, why),
        StmtKind::Global(names) => declared(out, names, line),
        StmtKind::Import(names) => aliases(out, names),
        StmtKind::From(_, names) => aliases(out, names),
        StmtKind::If { arms, orelse } => {
            branches(out, arms)?;
            opt(out, orelse)
        }
        StmtKind::While { test, body, orelse } => {
            expr(out, test)?;
            suite(out, body)?;
            opt(out, orelse)
        }
        StmtKind::For {
            target: to,
            over,
            body,
            orelse,
        } => {
            target(out, to)?;
            expr(out, over)?;
            suite(out, body)?;
            opt(out, orelse)
        }
        StmtKind::Try {
            body,
            clauses,
            orelse,
            finally,
        } => {
            suite(out, body)?;
            handlers(out, clauses)?;
            opt(out, orelse)?;
            opt(out, finally)
        }
        StmtKind::Def { name, defaults, .. } => definition(out, name, defaults),
        StmtKind::Match { subject, cases, .. } => {
            expr(out, subject)?;
            choices(out, cases)
        }
    }
}

fn assignment(out: &mut Vec<Occurrence>, to: &[Expr], value: &Expr) -> Result<(), NoMemory>
    ensures { OnOk result (out.new.items ≡ out.old.items ++ in_assignment to.now value.now) }
{
    targets(out, to)?;
    expr(out, value)
}

fn augmented(out: &mut Vec<Occurrence>, place: &Expr, value: &Expr) -> Result<(), NoMemory>
    ensures { OnOk result (out.new.items ≡ out.old.items ++ in_augmented place.now value.now) }
{
    target(out, place)?;
    expr(out, value)
}

fn assertion(out: &mut Vec<Occurrence>, test: &Expr, why: &Option<Expr>) -> Result<(), NoMemory>
    ensures { OnOk result (out.new.items ≡ out.old.items ++ in_assertion test.now why.now) }
{
    expr(out, test)?;
    option(out, why)
}

fn definition(out: &mut Vec<Occurrence>, name: &Text, defaults: &[Expr]) -> Result<(), NoMemory>
    ensures { OnOk result (out.new.items ≡ out.old.items ++ in_definition name.now defaults.now) }
{
    push_assigned(out, name)?;
    exprs(out, defaults)
}

#[cycle(statements)]
fn suite(out: &mut Vec<Occurrence>, s: &Suite) -> Result<(), NoMemory>
    ensures { OnOk result (out.new.items ≡ out.old.items ++ in_suite (plain_suite s.now)) }
{
    statements(out, &s.body)
}

#[cycle(statements)]
fn opt(out: &mut Vec<Occurrence>, s: &Option<Suite>) -> Result<(), NoMemory>
    ensures { OnOk result (out.new.items ≡ out.old.items ++ in_opt (plain_opt_suite s.now)) }
{
    match s {
        None => Ok(()),
        Some(s) => suite(out, s),
    }
}

#[cycle(statements)]
fn branches(out: &mut Vec<Occurrence>, items: &[Arm]) -> Result<(), NoMemory>
    ensures { OnOk result (out.new.items ≡ out.old.items ++ in_arms (plain_arms items.now)) }
{
    for arm in items {
        expr(out, &arm.test)?;
        suite(out, &arm.body)?;
    }
    Ok(())
}

#[cycle(statements)]
fn handlers(out: &mut Vec<Occurrence>, items: &[Clause]) -> Result<(), NoMemory>
    ensures { OnOk result (out.new.items ≡ out.old.items ++ in_clauses (plain_clauses items.now)) }
{
    for clause in items {
        option(out, &clause.kind)?;
        bound(out, &clause.name)?;
        suite(out, &clause.body)?;
    }
    Ok(())
}

#[cycle(statements)]
fn choices(out: &mut Vec<Occurrence>, items: &[Case]) -> Result<(), NoMemory>
    ensures { OnOk result (out.new.items ≡ out.old.items ++ in_cases (plain_cases items.now)) }
{
    for case in items {
        pattern(out, &case.pattern)?;
        option(out, &case.guard)?;
        suite(out, &case.body)?;
    }
    Ok(())
}
