// Statements from their parts, of which the last may want memory.

ghost use Rattle.std.specs.Prelude.{◌≡◌, IfOk};
ghost use Rattle.std.specs.Result.{IsOkAnd};
ghost use Rattle.std.specs.Option.{option_map};
ghost use Rattle.py_syntax.specs.Tree.{expr, assign, aug_assign, return, raise, assert, global};
ghost use Rattle.py_syntax.specs.Tree.{import, from, if', while, for, try, def, match, suite};
ghost use Rattle.py_syntax.specs.View.{plain_expr, plain_exprs, plain_kind, plain_suite};
ghost use Rattle.py_syntax.specs.View.{plain_stmts, plain_opt_suite, plain_arms, plain_clauses};
ghost use Rattle.py_syntax.specs.View.{plain_cases, plain_alias, plain_aliases};
ghost use Rattle.py_syntax.specs.declared.stmt.Suite.{out-Suite};

use cov_mutants_expr::texts;
use py_operator::BinOp;
use py_syntax::{Alias, Arm, Case, Clause, Expr, Stmt, StmtKind, Suite};
use py_text::{NoMemory, Text};
use std::alloc::Global;

pub(crate) fn boxed(alloc: Global, kind: StmtKind) -> Result<Box<StmtKind>, NoMemory>
    ensures { IfOk result (λ b. b.value ≡ kind) }
{
    Ok(Box::new(alloc, kind)?)
}

pub(crate) fn expr_of(
    alloc: Global,
    e: Result<Box<Expr>, NoMemory>,
) -> Result<Box<StmtKind>, NoMemory>
    ensures { IfOk result (λ b. IsOkAnd e (λ p. plain_kind b.value ≡ expr (plain_expr p.value))) }
{
    let e = e?;
    boxed(alloc, StmtKind::Expr(Box::into_inner(e)))
}

pub(crate) fn assign_of(
    alloc: Global,
    targets: Vec<Expr>,
    value: Result<Box<Expr>, NoMemory>,
) -> Result<Box<StmtKind>, NoMemory>
    ensures { IfOk result (λ b. IsOkAnd value (λ p.
        plain_kind b.value ≡ assign (plain_exprs targets.items) (plain_expr p.value))) }
{
    let value = Box::into_inner(value?);
    boxed(alloc, StmtKind::Assign { targets, value })
}

pub(crate) fn aug_assign_of(
    alloc: Global,
    place: Box<Expr>,
    op: BinOp,
    value: Result<Box<Expr>, NoMemory>,
) -> Result<Box<StmtKind>, NoMemory>
    ensures { IfOk result (λ b. IsOkAnd value (λ p.
        plain_kind b.value ≡ aug_assign (plain_expr place.value) op (plain_expr p.value))) }
{
    let value = Box::into_inner(value?);
    let place = Box::into_inner(place);
    boxed(alloc, StmtKind::AugAssign { place, op, value })
}

pub(crate) fn return_of(
    alloc: Global,
    e: Result<Option<Expr>, NoMemory>,
) -> Result<Box<StmtKind>, NoMemory>
    ensures { IfOk result (λ b. IsOkAnd e (λ p.
        plain_kind b.value ≡ return (option_map plain_expr p))) }
{
    let e = e?;
    boxed(alloc, StmtKind::Return(e))
}

pub(crate) fn raise_of(
    alloc: Global,
    e: Result<Option<Expr>, NoMemory>,
) -> Result<Box<StmtKind>, NoMemory>
    ensures { IfOk result (λ b. IsOkAnd e (λ p.
        plain_kind b.value ≡ raise (option_map plain_expr p))) }
{
    let e = e?;
    boxed(alloc, StmtKind::Raise(e))
}

pub(crate) fn assert_of(
    alloc: Global,
    test: Box<Expr>,
    why: Result<Option<Expr>, NoMemory>,
) -> Result<Box<StmtKind>, NoMemory>
    ensures { IfOk result (λ b. IsOkAnd why (λ p.
        plain_kind b.value ≡ assert (plain_expr test.value) (option_map plain_expr p))) }
{
    let why = why?;
    boxed(alloc, StmtKind::Assert(Box::into_inner(test), why))
}

pub(crate) fn global_of(alloc: Global, names: &[Text]) -> Result<Box<StmtKind>, NoMemory>
    ensures { IfOk result (λ b. plain_kind b.value ≡ global names.now) }
{
    let names = texts(alloc, names)?;
    boxed(alloc, StmtKind::Global(names))
}

pub(crate) fn import_of(alloc: Global, names: &[Alias]) -> Result<Box<StmtKind>, NoMemory>
    ensures { IfOk result (λ b. plain_kind b.value ≡ import (plain_aliases names.now)) }
{
    let names = aliases(alloc, names)?;
    boxed(alloc, StmtKind::Import(names))
}

pub(crate) fn from_of(alloc: Global, of: &Text, names: &[Alias]) -> Result<Box<StmtKind>, NoMemory>
    ensures { IfOk result (λ b. plain_kind b.value ≡ from of.now (plain_aliases names.now)) }
{
    let of = of.copy()?;
    let names = aliases(alloc, names)?;
    boxed(alloc, StmtKind::From(of, names))
}

/// The same imported names.
fn aliases(alloc: Global, items: &[Alias]) -> Result<Vec<Alias>, NoMemory>
    ensures { IfOk result (λ out. plain_aliases out.items ≡ plain_aliases items.now) }
{
    let mut out = Vec::new(alloc);
    for item in items {
        let item = alias(item)?;
        out.push(item)?;
    }
    Ok(out)
}

fn alias(item: &Alias) -> Result<Alias, NoMemory>
    ensures { IfOk result (λ copy. plain_alias copy ≡ plain_alias item.now) }
{
    let name = item.name.copy()?;
    let bound = optional(&item.bound)?;
    Ok(Alias { name, bound })
}

/// The same name, where there is one.
pub(crate) fn optional(x: &Option<Text>) -> Result<Option<Text>, NoMemory>
    ensures { IfOk result (λ copy. copy ≡ x.now) }
{
    match x {
        None => Ok(None),
        Some(x) => Ok(Some(x.copy()?)),
    }
}

pub(crate) fn if_of(
    alloc: Global,
    arms: Vec<Arm>,
    orelse: Result<Option<Suite>, NoMemory>,
) -> Result<Box<StmtKind>, NoMemory>
    ensures { IfOk result (λ b. IsOkAnd orelse (λ p.
        plain_kind b.value ≡ if' (plain_arms arms.items) (plain_opt_suite p))) }
{
    let orelse = orelse?;
    boxed(alloc, StmtKind::If { arms, orelse })
}

pub(crate) fn while_of(
    alloc: Global,
    test: Box<Expr>,
    body: Suite,
    orelse: Result<Option<Suite>, NoMemory>,
) -> Result<Box<StmtKind>, NoMemory>
    ensures { IfOk result (λ b. IsOkAnd orelse (λ p.
        plain_kind b.value
        ≡ while (plain_expr test.value) (plain_suite body) (plain_opt_suite p))) }
{
    let orelse = orelse?;
    let test = Box::into_inner(test);
    boxed(alloc, StmtKind::While { test, body, orelse })
}

pub(crate) fn for_of(
    alloc: Global,
    target: Box<Expr>,
    over: Box<Expr>,
    body: Suite,
    orelse: Result<Option<Suite>, NoMemory>,
) -> Result<Box<StmtKind>, NoMemory>
    ensures { IfOk result (λ b. IsOkAnd orelse (λ p.
        plain_kind b.value ≡ for (plain_expr target.value) (plain_expr over.value)
        (plain_suite body) (plain_opt_suite p))) }
{
    let orelse = orelse?;
    boxed(
        alloc,
        StmtKind::For {
            target: Box::into_inner(target),
            over: Box::into_inner(over),
            body,
            orelse,
        },
    )
}

pub(crate) fn try_of(
    alloc: Global,
    body: Suite,
    clauses: Vec<Clause>,
    orelse: Option<Suite>,
    finally: Result<Option<Suite>, NoMemory>,
) -> Result<Box<StmtKind>, NoMemory>
    ensures { IfOk result (λ b. IsOkAnd finally (λ p.
        plain_kind b.value ≡ try (plain_suite body) (plain_clauses clauses.items)
        (plain_opt_suite orelse) (plain_opt_suite p))) }
{
    let finally = finally?;
    boxed(
        alloc,
        StmtKind::Try {
            body,
            clauses,
            orelse,
            finally,
        },
    )
}

pub(crate) fn def_of(
    alloc: Global,
    name: &Text,
    params: &[Text],
    defaults: Vec<Expr>,
    comma: bool,
    body: Result<Suite, NoMemory>,
) -> Result<Box<StmtKind>, NoMemory>
    ensures { IfOk result (λ b. IsOkAnd body (λ p.
        plain_kind b.value ≡ def name.now params.now (plain_exprs defaults.items) comma
        (plain_suite p))) }
{
    let name = name.copy()?;
    let params = texts(alloc, params)?;
    let body = body?;
    boxed(
        alloc,
        StmtKind::Def {
            name,
            params,
            defaults,
            comma,
            body,
        },
    )
}

pub(crate) fn match_of(
    alloc: Global,
    subject: Box<Expr>,
    header_last: u32,
    cases: Result<Vec<Case>, NoMemory>,
) -> Result<Box<StmtKind>, NoMemory>
    ensures { IfOk result (λ b. IsOkAnd cases (λ p.
        plain_kind b.value ≡ match (plain_expr subject.value) header_last (plain_cases p.items))) }
{
    let cases = cases?;
    let subject = Box::into_inner(subject);
    boxed(
        alloc,
        StmtKind::Match {
            subject,
            header_last,
            cases,
        },
    )
}

/// The suite of the same header with these statements.
pub(crate) fn suite_of(header: &Suite, body: Result<Vec<Stmt>, NoMemory>) -> Result<Suite, NoMemory>
    ensures { IfOk result (λ s. IsOkAnd body (λ p.
        plain_suite s ≡ suite (out-Suite header.now).first (out-Suite header.now).last
        (out-Suite header.now).inline (plain_stmts p.items))) }
{
    let body = body?;
    Ok(Suite {
        first: header.first,
        last: header.last,
        inline: header.inline,
        body,
    })
}
