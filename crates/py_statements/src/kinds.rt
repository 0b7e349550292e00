// Kinds of statements, in boxes, and what stands in boxes in them.

ghost use Rattle.std.specs.Prelude.{◌≡◌, IfOk, option_map};
ghost use Rattle.py_syntax.specs.View.{plain_expr, plain_exprs};
ghost use Rattle.py_syntax.specs.Tree.{aug_assign, assert, match};
ghost use Rattle.py_statements.specs.Machine.{assigned, left};
ghost use Rattle.py_statements.specs.ViewSuiteOf.{boxed_expr, boxed_kind, of_match};

use crate::lists::has_exprs;
use crate::suite_of::{PartialMatch, SuiteOf};
use py_operator::BinOp;
use py_syntax::{Expr, StmtKind};
use py_text::NoMemory;
use std::alloc::Global;

/// A kind of statement in a box.
pub fn boxed(alloc: Global, kind: StmtKind) -> Result<Box<StmtKind>, NoMemory>
    ensures { IfOk result (λ b. b.value ≡ kind) }
{
    Ok(Box::new(alloc, kind)?)
}

/// What a suite belongs to in a box.
pub fn boxed_suite_of(alloc: Global, suite_of: SuiteOf) -> Result<Box<SuiteOf>, NoMemory>
    ensures { IfOk result (λ b. b.value ≡ suite_of) }
{
    Ok(Box::new(alloc, suite_of)?)
}

/// An expression out of its box.
pub fn unboxed(expr: Option<Box<Expr>>) -> Option<Expr>
    ensures { option_map plain_expr result ≡ option_map boxed_expr expr }
{
    match expr {
        None => None,
        Some(expr) => Some(Box::into_inner(expr)),
    }
}

/// An assignment, or an expression statement where it has no targets.
pub fn assigned(
    alloc: Global,
    targets: Vec<Expr>,
    value: Box<Expr>,
) -> Result<Box<StmtKind>, NoMemory>
    ensures { IfOk result (λ k.
        boxed_kind k ≡ assigned (plain_exprs targets.items) (boxed_expr value)) }
{
    let value = Box::into_inner(value);
    if has_exprs(&targets) {
        boxed(alloc, StmtKind::Assign { targets, value })
    } else {
        boxed(alloc, StmtKind::Expr(value))
    }
}

/// An augmented assignment.
pub fn augmented(
    alloc: Global,
    place: Box<Expr>,
    op: BinOp,
    value: Box<Expr>,
) -> Result<Box<StmtKind>, NoMemory>
    ensures { IfOk result (λ k.
        boxed_kind k ≡ aug_assign (boxed_expr place) op (boxed_expr value)) }
{
    let place = Box::into_inner(place);
    let value = Box::into_inner(value);
    boxed(alloc, StmtKind::AugAssign { place, op, value })
}

/// A `raise` or a `return`.
pub fn left(
    alloc: Global,
    raises: bool,
    value: Option<Box<Expr>>,
) -> Result<Box<StmtKind>, NoMemory>
    ensures { IfOk result (λ k. boxed_kind k ≡ left raises (option_map boxed_expr value)) }
{
    let value = unboxed(value);
    if raises {
        boxed(alloc, StmtKind::Raise(value))
    } else {
        boxed(alloc, StmtKind::Return(value))
    }
}

/// An `assert`.
pub fn asserted(
    alloc: Global,
    test: Box<Expr>,
    reason: Option<Box<Expr>>,
) -> Result<Box<StmtKind>, NoMemory>
    ensures { IfOk result (λ k.
        boxed_kind k ≡ assert (boxed_expr test) (option_map boxed_expr reason)) }
{
    let test = Box::into_inner(test);
    boxed(alloc, StmtKind::Assert(test, unboxed(reason)))
}

/// The `match` statement with its cases.
pub fn matched(alloc: Global, partial_match: Box<PartialMatch>) -> Result<Box<StmtKind>, NoMemory>
    ensures { IfOk result (λ k. boxed_kind k ≡ of_match match partial_match) }
{
    let PartialMatch {
        subject,
        header_last,
        cases,
    } = Box::into_inner(partial_match);
    let kind = StmtKind::Match {
        subject,
        header_last,
        cases,
    };
    boxed(alloc, kind)
}
