// Copies of simple statements, with the change of the mutant that a search reaches in them.

ghost use Rattle.std.specs.Prelude.{IfOk};
ghost use Rattle.std.specs.Option.{option_map};
ghost use Rattle.py_syntax.specs.Tree.{expr, assign, aug_assign, return, raise, assert};
ghost use Rattle.py_syntax.specs.View.{plain_expr, plain_exprs, plain_kind};
ghost use Rattle.py_changes.specs.Mutants.{kind_mutants};
ghost use Rattle.cov_mutants_expr.specs.Search.{Copied};
ghost use Rattle.cov_mutants.specs.MarksView.{marked};

use crate::kinds;
use crate::marks::Marks;
use py_operator::BinOp;
use py_syntax::{Expr, StmtKind};
use py_text::NoMemory;
use std::alloc::Global;

pub(crate) fn expression(
    alloc: Global,
    line: u32,
    e: &Expr,
    at: &mut Marks,
) -> Result<Box<StmtKind>, NoMemory>
    ensures { IfOk result (λ b. Copied (kind_mutants line) (marked at.old) (marked at.new)
        (expr (plain_expr e.now)) (plain_kind b.value)) }
{
    kinds::expr_of(alloc, at.expr(alloc, line, e))
}

pub(crate) fn assignment(
    alloc: Global,
    line: u32,
    targets: &[Expr],
    value: &Expr,
    at: &mut Marks,
) -> Result<Box<StmtKind>, NoMemory>
    ensures { IfOk result (λ b. Copied (kind_mutants line) (marked at.old) (marked at.new)
        (assign (plain_exprs targets.now) (plain_expr value.now)) (plain_kind b.value)) }
{
    let targets = at.exprs(alloc, line, targets)?;
    kinds::assign_of(alloc, targets, at.expr(alloc, line, value))
}

pub(crate) fn augmented(
    alloc: Global,
    line: u32,
    place: &Expr,
    op: BinOp,
    value: &Expr,
    at: &mut Marks,
) -> Result<Box<StmtKind>, NoMemory>
    ensures { IfOk result (λ b. Copied (kind_mutants line) (marked at.old) (marked at.new)
        (aug_assign (plain_expr place.now) op (plain_expr value.now)) (plain_kind b.value)) }
{
    let place = at.expr(alloc, line, place)?;
    let op = at.augmented(line, op);
    kinds::aug_assign_of(alloc, place, op, at.expr(alloc, line, value))
}

pub(crate) fn returning(
    alloc: Global,
    line: u32,
    e: &Option<Expr>,
    at: &mut Marks,
) -> Result<Box<StmtKind>, NoMemory>
    ensures { IfOk result (λ b. Copied (kind_mutants line) (marked at.old) (marked at.new)
        (return (option_map plain_expr e.now)) (plain_kind b.value)) }
{
    kinds::return_of(alloc, at.maybe(alloc, line, e))
}

pub(crate) fn raising(
    alloc: Global,
    line: u32,
    e: &Option<Expr>,
    at: &mut Marks,
) -> Result<Box<StmtKind>, NoMemory>
    ensures { IfOk result (λ b. Copied (kind_mutants line) (marked at.old) (marked at.new)
        (raise (option_map plain_expr e.now)) (plain_kind b.value)) }
{
    kinds::raise_of(alloc, at.maybe(alloc, line, e))
}

pub(crate) fn assertion(
    alloc: Global,
    line: u32,
    test: &Expr,
    why: &Option<Expr>,
    at: &mut Marks,
) -> Result<Box<StmtKind>, NoMemory>
    ensures { IfOk result (λ b. Copied (kind_mutants line) (marked at.old) (marked at.new)
        (assert (plain_expr test.now) (option_map plain_expr why.now)) (plain_kind b.value)) }
{
    let test = at.expr(alloc, line, test)?;
    kinds::assert_of(alloc, test, at.maybe(alloc, line, why))
}
