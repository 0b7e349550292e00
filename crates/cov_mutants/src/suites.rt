// One more item of the parts of a statement, whose suite may want memory.

ghost use Rattle.std.specs.Prelude.{OnOk};
ghost use Rattle.std.specs.Result.{IsOkAnd};
ghost use Rattle.std.specs.Option.{option_map};
ghost use Rattle.py_syntax.specs.Tree.{stmt, arm, clause, case};
ghost use Rattle.py_syntax.specs.View.{plain_expr, plain_pattern, plain_kind, plain_suite};
ghost use Rattle.cov_mutants_expr.specs.Rows.{Added};
ghost use Rattle.cov_places.specs.ItemRows.{put_stmt, put_arm, put_clause, put_case};

use crate::kinds::optional;
use py_syntax::{Arm, Case, Clause, Expr, LineEnd, Pattern, Stmt, StmtKind, Suite};
use py_text::{NoMemory, Text};

pub(crate) fn add_stmt(
    out: &mut Vec<Stmt>,
    first: u32,
    last: u32,
    kind: Result<Box<StmtKind>, NoMemory>,
    end: LineEnd,
) -> Result<(), NoMemory>
    ensures { OnOk result (IsOkAnd kind (λ k. Added put_stmt out.old.items out.new.items
        (stmt first last (plain_kind k.value) end))) }
{
    let kind = kind?;
    let kind = Box::into_inner(kind);
    out.push(Stmt {
        first,
        last,
        kind,
        end,
    })?;
    Ok(())
}

pub(crate) fn add_arm(
    out: &mut Vec<Arm>,
    test: Box<Expr>,
    body: Result<Suite, NoMemory>,
) -> Result<(), NoMemory>
    ensures { OnOk result (IsOkAnd body (λ s. Added put_arm out.old.items out.new.items
        (arm (plain_expr test.value) (plain_suite s)))) }
{
    let body = body?;
    let test = Box::into_inner(test);
    out.push(Arm { test, body })?;
    Ok(())
}

pub(crate) fn add_clause(
    out: &mut Vec<Clause>,
    kind: Option<Expr>,
    name: &Option<Text>,
    body: Result<Suite, NoMemory>,
) -> Result<(), NoMemory>
    ensures { OnOk result (IsOkAnd body (λ s. Added put_clause out.old.items out.new.items
        (clause (option_map plain_expr kind) name.now (plain_suite s)))) }
{
    let name = optional(name)?;
    let body = body?;
    out.push(Clause { kind, name, body })?;
    Ok(())
}

pub(crate) fn add_case(
    out: &mut Vec<Case>,
    pattern: Box<Pattern>,
    guard: Option<Expr>,
    body: Result<Suite, NoMemory>,
) -> Result<(), NoMemory>
    ensures { OnOk result (IsOkAnd body (λ s. Added put_case out.old.items out.new.items
        (case (plain_pattern pattern.value) (option_map plain_expr guard) (plain_suite s)))) }
{
    let body = body?;
    let pattern = Box::into_inner(pattern);
    out.push(Case {
        pattern,
        guard,
        body,
    })?;
    Ok(())
}
