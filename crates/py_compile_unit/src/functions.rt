// The functions of a module, in the order of the text.

ghost use Rattle.std.specs.Prelude.{◌≡◌, [], ◌∷◌, ◌++◌, map, IfOk, OnOk};
ghost use Rattle.py_syntax.specs.View.{plain_stmts, plain_kind, plain_suite, plain_opt_suite};
ghost use Rattle.py_syntax.specs.View.{plain_arms, plain_clauses, plain_cases, plain_module};
ghost use Rattle.py_syntax.specs.View.{plain_exprs};
ghost use Rattle.py_compile.specs.Definitions.{definitions, definitions_in, opt_definitions};
ghost use Rattle.py_compile.specs.Definitions.{arms_definitions, clauses_definitions};
ghost use Rattle.py_compile.specs.Definitions.{cases_definitions};
ghost use Rattle.py_compile_unit.specs.Defs.{definition_of, line_of, defined, suite_definitions};

use py_syntax::{Arm, Case, Clause, Expr, Module, Stmt, StmtKind, Suite};
use py_text::{NoMemory, Text};
use std::alloc::Global;

/// A `def` of a text.
#[derive(Clone, Copy)]
pub struct Def<'a> {
    pub line: u32,
    pub name: &'a Text,
    pub params: &'a [Text],
    pub defaults: &'a [Expr],
    pub body: &'a [Stmt],
}

/// The functions of a module.
pub fn functions_of<'a>(alloc: Global, module: &'a Module) -> Result<Vec<Def<'a>>, NoMemory>
    ensures { IfOk result (λ v. map definition_of v.items
        ≡ definitions (plain_module «module».now)) }
{
    let mut found = Vec::new(alloc);
    statements(&mut found, &module.body)?;
    Ok(found)
}

/// Adds the functions of statements. None is looked for in a function.
#[cycle(functions)]
fn statements<'a>(found: &mut Vec<Def<'a>>, items: &'a [Stmt]) -> Result<(), NoMemory>
    ensures { OnOk result (map definition_of found.new.items
        ≡ map definition_of found.old.items ++ definitions (plain_stmts items.now)) }
{
    for s in items {
        statement(found, s.first, &s.kind)?;
    }
    Ok(())
}

#[cycle(functions)]
fn statement<'a>(found: &mut Vec<Def<'a>>, line: u32, kind: &'a StmtKind) -> Result<(), NoMemory>
    ensures { OnOk result (map definition_of found.new.items
        ≡ map definition_of found.old.items ++ definitions_in line (plain_kind kind.now)) }
{
    match kind {
        StmtKind::Expr(_)
        | StmtKind::Assign { .. }
        | StmtKind::AugAssign { .. }
        | StmtKind::Pass
        | StmtKind::Break
        | StmtKind::Continue
        | StmtKind::Return(_)
        | StmtKind::Raise(_)
        | StmtKind::Assert(_, _)
        | StmtKind::Global(_)
        | StmtKind::Import(_)
        | StmtKind::From(_, _) => Ok(()),
        StmtKind::If { arms, orelse } => {
            in_arms(found, arms)?;
            in_optional(found, orelse)
        }
        StmtKind::While { body, orelse, .. } => {
            in_suite(found, body)?;
            in_optional(found, orelse)
        }
        StmtKind::For { body, orelse, .. } => {
            in_suite(found, body)?;
            in_optional(found, orelse)
        }
        StmtKind::Try {
            body,
            clauses,
            orelse,
            finally,
        } => {
            in_suite(found, body)?;
            in_clauses(found, clauses)?;
            in_optional(found, orelse)?;
            in_optional(found, finally)
        }
        StmtKind::Def {
            name,
            params,
            defaults,
            body,
            ..
        } => function(found, line, name, params, defaults, body),
        StmtKind::Match { cases, .. } => in_cases(found, cases),
    }
}

/// Adds a function whose `def` begins on the line.
fn function<'a>(
    found: &mut Vec<Def<'a>>,
    line: u32,
    name: &'a Text,
    params: &'a [Text],
    defaults: &'a [Expr],
    body: &'a Suite,
) -> Result<(), NoMemory>
    ensures { OnOk result (map definition_of found.new.items
        ≡ map definition_of found.old.items
        ++ defined line name.now params.now (plain_exprs defaults.now) (plain_suite body.now)
        ∷ []) }
{
    found.push(Def {
        line,
        name,
        params,
        defaults,
        body: &body.body,
    })?;
    Ok(())
}

#[cycle(functions)]
fn in_suite<'a>(found: &mut Vec<Def<'a>>, s: &'a Suite) -> Result<(), NoMemory>
    ensures { OnOk result (map definition_of found.new.items
        ≡ map definition_of found.old.items ++ suite_definitions (plain_suite s.now)) }
{
    statements(found, &s.body)
}

#[cycle(functions)]
fn in_optional<'a>(found: &mut Vec<Def<'a>>, s: &'a Option<Suite>) -> Result<(), NoMemory>
    ensures { OnOk result (map definition_of found.new.items
        ≡ map definition_of found.old.items ++ opt_definitions (plain_opt_suite s.now)) }
{
    match s {
        None => Ok(()),
        Some(s) => in_suite(found, s),
    }
}

#[cycle(functions)]
fn in_arms<'a>(found: &mut Vec<Def<'a>>, items: &'a [Arm]) -> Result<(), NoMemory>
    ensures { OnOk result (map definition_of found.new.items
        ≡ map definition_of found.old.items ++ arms_definitions (plain_arms items.now)) }
{
    for arm in items {
        in_suite(found, &arm.body)?;
    }
    Ok(())
}

#[cycle(functions)]
fn in_clauses<'a>(found: &mut Vec<Def<'a>>, items: &'a [Clause]) -> Result<(), NoMemory>
    ensures { OnOk result (map definition_of found.new.items
        ≡ map definition_of found.old.items ++ clauses_definitions (plain_clauses items.now)) }
{
    for clause in items {
        in_suite(found, &clause.body)?;
    }
    Ok(())
}

#[cycle(functions)]
fn in_cases<'a>(found: &mut Vec<Def<'a>>, items: &'a [Case]) -> Result<(), NoMemory>
    ensures { OnOk result (map definition_of found.new.items
        ≡ map definition_of found.old.items ++ cases_definitions (plain_cases items.now)) }
{
    for case in items {
        in_suite(found, &case.body)?;
    }
    Ok(())
}

/// The lines of `def`s.
pub fn lines_of(alloc: Global, defs: &[Def]) -> Result<Vec<u32>, NoMemory>
    ensures { IfOk result (λ v. v.items ≡ map line_of (map definition_of defs.now)) }
{
    let mut lines = Vec::new(alloc);
    for def in defs {
        lines.push(def.line)?;
    }
    Ok(lines)
}
