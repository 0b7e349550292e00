//! The names that the imports of a module name, in the order of the text.

ghost use Rattle.std.specs.Prelude.{◌≡◌, OnOk};
ghost use Rattle.py_syntax.specs.Names.{add_name, add_names};
ghost use Rattle.py_syntax.specs.View.{plain_aliases, plain_arms, plain_cases, plain_clauses, plain_kind, plain_opt_suite, plain_stmts, plain_suite};
ghost use Rattle.py_meaning.specs.Loading.{imported, imported_in, alias_modules, opt_imported, arms_imported, clauses_imported, cases_imported};
ghost use Rattle.cov_run.specs.Imports.{suite_imported};

use py_scope::NameSet;
use py_syntax::{Alias, Arm, Case, Clause, Stmt, StmtKind, Suite};
use py_text::NoMemory;
use std::alloc::Global;

/// Adds the module names that the imports of these statements name.
#[cycle(imports)]
pub(crate) fn add_imported(
    alloc: Global,
    names: &mut NameSet,
    items: &[Stmt],
) -> Result<(), NoMemory>
    ensures { OnOk result (names.new
        ≡ add_names names.old (imported (plain_stmts items.now))) }
{
    for s in items {
        statement(alloc, names, &s.kind)?;
    }
    Ok(())
}

#[cycle(imports)]
#[tactic(auto, unfolding(py_meaning::specs::Loading::imported_in))]
fn statement(alloc: Global, names: &mut NameSet, kind: &StmtKind) -> Result<(), NoMemory>
    ensures { OnOk result (names.new
        ≡ add_names names.old (imported_in (plain_kind kind.now))) }
{
    match kind {
        StmtKind::Expr(_)
        | StmtKind::Assign { .. }
        | StmtKind::AugAssign { .. }
        | StmtKind::Pass
        | StmtKind::Break
        | StmtKind::Continue
        | StmtKind::Return(_)
        | StmtKind::Raise(_)
        | StmtKind::Assert(_, _)
        | StmtKind::Global(_) => Ok(()),
        StmtKind::Import(modules) => aliases(alloc, names, modules),
        StmtKind::From(module, _) => {
            names.insert(alloc, module)?;
            Ok(())
        }
        StmtKind::If { arms, orelse } => {
            in_arms(alloc, names, arms)?;
            in_optional(alloc, names, orelse)
        }
        StmtKind::While { body, orelse, .. } => {
            in_suite(alloc, names, body)?;
            in_optional(alloc, names, orelse)
        }
        StmtKind::For { body, orelse, .. } => {
            in_suite(alloc, names, body)?;
            in_optional(alloc, names, orelse)
        }
        StmtKind::Try {
            body,
            clauses,
            orelse,
            finally,
        } => {
            in_suite(alloc, names, body)?;
            in_clauses(alloc, names, clauses)?;
            in_optional(alloc, names, orelse)?;
            in_optional(alloc, names, finally)
        }
        StmtKind::Def { body, .. } => in_suite(alloc, names, body),
        StmtKind::Match { cases, .. } => in_cases(alloc, names, cases),
    }
}

fn aliases(alloc: Global, names: &mut NameSet, items: &[Alias]) -> Result<(), NoMemory>
    ensures { OnOk result (names.new
        ≡ add_names names.old (alias_modules (plain_aliases items.now))) }
{
    for alias in items {
        names.insert(alloc, &alias.name)?;
    }
    Ok(())
}

#[cycle(imports)]
fn in_suite(alloc: Global, names: &mut NameSet, s: &Suite) -> Result<(), NoMemory>
    ensures { OnOk result (names.new
        ≡ add_names names.old (suite_imported (plain_suite s.now))) }
{
    add_imported(alloc, names, &s.body)
}

#[cycle(imports)]
#[tactic(auto, unfolding(py_meaning::specs::Loading::opt_imported))]
fn in_optional(alloc: Global, names: &mut NameSet, s: &Option<Suite>) -> Result<(), NoMemory>
    ensures { OnOk result (names.new
        ≡ add_names names.old (opt_imported (plain_opt_suite s.now))) }
{
    match s {
        None => Ok(()),
        Some(s) => in_suite(alloc, names, s),
    }
}

#[cycle(imports)]
fn in_arms(alloc: Global, names: &mut NameSet, items: &[Arm]) -> Result<(), NoMemory>
    ensures { OnOk result (names.new
        ≡ add_names names.old (arms_imported (plain_arms items.now))) }
{
    for arm in items {
        in_suite(alloc, names, &arm.body)?;
    }
    Ok(())
}

#[cycle(imports)]
fn in_clauses(alloc: Global, names: &mut NameSet, items: &[Clause]) -> Result<(), NoMemory>
    ensures { OnOk result (names.new
        ≡ add_names names.old (clauses_imported (plain_clauses items.now))) }
{
    for clause in items {
        in_suite(alloc, names, &clause.body)?;
    }
    Ok(())
}

#[cycle(imports)]
fn in_cases(alloc: Global, names: &mut NameSet, items: &[Case]) -> Result<(), NoMemory>
    ensures { OnOk result (names.new
        ≡ add_names names.old (cases_imported (plain_cases items.now))) }
{
    for case in items {
        in_suite(alloc, names, &case.body)?;
    }
    Ok(())
}
