// Statements go on after a suite.

ghost use Rattle.std.specs.Prelude.{◌≡◌, IfOk};
ghost use Rattle.py_syntax.specs.Tree.{no_suite, has_suite, if', while, for};
ghost use Rattle.py_syntax.specs.Kinds.{Word};
ghost use Rattle.py_token.specs.declared.token.Keyword.TheVariants as word;
ghost use Rattle.py_syntax.specs.View.{plain_expr, plain_kind, plain_suite, plain_opt_suite};
ghost use Rattle.py_syntax.specs.View.{plain_arms};
ghost use Rattle.py_statements.specs.Open.{an_else};
ghost use Rattle.py_statements.specs.Machine.{ColonWanted, is_whole};
ghost use Rattle.py_statements.specs.ViewSuiteOf.{boxed_kind, try_of, finally_of, view_else_of};
ghost use Rattle.py_statements.specs.ViewStates.{view_place};
ghost use Rattle.py_statements.specs.ViewParts.{IsPart, IsPartAt};

use crate::kinds::{boxed, boxed_suite_of};
use crate::lists::has_clauses;
use crate::places::Place;
use crate::purposes::Continuation;
use crate::suite_of::{ElseOf, PartialTry, SuiteOf};
use py_syntax::{Arm, Expr, StmtKind, Suite};
use py_text::NoMemory;
use py_token::{Keyword, Token, TokenKind};
use std::alloc::Global;

/// What a token is to a compound statement: a further part begins with it, or the statement is
/// whole.
pub enum Part {
    Next(Place),
    Whole(Box<StmtKind>),
}

/// The `else` suite of a statement is wanted.
fn else_wanted(alloc: Global, else_of: ElseOf) -> Result<Place, NoMemory>
    ensures { IfOk result (λ p. view_place p ≡ ColonWanted (an_else (view_else_of else_of))) }
{
    Ok(Place::ColonWanted(boxed_suite_of(alloc, SuiteOf::Else(else_of))?))
}

/// The `finally` suite of a `try` is wanted.
fn finally_wanted(
    alloc: Global,
    partial_try: PartialTry,
    orelse: Option<Suite>,
) -> Result<Place, NoMemory>
    ensures { IfOk result (λ p.
        view_place p ≡ ColonWanted (finally_of partial_try (plain_opt_suite orelse))) }
{
    Ok(Place::ColonWanted(boxed_suite_of(alloc, SuiteOf::Finally(partial_try, orelse))?))
}

fn after_if(alloc: Global, arms: Vec<Arm>, token: &Token) -> Result<Part, NoMemory>
    ensures { IsPartAt token.now (if' (plain_arms arms.items) no_suite) result }
{
    match &token.kind {
        TokenKind::Keyword(Keyword::Elif) => {
            Ok(Part::Next(Place::Wanted(Continuation::ArmTest(arms))))
        }
        TokenKind::Keyword(Keyword::Else) => {
            Ok(Part::Next(else_wanted(alloc, ElseOf::If(arms))?))
        }
        _ => Ok(Part::Whole(boxed(alloc, StmtKind::If { arms, orelse: None })?)),
    }
}

fn after_while(alloc: Global, test: Expr, body: Suite, token: &Token) -> Result<Part, NoMemory>
    ensures { IsPartAt token.now (while (plain_expr test) (plain_suite body) no_suite) result }
{
    match &token.kind {
        TokenKind::Keyword(Keyword::Else) => {
            Ok(Part::Next(else_wanted(alloc, ElseOf::While(test, body))?))
        }
        _ => {
            let kind = StmtKind::While {
                test,
                body,
                orelse: None,
            };
            Ok(Part::Whole(boxed(alloc, kind)?))
        }
    }
}

fn after_for(
    alloc: Global,
    target: Expr,
    over: Expr,
    body: Suite,
    token: &Token,
) -> Result<Part, NoMemory>
    ensures { IsPartAt token.now
        (for (plain_expr target) (plain_expr over) (plain_suite body) no_suite) result }
{
    match &token.kind {
        TokenKind::Keyword(Keyword::Else) => {
            Ok(Part::Next(else_wanted(alloc, ElseOf::For(target, over, body))?))
        }
        _ => {
            let kind = StmtKind::For {
                target,
                over,
                body,
                orelse: None,
            };
            Ok(Part::Whole(boxed(alloc, kind)?))
        }
    }
}

/// After the `else` suite of a `try`.
fn after_try_else(
    alloc: Global,
    partial_try: PartialTry,
    orelse: Suite,
    token: &Token,
) -> Result<Part, NoMemory>
    ensures { IsPartAt token.now
        (try_of partial_try (has_suite (plain_suite orelse)) no_suite) result }
{
    match &token.kind {
        TokenKind::Keyword(Keyword::Finally) => {
            Ok(Part::Next(finally_wanted(alloc, partial_try, Some(orelse))?))
        }
        _ => Ok(Part::Whole(partial_try.tried(alloc, Some(orelse), None)?)),
    }
}

/// An `else` after the clauses of a `try`, where it has any.
fn try_else(alloc: Global, partial_try: PartialTry) -> Result<Part, NoMemory>
    ensures { IsPart (try_of partial_try no_suite no_suite) (Word word.Else) result }
{
    if has_clauses(&partial_try.clauses) {
        Ok(Part::Next(else_wanted(alloc, ElseOf::Try(partial_try))?))
    } else {
        Ok(Part::Whole(partial_try.tried(alloc, None, None)?))
    }
}

/// After the suite or a clause of a `try`.
fn after_clauses(alloc: Global, partial_try: PartialTry, token: &Token) -> Result<Part, NoMemory>
    ensures { IsPartAt token.now (try_of partial_try no_suite no_suite) result }
{
    match &token.kind {
        TokenKind::Keyword(Keyword::Except) => Ok(Part::Next(Place::Except(partial_try))),
        TokenKind::Keyword(Keyword::Else) => try_else(alloc, partial_try),
        TokenKind::Keyword(Keyword::Finally) => {
            Ok(Part::Next(finally_wanted(alloc, partial_try, None)?))
        }
        _ => Ok(Part::Whole(partial_try.tried(alloc, None, None)?)),
    }
}

/// After a suite of a `try` that has no `finally`.
fn after_try(
    alloc: Global,
    partial_try: PartialTry,
    orelse: Option<Suite>,
    token: &Token,
) -> Result<Part, NoMemory>
    ensures { IsPartAt token.now (try_of partial_try (plain_opt_suite orelse) no_suite) result }
{
    match orelse {
        Some(orelse) => after_try_else(alloc, partial_try, orelse, token),
        None => after_clauses(alloc, partial_try, token),
    }
}

/// What the token after a suite is to its statement.
pub fn next_part(alloc: Global, kind: Box<StmtKind>, token: &Token) -> Result<Part, NoMemory>
    ensures { IsPartAt token.now (boxed_kind kind) result }
{
    match Box::into_inner(kind) {
        StmtKind::If { arms, orelse: None } => after_if(alloc, arms, token),
        StmtKind::While {
            test,
            body,
            orelse: None,
        } => after_while(alloc, test, body, token),
        StmtKind::For {
            target,
            over,
            body,
            orelse: None,
        } => after_for(alloc, target, over, body, token),
        StmtKind::Try {
            body,
            clauses,
            orelse,
            finally: None,
        } => after_try(alloc, PartialTry { body, clauses }, orelse, token),
        whole @ (StmtKind::Expr(_)
        | StmtKind::Assign { .. }
        | StmtKind::AugAssign { .. }
        | StmtKind::Pass
        | StmtKind::Break
        | StmtKind::Continue
        | StmtKind::Return(_)
        | StmtKind::Raise(_)
        | StmtKind::Assert(_, _)
        | StmtKind::Global(_)
        | StmtKind::Import(_)
        | StmtKind::From(_, _)
        | StmtKind::If { .. }
        | StmtKind::While { .. }
        | StmtKind::For { .. }
        | StmtKind::Try { .. }
        | StmtKind::Def { .. }
        | StmtKind::Match { .. }) => Ok(Part::Whole(boxed(alloc, whole)?)),
    }
}

/// Whether a statement has all that it needs: a `try` needs a clause or a `finally`.
pub fn is_whole(kind: &StmtKind) -> bool
    ensures { result ≡ is_whole (plain_kind kind.now) }
{
    match kind {
        StmtKind::Expr(_) => true,
        StmtKind::Assign { .. } => true,
        StmtKind::AugAssign { .. } => true,
        StmtKind::Pass => true,
        StmtKind::Break => true,
        StmtKind::Continue => true,
        StmtKind::Return(_) => true,
        StmtKind::Raise(_) => true,
        StmtKind::Assert(_, _) => true,
        StmtKind::Global(_) => true,
        StmtKind::Import(_) => true,
        StmtKind::From(_, _) => true,
        StmtKind::If { .. } => true,
        StmtKind::While { .. } => true,
        StmtKind::For { .. } => true,
        StmtKind::Try {
            clauses,
            finally: None,
            ..
        } => has_clauses(clauses),
        StmtKind::Try { .. } => true,
        StmtKind::Def { .. } => true,
        StmtKind::Match { .. } => true,
    }
}
