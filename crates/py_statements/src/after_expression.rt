// What comes after an expression or a pattern.

ghost use Rattle.std.specs.Prelude.{◌≡◌, false, IfOk};
ghost use Rattle.py_syntax.specs.View.{plain_expr, plain_exprs};
ghost use Rattle.py_grammar.specs.Machine.{snoc};
ghost use Rattle.py_statements.specs.Machine.{asserted, for_target, clause_kind, subject};
ghost use Rattle.py_statements.specs.Machine.{in_place_op, after_value, after_default, resume};
ghost use Rattle.py_statements.specs.Machine.{resume_pattern, after_target, end_header};
ghost use Rattle.py_syntax.specs.Tree.{no_exprs};
ghost use Rattle.py_statements.specs.ViewLists.{is_equal_sign};
ghost use Rattle.py_statements.specs.ViewStates.{default_of, param_of, kind_at};
ghost use Rattle.py_statements.specs.ViewStates.{Continues, ContinuesTo, MakesAt};
ghost use Rattle.py_statements.specs.ViewSuiteOf.{boxed_expr, boxed_pattern, of_match};
ghost use Rattle.py_statements.specs.ViewSuiteOf.{of_signature, of_try, view_suite_of};

use crate::kinds::{asserted, assigned, boxed, boxed_suite_of};
use crate::lists::{Class, has_exprs, is_a};
use crate::places::{Place, State};
use crate::purposes::Continuation;
use crate::statement_end::{end_header, end_made};
use crate::suite_of::{PartialMatch, PartialTry, Signature, SuiteOf};
use crate::suite_stack::{Span, SuiteStack};
use crate::targets::{is_place, is_target};
use py_operator::BinOp;
use py_syntax::{Expr, Pattern, StmtKind};
use py_text::{NoMemory, Text};
use py_token::{Keyword, Mark, Token, TokenKind};
use std::alloc::Global;

fn in_place_op(token: &Token) -> Option<BinOp>
    ensures { result ≡ in_place_op (kind_at token.now) }
{
    match &token.kind {
        TokenKind::Mark(Mark::PlusEqual) => Some(BinOp::Add),
        TokenKind::Mark(Mark::MinusEqual) => Some(BinOp::Sub),
        TokenKind::Mark(Mark::StarEqual) => Some(BinOp::Mul),
        TokenKind::Mark(Mark::DoubleSlashEqual) => Some(BinOp::Floor),
        TokenKind::Mark(Mark::PercentEqual) => Some(BinOp::Mod),
        // Any other token assigns in no place.
        _ => None,
    }
}

/// An expression more.
pub fn add_expr(exprs: Vec<Expr>, expr: Expr) -> Result<Vec<Expr>, NoMemory>
    ensures { IfOk result (λ r.
        plain_exprs r.items ≡ snoc (plain_exprs exprs.items) (plain_expr expr)) }
{
    let mut exprs = exprs;
    exprs.push(expr)?;
    Ok(exprs)
}

/// After an expression that may be one more target.
fn after_target(
    targets: Vec<Expr>,
    expr: Box<Expr>,
    span: Span,
    suites: SuiteStack,
    token: &Token,
) -> Result<Option<State>, NoMemory>
    ensures { Continues token.now (after_target (plain_exprs targets.items) (boxed_expr expr))
        span suites result }
{
    if !is_target(&expr) {
        return Ok(None);
    }
    let targets = add_expr(targets, Box::into_inner(expr))?;
    Ok(Some(State::At(
        Place::Wanted(Continuation::Value(targets)),
        span.onward(token.last),
        suites,
    )))
}

/// After an expression that is no target.
fn after_last(
    alloc: Global,
    expr: Box<Expr>,
    span: Span,
    suites: SuiteStack,
    token: &Token,
) -> Result<Option<State>, NoMemory>
    requires { is_equal_sign (kind_at token.now) ≡ false }
    ensures { Continues token.now (after_value no_exprs (boxed_expr expr)) span suites result }
{
    let Some(op) = in_place_op(token) else {
        let kind = StmtKind::Expr(Box::into_inner(expr));
        return end_made(alloc, boxed(alloc, kind), span, suites, token);
    };
    if !is_place(&expr) {
        return Ok(None);
    }
    Ok(Some(State::At(
        Place::Wanted(Continuation::Augmented(expr, op)),
        span.onward(token.last),
        suites,
    )))
}

/// After an expression, and targets in front of it.
pub fn after_value(
    alloc: Global,
    targets: Vec<Expr>,
    expr: Box<Expr>,
    span: Span,
    suites: SuiteStack,
    token: &Token,
) -> Result<Option<State>, NoMemory>
    ensures { Continues token.now (after_value (plain_exprs targets.items) (boxed_expr expr))
        span suites result }
{
    if is_a(token, Class::EqualSign) {
        after_target(targets, expr, span, suites, token)
    } else if has_exprs(&targets) {
        end_made(alloc, assigned(alloc, targets, expr), span, suites, token)
    } else {
        after_last(alloc, expr, span, suites, token)
    }
}

/// After a parameter that has a default, or after others that have none.
fn after_default(
    alloc: Global,
    signature: Signature,
    span: Span,
    suites: SuiteStack,
    token: &Token,
) -> Result<Option<State>, NoMemory>
    ensures { Continues token.now (of_signature after_default signature) span suites result }
{
    if is_a(token, Class::Comma) {
        return Ok(Some(State::At(
            Place::ParamWanted(signature),
            span.onward(token.last),
            suites,
        )));
    }
    if !is_a(token, Class::RightParen) {
        return Ok(None);
    }
    let suite_of = boxed_suite_of(alloc, SuiteOf::Def(signature, false))?;
    Ok(Some(State::At(
        Place::ColonWanted(suite_of),
        span.onward(token.last),
        suites,
    )))
}

/// After a parameter with no default.
pub fn after_param(
    alloc: Global,
    signature: Signature,
    param: Text,
    span: Span,
    suites: SuiteStack,
    token: &Token,
) -> Result<Option<State>, NoMemory>
    ensures { MakesAt token.now (param_of signature param) span suites result }
{
    if is_a(token, Class::EqualSign) {
        return Ok(Some(State::At(
            Place::Wanted(Continuation::Default(signature, param)),
            span.onward(token.last),
            suites,
        )));
    }
    if has_exprs(&signature.defaults) {
        return Ok(None);
    }
    let signature = signature.with_param(param)?;
    after_default(alloc, signature, span, suites, token)
}

/// After the test of an `assert`.
pub fn after_test(
    alloc: Global,
    test: Box<Expr>,
    span: Span,
    suites: SuiteStack,
    token: &Token,
) -> Result<Option<State>, NoMemory>
    ensures { Continues token.now (resume asserted (boxed_expr test)) span suites result }
{
    if is_a(token, Class::Comma) {
        return Ok(Some(State::At(
            Place::Wanted(Continuation::Reason(test)),
            span.onward(token.last),
            suites,
        )));
    }
    end_made(alloc, asserted(alloc, test, None), span, suites, token)
}

/// After the target of a `for`.
pub fn after_for_target(
    target: Box<Expr>,
    span: Span,
    suites: SuiteStack,
    token: &Token,
) -> Option<State>
    ensures { ContinuesTo token.now (resume for_target (boxed_expr target)) span suites result }
{
    match &token.kind {
        TokenKind::Keyword(Keyword::In) => Some(State::At(
            Place::Wanted(Continuation::ForOver(target)),
            span.onward(token.last),
            suites,
        )),
        // Any other token: only `in` stands after the target of a `for`.
        _ => None,
    }
}

/// After the kind of an `except` clause.
pub fn after_kind(
    alloc: Global,
    partial_try: PartialTry,
    kind: Box<Expr>,
    span: Span,
    suites: SuiteStack,
    token: &Token,
) -> Result<Option<State>, NoMemory>
    ensures { Continues token.now (resume (of_try clause_kind partial_try) (boxed_expr kind))
        span suites result }
{
    match &token.kind {
        TokenKind::Keyword(Keyword::As) => Ok(Some(State::At(
            Place::ClauseBound(partial_try, kind),
            span.onward(token.last),
            suites,
        ))),
        // Any other token: the clause binds no name, and its header ends.
        _ => {
            let suite_of = SuiteOf::Clause(partial_try, Some(kind), None);
            after_header(alloc, suite_of, span, suites, token)
        }
    }
}

/// After the subject of a `match`.
pub fn after_subject(of: Box<Expr>, span: Span, suites: SuiteStack, token: &Token) -> Option<State>
    ensures { ContinuesTo token.now (resume subject (boxed_expr of)) span suites result }
{
    match &token.kind {
        TokenKind::Mark(Mark::Colon) => Some(State::At(
            Place::MatchLine(of, token.last),
            span.onward(token.last),
            suites,
        )),
        // Any other token: the header of a `match` ends in a colon alone.
        _ => None,
    }
}

/// After the pattern of a `case`.
pub fn resume_pattern(
    alloc: Global,
    partial_match: Box<PartialMatch>,
    pattern: Box<Pattern>,
    span: Span,
    suites: SuiteStack,
    token: &Token,
) -> Result<Option<State>, NoMemory>
    ensures { Continues token.now (of_match resume_pattern partial_match (boxed_pattern pattern))
        span suites result }
{
    match &token.kind {
        TokenKind::Keyword(Keyword::If) => Ok(Some(State::At(
            Place::Wanted(Continuation::Guard(partial_match, pattern)),
            span.onward(token.last),
            suites,
        ))),
        // Any other token: the case has no guard, and its header ends.
        _ => {
            let suite_of = SuiteOf::Case(partial_match, pattern, None);
            after_header(alloc, suite_of, span, suites, token)
        }
    }
}

/// After the default of a parameter.
pub fn after_param_default(
    alloc: Global,
    signature: Signature,
    param: Text,
    value: Box<Expr>,
    span: Span,
    suites: SuiteStack,
    token: &Token,
) -> Result<Option<State>, NoMemory>
    ensures { Continues token.now (resume (default_of signature param) (boxed_expr value))
        span suites result }
{
    let signature = signature.with_param(param)?;
    let signature = signature.with_default(Box::into_inner(value))?;
    after_default(alloc, signature, span, suites, token)
}

/// After a header whose suite is this one's.
pub fn after_header(
    alloc: Global,
    suite_of: SuiteOf,
    span: Span,
    suites: SuiteStack,
    token: &Token,
) -> Result<Option<State>, NoMemory>
    ensures { Continues token.now (end_header (view_suite_of suite_of)) span suites result }
{
    let suite_of = boxed_suite_of(alloc, suite_of)?;
    Ok(end_header(suite_of, span, suites, token))
}
