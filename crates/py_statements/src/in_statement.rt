// A token inside a statement or a header.

ghost use Rattle.std.specs.Prelude.{ℕ, option_map};
ghost use Rattle.py_syntax.specs.Kinds.{Kind};
ghost use Rattle.py_statements.specs.Machine.{Semicolon, Leaving, NameWanted, NameRead};
ghost use Rattle.py_statements.specs.Machine.{BoundWanted, ModuleWanted, ImportWanted};
ghost use Rattle.py_statements.specs.Machine.{FunctionWanted, ParamsWanted, ParamWanted, Except};
ghost use Rattle.py_statements.specs.Machine.{SuiteWanted, IndentWanted, MatchLine, MatchBlock};
ghost use Rattle.py_statements.specs.ViewStates.{view_listed, view_state, ActsAs, ActsAt, MakesAt};
ghost use Rattle.py_statements.specs.ViewStates.{TurnsAt, TurnsInto, bound_of};
ghost use Rattle.py_statements.specs.ViewSuiteOf.{boxed_expr, boxed_kind, boxed_suite_of};
ghost use Rattle.py_statements.specs.ViewSuiteOf.{of_signature, of_try};

use crate::after_expression::after_header;
use crate::kinds::{boxed_suite_of, left};
use crate::lists::{Class, has_names, is_a, name_in};
use crate::names::{after_name, may_bind};
use crate::places::{Listed, Place, State, Turn};
use crate::purposes::Continuation;
use crate::statement_end::{end_line, end_made};
use crate::statement_start::begin_simple;
use crate::suite_of::{PartialMatch, PartialTry, Signature, SuiteOf};
use crate::suite_stack::{Span, SuiteStack};
use py_syntax::{Expr, LineEnd, StmtKind};
use py_text::{NoMemory, Text};
use py_token::{Keyword, Mark, Token, TokenKind};
use std::alloc::Global;

/// To the state, where there is one.
pub fn turn(state: Option<State>) -> Turn
    ensures { (t : Kind) → (f l : ℕ) → ActsAs t f l (option_map view_state state) result }
{
    match state {
        Some(state) => Turn::Next(state),
        None => Turn::Stuck,
    }
}

/// The same, where memory lasts.
pub fn turned(made: Result<Option<State>, NoMemory>) -> Result<Turn, NoMemory>
    ensures { TurnsInto made result }
{
    match made {
        Ok(state) => Ok(turn(state)),
        Err(error) => Err(error),
    }
}

/// After the semicolon of a simple statement.
pub fn after_semicolon(
    alloc: Global,
    kind: Box<StmtKind>,
    span: Span,
    suites: SuiteStack,
    token: &Token,
) -> Result<Turn, NoMemory>
    ensures { ActsAt token.now (Semicolon (boxed_kind kind)) span suites result }
{
    if is_a(token, Class::Newline) {
        return Ok(Turn::Next(end_line(alloc, kind, true, span, suites, token.last)?));
    }
    let suites = suites.add(
        span.begun,
        span.last,
        kind,
        LineEnd {
            semicolon: true,
            newline: false,
        },
    )?;
    begin_simple(alloc, suites, token)
}

/// After `return` or `raise`.
pub fn after_leaving(
    alloc: Global,
    raises: bool,
    span: Span,
    suites: SuiteStack,
    token: &Token,
) -> Result<Turn, NoMemory>
    ensures { ActsAt token.now (Leaving raises) span suites result }
{
    if is_a(token, Class::SimpleEnd) {
        let kind = left(alloc, raises, None);
        return turned(end_made(alloc, kind, span, suites, token));
    }
    Ok(Turn::Reads(
        Continuation::Leaving(raises),
        span.onward(token.last),
        suites,
    ))
}

/// Where a listed name is wanted.
pub fn at_name(
    names: Listed,
    span: Span,
    suites: SuiteStack,
    token: &Token,
) -> Result<Turn, NoMemory>
    ensures { ActsAt token.now (NameWanted (view_listed names)) span suites result }
{
    match &token.kind {
        TokenKind::Name(name) => Ok(Turn::Next(State::At(
            Place::NameRead(names, name.copy()?),
            span.onward(token.last),
            suites,
        ))),
        _ => Ok(Turn::Stuck),
    }
}

/// After a listed name.
pub fn after_listed(
    alloc: Global,
    names: Listed,
    name: Text,
    span: Span,
    suites: SuiteStack,
    token: &Token,
) -> Result<Option<State>, NoMemory>
    ensures { MakesAt token.now (NameRead (view_listed names) name) span suites result }
{
    match &token.kind {
        TokenKind::Keyword(Keyword::As) => {
            if !may_bind(&names) {
                drop(name);
                return Ok(None);
            }
            Ok(Some(State::At(
                Place::BoundWanted(names, name),
                span.onward(token.last),
                suites,
            )))
        }
        _ => {
            let names = names.with_name(name, None)?;
            after_name(alloc, names, span, suites, token)
        }
    }
}

/// After the `as` of a listed name.
pub fn at_bound(
    names: Listed,
    name: Text,
    span: Span,
    suites: SuiteStack,
    token: &Token,
) -> Result<Turn, NoMemory>
    ensures { ActsAt token.now (BoundWanted (view_listed names) name) span suites result }
{
    let Some(bound) = name_in(token)? else {
        drop(name);
        return Ok(Turn::Stuck);
    };
    let names = names.with_name(name, Some(bound))?;
    Ok(Turn::Next(State::At(Place::BoundRead(names), span.onward(token.last), suites)))
}

/// After `from`.
pub fn at_module(span: Span, suites: SuiteStack, token: &Token) -> Result<Turn, NoMemory>
    ensures { ActsAt token.now ModuleWanted span suites result }
{
    match &token.kind {
        TokenKind::Name(name) => Ok(Turn::Next(State::At(
            Place::ImportWanted(name.copy()?),
            span.onward(token.last),
            suites,
        ))),
        _ => Ok(Turn::Stuck),
    }
}

/// After the module of a `from`.
pub fn after_module(
    alloc: Global,
    name: Text,
    span: Span,
    suites: SuiteStack,
    token: &Token,
) -> Turn
    ensures { TurnsAt token.now (ImportWanted name) span suites result }
{
    match &token.kind {
        TokenKind::Keyword(Keyword::Import) => Turn::Next(State::At(
            Place::NameWanted(Listed::Froms(name, Vec::new(alloc))),
            span.onward(token.last),
            suites,
        )),
        _ => Turn::Stuck,
    }
}

/// After `def`.
pub fn at_function(span: Span, suites: SuiteStack, token: &Token) -> Result<Turn, NoMemory>
    ensures { ActsAt token.now FunctionWanted span suites result }
{
    match &token.kind {
        TokenKind::Name(name) => Ok(Turn::Next(State::At(
            Place::ParamsWanted(name.copy()?),
            span.onward(token.last),
            suites,
        ))),
        _ => Ok(Turn::Stuck),
    }
}

/// After the name of a `def`.
pub fn at_params(alloc: Global, name: Text, span: Span, suites: SuiteStack, token: &Token) -> Turn
    ensures { TurnsAt token.now (ParamsWanted name) span suites result }
{
    match &token.kind {
        TokenKind::Mark(Mark::LeftParen) => {
            let signature = Signature {
                name,
                params: Vec::new(alloc),
                defaults: Vec::new(alloc),
            };
            Turn::Next(State::At(
                Place::ParamWanted(signature),
                span.onward(token.last),
                suites,
            ))
        }
        _ => Turn::Stuck,
    }
}

/// Where a parameter may come.
pub fn at_param(
    alloc: Global,
    signature: Signature,
    span: Span,
    suites: SuiteStack,
    token: &Token,
) -> Result<Turn, NoMemory>
    ensures { ActsAt token.now (of_signature ParamWanted signature) span suites result }
{
    if let Some(param) = name_in(token)? {
        return Ok(Turn::Next(State::At(
            Place::ParamRead(signature, param),
            span.onward(token.last),
            suites,
        )));
    }
    if !is_a(token, Class::RightParen) {
        return Ok(Turn::Stuck);
    }
    let comma = has_names(&signature.params);
    let suite_of = boxed_suite_of(alloc, SuiteOf::Def(signature, comma))?;
    Ok(Turn::Next(State::At(
        Place::ColonWanted(suite_of),
        span.onward(token.last),
        suites,
    )))
}

/// After `except`.
pub fn after_except(
    alloc: Global,
    partial_try: PartialTry,
    span: Span,
    suites: SuiteStack,
    token: &Token,
) -> Result<Turn, NoMemory>
    ensures { ActsAt token.now (of_try Except partial_try) span suites result }
{
    if is_a(token, Class::Colon) {
        return turned(after_header(
            alloc,
            SuiteOf::Clause(partial_try, None, None),
            span,
            suites,
            token,
        ));
    }
    Ok(Turn::Reads(
        Continuation::ClauseKind(partial_try),
        span.onward(token.last),
        suites,
    ))
}

/// After the `as` of a clause.
pub fn at_clause_name(
    alloc: Global,
    partial_try: PartialTry,
    kind: Box<Expr>,
    span: Span,
    suites: SuiteStack,
    token: &Token,
) -> Result<Turn, NoMemory>
    ensures { ActsAt token.now (bound_of partial_try (boxed_expr kind)) span suites result }
{
    let Some(name) = name_in(token)? else {
        return Ok(Turn::Stuck);
    };
    let suite_of = boxed_suite_of(alloc, SuiteOf::Clause(partial_try, Some(kind), Some(name)))?;
    Ok(Turn::Next(State::At(
        Place::ColonWanted(suite_of),
        span.onward(token.last),
        suites,
    )))
}

/// After the colon of a header.
pub fn at_suite(
    alloc: Global,
    suite_of: Box<SuiteOf>,
    span: Span,
    suites: SuiteStack,
    token: &Token,
) -> Result<Turn, NoMemory>
    ensures { ActsAt token.now (SuiteWanted (boxed_suite_of suite_of)) span suites result }
{
    if is_a(token, Class::Newline) {
        return Ok(Turn::Next(State::At(Place::IndentWanted(suite_of), span, suites)));
    }
    let suites = suites.opened(alloc, true, span, suite_of)?;
    begin_simple(alloc, suites, token)
}

/// Where a block is wanted.
pub fn at_block(
    alloc: Global,
    suite_of: Box<SuiteOf>,
    span: Span,
    suites: SuiteStack,
    token: &Token,
) -> Result<Option<State>, NoMemory>
    ensures { MakesAt token.now (IndentWanted (boxed_suite_of suite_of)) span suites result }
{
    if !is_a(token, Class::Indent) {
        return Ok(None);
    }
    Ok(Some(State::Line(suites.opened(alloc, false, span, suite_of)?)))
}

/// After the colon of a `match` header.
pub fn at_match_line(
    subject: Box<Expr>,
    header_last: u32,
    span: Span,
    suites: SuiteStack,
    token: &Token,
) -> Turn
    ensures { TurnsAt token.now (MatchLine (boxed_expr subject) header_last) span suites result }
{
    match &token.kind {
        TokenKind::Newline => Turn::Next(State::At(
            Place::MatchBlock(subject, header_last),
            span,
            suites,
        )),
        _ => Turn::Stuck,
    }
}

/// Where the block of its cases is wanted.
pub fn at_match_block(
    alloc: Global,
    subject: Box<Expr>,
    header_last: u32,
    span: Span,
    suites: SuiteStack,
    token: &Token,
) -> Result<Turn, NoMemory>
    ensures { ActsAt token.now (MatchBlock (boxed_expr subject) header_last) span suites result }
{
    match &token.kind {
        TokenKind::Indent => {
            let partial_match = PartialMatch {
                subject: Box::into_inner(subject),
                header_last,
                cases: Vec::new(alloc),
            };
            let partial_match = Box::new(alloc, partial_match)?;
            Ok(Turn::Next(State::Choosing(partial_match, span.begun, suites)))
        }
        _ => Ok(Turn::Stuck),
    }
}
