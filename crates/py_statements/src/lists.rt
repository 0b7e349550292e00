// Whether lists are empty, and what single tokens are.

ghost use Rattle.std.specs.Prelude.{◌≡◌};
ghost use Rattle.py_token.specs.View.{view_kind};
ghost use Rattle.py_syntax.specs.Kinds.{bare_kind};
ghost use Rattle.py_syntax.specs.View.{plain_exprs, plain_arms, plain_clauses, plain_cases};
ghost use Rattle.py_statements.specs.Listed.{is_some};
ghost use Rattle.py_statements.specs.ViewLists.{some_exprs, some_arms, some_clauses, some_cases};
ghost use Rattle.py_statements.specs.ViewLists.{IsNameIn, is_a, is_case};
ghost use Rattle.py_statements.specs.ViewStates.{kind_at};

use crate::match_headers::is_case_name;
use py_syntax::{Arm, Case, Clause, Expr};
use py_text::{NoMemory, Text};
use py_token::{Mark, Token, TokenKind};

pub fn has_exprs(exprs: &[Expr]) -> bool
    ensures { result ≡ some_exprs (plain_exprs exprs.now) }
{
    !exprs.is_empty()
}

pub fn has_arms(arms: &[Arm]) -> bool
    ensures { result ≡ some_arms (plain_arms arms.now) }
{
    !arms.is_empty()
}

pub fn has_clauses(clauses: &[Clause]) -> bool
    ensures { result ≡ some_clauses (plain_clauses clauses.now) }
{
    !clauses.is_empty()
}

pub fn has_cases(cases: &[Case]) -> bool
    ensures { result ≡ some_cases (plain_cases cases.now) }
{
    !cases.is_empty()
}

pub fn has_names(names: &[Text]) -> bool
    ensures { result ≡ is_some names.now }
{
    !names.is_empty()
}

/// The name that the token is.
pub fn name_in(token: &Token) -> Result<Option<Text>, NoMemory>
    ensures { IsNameIn (kind_at token.now) result }
{
    match &token.kind {
        TokenKind::Name(name) => Ok(Some(name.copy()?)),
        _ => Ok(None),
    }
}

/// What a token may be.
#[derive(Clone, Copy)]
pub enum Class {
    Comma,
    Colon,
    Semicolon,
    EqualSign,
    RightParen,
    Newline,
    Indent,
    Dedent,
    End,
    /// What ends a simple statement.
    SimpleEnd,
    /// What a logical line may begin after.
    LineEnd,
}

pub fn is_a(token: &Token, class: Class) -> bool
    ensures { result ≡ is_a class (kind_at token.now) }
{
    match class {
        Class::Comma => matches!(&token.kind, TokenKind::Mark(Mark::Comma)),
        Class::Colon => matches!(&token.kind, TokenKind::Mark(Mark::Colon)),
        Class::Semicolon => matches!(&token.kind, TokenKind::Mark(Mark::Semicolon)),
        Class::EqualSign => matches!(&token.kind, TokenKind::Mark(Mark::Equal)),
        Class::RightParen => matches!(&token.kind, TokenKind::Mark(Mark::RightParen)),
        Class::Newline => matches!(&token.kind, TokenKind::Newline),
        Class::Indent => matches!(&token.kind, TokenKind::Indent),
        Class::Dedent => matches!(&token.kind, TokenKind::Dedent),
        Class::End => matches!(&token.kind, TokenKind::End),
        Class::SimpleEnd => {
            matches!(
                &token.kind,
                TokenKind::Mark(Mark::Semicolon) | TokenKind::Newline
            )
        }
        Class::LineEnd => {
            matches!(
                &token.kind,
                TokenKind::Newline | TokenKind::Indent | TokenKind::Dedent
            )
        }
    }
}

/// Whether it is the name `case`.
pub fn is_case(kind: &TokenKind) -> bool
    ensures { result ≡ is_case (bare_kind (view_kind kind.now)) }
{
    match kind {
        TokenKind::Name(name) => is_case_name(name),
        _ => false,
    }
}
