//! The answers to a file that can't be read.

ghost use Rattle.std.specs.Prelude.{◌≡◌, ◌≢◌, Some, option_map};
ghost use Rattle.cov_why.specs.Answers.{RefusedAs};
ghost use Rattle.cov_why.specs.Answers as answer;
ghost use Rattle.cov_run.specs.declared.source.SourceError.TheVariants as source_error;
ghost use Rattle.cov_run.specs.Reading.{reading_of};
ghost use Rattle.cov_run.specs.Refusals.{fault_of, limit_of, refusal_of};

use crate::source::SourceError;
use cov_why::{LimitKind, SyntaxKind, Why};
use py_parse::{DepthKind, SyntaxError};
use py_scope::ScopeError;
use py_syntax::{HEIGHT_LIMIT, NESTING_LIMIT};
use py_token::TokenError;
use std::alloc::Global;

/// The answer to a source that can't be read.
pub(crate) fn refused(alloc: Global, path: &str, error: &SourceError) -> Why
    ensures { RefusedAs result (λ r. r ≢ answer.no_memory
        → refusal_of path.now (reading_of error.now) ≡ Some r) }
{
    match limit_of(error) {
        Some((kind, count)) => Why::Limit(kind, count),
        None => faulty(alloc, path, fault_of(error)),
    }
}

/// The limit that a source passes, with the count that is told of it.
fn limit_of(error: &SourceError) -> Option<(LimitKind, u64)>
    ensures { result ≡ limit_of (reading_of error.now) }
{
    match error {
        SourceError::NoText(_) => None,
        SourceError::Long(lines) => Some((LimitKind::Lines, *lines as u64)),
        SourceError::Tokens(_) => None,
        SourceError::Syntax(SyntaxError::Unexpected(_)) => None,
        SourceError::Syntax(SyntaxError::TooDeep(DepthKind::Expressions, _)) => {
            Some((LimitKind::Expressions, HEIGHT_LIMIT as u64 + 1))
        }
        SourceError::Syntax(SyntaxError::TooDeep(DepthKind::Suites, _)) => {
            Some((LimitKind::Suites, NESTING_LIMIT as u64 + 1))
        }
        SourceError::Syntax(SyntaxError::NoMemory) => None,
        SourceError::Scopes(_) => None,
    }
}

/// What is wrong with a source, and in which line.
fn fault_of(error: &SourceError) -> Option<(u32, SyntaxKind)>
    ensures { result ≡ fault_of (reading_of error.now) }
{
    match error {
        SourceError::NoText(line) => Some((*line, SyntaxKind::BadCharacter)),
        SourceError::Long(_) => None,
        SourceError::Tokens(error) => token_fault(error),
        SourceError::Syntax(SyntaxError::Unexpected(line)) => {
            Some((*line, SyntaxKind::Unexpected))
        }
        SourceError::Syntax(SyntaxError::TooDeep(..)) => None,
        SourceError::Syntax(SyntaxError::NoMemory) => None,
        SourceError::Scopes(error) => scope_fault(error),
    }
}

fn token_fault(error: &TokenError) -> Option<(u32, SyntaxKind)>
    ensures { result ≡ fault_of (reading_of (source_error.Tokens error.now)) }
{
    match error {
        TokenError::BadCharacter(line) => Some((*line, SyntaxKind::BadCharacter)),
        TokenError::BadIndent(line) => Some((*line, SyntaxKind::BadIndent)),
        TokenError::OpenString(line) => Some((*line, SyntaxKind::OpenString)),
        TokenError::OpenBracket(line) => Some((*line, SyntaxKind::OpenBracket)),
        TokenError::WideNumber(line) => Some((*line, SyntaxKind::WideNumber)),
        TokenError::NoMemory => None,
    }
}

fn scope_fault(error: &ScopeError) -> Option<(u32, SyntaxKind)>
    ensures { result ≡ fault_of (reading_of (source_error.Scopes error.now)) }
{
    match error {
        ScopeError::BreakOutside(line) => Some((*line, SyntaxKind::BreakOutside)),
        ScopeError::ReturnOutside(line) => Some((*line, SyntaxKind::ReturnOutside)),
        ScopeError::GlobalAfterUse(line) => Some((*line, SyntaxKind::GlobalAfterUse)),
        ScopeError::NestedFunction(line) => Some((*line, SyntaxKind::NestedFunction)),
        ScopeError::EarlyIrrefutable(line) => Some((*line, SyntaxKind::EarlyIrrefutable)),
        ScopeError::TwiceNamed(line) => Some((*line, SyntaxKind::TwiceNamed)),
        ScopeError::NoMemory => None,
    }
}

/// The answer to a source with this fault. One that has none wasn't read for want of memory.
fn faulty(alloc: Global, path: &str, fault: Option<(u32, SyntaxKind)>) -> Why
    ensures { RefusedAs result (λ r. r ≢ answer.no_memory
        → option_map (λ f. answer.syntax path.now f.0 f.1) fault ≡ Some r) }
{
    let Some((line, kind)) = fault else {
        return Why::NoMemory;
    };
    match String::from_str(alloc, path) {
        Ok(name) => Why::Syntax(name, line, kind),
        Err(_) => Why::NoMemory,
    }
}

/// The answer to a script that isn't there.
pub(crate) fn no_such_file(alloc: Global, path: &str) -> Why
    ensures { RefusedAs result (λ r. r ≢ answer.no_memory → r ≡ answer.no_such_file path.now) }
{
    match String::from_str(alloc, path) {
        Ok(name) => Why::NoSuchFile(name),
        Err(_) => Why::NoMemory,
    }
}

/// The answer to a source that isn't there.
pub(crate) fn no_source(alloc: Global, path: &str) -> Why
    ensures { RefusedAs result (λ r. r ≢ answer.no_memory → r ≡ answer.no_source path.now) }
{
    match String::from_str(alloc, path) {
        Ok(name) => Why::NoSource(name),
        Err(_) => Why::NoMemory,
    }
}
