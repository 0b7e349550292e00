//! Reads one source file.

ghost use Rattle.std.specs.Prelude.{◌≡◌, ◌≤◌, length, IfErr, IfOk};
ghost use Rattle.std.specs.Str.{IsUtf8};
ghost use Rattle.cov_run.specs.declared.source.SourceError.TheVariants as source_error;
ghost use Rattle.cov_run.specs.Loading.{most_bytes};
ghost use Rattle.cov_run.specs.Reading.{Reads, reading_of, tree};
ghost use Rattle.py_scope.specs.Faults.{functions_of};
ghost use Rattle.py_syntax.specs.View.{plain_module};

use crate::bytes::text_of;
use py_parse::{SyntaxError, parse};
use py_scope::{ScopeError, Scopes, check};
use py_syntax::Module;
use py_token::{LINE_LIMIT, TokenError, count_lines, tokens};
use std::alloc::Global;

/// Why no tree was read from a source, by the first check that fails. Lines count from 1.
#[derive(Drop)]
pub(crate) enum SourceError {
    /// The bytes are not UTF-8 from this line on.
    NoText(u32),
    /// The text has so many lines.
    Long(usize),
    /// No tokens spell the text.
    Tokens(TokenError),
    /// No tree spells the tokens within the limits.
    Syntax(SyntaxError),
    /// The tree isn't well formed.
    Scopes(ScopeError),
}

impl From<TokenError> for SourceError {
    ghost from_gives = { λ given e. e ≡ source_error.Tokens given };

    fn from(error: TokenError) -> SourceError {
        SourceError::Tokens(error)
    }
}

impl From<SyntaxError> for SourceError {
    ghost from_gives = { λ given e. e ≡ source_error.Syntax given };

    fn from(error: SyntaxError) -> SourceError {
        SourceError::Syntax(error)
    }
}

impl From<ScopeError> for SourceError {
    ghost from_gives = { λ given e. e ≡ source_error.Scopes given };

    fn from(error: ScopeError) -> SourceError {
        SourceError::Scopes(error)
    }
}

/// The tree of a source, and the names of its functions.
#[derive(Drop)]
pub(crate) struct Source {
    pub module: Module,
    pub scopes: Scopes,
}

/// Reads the bytes of a source to its tree, or says why there is none. The checks come in the order
/// of the variants of `SourceError`.
pub(crate) fn read_source(alloc: Global, bytes: &[u8]) -> Result<Source, SourceError>
    requires { length bytes.now ≤ most_bytes }
    ensures read { IfOk result (λ s. Reads bytes.now (tree (plain_module s.module))) }
    ensures names { IfOk result (λ s. s.scopes ≡ functions_of (plain_module s.module)) }
    ensures refused { IfErr result (λ e. Reads bytes.now (reading_of e)) }
{
    match text_of(bytes) {
        Ok(text) => read_text(alloc, text),
        Err(line) => Err(SourceError::NoText(line)),
    }
}

/// The same of the text of the bytes.
pub(crate) fn read_text(alloc: Global, text: &str) -> Result<Source, SourceError>
    requires { IsUtf8 text.now }
    ensures read { IfOk result (λ s. Reads text.now (tree (plain_module s.module))) }
    ensures names { IfOk result (λ s. s.scopes ≡ functions_of (plain_module s.module)) }
    ensures refused { IfErr result (λ e. Reads text.now (reading_of e)) }
{
    let lines = count_lines(text);
    if lines > LINE_LIMIT {
        return Err(SourceError::Long(lines));
    }
    let tokens = tokens(alloc, text)?;
    let module = parse(alloc, &tokens)?;
    let scopes = check(alloc, &module)?;
    Ok(Source { module, scopes })
}
