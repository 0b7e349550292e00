// From segments to tokens: logical lines, brackets and indentation.

ghost use Rattle.std.specs.Prelude.{◌≡◌, OnOk};
ghost use Rattle.py_token.specs.Words.{same_text};
ghost use Rattle.py_token.specs.View.{view_kind};
ghost use Rattle.py_token.specs.Layout.{is_within, current, dedents, block_tokens, line_begins, spelled_at, line_ends, put, closing_tokens};
ghost use Rattle.py_token.specs.ViewLayout.{stack_of, view_state, after_change, ended, Appends, Closes, Lays, Indents};
ghost use Rattle.py_token.specs.ViewSegments.{view_lexeme};

use crate::error::TokenError;
use crate::fields::{BracketChange, change_of};
use crate::lists::push_token;
use crate::segments::Lexeme;
use crate::token::{Token, TokenKind};
use std::alloc::{AllocError, Global};

/// Where the reading of a text stands: the indentations that are open and the lines of the open
/// brackets, the innermost last; whether the logical line has a token; the blanks before its first
/// one, and whether a backslash has ended them.
pub struct State {
    pub indents: Vec<Vec<char>>,
    pub brackets: Vec<u32>,
    pub begun: bool,
    pub blanks: Vec<char>,
    pub settled: bool,
}

// Written out, and not derived, so that letting a state go is one call wherever that happens.
impl Drop for State {
    fn drop(self) {
        let State {
            indents,
            brackets,
            begun: _,
            blanks,
            settled: _,
        } = self;
        drop(indents);
        drop(brackets);
        drop(blanks)
    }
}

fn same_text(a: &[char], b: &[char]) -> bool
    ensures { result ≡ same_text a.now b.now }
{
    a == b
}

/// Whether the first text is a proper prefix of the second.
fn is_within(indent: &[char], blanks: &[char]) -> bool
    ensures { result ≡ is_within indent.now blanks.now }
{
    blanks.starts_with(indent) && !same_text(indent, blanks)
}

/// Closes the indentations that a line leaves.
fn dedent(
    indents: &mut Vec<Vec<char>>,
    blanks: &[char],
    tokens: &mut Vec<Token>,
    line: u32,
) -> Result<(), TokenError>
    ensures { Indents (dedents blanks.now line) result
        indents.old indents.new tokens.old tokens.new }
{
    match indents.pop() {
        None => {
            if blanks.is_empty() {
                Ok(())
            } else {
                Err(TokenError::BadIndent(line))
            }
        }
        Some(indent) => {
            if same_text(&indent, blanks) {
                indents.push(indent)?;
                Ok(())
            } else {
                push_token(tokens, TokenKind::Dedent, line, line)?;
                dedent(indents, blanks, tokens, line)
            }
        }
    }
}

/// Whether the innermost indentation is a proper prefix of the blanks.
fn goes_in(indents: &[Vec<char>], blanks: &[char]) -> bool
    ensures { result ≡ is_within (current (stack_of indents.now)) blanks.now }
{
    match indents.last() {
        Some(indent) => is_within(indent, blanks),
        None => is_within(&[], blanks),
    }
}

/// The block tokens before a line of that indentation.
fn block(
    alloc: Global,
    indents: &mut Vec<Vec<char>>,
    blanks: &[char],
    tokens: &mut Vec<Token>,
    line: u32,
) -> Result<(), TokenError>
    ensures { Indents (block_tokens blanks.now line) result
        indents.old indents.new tokens.old tokens.new }
{
    if goes_in(indents, blanks) {
        push_token(tokens, TokenKind::Indent, line, line)?;
        let indent = Vec::from_slice(alloc, blanks)?;
        indents.push(indent)?;
        return Ok(());
    }
    dedent(indents, blanks, tokens, line)
}

/// Judges the indentation before the first token of a line.
fn begin(
    alloc: Global,
    state: &mut State,
    tokens: &mut Vec<Token>,
    line: u32,
) -> Result<(), TokenError>
    ensures { Lays (λ s. line_begins s line) result state.old state.new tokens.old tokens.new }
{
    if state.begun {
        return Ok(());
    }
    block(alloc, &mut state.indents, &state.blanks, tokens, line)?;
    state.begun = true;
    Ok(())
}

/// A token, after what its line begins with.
fn add(
    alloc: Global,
    state: &mut State,
    tokens: &mut Vec<Token>,
    kind: TokenKind,
    line: u32,
    next: u32,
) -> Result<(), TokenError>
    ensures { Lays (λ s. spelled_at s (view_kind kind) line next) result
        state.old state.new tokens.old tokens.new }
{
    begin(alloc, state, tokens, line)?;
    let change = change_of(&kind);
    push_token(tokens, kind, line, next)?;
    change_brackets(state, change, line)?;
    Ok(())
}

/// Opens or shuts a bracket.
fn change_brackets(state: &mut State, change: BracketChange, line: u32) -> Result<(), AllocError>
    ensures { OnOk result (view_state state.new ≡ after_change change line state.old) }
{
    match change {
        BracketChange::Opening => {
            state.brackets.push(line)?;
            Ok(())
        }
        BracketChange::Shutting => {
            state.brackets.pop();
            Ok(())
        }
        BracketChange::Neither => Ok(()),
    }
}

/// The end of a line.
fn end_line(state: &mut State, tokens: &mut Vec<Token>, line: u32) -> Result<(), TokenError>
    ensures { Lays (λ s. line_ends s line) result state.old state.new tokens.old tokens.new }
{
    if !state.brackets.is_empty() {
        return Ok(());
    }
    if state.begun {
        push_token(tokens, TokenKind::Newline, line, line)?;
    }
    state.begun = false;
    state.blanks.clear();
    state.settled = false;
    Ok(())
}

/// Takes the next segment.
#[tactic(auto, unfolding(crate::specs::Layout::put))]
pub fn put(
    alloc: Global,
    state: &mut State,
    tokens: &mut Vec<Token>,
    lexeme: Lexeme,
    line: u32,
    next: u32,
) -> Result<(), TokenError>
    ensures { Lays (λ s. put s (view_lexeme lexeme) line next) result
        state.old state.new tokens.old tokens.new }
{
    match lexeme {
        Lexeme::Spelled(kind) => add(alloc, state, tokens, kind, line, next),
        Lexeme::Blank(c) => {
            if state.begun || state.settled {
                return Ok(());
            }
            state.blanks.push(c)?;
            Ok(())
        }
        Lexeme::Comment => Ok(()),
        Lexeme::JoinedEnd => {
            state.settled = true;
            Ok(())
        }
        Lexeme::LineEnd => end_line(state, tokens, line),
        Lexeme::Stuck(error) => {
            begin(alloc, state, tokens, line)?;
            Err(error)
        }
    }
}

/// The dedents that are open at the end of a text, and its end.
fn close(tokens: &mut Vec<Token>, count: usize, line: u32) -> Result<(), AllocError>
    ensures { OnOk result (Appends (closing_tokens line count) tokens.old tokens.new) }
{
    if count == 0 {
        return push_token(tokens, TokenKind::End, line, line);
    }
    push_token(tokens, TokenKind::Dedent, line, line)?;
    close(tokens, count - 1, line)
}

/// The tokens at the end of a text whose last line is that one.
pub fn finish(state: State, tokens: &mut Vec<Token>, last: u32) -> Result<(), TokenError>
    ensures { Closes (ended (view_state state) last) result tokens.old tokens.new }
{
    if let Some(line) = state.brackets.last() {
        return Err(TokenError::OpenBracket(*line));
    }
    if state.begun {
        push_token(tokens, TokenKind::Newline, last, last)?;
        close(tokens, state.indents.len(), last)?;
        return Ok(());
    }
    close(tokens, state.indents.len(), last)?;
    Ok(())
}
