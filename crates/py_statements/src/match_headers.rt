// Which tokens the headers of `match` statements begin at.

ghost use Rattle.std.specs.Prelude.{◌≡◌, ◌<◌, true, false, bytes_eq, get_or, length, drop};
ghost use Rattle.py_token.specs.declared.token.Token.{Token};
ghost use Rattle.py_statements.specs.ViewStates.{kind_at};
ghost use Rattle.py_token.specs.View.{view_kind};
ghost use Rattle.py_syntax.specs.Kinds.{Name, bare_kind};
ghost use Rattle.py_syntax.specs.Headers.{is_match, ends_in_colon};
ghost use Rattle.py_syntax.specs.Statements.{case_name};
ghost use Rattle.py_statements.specs.ViewMarks.{kinds_of, begins_from, header_at};

use crate::lists::{Class, is_a};
use py_text::Text;
use py_token::{Token, TokenKind};

/// Whether a name is `case`.
pub fn is_case_name(name: &Text) -> bool
    ensures { result ≡ bytes_eq name.now case_name }
{
    name.as_str() == "case"
}

fn is_match_name(name: &Text) -> bool
    ensures { result ≡ is_match (Name name.now) }
{
    name.as_str() == "match"
}

fn is_match(kind: &TokenKind) -> bool
    ensures { result ≡ is_match (bare_kind (view_kind kind.now)) }
{
    match kind {
        TokenKind::Name(name) => is_match_name(name),
        // Any other token: the word is no keyword.
        _ => false,
    }
}

/// Whether the last token before the end of the line is a colon, in the tokens from a place on.
fn ends_in_colon(tokens: &[Token], from: usize) -> bool
    ensures { result ≡ ends_in_colon false (drop from (kinds_of tokens.now)) }
{
    let mut colon = false;
    let mut at = from;
    'tokens: while at < tokens.len() {
        let token = &tokens[at];
        if is_a(token, Class::Newline) {
            return colon;
        }
        colon = is_a(token, Class::Colon);
        at += 1;
    }
    false
}

/// Whether a logical line may begin at the place.
fn begins_line(tokens: &[Token], at: usize) -> bool
    requires { at < length tokens.now }
    ensures { result ≡ begins_from true (kinds_of tokens.now) at }
{
    if at == 0 {
        true
    } else {
        is_a(&tokens[at - 1], Class::LineEnd)
    }
}

/// Whether the line is a header that begins with the name `match` at the place.
fn heads_line(tokens: &[Token], at: usize) -> bool
    requires inside { at < length tokens.now }
    requires begins { begins_from true (kinds_of tokens.now) at ≡ true }
    requires named { (d : Token) → is_match (kind_at (get_or tokens.now at d)) ≡ true }
    ensures { result ≡ header_at (kinds_of tokens.now) at }
{
    if at + 1 == tokens.len() {
        return false;
    }
    !is_a(&tokens[at + 1], Class::Newline) && ends_in_colon(tokens, at + 2)
}

/// Whether the header of a `match` statement begins at the place.
pub fn is_header(tokens: &[Token], at: usize) -> bool
    requires { at < length tokens.now }
    ensures { result ≡ header_at (kinds_of tokens.now) at }
{
    if !begins_line(tokens, at) {
        return false;
    }
    if !is_match(&tokens[at].kind) {
        return false;
    }
    heads_line(tokens, at)
}
