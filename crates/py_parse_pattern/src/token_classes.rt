// What a token can be to a pattern.

ghost use Rattle.std.specs.Prelude.{◌≡◌, IfOk};
ghost use Rattle.py_token.specs.View.{view_kind};
ghost use Rattle.py_syntax.specs.Kinds.{bare_kind};
ghost use Rattle.py_parse_pattern.specs.Machine.{class, same_bracket};
ghost use Rattle.py_parse_pattern.specs.Views.{view_class, mark_class, word_class};

use py_text::{NoMemory, Text};
use py_token::{Keyword, Mark, TokenKind};

/// A pair of brackets round patterns.
#[derive(Clone, Copy, PartialEq, Eq)]
pub enum Bracket {
    Round,
    Square,
}

/// What a token can be to a pattern.
#[derive(Drop)]
pub enum TokenClass {
    Name(Text),
    Number(i64),
    Str(Text),
    NoneWord,
    Bool(bool),
    Minus,
    Open(Bracket),
    Close(Bracket),
    Bar,
    As,
    Comma,
    Dot,
    Other,
}

pub fn same_bracket(one: Bracket, other: Bracket) -> bool
    ensures { result ≡ same_bracket one other }
{
    one == other
}

fn mark_class(mark: Mark) -> TokenClass
    ensures { view_class result ≡ mark_class mark }
{
    match mark {
        Mark::Minus => TokenClass::Minus,
        Mark::LeftParen => TokenClass::Open(Bracket::Round),
        Mark::LeftBracket => TokenClass::Open(Bracket::Square),
        Mark::RightParen => TokenClass::Close(Bracket::Round),
        Mark::RightBracket => TokenClass::Close(Bracket::Square),
        Mark::Bar => TokenClass::Bar,
        Mark::Comma => TokenClass::Comma,
        Mark::Dot => TokenClass::Dot,
        _ => TokenClass::Other,
    }
}

fn word_class(word: Keyword) -> TokenClass
    ensures { view_class result ≡ word_class word }
{
    match word {
        Keyword::None => TokenClass::NoneWord,
        Keyword::True => TokenClass::Bool(true),
        Keyword::False => TokenClass::Bool(false),
        Keyword::As => TokenClass::As,
        _ => TokenClass::Other,
    }
}

/// The text of a name or a string is copied.
pub fn class_of(kind: &TokenKind) -> Result<TokenClass, NoMemory>
    ensures { IfOk result (λ c. view_class c ≡ class (bare_kind (view_kind kind.now))) }
{
    match kind {
        TokenKind::Name(text) => Ok(TokenClass::Name(text.copy()?)),
        TokenKind::Int(number) => Ok(TokenClass::Number(*number)),
        TokenKind::Str(text) => Ok(TokenClass::Str(text.copy()?)),
        TokenKind::Keyword(word) => Ok(word_class(*word)),
        TokenKind::Mark(mark) => Ok(mark_class(*mark)),
        _ => Ok(TokenClass::Other),
    }
}
