// The tokens of a source.

use py_text::Text;

/// A token, with the first and the last line of its text. Lines count from 1.
#[cycle(token)]
#[derive(Drop)]
pub struct Token {
    pub kind: TokenKind,
    pub first: u32,
    pub last: u32,
}

/// What a token is, with its spelling.
#[cycle(token)]
pub enum TokenKind {
    Name(Text),
    Keyword(Keyword),
    Int(i64),
    Str(Text),
    FString(Vec<Piece>),
    Mark(Mark),
    Newline,
    Indent,
    Dedent,
    End,
}

// Written out, and not derived, so that letting a kind go is one call wherever that happens.
impl Drop for TokenKind {
    #[cycle(token)]
    fn drop(self) {
        match self {
            TokenKind::Name(text) => drop(text),
            TokenKind::Keyword(_) => (),
            TokenKind::Int(_) => (),
            TokenKind::Str(text) => drop(text),
            TokenKind::FString(pieces) => drop(pieces),
            TokenKind::Mark(_) => (),
            TokenKind::Newline => (),
            TokenKind::Indent => (),
            TokenKind::Dedent => (),
            TokenKind::End => (),
        }
    }
}

/// A piece of an f-string: characters, or the tokens of a field.
#[cycle(token)]
#[derive(Drop)]
pub enum Piece {
    Chars(Text),
    Field(Vec<Token>),
}

/// A keyword.
#[derive(Clone, Copy, Debug)]
pub enum Keyword {
    False,
    None,
    True,
    And,
    As,
    Assert,
    Async,
    Await,
    Break,
    Class,
    Continue,
    Def,
    Del,
    Elif,
    Else,
    Except,
    Finally,
    For,
    From,
    Global,
    If,
    Import,
    In,
    Is,
    Lambda,
    Nonlocal,
    Not,
    Or,
    Pass,
    Raise,
    Return,
    Try,
    While,
    With,
    Yield,
}

/// An operator or a delimiter.
#[derive(Clone, Copy, Debug)]
pub enum Mark {
    /// `//=`
    DoubleSlashEqual,
    /// `==`
    EqualEqual,
    /// `!=`
    NotEqual,
    /// `<=`
    LessEqual,
    /// `>=`
    GreaterEqual,
    /// `+=`
    PlusEqual,
    /// `-=`
    MinusEqual,
    /// `*=`
    StarEqual,
    /// `%=`
    PercentEqual,
    /// `//`
    DoubleSlash,
    /// `+`
    Plus,
    /// `-`
    Minus,
    /// `*`
    Star,
    /// `%`
    Percent,
    /// `<`
    Less,
    /// `>`
    Greater,
    /// `=`
    Equal,
    /// `(`
    LeftParen,
    /// `)`
    RightParen,
    /// `[`
    LeftBracket,
    /// `]`
    RightBracket,
    /// `{`
    LeftBrace,
    /// `}`
    RightBrace,
    /// `,`
    Comma,
    /// `:`
    Colon,
    /// `.`
    Dot,
    /// `;`
    Semicolon,
    /// `|`
    Bar,
}
