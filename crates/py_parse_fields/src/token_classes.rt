// What a token is to an expression, without the texts and trees that it holds.

ghost use Rattle.std.specs.Prelude.{◌≡◌};
ghost use Rattle.py_syntax.specs.Kinds.{Word, Sign};
ghost use Rattle.py_grammar.specs.TokenClasses.{begins};
ghost use Rattle.py_grammar.specs.Machine.{class};
ghost use Rattle.py_parse_fields.specs.Frames.{bare_class, view_symbol, view_class};

use crate::operators::BinaryOperator;
use py_operator::{BinOp, CmpOp};
use py_token::{Keyword, Mark};

/// The class of a token that is no expression by itself and holds no text. The classes of each
/// reader are these, and its own for the tokens that are expressions.
#[derive(Clone, Copy)]
pub enum Symbol {
    Not,
    Is,
    If,
    Else,
    Compare(CmpOp),
    BinaryOperator(BinaryOperator),
    Comma,
    Colon,
    Dot,
    LeftParen,
    RightParen,
    LeftBracket,
    RightBracket,
    LeftBrace,
    RightBrace,
    /// A token that stands in no expression.
    Other,
}

/// What a token is to an expression.
#[derive(Clone, Copy)]
pub enum TokenClass {
    Name,
    Number,
    /// `None`, `True`, `False`.
    Constant,
    /// A string, or an f-string whose fields are spelled.
    Text,
    /// An f-string with a field that isn't.
    BadFormat,
    Symbol(Symbol),
}

impl Symbol {
    /// Whether an expression may begin with it.
    pub fn begins(self) -> bool
        ensures { result ≡ begins (view_symbol self) }
    {
        match self {
            Symbol::Not => true,
            Symbol::Is => false,
            Symbol::If => false,
            Symbol::Else => false,
            Symbol::Compare(_) => false,
            Symbol::BinaryOperator(BinaryOperator::Op(BinOp::Add)) => true,
            Symbol::BinaryOperator(BinaryOperator::Op(BinOp::Sub)) => true,
            Symbol::BinaryOperator(_) => false,
            Symbol::Comma => false,
            Symbol::Colon => false,
            Symbol::Dot => false,
            Symbol::LeftParen => true,
            Symbol::RightParen => false,
            Symbol::LeftBracket => true,
            Symbol::RightBracket => false,
            Symbol::LeftBrace => true,
            Symbol::RightBrace => false,
            Symbol::Other => false,
        }
    }
}

impl TokenClass {
    /// Whether an expression may begin with it.
    pub fn begins(self) -> bool
        ensures { result ≡ begins (view_class self) }
    {
        match self {
            TokenClass::Name => true,
            TokenClass::Number => true,
            TokenClass::Constant => true,
            TokenClass::Text => true,
            TokenClass::BadFormat => true,
            TokenClass::Symbol(symbol) => symbol.begins(),
        }
    }
}

pub fn word_class(word: Keyword) -> TokenClass
    ensures { bare_class (class (Word word)) ≡ view_class result }
{
    match word {
        Keyword::None => TokenClass::Constant,
        Keyword::True => TokenClass::Constant,
        Keyword::False => TokenClass::Constant,
        Keyword::Not => TokenClass::Symbol(Symbol::Not),
        Keyword::Is => TokenClass::Symbol(Symbol::Is),
        Keyword::If => TokenClass::Symbol(Symbol::If),
        Keyword::Else => TokenClass::Symbol(Symbol::Else),
        Keyword::In => TokenClass::Symbol(Symbol::Compare(CmpOp::In)),
        Keyword::Or => TokenClass::Symbol(Symbol::BinaryOperator(BinaryOperator::Or)),
        Keyword::And => TokenClass::Symbol(Symbol::BinaryOperator(BinaryOperator::And)),
        _ => TokenClass::Symbol(Symbol::Other),
    }
}

pub fn mark_symbol(mark: Mark) -> Symbol
    ensures { bare_class (class (Sign mark)) ≡ view_symbol result }
{
    match mark {
        Mark::EqualEqual => Symbol::Compare(CmpOp::Eq),
        Mark::NotEqual => Symbol::Compare(CmpOp::Ne),
        Mark::Less => Symbol::Compare(CmpOp::Lt),
        Mark::LessEqual => Symbol::Compare(CmpOp::Le),
        Mark::Greater => Symbol::Compare(CmpOp::Gt),
        Mark::GreaterEqual => Symbol::Compare(CmpOp::Ge),
        Mark::Plus => Symbol::BinaryOperator(BinaryOperator::Op(BinOp::Add)),
        Mark::Minus => Symbol::BinaryOperator(BinaryOperator::Op(BinOp::Sub)),
        Mark::Star => Symbol::BinaryOperator(BinaryOperator::Op(BinOp::Mul)),
        Mark::DoubleSlash => Symbol::BinaryOperator(BinaryOperator::Op(BinOp::Floor)),
        Mark::Percent => Symbol::BinaryOperator(BinaryOperator::Op(BinOp::Mod)),
        Mark::Comma => Symbol::Comma,
        Mark::Colon => Symbol::Colon,
        Mark::Dot => Symbol::Dot,
        Mark::LeftParen => Symbol::LeftParen,
        Mark::RightParen => Symbol::RightParen,
        Mark::LeftBracket => Symbol::LeftBracket,
        Mark::RightBracket => Symbol::RightBracket,
        Mark::LeftBrace => Symbol::LeftBrace,
        Mark::RightBrace => Symbol::RightBrace,
        _ => Symbol::Other,
    }
}
