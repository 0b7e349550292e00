// What a token is to an expression.

ghost use Rattle.std.specs.Prelude.{◌≡◌, IfOk};
ghost use Rattle.py_token.specs.View.{view_kind};
ghost use Rattle.py_syntax.specs.Kinds.{bare_kind};
ghost use Rattle.py_grammar.specs.TokenClasses.{begins};
ghost use Rattle.py_grammar.specs.Machine.{class};
ghost use Rattle.py_parse_expr.specs.ExprViews.{view_class, word_class, mark_class, plain_class};

use crate::expr_nodes::Fields;
use py_operator::CmpOp;
use py_parse_fields::operators::BinaryOperator;
use py_parse_fields::token_classes::{Symbol, mark_symbol};
use py_text::{NoMemory, Text};
use py_token::{Keyword, Mark, TokenKind};

/// What a token is to an expression. Each string and each name is a copy.
#[derive(Drop)]
pub enum TokenClass {
    Name(Text),
    Int(i64),
    NoneWord,
    Bool(bool),
    Str(Text),
    /// An f-string with the trees of its fields.
    Format(Fields),
    Symbol(Symbol),
}

fn word_class(word: Keyword) -> TokenClass
    ensures { view_class result ≡ word_class word }
{
    match word {
        Keyword::None => TokenClass::NoneWord,
        Keyword::True => TokenClass::Bool(true),
        Keyword::False => TokenClass::Bool(false),
        Keyword::Not => TokenClass::Symbol(Symbol::Not),
        Keyword::Is => TokenClass::Symbol(Symbol::Is),
        Keyword::If => TokenClass::Symbol(Symbol::If),
        Keyword::Else => TokenClass::Symbol(Symbol::Else),
        Keyword::In => TokenClass::Symbol(Symbol::Compare(CmpOp::In)),
        Keyword::Or => TokenClass::Symbol(Symbol::BinaryOperator(BinaryOperator::Or)),
        Keyword::And => TokenClass::Symbol(Symbol::BinaryOperator(BinaryOperator::And)),
        _ => TokenClass::Symbol(Symbol::Other),
    }
}

fn mark_class(mark: Mark) -> TokenClass
    ensures { view_class result ≡ mark_class mark }
{
    TokenClass::Symbol(mark_symbol(mark))
}

/// The class of a token that is no f-string; an f-string has the one of a token that stands in no
/// expression.
pub fn class_of(kind: &TokenKind) -> Result<TokenClass, NoMemory>
    ensures { IfOk result
        (λ r. view_class r ≡ plain_class (class (bare_kind (view_kind kind.now)))) }
{
    match kind {
        TokenKind::Name(text) => Ok(TokenClass::Name(text.copy()?)),
        TokenKind::Int(number) => Ok(TokenClass::Int(*number)),
        TokenKind::Str(text) => Ok(TokenClass::Str(text.copy()?)),
        TokenKind::Keyword(word) => Ok(word_class(*word)),
        TokenKind::Mark(mark) => Ok(mark_class(*mark)),
        TokenKind::FString(_) => Ok(TokenClass::Symbol(Symbol::Other)),
        TokenKind::Newline => Ok(TokenClass::Symbol(Symbol::Other)),
        TokenKind::Indent => Ok(TokenClass::Symbol(Symbol::Other)),
        TokenKind::Dedent => Ok(TokenClass::Symbol(Symbol::Other)),
        TokenKind::End => Ok(TokenClass::Symbol(Symbol::Other)),
    }
}

impl TokenClass {
    /// Whether an expression may begin with it.
    pub fn begins(&self) -> bool
        ensures { result ≡ begins (view_class self.now) }
    {
        match self {
            TokenClass::Name(_) => true,
            TokenClass::Int(_) => true,
            TokenClass::NoneWord => true,
            TokenClass::Bool(_) => true,
            TokenClass::Str(_) => true,
            TokenClass::Format(_) => true,
            TokenClass::Symbol(symbol) => symbol.begins(),
        }
    }
}
