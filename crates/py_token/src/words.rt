// Names and keywords.

ghost use Rattle.std.specs.Prelude.{◌≡◌, map, Ok};
ghost use Rattle.std.specs.List.{prefix_len};
ghost use Rattle.py_token.specs.Words.{begins_name, in_name, keyword_in, keyword_of, view_row, word_kind};
ghost use Rattle.py_token.specs.View.{view_kind};
ghost use Rattle.py_token.specs.Answers.{Gives};

use crate::error::TokenError;
use crate::token::{Keyword, TokenKind};
use py_text::Text;
use std::alloc::Global;

pub fn begins_name(c: char) -> bool
    ensures { result ≡ begins_name c }
{
    c.is_ascii_alphabetic() || c == '_'
}

pub fn in_name(c: char) -> bool
    ensures { result ≡ in_name c }
{
    begins_name(c) || c.is_ascii_digit()
}

/// How many characters at the front go on with a name.
pub fn name_len(chars: &[char]) -> usize
    ensures { result ≡ prefix_len in_name chars.now }
{
    chars.iter().take_while(|c| in_name(**c)).count()
}

/// The keywords with their spellings.
const KEYWORDS: &[(&str, Keyword)] = &[
    ("False", Keyword::False),
    ("None", Keyword::None),
    ("True", Keyword::True),
    ("and", Keyword::And),
    ("as", Keyword::As),
    ("assert", Keyword::Assert),
    ("async", Keyword::Async),
    ("await", Keyword::Await),
    ("break", Keyword::Break),
    ("class", Keyword::Class),
    ("continue", Keyword::Continue),
    ("def", Keyword::Def),
    ("del", Keyword::Del),
    ("elif", Keyword::Elif),
    ("else", Keyword::Else),
    ("except", Keyword::Except),
    ("finally", Keyword::Finally),
    ("for", Keyword::For),
    ("from", Keyword::From),
    ("global", Keyword::Global),
    ("if", Keyword::If),
    ("import", Keyword::Import),
    ("in", Keyword::In),
    ("is", Keyword::Is),
    ("lambda", Keyword::Lambda),
    ("nonlocal", Keyword::Nonlocal),
    ("not", Keyword::Not),
    ("or", Keyword::Or),
    ("pass", Keyword::Pass),
    ("raise", Keyword::Raise),
    ("return", Keyword::Return),
    ("try", Keyword::Try),
    ("while", Keyword::While),
    ("with", Keyword::With),
    ("yield", Keyword::Yield),
];

#[tactic(auto, unfolding(crate::specs::Words::keyword_of))]
pub fn keyword_of(word: &str) -> Option<Keyword>
    ensures { result ≡ keyword_of word.now }
{
    keyword_in(KEYWORDS, word)
}

/// The keyword of the first of these rows that has this spelling.
fn keyword_in(rows: &[(&str, Keyword)], word: &str) -> Option<Keyword>
    ensures { result ≡ keyword_in (map view_row rows.now) word.now }
{
    for (spelling, keyword) in rows {
        if word == *spelling {
            return Some(*keyword);
        }
    }
    None
}

/// The kind of a word's token.
pub fn word_kind(alloc: Global, word: &[char]) -> Result<TokenKind, TokenError>
    ensures { Gives view_kind result (Ok (word_kind word.now)) }
{
    let text = Text::from_chars(alloc, word)?;
    match keyword_of(text.as_str()) {
        Some(keyword) => Ok(TokenKind::Keyword(keyword)),
        None => Ok(TokenKind::Name(text)),
    }
}
