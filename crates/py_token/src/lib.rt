//! Turns the text of a source into its tokens: `count_lines` tells how many lines a text has,
//! `LINE_LIMIT` how many it may have, and `tokens` cuts it.
#![tactic(auto)]

mod characters;
mod error;
mod fields;
mod fstrings;
mod laws;
mod layout;
mod lists;
mod marks;
mod numbers;
mod plain;
mod segments;
mod source;
mod strings;
mod token;
mod tokenizer;
mod words;

pub use error::TokenError;
pub use laws::one_spelling;
pub use source::{LINE_LIMIT, count_lines};
pub use token::{Keyword, Mark, Piece, Token, TokenKind};
pub use tokenizer::tokens;
