// Strings after their opening marks.

ghost use Rattle.std.specs.Prelude.{◌≡◌, ◌≤◌, ◌<◌, ◌+◌, ◌++◌, length, drop, if◌then◌else◌, IsTrue, OnOk, SomeIff, true, suc};
ghost use Rattle.std.specs.List.{list_all};
ghost use Rattle.py_token.specs.Numbers.{is_digit_of};
ghost use Rattle.py_token.specs.Source.{line_count, most_lines};
ghost use Rattle.py_token.specs.Strings.{closes, escaped, digits_asked, is_character, hex_item, octal_len, octal_item, escape_item, raw_item};
ghost use Rattle.py_token.specs.StringItems.{denoted_text, item_of, item_after, text_after, view_text};
ghost use Rattle.py_token.specs.Answers.{Gives};

use crate::characters::{after, doubled, split_first};
use crate::error::TokenError;
use crate::numbers::{digits_value, is_digit_of};
use py_text::{NoMemory, Text};
use std::alloc::Global;

/// How a string was opened, and where.
#[derive(Clone, Copy)]
pub struct Opening {
    pub raw: bool,
    pub quote: char,
    pub triple: bool,
    pub line: u32,
}

/// The characters that an item of a string stands for.
#[derive(Clone, Copy)]
pub enum Denoted {
    Nothing,
    One(char),
    Two(char, char),
}

/// What stands at a place in a string, with the number of characters after the first.
#[derive(Clone, Copy)]
pub enum StringItem {
    Holds(Denoted, usize, u32),
    Closing(usize),
}

/// Whether the marks of the string stand here.
pub fn closes(opening: Opening, c: char, others: &[char]) -> bool
    ensures { result ≡ closes opening.quote opening.triple c others.now }
{
    c == opening.quote && (!opening.triple || doubled(opening.quote, others))
}

/// The characters after marks, with these after the first quote.
pub fn after_marks(triple: bool, others: &[char]) -> &[char]
    requires { IsTrue triple → 2 ≤ length others.now }
    ensures { result.now ≡ drop (if triple then 2 else 0) others.now }
{
    if triple { after(others, 2) } else { others }
}

/// The character that a letter or a mark after a backslash stands for.
fn escaped(c: char) -> Option<char>
    ensures { result ≡ escaped c }
{
    match c {
        '\\' | '\'' | '"' => Some(c),
        'a' => Some('\x07'),
        'b' => Some('\x08'),
        'f' => Some('\x0c'),
        'n' => Some('\n'),
        'r' => Some('\r'),
        't' => Some('\t'),
        'v' => Some('\x0b'),
        _ => None,
    }
}

/// How many hexadecimal digits a letter after a backslash asks for.
fn digits_asked(c: char) -> Option<usize>
    ensures { result ≡ digits_asked c }
{
    match c {
        'x' => Some(2),
        'u' => Some(4),
        'U' => Some(8),
        _ => None,
    }
}

/// The character of a code, where it is one.
fn character(code: u64) -> Option<char>
    ensures { SomeIff result (is_character code ≡ true) code }
{
    if code < 0xD800 || (0xDFFF < code && code < 0x11_0000) {
        return char::from_u32(code as u32);
    }
    None
}

fn are_hexadecimal(digits: &[char]) -> bool
    ensures { result ≡ list_all (is_digit_of 16) digits.now }
{
    digits.iter().all(|c| is_digit_of(16, *c))
}

/// So many hexadecimal digits after the letter of an escape.
#[tactic(auto, unfolding(crate::specs::Strings::hex_item))]
fn hex_item(line: u32, n: usize, chars: &[char]) -> Result<StringItem, TokenError>
    requires { n < 16 }
    ensures { item_of result ≡ hex_item line n chars.now }
{
    if chars.len() < n {
        return Err(TokenError::BadCharacter(line));
    }
    let digits = &chars[..n];
    if !are_hexadecimal(digits) {
        return Err(TokenError::BadCharacter(line));
    }
    match character(digits_value(16, digits)) {
        Some(c) => Ok(StringItem::Holds(Denoted::One(c), n + 1, line)),
        None => Err(TokenError::BadCharacter(line)),
    }
}

/// How many octal digits stand in front, of three at most.
fn octal_len(chars: &[char]) -> usize
    ensures { result ≡ octal_len chars.now }
{
    chars
        .iter()
        .take(3)
        .take_while(|c| is_digit_of(8, **c))
        .count()
}

/// One to three octal digits.
#[tactic(auto, unfolding(crate::specs::Strings::octal_item))]
fn octal_item(line: u32, chars: &[char]) -> Result<StringItem, TokenError>
    ensures { item_of result ≡ octal_item line chars.now }
{
    let n = octal_len(chars);
    match character(digits_value(8, &chars[..n])) {
        Some(c) => Ok(StringItem::Holds(Denoted::One(c), n, line)),
        None => Err(TokenError::BadCharacter(line)),
    }
}

/// A backslash, with these characters after it.
fn escape_item(line: u32, chars: &[char]) -> Result<StringItem, TokenError>
    requires { line ≤ most_lines }
    ensures { item_of result ≡ escape_item line chars.now }
{
    let Some((d, others)) = split_first(chars) else {
        return Ok(StringItem::Holds(Denoted::One('\\'), 0, line));
    };
    if d == '\n' {
        return Ok(StringItem::Holds(Denoted::Nothing, 1, line + 1));
    }
    if let Some(c) = escaped(d) {
        return Ok(StringItem::Holds(Denoted::One(c), 1, line));
    }
    if is_digit_of(8, d) {
        return octal_item(line, chars);
    }
    if let Some(n) = digits_asked(d) {
        return hex_item(line, n, others);
    }
    if d == 'N' {
        return Err(TokenError::BadCharacter(line));
    }
    Ok(StringItem::Holds(Denoted::One('\\'), 0, line))
}

/// A backslash in a raw string, with these characters after it.
fn raw_item(line: u32, chars: &[char]) -> Result<StringItem, TokenError>
    requires { line ≤ most_lines }
    ensures { item_of result ≡ raw_item line chars.now }
{
    match split_first(chars) {
        None => Ok(StringItem::Holds(Denoted::One('\\'), 0, line)),
        Some(('\n', _)) => Ok(StringItem::Holds(Denoted::Two('\\', '\n'), 1, line + 1)),
        Some(('\r', _)) => Ok(StringItem::Holds(Denoted::One('\\'), 0, line)),
        Some((d, _)) => Ok(StringItem::Holds(Denoted::Two('\\', d), 1, line)),
    }
}

/// What stands at a place in a string, where the marks don't.
#[tactic(auto, unfolding(crate::specs::Strings::text_item))]
pub fn text_item(
    opening: Opening,
    line: u32,
    c: char,
    others: &[char],
) -> Result<StringItem, TokenError>
    requires { line ≤ most_lines }
    ensures { item_of result ≡ item_after opening line c others.now }
{
    if closes(opening, c, others) {
        return Ok(StringItem::Closing(if opening.triple { 2 } else { 0 }));
    }
    match c {
        '\r' => Err(TokenError::BadCharacter(line)),
        '\n' => {
            if opening.triple {
                return Ok(StringItem::Holds(Denoted::One('\n'), 0, line + 1));
            }
            Err(TokenError::OpenString(opening.line))
        }
        '\\' => {
            if opening.raw {
                return raw_item(line, others);
            }
            escape_item(line, others)
        }
        _ => Ok(StringItem::Holds(Denoted::One(c), 0, line)),
    }
}

pub fn push_denoted(text: &mut Text, denoted: Denoted) -> Result<(), NoMemory>
    ensures { OnOk result (text.new ≡ text.old ++ denoted_text denoted) }
{
    match denoted {
        Denoted::Nothing => Ok(()),
        Denoted::One(c) => text.push(c),
        Denoted::Two(c, d) => {
            text.push(c)?;
            text.push(d)
        }
    }
}

/// A string after its opening marks: its text, how many characters are left after its closing
/// marks, and the line where it ends.
#[derive(Drop)]
pub struct TextBody {
    pub text: Text,
    pub left: usize,
    pub next: u32,
}

pub fn text_body(alloc: Global, opening: Opening, chars: &[char]) -> Result<TextBody, TokenError>
    requires { opening.line + line_count chars.now ≤ suc most_lines }
    ensures { Gives view_text result (text_after opening chars.now) }
{
    let mut text = Text::new(alloc);
    let first = opening.line;
    let mut line = first;
    let mut rest = chars;
    'string_items: while let Some((c, others)) = split_first(rest) {
        match text_item(opening, line, c, others)? {
            StringItem::Closing(n) => {
                let left = others.len() - n;
                return Ok(TextBody {
                    text,
                    left,
                    next: line,
                });
            }
            StringItem::Holds(denoted, n, next) => {
                push_denoted(&mut text, denoted)?;
                line = next;
                rest = after(others, n);
            }
        }
    }
    Err(TokenError::OpenString(first))
}
