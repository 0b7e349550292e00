// Walks over the characters of UTF-8.

ghost use Rattle.std.specs.Prelude.{◌≡◌, take, drop, slice_get, IfOk};
ghost use Rattle.std.specs.Str.{chars, IsAscii};
ghost use Rattle.py_text.specs.Comparison.{order_of_texts};

use crate::NoMemory;
use crate::text::Text;
use std::alloc::Global;
use std::cmp::Ordering;

/// So many characters of an ASCII text from a place on, or as many as there are.
pub fn bytes_of(s: &str, first: usize, count: usize) -> &str
    requires { IsAscii s.now }
    ensures { chars result.now ≡ take count (drop first (chars s.now)) }
{
    let from = first.min(s.len());
    let to = from + count.min(s.len() - from);
    &s[from..to]
}

/// The character at a place of an ASCII text.
pub fn byte_at(s: &str, at: usize) -> Option<char>
    requires { IsAscii s.now }
    ensures { result ≡ slice_get (chars s.now) at }
{
    if at < s.len() {
        Some(s.as_bytes()[at] as char)
    } else {
        None
    }
}

/// So many characters from a place on, or as many as there are.
pub fn part(alloc: Global, s: &str, first: usize, count: usize) -> Result<Text, NoMemory>
    ensures { IfOk result (λ t. t ≡ take count (drop first (chars s.now))) }
{
    let mut text = Text::new(alloc);
    let mut ahead = first;
    let mut left = count;
    for c in s.chars() {
        if ahead > 0 {
            ahead -= 1;
        } else if left > 0 {
            text.push(c)?;
            left -= 1;
        } else {
            break;
        }
    }
    Ok(text)
}

/// The character at a place.
pub fn char_at(s: &str, at: usize) -> Option<char>
    ensures { result ≡ slice_get (chars s.now) at }
{
    let mut ahead = at;
    for c in s.chars() {
        if ahead == 0 {
            return Some(c);
        }
        ahead -= 1;
    }
    None
}

/// The order of two texts by their characters.
pub fn order(left: &str, right: &str) -> Ordering
    ensures { result ≡ order_of_texts (chars left.now) (chars right.now) }
{
    let mut ours = left.chars();
    let mut theirs = right.chars();
    loop {
        match ours.next() {
            None => {
                return match theirs.next() {
                    None => Ordering::Equal,
                    Some(_) => Ordering::Less,
                };
            }
            Some(c) => match theirs.next() {
                None => return Ordering::Greater,
                Some(d) => {
                    if c != d {
                        return c.cmp(&d);
                    }
                }
            },
        }
    }
}
