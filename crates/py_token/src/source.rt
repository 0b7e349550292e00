// The characters of a source, and the lines that they stand on.

ghost use Rattle.std.specs.Prelude.{◌≡◌, ◌≤◌, ◌==◌, ◌&&◌, IfOk};
ghost use Rattle.std.specs.Str.{chars};
ghost use Rattle.py_token.specs.Source.{begins, without_mark, joined_ends, source_text, line_count, most_lines, last_line};

use crate::characters::{begins, split_first};
use std::alloc::{AllocError, Global};

/// The most lines of a source.
pub const LINE_LIMIT: usize = 65_535;

fn ends_line(c: char) -> bool
    ensures { result ≡ (c == 10) }
{
    c == '\n'
}

/// How many lines a source stands on. A last line without a line end counts, and an empty source
/// has none.
#[tactic(auto, unfolding(crate::specs::Source::line_count))]
pub fn count_lines(source: &str) -> usize
    ensures { result ≡ line_count (chars source.now) }
{
    let mut ends: usize = 0;
    let mut open = false;
    for c in source.chars() {
        if ends_line(c) {
            ends += 1;
            open = false;
            continue;
        }
        open = true;
    }
    if open { ends + 1 } else { ends }
}

/// The last line of characters, or 1 where they have none.
#[tactic(auto, unfolding(crate::specs::Source::line_count))]
pub fn last_line(chars: &[char]) -> u32
    requires { line_count chars.now ≤ most_lines }
    ensures { result ≡ last_line chars.now }
{
    let mut ends: u32 = 0;
    let mut open = false;
    let mut rest = chars;
    'lines: while let Some((c, others)) = split_first(rest) {
        open = c != '\n';
        if !open {
            ends += 1;
        }
        rest = others;
    }
    if open || ends == 0 { ends + 1 } else { ends }
}

/// The characters that are cut: without a byte order mark at the start, and with `\r\n` as `\n`.
pub fn source_text(alloc: Global, source: &str) -> Result<Vec<char>, AllocError>
    ensures { IfOk result (λ v. v.items ≡ source_text (chars source.now)) }
{
    let characters = characters(alloc, source)?;
    joined_ends(alloc, without_mark(&characters))
}

fn characters(alloc: Global, source: &str) -> Result<Vec<char>, AllocError>
    ensures { IfOk result (λ v. v.items ≡ chars source.now) }
{
    source.chars().collect(alloc)
}

fn without_mark(chars: &[char]) -> &[char]
    ensures { result.now ≡ without_mark chars.now }
{
    match split_first(chars) {
        Some(('\u{feff}', others)) => others,
        _ => chars,
    }
}

#[tactic(auto, unfolding(crate::specs::Source::joined_ends))]
fn joined_ends(alloc: Global, chars: &[char]) -> Result<Vec<char>, AllocError>
    ensures { IfOk result (λ v. v.items ≡ joined_ends chars.now) }
{
    let mut text = Vec::new(alloc);
    let mut rest = chars;
    'ends: while let Some((c, others)) = split_first(rest) {
        if !is_half_end(c, others) {
            text.push(c)?;
        }
        rest = others;
    }
    Ok(text)
}

/// Whether a carriage return stands before a line feed.
fn is_half_end(c: char, others: &[char]) -> bool
    ensures { result ≡ ((c == 13) && begins 10 others.now) }
{
    c == '\r' && begins('\n', others)
}
