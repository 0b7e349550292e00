//! The lines of a file of commands, and their words.
ghost use Rattle.std.specs.Prelude.{◌≡◌, ◌==◌, ◌++◌, ◌∷◌, [], map, string_bytes, IfOk, OnOk};
ghost use Rattle.std.specs.List.{slice_split};
ghost use Rattle.std.specs.Str.Lines.{lines};
ghost use Rattle.cov_app.specs.Words.{filled};
ghost use Rattle.cov_step.specs.Scripts.{is_comment, words_in};

use py_text::NoMemory;
use std::alloc::Global;

/// The lines of a text.
pub(crate) fn lines_in<'t>(alloc: Global, text: &'t str) -> Result<Vec<&'t str>, NoMemory>
    ensures { IfOk result (λ texts. map (λ text. text.now) texts.items ≡ lines text.now) }
{
    text.lines().collect(alloc)
}

/// Whether a line begins with `#`.
pub(crate) fn is_comment(line: &str) -> bool
    ensures { result ≡ is_comment line.now }
{
    match line.as_bytes().first() {
        None => false,
        Some(byte) => *byte == b'#',
    }
}

/// The words of a line, which blanks and tabs separate.
pub(crate) fn words_in(alloc: Global, line: &str) -> Result<Vec<String>, NoMemory>
    ensures { IfOk result (λ words. map string_bytes words.items ≡ words_in line.now) }
{
    let mut words = Vec::new(alloc);
    for part in &without_blanks(alloc, line)? {
        push_words(alloc, &mut words, part)?;
    }
    Ok(words)
}

/// Appends the words of a part of a line that has no blank.
fn push_words(alloc: Global, words: &mut Vec<String>, part: &str) -> Result<(), NoMemory>
    ensures { OnOk result (map string_bytes words.new.items
        ≡ map string_bytes words.old.items ++ filled (slice_split (λ b. b == 9) part.now)) }
{
    for word in &without_tabs(alloc, part)? {
        push_word(alloc, words, word)?;
    }
    Ok(())
}

/// Appends a word, where it isn't empty.
fn push_word(alloc: Global, words: &mut Vec<String>, word: &str) -> Result<(), NoMemory>
    ensures { OnOk result (map string_bytes words.new.items
        ≡ map string_bytes words.old.items ++ filled (word.now ∷ [])) }
{
    if word.is_empty() {
        return Ok(());
    }
    let owned = String::from_str(alloc, word)?;
    words.push(owned)?;
    Ok(())
}

fn without_blanks<'t>(alloc: Global, line: &'t str) -> Result<Vec<&'t str>, NoMemory>
    ensures { IfOk result (λ parts.
        map (λ part. part.now) parts.items ≡ slice_split (λ b. b == 32) line.now) }
{
    line.split(' ').collect(alloc)
}

fn without_tabs<'t>(alloc: Global, part: &'t str) -> Result<Vec<&'t str>, NoMemory>
    ensures { IfOk result (λ words.
        map (λ word. word.now) words.items ≡ slice_split (λ b. b == 9) part.now) }
{
    part.split('\t').collect(alloc)
}
