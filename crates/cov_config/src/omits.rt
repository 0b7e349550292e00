//! Which paths are omitted.
ghost use Rattle.std.specs.Prelude.{◌≡◌, ℕ, [], if◌then◌else◌, codes, ◌+◌, ◌||◌, ◌==◌, List, ◌∷◌, length, map, string_bytes, IfOk, OnOk};
ghost use Rattle.std.specs.List.{list_any};
ghost use Rattle.std.specs.Str.{chars};
ghost use Rattle.cov_config.specs.Rows.{any_at};
ghost use Rattle.cov_config.specs.Omits.{fits, covers, widened, components, omits};

use crate::NoMemory;
use crate::rows::{advance, first_row, spread};
use std::alloc::Global;

/// Whether one of the patterns omits the path. `*` is any run of characters without `/`, `?` is one
/// such character, and a component `**` is any number of components.
///
/// The time is bounded by the product of the lengths of a pattern and the path, for each pattern.
pub fn is_omitted(alloc: Global, patterns: &[String], path: &str) -> Result<bool, NoMemory>
    ensures { IfOk result (λ found. found
        ≡ list_any (λ pattern. omits (string_bytes pattern) path.now) patterns.now) }
{
    let parts = components(alloc, path)?;
    for pattern in patterns {
        if omits(alloc, pattern.as_str(), parts.as_slice())? {
            return Ok(true);
        }
    }
    Ok(false)
}

fn components<'t>(alloc: Global, text: &'t str) -> Result<Vec<&'t str>, NoMemory>
    ensures { IfOk result (λ parts. map (λ part. part.now) parts.items ≡ components text.now) }
{
    text.split('/').collect(alloc)
}

/// Whether a pattern omits the path of these components.
fn omits(alloc: Global, pattern: &str, parts: &[&str]) -> Result<bool, NoMemory>
    ensures { IfOk result (λ found. found
        ≡ covers (components (widened pattern.now)) (map (λ part. part.now) parts.now)) }
{
    let pattern = widened(alloc, pattern)?;
    let wanted = components(alloc, pattern.as_str())?;
    covers(alloc, wanted.as_slice(), parts)
}

/// The pattern as it is read: a leading `*/` is `**/`, and a trailing `/*` is `/**`.
fn widened(alloc: Global, pattern: &str) -> Result<String, NoMemory>
    ensures { IfOk result (λ text. string_bytes text ≡ widened pattern.now) }
{
    let front = star_if(pattern.starts_with("*/"));
    let back = star_if(pattern.ends_with("/*"));
    let mut text = String::from_str(alloc, front)?;
    text.push_str(pattern)?;
    text.push_str(back)?;
    Ok(text)
}

fn star_if(wide: bool) -> &'static str
    ensures { result.now ≡ (if wide then codes "*" else []) }
{
    if wide { "*" } else { "" }
}

fn covers(alloc: Global, pattern: &[&str], parts: &[&str]) -> Result<bool, NoMemory>
    ensures { IfOk result (λ found. found
        ≡ covers (map (λ p. p.now) pattern.now) (map (λ part. part.now) parts.now)) }
{
    let mut places = first_row(alloc, parts.len())?;
    let row = places.as_mut_slice();
    for wanted in pattern {
        pass_component(alloc, row, wanted, parts)?;
    }
    Ok(row[parts.len()])
}

/// Moves the places on over one component of a pattern.
fn pass_component(
    alloc: Global,
    row: &mut [bool],
    wanted: &str,
    parts: &[&str],
) -> Result<(), NoMemory>
    requires { length row.old ≡ length parts.now + 1 }
    ensures { let texts = map (λ part. part.now) parts.now in OnOk result ((ps : List (List ℕ))
        → any_at row.new (covers ps) texts ≡ any_at row.old (covers (wanted.now ∷ ps)) texts) }
{
    if wanted == "**" {
        spread(row);
        return Ok(());
    }
    let tests = fitting(alloc, wanted, parts)?;
    advance(row, tests.as_slice());
    Ok(())
}

/// Which parts the component of a pattern fits.
fn fitting(alloc: Global, wanted: &str, parts: &[&str]) -> Result<Vec<bool>, NoMemory>
    ensures { IfOk result (λ tests. tests.items
        ≡ map (λ part. fits (chars wanted.now) (chars part.now)) parts.now) }
{
    let pattern = characters(alloc, wanted)?;
    let mut tests = Vec::new(alloc);
    for part in parts {
        let text = characters(alloc, part)?;
        tests.push(fits(alloc, pattern.as_slice(), text.as_slice())?)?;
    }
    Ok(tests)
}

fn characters(alloc: Global, text: &str) -> Result<Vec<char>, NoMemory>
    ensures { IfOk result (λ characters. characters.items ≡ chars text.now) }
{
    text.chars().collect(alloc)
}

/// Whether the characters of a pattern's component match those of a path's.
fn fits(alloc: Global, wanted: &[char], text: &[char]) -> Result<bool, NoMemory>
    ensures { IfOk result (λ found. found ≡ fits wanted.now text.now) }
{
    let mut places = first_row(alloc, text.len())?;
    let row = places.as_mut_slice();
    for character in wanted {
        pass_character(alloc, row, *character, text)?;
    }
    Ok(row[text.len()])
}

/// Moves the places on over one character of a pattern.
fn pass_character(
    alloc: Global,
    row: &mut [bool],
    wanted: char,
    text: &[char],
) -> Result<(), NoMemory>
    requires { length row.old ≡ length text.now + 1 }
    ensures { OnOk result ((ps : List ℕ)
        → any_at row.new (fits ps) text.now ≡ any_at row.old (fits (wanted ∷ ps)) text.now) }
{
    if wanted == '*' {
        spread(row);
        return Ok(());
    }
    let tests = matching(alloc, wanted, text)?;
    advance(row, tests.as_slice());
    Ok(())
}

/// Which characters one character of a pattern matches.
fn matching(alloc: Global, wanted: char, text: &[char]) -> Result<Vec<bool>, NoMemory>
    ensures { IfOk result (λ tests. tests.items ≡ map (λ c. wanted == 63 || wanted == c) text.now) }
{
    text.iter()
        .map(|c| wanted == '?' || wanted == *c)
        .collect(alloc)
}
