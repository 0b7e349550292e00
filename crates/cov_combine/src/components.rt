//! The components of paths and patterns.
ghost use Rattle.std.specs.Prelude.{◌≡◌, ◌==◌, ◌++◌, ◌∷◌, map, string_bytes, IfOk, OnOk};
ghost use Rattle.std.specs.List.{slice_split};
ghost use Rattle.cov_combine.specs.Aliases.{components, cut, joined, after};

use crate::NoMemory;
use std::alloc::Global;

/// The parts of a path between `/` and `\`.
pub(crate) fn components<'t>(alloc: Global, text: &'t str) -> Result<Vec<&'t str>, NoMemory>
    ensures { IfOk result (λ parts. map (λ part. part.now) parts.items ≡ components text.now) }
{
    let mut parts = Vec::new(alloc);
    for piece in &slashed(alloc, text)? {
        parts.extend_from_slice(backslashed(alloc, piece)?.as_slice())?;
    }
    Ok(parts)
}

fn slashed<'t>(alloc: Global, text: &'t str) -> Result<Vec<&'t str>, NoMemory>
    ensures { IfOk result (λ parts.
        map (λ part. part.now) parts.items ≡ slice_split (λ b. b == 47) text.now) }
{
    text.split('/').collect(alloc)
}

fn backslashed<'t>(alloc: Global, text: &'t str) -> Result<Vec<&'t str>, NoMemory>
    ensures { IfOk result (λ parts.
        map (λ part. part.now) parts.items ≡ slice_split (λ b. b == 92) text.now) }
{
    text.split('\\').collect(alloc)
}

/// The components of a pattern or of a place, without a separator at its end.
pub(crate) fn cut<'t>(alloc: Global, text: &'t str) -> Result<Vec<&'t str>, NoMemory>
    ensures { IfOk result (λ parts. map (λ part. part.now) parts.items ≡ cut text.now) }
{
    let mut parts = components(alloc, text)?;
    let last = parts.len().saturating_sub(1);
    if parts.len() > 1 && parts[last].is_empty() {
        parts.truncate(last);
    }
    Ok(parts)
}

/// Appends components, each after a `/`.
pub(crate) fn push_after(text: &mut String, parts: &[&str]) -> Result<(), NoMemory>
    ensures { OnOk result (string_bytes text.new
        ≡ string_bytes text.old ++ after (map (λ part. part.now) parts.now)) }
{
    for part in parts {
        text.push('/')?;
        text.push_str(part)?;
    }
    Ok(())
}

/// Components with `/` between them.
pub(crate) fn joined(alloc: Global, parts: &[&str]) -> Result<String, NoMemory>
    ensures { IfOk result (λ text. string_bytes text ≡ joined (map (λ part. part.now) parts.now)) }
{
    let Some((first, others)) = parts.split_first() else {
        return Ok(String::new(alloc));
    };
    let mut text = String::from_str(alloc, first)?;
    push_after(&mut text, others)?;
    Ok(text)
}
