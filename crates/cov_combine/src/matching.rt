//! What is left of a path after a pattern that matches it.
ghost use Rattle.std.specs.Prelude.{◌≡◌, map, string_bytes};
ghost use Rattle.std.specs.Option.{option_map};
ghost use Rattle.cov_combine.specs.Aliases.{fits, left_after, after_star, left_by};

/// Whether the pattern's components are the path's first ones.
fn fits(pattern: &[String], parts: &[&str]) -> bool
    ensures { result ≡ fits (map string_bytes pattern.now) (map (λ part. part.now) parts.now) }
{
    for (i, wanted) in pattern.iter().enumerate() {
        if i >= parts.len() {
            return false;
        }
        let part = parts[i];
        if wanted.as_str() != "*" && wanted.as_str() != part {
            return false;
        }
    }
    true
}

fn left_after<'p, 't>(pattern: &[String], parts: &'p [&'t str]) -> Option<&'p [&'t str]>
    ensures { option_map (λ left.
        map (λ part. part.now) left.now) result
        ≡ left_after (map string_bytes pattern.now) (map (λ part. part.now) parts.now) }
{
    if fits(pattern, parts) && pattern.len() < parts.len() {
        Some(&parts[pattern.len()..])
    } else {
        None
    }
}

fn after_star<'p, 't>(rest: &[String], parts: &'p [&'t str]) -> Option<&'p [&'t str]>
    ensures { option_map (λ left.
        map (λ part. part.now) left.now) result
        ≡ after_star (map string_bytes rest.now) (map (λ part. part.now) parts.now) }
{
    for start in 1..parts.len() {
        let found = left_after(rest, &parts[start..]);
        if found.is_some() {
            return found;
        }
    }
    None
}

/// The components after the pattern, of which there is at least one.
pub(crate) fn left_by<'p, 't>(pattern: &[String], parts: &'p [&'t str]) -> Option<&'p [&'t str]>
    ensures { option_map (λ left.
        map (λ part. part.now) left.now) result
        ≡ left_by (map string_bytes pattern.now) (map (λ part. part.now) parts.now) }
{
    match pattern.split_first() {
        Some((first, rest)) => {
            if first.as_str() == "*" {
                after_star(rest, parts)
            } else {
                left_after(pattern, parts)
            }
        }
        None => left_after(pattern, parts),
    }
}
