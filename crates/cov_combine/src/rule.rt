//! One rule: where paths go, and the patterns of those that go there.
ghost use Rattle.std.specs.Prelude.{◌≡◌, map, string_bytes, IfOk};
ghost use Rattle.std.specs.Option.{option_map};
ghost use Rattle.cov_combine.specs.Aliases.{cut, rule_from, first_left, moved};

use crate::NoMemory;
use crate::components::{cut, joined, push_after};
use crate::matching::left_by;
use std::alloc::Global;
use std::marker::Model;

#[derive(Drop)]
pub(crate) struct PathRule {
    place: String,
    patterns: Vec<Vec<String>>,
}

impl Model for PathRule {
    ghost use Rattle.std.specs.Prelude.{map, string_bytes};
    ghost use Rattle.cov_combine.specs.Aliases.{Rule, rule_code};

    ghost Value = { Rule };

    ghost coded = { rule_code };

    ghost view = { λ r.
        (string_bytes r.place, map (λ p. map string_bytes p.items) r.patterns.items) };
}

impl PathRule {
    /// The first text is the place, the others are the patterns.
    pub(crate) fn read(alloc: Global, texts: &[String]) -> Result<PathRule, NoMemory>
        ensures { IfOk result (λ rule. rule ≡ rule_from (map string_bytes texts.now)) }
    {
        let Some((place, equivalents)) = texts.split_first() else {
            return Ok(PathRule {
                place: String::new(alloc),
                patterns: Vec::new(alloc),
            });
        };
        let parts = cut(alloc, place.as_str())?;
        let place = joined(alloc, parts.as_slice())?;
        let mut patterns = Vec::new(alloc);
        for pattern in equivalents {
            patterns.push(owned_cut(alloc, pattern.as_str())?)?;
        }
        Ok(PathRule { place, patterns })
    }

    /// The alias of the path of these components, where a pattern matches it.
    pub(crate) fn moved(&self, alloc: Global, parts: &[&str]) -> Result<Option<String>, NoMemory>
        ensures { IfOk result (λ alias.
            option_map string_bytes alias
            ≡ option_map (moved self.now.0)
            (first_left self.now.1 (map (λ part. part.now) parts.now))) }
    {
        for pattern in &self.patterns {
            if let Some(left) = left_by(pattern.as_slice(), parts) {
                let mut alias = String::from_str(alloc, self.place.as_str())?;
                push_after(&mut alias, left)?;
                return Ok(Some(alias));
            }
        }
        Ok(None)
    }
}

fn owned_cut(alloc: Global, text: &str) -> Result<Vec<String>, NoMemory>
    ensures { IfOk result (λ parts. map string_bytes parts.items ≡ cut text.now) }
{
    let mut parts = Vec::new(alloc);
    for part in &cut(alloc, text)? {
        parts.push(String::from_str(alloc, part)?)?;
    }
    Ok(parts)
}
