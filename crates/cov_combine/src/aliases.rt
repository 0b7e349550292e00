//! The rules that give paths their aliases.
ghost use Rattle.std.specs.Prelude.{◌≡◌, map, string_bytes, IfOk, OnOk};
ghost use Rattle.cov_combine.specs.Aliases.{rules_from, alias_of};
ghost use Rattle.cov_combine.specs.Stored.{rules_by_name, with_first};

use crate::NoMemory;
use crate::components::components;
use crate::rule::PathRule;
use std::alloc::Global;
use std::collections::BTreeMap;
use std::marker::Model;

/// The rules by their names.
#[derive(Drop)]
pub struct AliasRules {
    alloc: Global,
    rules: BTreeMap<String, PathRule>,
}

impl Model for AliasRules {
    ghost use Rattle.cov_combine.specs.Aliases.{Rules, rules_code};

    ghost Value = { Rules };

    ghost coded = { rules_code };

    ghost use Rattle.cov_combine.specs.Stored.{rules_by_name};

    ghost view = { λ r. rules_by_name r.rules.entries };
}

impl AliasRules {
    ghost use Rattle.cov_combine.specs.Stored.{given_view};

    /// Each rule has a name and its texts: the place where paths go, and then the patterns of the
    /// paths that go there. Of two rules with one name the first counts.
    pub fn read(alloc: Global, rules: &[(String, Vec<String>)]) -> Result<AliasRules, NoMemory>
        ensures { IfOk result (λ all. all ≡ rules_from (map given_view rules.now)) }
    {
        let mut by_name = BTreeMap::new(alloc);
        for (name, texts) in rules {
            let rule = PathRule::read(alloc, texts.as_slice())?;
            insert_first(&mut by_name, name.as_str(), alloc, rule)?;
        }
        Ok(AliasRules {
            alloc,
            rules: by_name,
        })
    }

    /// The path under which a path's rows are combined.
    pub fn alias(&self, path: &str) -> Result<String, NoMemory>
        ensures { IfOk result (λ alias. string_bytes alias ≡ alias_of self.now path.now) }
    {
        let parts = components(self.alloc, path)?;
        for (_name, rule) in &self.rules {
            if let Some(alias) = rule.moved(self.alloc, parts.as_slice())? {
                return Ok(alias);
            }
        }
        String::from_str(self.alloc, path)
    }
}

/// Adds a rule, unless one of that name is there.
fn insert_first(
    rules: &mut BTreeMap<String, PathRule>,
    name: &str,
    alloc: Global,
    rule: PathRule,
) -> Result<(), NoMemory>
    ensures { OnOk result (rules_by_name rules.new.entries
        ≡ with_first (rules_by_name rules.old.entries) name.now rule) }
{
    if rules.contains_key(name) {
        return Ok(());
    }
    rules.insert(String::from_str(alloc, name)?, rule)?;
    Ok(())
}
