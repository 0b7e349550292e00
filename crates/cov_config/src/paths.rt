//! The section `paths`.
ghost use Rattle.toml.specs.View.{table_view};
ghost use Rattle.cov_config.specs.Settings.{in_order, rules_in, paths_of};
ghost use Rattle.cov_config.specs.Plain.{Answers, rules_view};

use crate::ConfigError;
use crate::forms::rule_texts;
use crate::keys::{bad_key, section};
use std::alloc::{AllocError, Global};
use toml::Table;

/// The rules of the aliases, in the byte order of their names.
pub(crate) fn read_paths(
    alloc: Global,
    table: &Table,
) -> Result<Vec<(String, Vec<String>)>, ConfigError>
    ensures { Answers (λ rules. rules_view rules.items) (paths_of (table_view table.now)) result }
{
    let Some(found) = section(table, "paths") else {
        return Ok(Vec::new(alloc));
    };
    match found.as_table() {
        Some(rules) => rules_in(alloc, rules),
        None => Ok(Vec::new(alloc)),
    }
}

fn rules_in(alloc: Global, table: &Table) -> Result<Vec<(String, Vec<String>)>, ConfigError>
    ensures { Answers (λ rules.
        rules_view rules.items) (rules_in (in_order (table_view table.now))) result }
{
    let mut rules = Vec::new(alloc);
    for (name, value) in table {
        let Some(texts) = rule_texts(alloc, value)? else {
            return Err(bad_key(alloc, "paths", name.as_str()));
        };
        let name = String::from_str(alloc, name.as_str())?;
        rules.push((name, texts)).map_err(AllocError::from)?;
    }
    Ok(rules)
}
