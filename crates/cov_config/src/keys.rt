//! The values of keys.
ghost use Rattle.std.specs.Prelude.{◌≡◌, ◌≤◌, ◌<◌, ◌^◌, [], None, false, map, string_bytes, option_map, IfOk};
ghost use Rattle.toml.specs.Data.{get_member, as_bool, as_str};
ghost use Rattle.toml.specs.View.{view, table_view};
ghost use Rattle.cov_config.specs.Forms.{or_default, filled, test_function, up_to, hook_text, texts};
ghost use Rattle.cov_config.specs.Settings.{section, setting, key_name, reading};
ghost use Rattle.cov_config.specs.Plain.{Answers, Names, hook_view, texts_view};

use crate::forms::{owned_texts, texts_of};
use crate::{ConfigError, NoMemory};
use cov_file_names::file_and_name;
use std::alloc::Global;
use toml::{Table, Value};

fn member<'t>(table: &'t Table, key: &str) -> Option<&'t Value>
    ensures { option_map (λ v. view v.now) result ≡ get_member key.now (table_view table.now) }
{
    table.get(key)
}

/// The section of this name. What is no table has no keys.
pub(crate) fn section<'t>(table: &'t Table, name: &str) -> Option<&'t Value>
    ensures { option_map (λ v. view v.now) result ≡ section name.now (table_view table.now) }
{
    let tool = member(table, "tool")?;
    let coverage = tool.get("coverage")?;
    coverage.get(name)
}

fn setting<'t>(table: &'t Table, in_section: &str, key: &str) -> Option<&'t Value>
    ensures { option_map (λ v. view v.now) result
        ≡ setting in_section.now key.now (table_view table.now) }
{
    let found = section(table, in_section)?;
    found.get(key)
}

fn key_name(alloc: Global, in_section: &str, key: &str) -> Result<String, NoMemory>
    ensures { IfOk result (λ name. string_bytes name ≡ key_name in_section.now key.now) }
{
    let mut name = String::from_str(alloc, "tool.coverage.")?;
    name.push_str(in_section)?;
    name.push_str(".")?;
    name.push_str(key)?;
    Ok(name)
}

/// The refusal of a value that isn't of its form.
pub(crate) fn bad_key(alloc: Global, in_section: &str, key: &str) -> ConfigError
    ensures { Names (key_name in_section.now key.now) result }
{
    match key_name(alloc, in_section, key) {
        Ok(name) => ConfigError::BadConfig(name),
        Err(_) => ConfigError::NoMemory,
    }
}

/// A flag that is not set where the key is absent.
pub(crate) fn flag(
    alloc: Global,
    table: &Table,
    in_section: &str,
    key: &str,
) -> Result<bool, ConfigError>
    ensures { Answers (λ b. b)
        (reading (table_view table.now) in_section.now key.now (or_default false as_bool)) result }
{
    let Some(value) = setting(table, in_section, key) else {
        return Ok(false);
    };
    match value.as_bool() {
        Some(flag) => Ok(flag),
        None => Err(bad_key(alloc, in_section, key)),
    }
}

/// Whether the key is there, with the text `test_function`.
pub(crate) fn names_tests(
    alloc: Global,
    table: &Table,
    in_section: &str,
    key: &str,
) -> Result<bool, ConfigError>
    ensures { Answers (λ b. b)
        (reading (table_view table.now) in_section.now key.now
        (or_default false test_function)) result }
{
    let Some(value) = setting(table, in_section, key) else {
        return Ok(false);
    };
    match value.as_str() {
        Some("test_function") => Ok(true),
        _ => Err(bad_key(alloc, in_section, key)),
    }
}

/// A whole number from 0 to `most`.
pub(crate) fn number(
    alloc: Global,
    table: &Table,
    in_section: &str,
    key: &str,
    default: u64,
    most: u64,
) -> Result<u64, ConfigError>
    requires least { default ≤ most }
    requires fits { most < 2 ^ 63 }
    ensures value { Answers (λ n. n)
        (reading (table_view table.now) in_section.now key.now
        (or_default default (up_to most))) result }
    ensures most { IfOk result (λ n. n ≤ most) }
{
    let Some(value) = setting(table, in_section, key) else {
        return Ok(default);
    };
    let Some(n) = value.as_integer() else {
        return Err(bad_key(alloc, in_section, key));
    };
    if n < 0 {
        return Err(bad_key(alloc, in_section, key));
    }
    let n = n as u64;
    if n <= most {
        Ok(n)
    } else {
        Err(bad_key(alloc, in_section, key))
    }
}

/// Any text; empty where the key is absent.
pub(crate) fn text(
    alloc: Global,
    table: &Table,
    in_section: &str,
    key: &str,
) -> Result<String, ConfigError>
    ensures { Answers string_bytes
        (reading (table_view table.now) in_section.now key.now (or_default [] as_str)) result }
{
    let Some(value) = setting(table, in_section, key) else {
        return Ok(String::new(alloc));
    };
    match value.as_str() {
        Some(text) => Ok(String::from_str(alloc, text)?),
        None => Err(bad_key(alloc, in_section, key)),
    }
}

/// A text that isn't empty.
pub(crate) fn filled_text(
    alloc: Global,
    table: &Table,
    in_section: &str,
    key: &str,
    default: &str,
) -> Result<String, ConfigError>
    ensures { Answers string_bytes
        (reading (table_view table.now) in_section.now key.now
        (or_default default.now filled)) result }
{
    let Some(value) = setting(table, in_section, key) else {
        return Ok(String::from_str(alloc, default)?);
    };
    match value.as_str() {
        Some(text) if !text.is_empty() => Ok(String::from_str(alloc, text)?),
        _ => Err(bad_key(alloc, in_section, key)),
    }
}

/// A file and a name with `:` between them.
pub(crate) fn hook(
    alloc: Global,
    table: &Table,
    in_section: &str,
    key: &str,
) -> Result<Option<(String, String)>, ConfigError>
    ensures { Answers hook_view
        (reading (table_view table.now) in_section.now key.now (or_default None hook_text)) result }
{
    let Some(value) = setting(table, in_section, key) else {
        return Ok(None);
    };
    let Some(text) = value.as_str() else {
        return Err(bad_key(alloc, in_section, key));
    };
    let Some((file, name)) = file_and_name(text) else {
        return Err(bad_key(alloc, in_section, key));
    };
    let file = String::from_str(alloc, file)?;
    let name = String::from_str(alloc, name)?;
    Ok(Some((file, name)))
}

/// A list of texts.
pub(crate) fn texts(
    alloc: Global,
    table: &Table,
    in_section: &str,
    key: &str,
    default: &[&str],
) -> Result<Vec<String>, ConfigError>
    ensures { Answers texts_view
        (reading (table_view table.now) in_section.now key.now
        (or_default (map (λ t. t.now) default.now) texts)) result }
{
    let Some(value) = setting(table, in_section, key) else {
        return Ok(owned_texts(alloc, default)?);
    };
    match texts_of(alloc, value)? {
        Some(texts) => Ok(texts),
        None => Err(bad_key(alloc, in_section, key)),
    }
}
