//! Values of the forms that TOML has no word for.
ghost use Rattle.std.specs.Prelude.{◌≡◌, map, string_bytes, option_map, IfOk};
ghost use Rattle.std.specs.List.{list_any};
ghost use Rattle.toml.specs.View.{view, array_view};
ghost use Rattle.cov_config.specs.Forms.{texts_in, texts, rule_texts};
ghost use Rattle.cov_file_names.specs.Forms.{is_empty};
ghost use Rattle.cov_config.specs.Plain.{texts_view};

use crate::NoMemory;
use std::alloc::Global;
use toml::Value;

pub(crate) fn owned_texts(alloc: Global, texts: &[&str]) -> Result<Vec<String>, NoMemory>
    ensures { IfOk result (λ owned. texts_view owned ≡ map (λ t. t.now) texts.now) }
{
    let mut owned = Vec::new(alloc);
    for text in texts {
        owned.push(String::from_str(alloc, text)?)?;
    }
    Ok(owned)
}

/// The texts of a list; none where an item is no text.
fn texts_in(alloc: Global, array: &Vec<Value>) -> Result<Option<Vec<String>>, NoMemory>
    ensures { IfOk result (λ found. option_map texts_view found ≡ texts_in (array_view array.now)) }
{
    let mut texts = Vec::new(alloc);
    for item in array {
        let Some(text) = item.as_str() else {
            return Ok(None);
        };
        texts.push(String::from_str(alloc, text)?)?;
    }
    Ok(Some(texts))
}

/// A list of texts.
pub(crate) fn texts_of(alloc: Global, value: &Value) -> Result<Option<Vec<String>>, NoMemory>
    ensures { IfOk result (λ found. option_map texts_view found ≡ texts (view value.now)) }
{
    match value.as_array() {
        Some(array) => texts_in(alloc, array),
        None => Ok(None),
    }
}

/// A list of at least one text, none of them empty.
pub(crate) fn rule_texts(alloc: Global, value: &Value) -> Result<Option<Vec<String>>, NoMemory>
    ensures { IfOk result (λ found. option_map texts_view found ≡ rule_texts (view value.now)) }
{
    let Some(texts) = texts_of(alloc, value)? else {
        return Ok(None);
    };
    if texts.is_empty() {
        return Ok(None);
    }
    if has_empty(texts.as_slice()) {
        return Ok(None);
    }
    Ok(Some(texts))
}

fn has_empty(texts: &[String]) -> bool
    ensures { result ≡ list_any (λ t. is_empty (string_bytes t)) texts.now }
{
    texts.iter().any(|text| text.is_empty())
}
