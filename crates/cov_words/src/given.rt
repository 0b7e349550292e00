//! The values of options that were given.
ghost use Rattle.std.specs.Prelude.{◌≡◌, IfOk, map, string_bytes, option_map};
ghost use Rattle.cov_words.specs.Commands.{text_in, number_in, file_named_in};
ghost use Rattle.cov_words.specs.Options.{value_in, is_given};
ghost use Rattle.cov_words.specs.Plain.{value_view, given_of, words_of, texts_view, pair_view};
ghost use Rattle.cov_words.specs.declared.options.OptionName.TheVariants.{Budget, Hook, DataFile, Rcfile};

use crate::NoMemory;
use crate::options::OptionName;
use crate::values::Value;
use std::alloc::Global;

fn value_in<'a>(option: OptionName, given: &[(OptionName, Value<'a>)]) -> Option<Value<'a>>
    ensures { option_map value_view result ≡ value_in option (given_of given.now) }
{
    for entry in given {
        if option.is_same(entry.0) {
            return Some(entry.1);
        }
    }
    None
}

/// Whether an option was given.
pub(crate) fn is_on(option: OptionName, given: &[(OptionName, Value<'_>)]) -> bool
    ensures { result ≡ is_given option (given_of given.now) }
{
    value_in(option, given).is_some()
}

pub(crate) fn text_in(
    alloc: Global,
    option: OptionName,
    given: &[(OptionName, Value<'_>)],
) -> Result<Option<String>, NoMemory>
    ensures { IfOk result (λ t. option_map string_bytes t ≡ text_in option (given_of given.now)) }
{
    match value_in(option, given) {
        Some(Value::Text(text)) => Ok(Some(String::from_str(alloc, text)?)),
        _ => Ok(None),
    }
}

/// The data file and the file of settings.
pub(crate) fn files_in(
    alloc: Global,
    given: &[(OptionName, Value<'_>)],
) -> Result<(Option<String>, Option<String>), NoMemory>
    ensures data { IfOk result (λ files.
        option_map string_bytes files.0 ≡ text_in DataFile (given_of given.now)) }
    ensures settings { IfOk result (λ files.
        option_map string_bytes files.1 ≡ text_in Rcfile (given_of given.now)) }
{
    let data_file = text_in(alloc, OptionName::DataFile, given)?;
    let rcfile = text_in(alloc, OptionName::Rcfile, given)?;
    Ok((data_file, rcfile))
}

pub(crate) fn number_in(option: OptionName, given: &[(OptionName, Value<'_>)]) -> Option<u32>
    ensures { result ≡ number_in option (given_of given.now) }
{
    match value_in(option, given) {
        Some(Value::Number(number)) => Some(number),
        _ => None,
    }
}

/// The steps that `--budget` allows.
pub(crate) fn steps_in(given: &[(OptionName, Value<'_>)]) -> Option<u64>
    ensures { result ≡ number_in Budget (given_of given.now) }
{
    number_in(OptionName::Budget, given).map(|number| u64::from(number))
}

/// The file and the function of `--hook`.
pub(crate) fn hook_in(
    alloc: Global,
    given: &[(OptionName, Value<'_>)],
) -> Result<Option<(String, String)>, NoMemory>
    ensures { IfOk result (λ t. option_map pair_view t ≡ file_named_in Hook (given_of given.now)) }
{
    match value_in(OptionName::Hook, given) {
        Some(Value::FileNamed(file, name)) => {
            Ok(Some((
                String::from_str(alloc, file)?,
                String::from_str(alloc, name)?,
            )))
        }
        _ => Ok(None),
    }
}

/// Texts of their own.
pub(crate) fn owned(alloc: Global, words: &[&str]) -> Result<Vec<String>, NoMemory>
    ensures { IfOk result (λ texts. texts_view texts ≡ words_of words.now) }
{
    let mut texts = Vec::new(alloc);
    for word in words {
        texts.push(String::from_str(alloc, word)?)?;
    }
    Ok(texts)
}
