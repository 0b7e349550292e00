//! Values of options and operands.
ghost use Rattle.std.specs.Prelude.{◌≡◌, option_map};
ghost use Rattle.std.specs.List.{list_all};
ghost use Rattle.cov_words.specs.Options.{form_of};
ghost use Rattle.cov_words.specs.Plain.{value_view};
ghost use Rattle.cov_words.specs.Values.{is_digit, whole_number, number_up_to, value_of};

use crate::options::OptionName;
use cov_file_names::file_and_name;

/// What an option is given.
#[derive(Clone, Copy)]
pub(crate) enum Value<'a> {
    On,
    Text(&'a str),
    Number(u32),
    FileNamed(&'a str, &'a str),
}

/// A whole number of 1 to 10 decimal digits.
pub(crate) fn whole_number(word: &str) -> Option<u64>
    ensures { result ≡ whole_number word.now }
{
    if word.is_empty() || word.len() > 10 || !are_digits(word) {
        return None;
    }
    word.parse().ok()
}

fn are_digits(word: &str) -> bool
    ensures { result ≡ list_all is_digit word.now }
{
    word.bytes().all(|byte| byte.is_ascii_digit())
}

/// A whole number up to `most`.
pub(crate) fn number_up_to(most: u32, word: &str) -> Option<u32>
    ensures { result ≡ number_up_to most word.now }
{
    let number = whole_number(word)?;
    if number > u64::from(most) {
        return None;
    }
    Some(number as u32)
}

/// What a word is as the value of an option.
pub(crate) fn value_of(option: OptionName, word: &str) -> Option<Value<'_>>
    ensures { option_map value_view result ≡ value_of (form_of option) word.now }
{
    match option {
        OptionName::Branch => None,
        OptionName::Append => None,
        OptionName::Keep => None,
        OptionName::ShowMissing => None,
        OptionName::Context => Some(Value::Text(word)),
        OptionName::Budget => Some(Value::Number(number_up_to(1_000_000_000, word)?)),
        OptionName::Hook => {
            let (file, name) = file_and_name(word)?;
            Some(Value::FileNamed(file, name))
        }
        OptionName::DataFile => Some(Value::Text(word)),
        OptionName::Rcfile => Some(Value::Text(word)),
        OptionName::FailUnder => Some(Value::Number(number_up_to(100, word)?)),
        OptionName::Output => Some(Value::Text(word)),
    }
}
