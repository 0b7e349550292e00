//! Words one after the other.
ghost use Rattle.std.specs.Prelude.{◌≡◌, IfOk, option_map};
ghost use Rattle.std.specs.List.{list_any};
ghost use Rattle.cov_words.specs.Options.{is_same, may_take};
ghost use Rattle.cov_words.specs.Reading.{with_value, found_before, found, next, step, begun};
ghost use Rattle.cov_words.specs.Plain.{value_view, given_of, found_view, reading_view, Goes};

use crate::NoMemory;
use crate::operands::{begins_option, extends};
use crate::options::{CommandName, OptionName};
use crate::values::{Value, value_of};
use std::alloc::Global;

/// What has been read of a command.
#[derive(Drop)]
pub(crate) struct Reading<'a> {
    pub(crate) command: CommandName,
    pub(crate) given: Vec<(OptionName, Value<'a>)>,
    /// An option whose value is the next word.
    pub(crate) awaiting: Option<OptionName>,
    pub(crate) operands: Vec<&'a str>,
}

/// An option in a word.
pub(crate) enum Found<'a> {
    Nowhere,
    Whole(OptionName, Value<'a>),
    /// Its value is the next word.
    Half(OptionName),
}

fn whole<'a>(option: OptionName, value: Option<Value<'a>>) -> Found<'a>
    ensures { found_view result ≡ with_value option (option_map value_view value.entry) }
{
    match value {
        Some(value) => Found::Whole(option, value),
        None => Found::Nowhere,
    }
}

/// The option before a `=`, with what stands after it.
fn found_before<'a>(option: Option<OptionName>, text: &'a str) -> Found<'a>
    ensures { found_view result ≡ found_before option text.now }
{
    match option {
        Some(option) if option.joins() => whole(option, value_of(option, text)),
        _ => Found::Nowhere,
    }
}

/// The option of a word.
fn option_in<'a>(word: &'a str) -> Found<'a>
    ensures { found_view result ≡ found word.now }
{
    match OptionName::named(word) {
        Some(option) => {
            if option.has_value() {
                return Found::Half(option);
            }
            Found::Whole(option, Value::On)
        }
        None => match word.split_once('=') {
            Some((name, text)) => found_before(OptionName::named(name), text),
            None => Found::Nowhere,
        },
    }
}

fn is_given(option: OptionName, given: &[(OptionName, Value<'_>)]) -> bool
    ensures { result ≡ list_any (λ x. is_same option x.0) given.now }
{
    given.iter().any(|entry| option.is_same(entry.0))
}

impl<'a> Reading<'a> {
    /// A command by its name alone.
    pub(crate) fn begin(alloc: Global, word: &str) -> Option<Reading<'a>>
        ensures { option_map reading_view result ≡ begun word.now }
    {
        let command = CommandName::named(word)?;
        Some(Reading {
            command,
            given: Vec::new(alloc),
            awaiting: None,
            operands: Vec::new(alloc),
        })
    }

    fn may_take(&self, option: OptionName) -> bool
        ensures { result
            ≡ may_take (reading_view self.now).command (reading_view self.now).given option }
    {
        self.command.has(option) && !is_given(option, self.given.as_slice())
    }

    /// Whether a further word can be read; it is read then.
    pub(crate) fn step(&mut self, word: &'a str) -> Result<bool, NoMemory>
        ensures { IfOk result (λ goes.
            Goes (step (reading_view self.old) word.now) goes (reading_view self.new)) }
    {
        if let Some(option) = self.awaiting {
            let Some(value) = value_of(option, word) else {
                return Ok(false);
            };
            self.given.push((option, value))?;
            self.awaiting = None;
            return Ok(true);
        }
        if self.operands.is_empty() && begins_option(word) {
            return self.take(option_in(word));
        }
        if !extends(self.command, self.operands.as_slice(), word) {
            return Ok(false);
        }
        self.operands.push(word)?;
        Ok(true)
    }

    fn take(&mut self, found: Found<'a>) -> Result<bool, NoMemory>
        ensures { IfOk result (λ goes.
            Goes (next (reading_view self.old) (found_view found.entry)) goes
            (reading_view self.new)) }
    {
        match found {
            Found::Nowhere => Ok(false),
            Found::Whole(option, value) => {
                if !self.may_take(option) {
                    return Ok(false);
                }
                self.given.push((option, value))?;
                Ok(true)
            }
            Found::Half(option) => {
                if !self.may_take(option) {
                    return Ok(false);
                }
                self.awaiting = Some(option);
                Ok(true)
            }
        }
    }
}
