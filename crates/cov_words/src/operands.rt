//! The operands of the commands.
ghost use Rattle.std.specs.Prelude.{◌≡◌, map};
ghost use Rattle.cov_words.specs.Operands.{begins_option, is_name, shape_of, a_seed_and_size};
ghost use Rattle.cov_words.specs.Reading.{extends};
ghost use Rattle.cov_words.specs.Plain.{words_of};

use crate::options::CommandName;
use crate::values::{number_up_to, whole_number};

/// The greatest size of a source that is made.
pub(crate) const MOST_SIZE: u32 = 16_000;

/// Words that begin with `-` are options.
pub(crate) fn begins_option(word: &str) -> bool
    ensures { result ≡ begins_option word.now }
{
    word.starts_with('-')
}

fn is_name(word: &str) -> bool
    ensures { result ≡ is_name word.now }
{
    !begins_option(word)
}

/// Whether a word may follow these operands of the command.
pub(crate) fn extends(command: CommandName, operands: &[&str], word: &str) -> bool
    ensures { result ≡ extends (shape_of command) (words_of operands.now) word.now }
{
    match command {
        CommandName::Arcs | CommandName::Run => !operands.is_empty() || is_name(word),
        CommandName::Combine => is_name(word),
        CommandName::Report => false,
        CommandName::Json => false,
        CommandName::Lcov => false,
        CommandName::Annotate => operands.is_empty() && is_name(word),
        CommandName::Erase => false,
        CommandName::Script => operands.is_empty() && is_name(word),
        CommandName::Make => extends_numbers(operands, word),
        CommandName::Suite => operands.is_empty() && is_name(word),
        CommandName::Select => operands.len() < 2 && is_name(word),
        CommandName::Mutate => operands.is_empty() && is_name(word),
    }
}

/// A seed, and then a size.
fn extends_numbers(operands: &[&str], word: &str) -> bool
    ensures { result ≡ extends a_seed_and_size (words_of operands.now) word.now }
{
    match operands.len() {
        0 => whole_number(word).is_some(),
        1 => number_up_to(MOST_SIZE, word).is_some(),
        _ => false,
    }
}
