//! Commands, and the words that are one.
ghost use Rattle.std.specs.Prelude.{◌≡◌, IfOk, map, string_bytes, option_map};
ghost use Rattle.cov_words.specs.Commands.{IsOneCommand};
ghost use Rattle.cov_words.specs.Plain.{reading_view, command_view, IsReadOn, Answers};
ghost use Rattle.cov_words.specs.Reading.{command_read};

use crate::NoMemory;
use crate::making::command_of;
use crate::reading::Reading;
use std::alloc::{AllocError, Global};
use thiserror::Error;

/// A command with its options and operands. An option that wasn't given is `None` or false.
#[derive(Debug, Drop)]
pub enum Command {
    Arcs {
        budget: Option<u64>,
        script: String,
        args: Vec<String>,
    },
    Run {
        branch: bool,
        append: bool,
        context: Option<String>,
        budget: Option<u64>,
        /// A file, and a function in it.
        hook: Option<(String, String)>,
        data_file: Option<String>,
        rcfile: Option<String>,
        script: String,
        args: Vec<String>,
    },
    Combine {
        append: bool,
        keep: bool,
        data_file: Option<String>,
        rcfile: Option<String>,
        names: Vec<String>,
    },
    Report {
        show_missing: bool,
        /// A percentage: at most 100.
        fail_under: Option<u32>,
        data_file: Option<String>,
        rcfile: Option<String>,
    },
    Json {
        name: Option<String>,
        fail_under: Option<u32>,
        data_file: Option<String>,
        rcfile: Option<String>,
    },
    Lcov {
        name: Option<String>,
        fail_under: Option<u32>,
        data_file: Option<String>,
        rcfile: Option<String>,
    },
    Annotate {
        data_file: Option<String>,
        rcfile: Option<String>,
        file: String,
    },
    Erase {
        data_file: Option<String>,
        rcfile: Option<String>,
    },
    Script {
        file: String,
    },
    Make {
        seed: u64,
        /// At most 16,000.
        size: u32,
    },
    Suite {
        branch: bool,
        budget: Option<u64>,
        data_file: Option<String>,
        rcfile: Option<String>,
        file: String,
    },
    Select {
        budget: Option<u64>,
        old: String,
        new: String,
    },
    Mutate {
        budget: Option<u64>,
        file: String,
    },
}

/// Why words aren't a command.
#[derive(Debug, Drop, Error)]
pub enum WordsError {
    /// No command has these words; the first so many of them begin one, and no more do.
    #[error("stopped after {0} words")]
    Usage(usize),
    #[error("out of memory")]
    NoMemory,
}

impl From<AllocError> for WordsError {
    ghost use Rattle.cov_words.specs.declared.command.WordsError.TheVariants.{NoMemory};

    ghost from_gives = { λ _ e. e ≡ NoMemory };

    fn from(_e: AllocError) -> WordsError {
        WordsError::NoMemory
    }
}

/// The command that the words are. Options come before operands, each at most once. A value is the
/// next word, or stands after `=` in the word of its option.
pub fn read_words(alloc: Global, words: &[String]) -> Result<Command, WordsError>
    ensures { Answers (map string_bytes words.now) result }
{
    let Some((name, rest)) = words.split_first() else {
        return Err(WordsError::Usage(0));
    };
    let Some(mut reading) = Reading::begin(alloc, name.as_str()) else {
        return Err(WordsError::Usage(0));
    };
    let passed = read_on(&mut reading, rest)?;
    if passed < rest.len() {
        return Err(WordsError::Usage(passed + 1));
    }
    match command_of(alloc, &reading)? {
        Some(command) => Ok(command),
        None => Err(WordsError::Usage(words.len())),
    }
}

/// Reads further words as far as they go on with a command. Answers how many do.
fn read_on<'a>(reading: &mut Reading<'a>, words: &'a [String]) -> Result<usize, NoMemory>
    ensures { IfOk result (λ n.
        IsReadOn (reading_view reading.old) (map string_bytes words.now) n
        (reading_view reading.new)) }
{
    let mut passed = 0;
    for word in words {
        if !reading.step(word.as_str())? {
            return Ok(passed);
        }
        passed += 1;
    }
    Ok(passed)
}

/// Stands for the law that its contract states, and does nothing: no words are two commands.
pub fn one_command()
    ensures { IsOneCommand }
{}
