//! The command that words are.
ghost use Rattle.std.specs.Prelude.{map, string_bytes, IfOk};
ghost use Rattle.cov_app.specs.Sizes.{HasSmallSize};
ghost use Rattle.cov_app.specs.Spelled.{spelled};
ghost use Rattle.cov_programs.specs.Ends.{Follows};
ghost use Rattle.cov_step.specs.Calls.{IsNoMemory, seen};
ghost use Rattle.cov_step.specs.Objects.{on_grammar};
ghost use Rattle.cov_words.specs.Plain.{command_view};

use cov_why::Why;
use cov_words::{Command, WordsError, read_words};
use std::alloc::Global;

/// The command that the words are.
pub(crate) fn command_of(alloc: Global, words: &[String]) -> Result<Command, Why>
    ensures follows { Follows on_grammar IsNoMemory (spelled (map string_bytes words.now)) tt
        (seen command_view result) tt }
    ensures small { IfOk result (λ c. HasSmallSize (command_view c)) }
{
    match read_words(alloc, words) {
        Ok(command) => Ok(command),
        Err(WordsError::Usage(passed)) => Err(Why::Usage(passed)),
        Err(WordsError::NoMemory) => Err(Why::NoMemory),
    }
}
