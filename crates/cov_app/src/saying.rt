//! What is said on `err`.
ghost use Rattle.std.specs.Prelude.{◌≡◌, ◌≤◌};
ghost use Rattle.cov_app.specs.Objects.{saying, told_view};
ghost use Rattle.cov_outside.specs.Counts.{Rose};
ghost use Rattle.cov_step.specs.Objects.{IsSaid, SayOf};
ghost use Rattle.cov_why.specs.Answers.{plain_why};
ghost use Rattle.cov_why.specs.Messages.{message_of};

use crate::answer::Told;
use cov_outside::{Sink, SinkError};
use cov_why::Why;
use std::alloc::Global;

/// Says the text of an answer, unless something that was said before was refused. What became of
/// all that was said is answered.
pub(crate) fn tell<E: Sink>(alloc: Global, why: &Why, ending: &str, told: Told, err: &mut E) -> Told
    ensures { SayOf E.Sink (saying err.old told) (message_of (plain_why why.now) ending.now)
        (saying err.new result) }
{
    match told {
        Told::Whole => first_told(alloc, why, ending, err),
        Told::Failed => Told::Failed,
        Told::NoMemory => Told::NoMemory,
    }
}

/// Says the text of an answer.
fn first_told<E: Sink>(alloc: Global, why: &Why, ending: &str, err: &mut E) -> Told
    ensures said { E.tells
        → IsSaid (told_view result) (message_of (plain_why why.now) ending.now)
        (E.contents err.old) (E.contents err.new) }
    ensures count { E.faults err.old ≤ E.faults err.new }
    ensures failed { result ≡ Told.Failed → Rose (E.faults err.old) (E.faults err.new) }
{
    match why.message(alloc, ending) {
        Ok(line) => say(alloc, line.as_str(), err),
        Err(_) => Told::NoMemory,
    }
}

fn say<E: Sink>(alloc: Global, text: &str, err: &mut E) -> Told
    ensures said { E.tells
        → IsSaid (told_view result) text.now (E.contents err.old) (E.contents err.new) }
    ensures count { E.faults err.old ≤ E.faults err.new }
    ensures failed { result ≡ Told.Failed → Rose (E.faults err.old) (E.faults err.new) }
{
    if text.is_empty() {
        return Told::Whole;
    }
    match err.write(alloc, text.as_bytes()) {
        Ok(()) => Told::Whole,
        Err(SinkError::Failed) => Told::Failed,
        Err(SinkError::NoMemory) => Told::NoMemory,
    }
}
