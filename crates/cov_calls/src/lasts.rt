//! Texts that are written or put, as the last thing that a command does or on the way.
ghost use Rattle.std.specs.Prelude.{◌≡◌};
ghost use Rattle.cov_outside.specs.Reads.{refusal_of};
ghost use Rattle.cov_programs.specs.Ends.{Follows};
ghost use Rattle.cov_programs.specs.Objects.{beside, nobody};
ghost use Rattle.cov_programs.specs.Programs.{ask};
ghost use Rattle.cov_step.specs.Answers.{last, on, shelf_refusal, sink_refusal};
ghost use Rattle.cov_step.specs.Calls.{Call, Answer, IsNoMemory, puts, seen, writes};
ghost use Rattle.cov_step.specs.Objects.{on_shelf, on_sink};
ghost use Rattle.cov_step.specs.Phases.{put_last, write_last};
ghost use Rattle.cov_calls.specs.Views.{answered_view, sink_refusal_of};

use crate::answered::Answered;
use cov_outside::{Shelf, ShelfError, Sink, SinkError};
use cov_why::Why;
use std::alloc::Global;

/// Writes a text.
pub fn write_last<O: Sink>(
    alloc: Global,
    text: &[u8],
    answered: Answered,
    out: &mut O,
) -> Result<Answered, Why>
    ensures { Follows (on_sink O.Sink) IsNoMemory (write_last text.now (answered_view answered))
        out.old (seen answered_view result) out.new }
{
    written(answered, out.write(alloc, text))
}

fn written(answered: Answered, answer: Result<(), SinkError>) -> Result<Answered, Why>
    ensures { Follows (nobody Call Answer) IsNoMemory
        (last sink_refusal (answered_view answered) (sink_refusal_of answer)) tt
        (seen answered_view result) tt }
{
    match answer {
        Ok(()) => Ok(answered),
        Err(SinkError::Failed) => Err(Why::WriteFault),
        Err(SinkError::NoMemory) => Err(Why::NoMemory),
    }
}

/// Writes a text on the way.
pub fn write<O: Sink>(alloc: Global, text: &[u8], out: &mut O) -> Result<(), Why>
    ensures { Follows (on_sink O.Sink) IsNoMemory (ask (writes text.now) (on sink_refusal))
        out.old (seen (λ _. tt) result) out.new }
{
    noted(out.write(alloc, text))
}

fn noted(answer: Result<(), SinkError>) -> Result<(), Why>
    ensures { Follows (nobody Call Answer) IsNoMemory (on sink_refusal (sink_refusal_of answer)) tt
        (seen (λ _. tt) result) tt }
{
    match answer {
        Ok(()) => Ok(()),
        Err(SinkError::Failed) => Err(Why::WriteFault),
        Err(SinkError::NoMemory) => Err(Why::NoMemory),
    }
}

/// Puts a text under a name. Where the name is `-`, it is written.
pub fn put_last<H: Shelf, O: Sink>(
    alloc: Global,
    name: &str,
    text: &[u8],
    answered: Answered,
    shelf: &mut H,
    out: &mut O,
) -> Result<Answered, Why>
    ensures { Follows (beside (on_shelf H.Shelf) (on_sink O.Sink)) IsNoMemory
        (put_last name.now text.now (answered_view answered)) (shelf.old, out.old)
        (seen answered_view result) (shelf.new, out.new) }
{
    if name == "-" {
        write_last(alloc, text, answered, out)
    } else {
        put(alloc, name, text, answered, shelf)
    }
}

fn put<H: Shelf>(
    alloc: Global,
    name: &str,
    text: &[u8],
    answered: Answered,
    shelf: &mut H,
) -> Result<Answered, Why>
    ensures { Follows (on_shelf H.Shelf) IsNoMemory
        (ask (puts name.now text.now) (last shelf_refusal (answered_view answered))) shelf.old
        (seen answered_view result) shelf.new }
{
    put_so(answered, shelf.put(alloc, name, text))
}

fn put_so(answered: Answered, answer: Result<(), ShelfError>) -> Result<Answered, Why>
    ensures { Follows (nobody Call Answer) IsNoMemory
        (last shelf_refusal (answered_view answered) (refusal_of answer)) tt
        (seen answered_view result) tt }
{
    match answer {
        Ok(()) => Ok(answered),
        Err(ShelfError::Absent | ShelfError::TooLarge | ShelfError::Failed) => {
            Err(Why::ShelfFault)
        }
        Err(ShelfError::NoMemory) => Err(Why::NoMemory),
    }
}
