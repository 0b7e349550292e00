//! Files that are read whole.
ghost use Rattle.std.specs.Prelude.{◌≡◌};
ghost use Rattle.cov_outside.specs.Reads.{bytes_read};
ghost use Rattle.cov_programs.specs.Ends.{Follows};
ghost use Rattle.cov_programs.specs.Objects.{nobody};
ghost use Rattle.cov_step.specs.Answers.{bytes_of, bytes_if_any};
ghost use Rattle.cov_step.specs.Calls.{Call, Answer, IsNoMemory, seen};
ghost use Rattle.cov_step.specs.Objects.{on_shelf};
ghost use Rattle.cov_step.specs.Phases.{file};
ghost use Rattle.cov_why.specs.Answers.{plain_why, no_such_file};
ghost use Rattle.cov_calls.specs.Views.{RefusedBy};

use cov_outside::{Shelf, ShelfError};
use cov_why::{LimitKind, Why};
use std::alloc::Global;

/// The most bytes of a file.
pub(crate) const MOST_BYTES: usize = 1_048_576;

/// The bytes of a file that has to be there.
pub fn file<H: Shelf>(alloc: Global, name: &str, shelf: &mut H) -> Result<Vec<u8>, Why>
    ensures { Follows (on_shelf H.Shelf) IsNoMemory (file (no_such_file name.now) name.now)
        shelf.old (seen (λ bytes. bytes.items) result) shelf.new }
{
    bytes_of(alloc, name, shelf.read(alloc, name, MOST_BYTES))
}

/// What follows where the file has to be there.
fn bytes_of(alloc: Global, name: &str, answer: Result<Vec<u8>, ShelfError>) -> Result<Vec<u8>, Why>
    ensures { Follows (nobody Call Answer) IsNoMemory
        (bytes_of (no_such_file name.now) (bytes_read answer)) tt
        (seen (λ bytes. bytes.items) result) tt }
{
    match answer {
        Ok(bytes) => Ok(bytes),
        Err(ShelfError::Absent) => Err(no_such_file(alloc, name)),
        Err(ShelfError::TooLarge) => Err(Why::Limit(LimitKind::FileBytes, 1_048_577)),
        Err(ShelfError::Failed) => Err(Why::ShelfFault),
        Err(ShelfError::NoMemory) => Err(Why::NoMemory),
    }
}

fn no_such_file(alloc: Global, name: &str) -> Why
    ensures { RefusedBy (no_such_file name.now) result }
{
    match String::from_str(alloc, name) {
        Ok(name) => Why::NoSuchFile(name),
        Err(_) => Why::NoMemory,
    }
}

/// What follows where it may be absent: it is then as an empty one.
pub(crate) fn bytes_if_any(
    alloc: Global,
    answer: Result<Vec<u8>, ShelfError>,
) -> Result<Vec<u8>, Why>
    ensures { Follows (nobody Call Answer) IsNoMemory (bytes_if_any (bytes_read answer)) tt
        (seen (λ bytes. bytes.items) result) tt }
{
    match answer {
        Ok(bytes) => Ok(bytes),
        Err(ShelfError::Absent) => Ok(Vec::new(alloc)),
        Err(ShelfError::TooLarge) => Err(Why::Limit(LimitKind::FileBytes, 1_048_577)),
        Err(ShelfError::Failed) => Err(Why::ShelfFault),
        Err(ShelfError::NoMemory) => Err(Why::NoMemory),
    }
}
