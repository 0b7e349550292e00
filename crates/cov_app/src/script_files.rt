//! Files of commands.
ghost use Rattle.std.specs.Prelude.{◌≡◌, ◌≤◌, length, string_bytes, IfOk};
ghost use Rattle.cov_calls.specs.Views.{RefusedBy};
ghost use Rattle.cov_outside.specs.Reads.{bytes_read};
ghost use Rattle.cov_programs.specs.Ends.{Follows};
ghost use Rattle.cov_programs.specs.Objects.{nobody};
ghost use Rattle.cov_programs.specs.Programs.{bind, give};
ghost use Rattle.cov_run.specs.Loading.{most_bytes};
ghost use Rattle.cov_step.specs.Answers.{bytes_of};
ghost use Rattle.cov_step.specs.Calls.{Call, Answer, IsNoMemory, seen};
ghost use Rattle.cov_step.specs.Objects.{on_shelf};
ghost use Rattle.cov_step.specs.Scripts.{is_script, script_text};
ghost use Rattle.cov_why.specs.Answers.{no_such_file};

use cov_outside::{Shelf, ShelfError};
use cov_run::check_text;
use cov_why::{LimitKind, Why};
use std::alloc::Global;

/// The most bytes of a file.
const MOST_BYTES: usize = 1_048_576;

/// The text of a file of commands. It passes the checks of a source that don't read it as Python.
pub(crate) fn script_text<H: Shelf>(alloc: Global, name: &str, shelf: &mut H) -> Result<String, Why>
    ensures { Follows (on_shelf H.Shelf) IsNoMemory (script_text name.now) shelf.old
        (seen string_bytes result) shelf.new }
{
    let answer = shelf.read(alloc, name, MOST_BYTES);
    text_read(alloc, name, answer)
}

/// What follows from the answer to the read.
fn text_read(alloc: Global, name: &str, answer: Result<Vec<u8>, ShelfError>) -> Result<String, Why>
    requires { IfOk answer (λ bytes. length bytes.items ≤ most_bytes) }
    ensures { Follows (nobody Call Answer) IsNoMemory
        (bind (bytes_of (no_such_file name.now) (bytes_read answer)) (is_script name.now)) tt
        (seen string_bytes result) tt }
{
    match answer {
        Ok(bytes) => text_of(alloc, name, &bytes),
        Err(ShelfError::Absent) => Err(no_such_file(alloc, name)),
        Err(ShelfError::TooLarge) => Err(Why::Limit(LimitKind::FileBytes, 1_048_577)),
        Err(ShelfError::Failed) => Err(Why::ShelfFault),
        Err(ShelfError::NoMemory) => Err(Why::NoMemory),
    }
}

/// The text of bytes.
fn text_of(alloc: Global, name: &str, bytes: &[u8]) -> Result<String, Why>
    requires { length bytes.now ≤ most_bytes }
    ensures { Follows (nobody Call Answer) IsNoMemory (is_script name.now bytes.now) tt
        (seen string_bytes result) tt }
{
    match check_text(alloc, name, bytes) {
        Ok(text) => owned(alloc, text),
        Err(why) => Err(why),
    }
}

fn owned(alloc: Global, text: &str) -> Result<String, Why>
    ensures { Follows (nobody Call Answer) IsNoMemory (give text.now) tt (seen string_bytes result)
        tt }
{
    match String::from_str(alloc, text) {
        Ok(text) => Ok(text),
        Err(_) => Err(Why::NoMemory),
    }
}

fn no_such_file(alloc: Global, name: &str) -> Why
    ensures { RefusedBy (no_such_file name.now) result }
{
    match String::from_str(alloc, name) {
        Ok(name) => Why::NoSuchFile(name),
        Err(_) => Why::NoMemory,
    }
}
