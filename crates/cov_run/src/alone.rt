//! Reads one source alone, from its file or from memory.

ghost use Rattle.std.specs.Prelude.{◌≡◌, ◌≤◌, length, string_bytes, IsErrOf};
ghost use Rattle.cov_outside.specs.Counts.{Rose};
ghost use Rattle.cov_why.specs.Answers.{AnsweredAs};
ghost use Rattle.cov_run.specs.Alone.{ChecksText, ReadsAlone, ReadsText, plain_file};
ghost use Rattle.cov_run.specs.Loading.{most_bytes};

use crate::bytes::text_of;
use crate::loading::MOST_BYTES;
use crate::refusals::{no_source, refused};
use crate::source::{SourceError, read_text};
use cov_outside::{Shelf, ShelfError};
use cov_why::{LimitKind, Why};
use py_syntax::Module;
use py_token::{LINE_LIMIT, count_lines};
use std::alloc::Global;

/// A source: its text and its tree.
#[derive(Drop)]
pub struct SourceFile {
    pub text: String,
    pub module: Module,
}

/// Reads the file of this name by the checks that `load` makes of one file. The limits of a whole
/// program aren't asked, and `NoSource` names a file that isn't there.
pub fn load_source<H: Shelf>(alloc: Global, path: &str, shelf: &mut H) -> Result<SourceFile, Why>
    // What the shelf answers is passed on as it came.
    ensures reads { AnsweredAs (plain_file path.now) result (λ came.
        ReadsAlone H.reads H.faults shelf.old path.now came shelf.new) }
    ensures fault { IsErrOf result Why.ShelfFault
        → Rose (H.faults shelf.old) (H.faults shelf.new) }
    ensures count { H.faults shelf.old ≤ H.faults shelf.new }
    ensures kept { H.tells → H.files shelf.new ≡ H.files shelf.old }
{
    match shelf.read(alloc, path, MOST_BYTES) {
        Ok(bytes) => source_of_bytes(alloc, path, &bytes),
        Err(ShelfError::Absent) => Err(no_source(alloc, path)),
        Err(ShelfError::TooLarge) => Err(Why::Limit(LimitKind::FileBytes, 1_048_577)),
        Err(ShelfError::Failed) => Err(Why::ShelfFault),
        Err(ShelfError::NoMemory) => Err(Why::NoMemory),
    }
}

fn source_of_bytes(alloc: Global, path: &str, bytes: &[u8]) -> Result<SourceFile, Why>
    requires { length bytes.now ≤ most_bytes }
    ensures reads { AnsweredAs (plain_file path.now) result (ReadsText path.now bytes.now) }
    ensures no_fault { IsErrOf result Why.ShelfFault → ⊥ }
{
    match text_of(bytes) {
        Ok(text) => source_of_text(alloc, path, text),
        Err(line) => Err(refused(alloc, path, &SourceError::NoText(line))),
    }
}

/// Reads a text in memory by the same checks.
pub fn source_of_text(alloc: Global, path: &str, text: &str) -> Result<SourceFile, Why>
    ensures reads { AnsweredAs (plain_file path.now) result (ReadsText path.now text.now) }
    ensures no_fault { IsErrOf result Why.ShelfFault → ⊥ }
{
    match read_text(alloc, text) {
        Ok(source) => match String::from_str(alloc, text) {
            Ok(text) => Ok(SourceFile {
                text,
                module: source.module,
            }),
            Err(_) => Err(Why::NoMemory),
        },
        Err(error) => Err(refused(alloc, path, &error)),
    }
}

/// Checks the bytes of a file of commands: that they are a text, of no more lines than a source may
/// have.
pub fn check_text<'a>(alloc: Global, name: &str, bytes: &'a [u8]) -> Result<&'a str, Why>
    requires { length bytes.now ≤ most_bytes }
    ensures { AnsweredAs (λ text. text.now) result (ChecksText name.now bytes.now) }
{
    match text_of(bytes) {
        Ok(text) => {
            let lines = count_lines(text);
            if lines > LINE_LIMIT {
                return Err(Why::Limit(LimitKind::Lines, lines as u64));
            }
            Ok(text)
        }
        Err(line) => Err(refused(alloc, name, &SourceError::NoText(line))),
    }
}
