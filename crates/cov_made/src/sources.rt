//! Sources that are made up, read and compiled.
ghost use Rattle.std.specs.Prelude.{◌≡◌, ◌≤◌, Some, string_bytes};
ghost use Rattle.std.specs.Str.{chars};
ghost use Rattle.cov_made.specs.Sources.{IsSourced, IsWithText};
ghost use Rattle.cov_made.specs.Views.{IsOneModule, source_view};
ghost use Rattle.cov_make.specs.Source.{source};
ghost use Rattle.cov_run.specs.Loading.{file_bytes};
ghost use Rattle.cov_step.specs.Making.{made_path};
ghost use Rattle.py_syntax.specs.View.{plain_module};

use cov_loaded_laws::{loaded_have_text_lines, loaded_programs_are_measured};
use cov_make::source_of;
use cov_make_laws::made_are_loaded;
use cov_outside::{Shelf, SureShelf};
use cov_run::{Loaded, load};
use cov_why::Why;
use py_syntax::Module;
use std::alloc::Global;

/// The path under which a made source runs.
pub(crate) const MADE_PATH: &str = "made.py";

/// A source with its code and its tree.
#[derive(Drop)]
pub(crate) struct MadeSource {
    pub(crate) text: String,
    pub(crate) loaded: Loaded,
}

impl MadeSource {
    /// Its tree.
    pub(crate) fn module(&self) -> &Module
        requires { IsOneModule self.now }
        ensures { plain_module result.now ≡ (source_view self.now).body }
    {
        &self.loaded.modules[0]
    }
}

/// The source of a seed and a size, read and compiled.
pub(crate) fn made_source(alloc: Global, seed: u64, size: u32) -> Result<MadeSource, Why>
    requires { size ≤ 16000 }
    ensures { IsSourced seed size result }
{
    match source_of(alloc, seed, size) {
        Ok(text) => shelved(alloc, seed, size, text),
        Err(_) => Err(Why::NoMemory),
    }
}

/// Puts a source on a shelf that holds nothing else, and reads and compiles it from there.
fn shelved(alloc: Global, seed: u64, size: u32, text: String) -> Result<MadeSource, Why>
    requires small { size ≤ 16000 }
    requires text { string_bytes text ≡ source seed size }
    ensures { IsSourced seed size result }
{
    let mut shelf = SureShelf::new(alloc, Vec::new(alloc));
    match shelf.put(alloc, MADE_PATH, text.as_bytes()) {
        Ok(()) => opened(alloc, seed, size, text, &mut shelf),
        Err(_) => Err(Why::NoMemory),
    }
}

/// Reads and compiles a source from the shelf that holds it.
fn opened(
    alloc: Global,
    seed: u64,
    size: u32,
    text: String,
    shelf: &mut SureShelf,
) -> Result<MadeSource, Why>
    requires small { size ≤ 16000 }
    requires text { string_bytes text ≡ source seed size }
    requires held { file_bytes (⟦<SureShelf as Shelf>⟧.files shelf.old) (chars made_path)
        ≡ Some (source seed size) }
    ensures { IsSourced seed size result }
{
    loaded_have_text_lines::<SureShelf>();
    loaded_programs_are_measured();
    made_are_loaded();
    with_text(text, load(alloc, MADE_PATH, "__main__", shelf))
}

fn with_text(text: String, answer: Result<Loaded, Why>) -> Result<MadeSource, Why>
    ensures { IsWithText text answer result }
{
    match answer {
        Ok(loaded) => Ok(MadeSource { text, loaded }),
        Err(why) => Err(why),
    }
}
