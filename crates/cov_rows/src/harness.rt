//! Runs commands over objects in memory.

use cov_app::{End, Told, coverage};
use cov_event::ContextPlugin;
use cov_exclude::RegexMaker;
use cov_outside::{MemShelf, MemSink, MemSource, Shelf, Source};
use cov_vault::{Content, MemVault, Vault};
use py_machine::{Engine, Machine};
use std::alloc::{AllocError, Global};
use std::test::Fail;

/// The calls that fail, counted from 0: of the shelf, the vault, the input, `out` and `err`.
#[derive(Clone, Copy)]
pub(crate) struct Failing {
    pub(crate) shelf: &'static [u64],
    pub(crate) vault: &'static [u64],
    pub(crate) input: &'static [u64],
    pub(crate) out: &'static [u64],
    pub(crate) err: &'static [u64],
}

/// No call fails.
pub(crate) const NONE: Failing = Failing {
    shelf: &[],
    vault: &[],
    input: &[],
    out: &[],
    err: &[],
};

/// What came of a command.
#[derive(Drop)]
pub(crate) struct Answer {
    pub(crate) status: u8,
    pub(crate) told: Told,
    pub(crate) out: String,
    pub(crate) err: String,
    /// How many bytes of the input are left.
    pub(crate) left: usize,
}

/// Files and data in memory, over which commands run one after another, and the calls that fail.
#[derive(Drop)]
pub(crate) struct World {
    shelf: MemShelf,
    vault: MemVault,
    failing: Failing,
}

impl World {
    pub(crate) fn new(
        alloc: Global,
        files: Vec<(String, Vec<u8>)>,
        contents: Vec<(String, Content)>,
        failing: Failing,
    ) -> Result<World, AllocError> {
        Ok(World {
            shelf: MemShelf::new(alloc, files, numbers(alloc, failing.shelf)?),
            vault: MemVault::new(alloc, contents, numbers(alloc, failing.vault)?),
            failing,
        })
    }

    /// What comes of the words, by the machine, without a plugin.
    pub(crate) fn answer(
        &mut self,
        alloc: Global,
        words: &str,
        input: &str,
    ) -> Result<Answer, Fail> {
        let mut none: Vec<Box<dyn ContextPlugin>> = Vec::new(alloc);
        self.answer_by(alloc, words, input, &mut none, &mut Machine)
    }

    /// What comes of the words, by an engine.
    pub(crate) fn answer_by<G: Engine>(
        &mut self,
        alloc: Global,
        words: &str,
        input: &str,
        plugins: &mut Vec<Box<dyn ContextPlugin>>,
        engine: &mut G,
    ) -> Result<Answer, Fail> {
        let words = split(alloc, words)?;
        let bytes = Vec::from_slice(alloc, input.as_bytes())?;
        let mut input = MemSource::new(bytes, numbers(alloc, self.failing.input)?);
        let mut out = MemSink::new(alloc, Vec::new(alloc), numbers(alloc, self.failing.out)?);
        let mut err = MemSink::new(alloc, Vec::new(alloc), numbers(alloc, self.failing.err)?);
        let end = coverage(
            alloc,
            &words,
            &mut self.shelf,
            &mut self.vault,
            &mut RegexMaker::new(),
            &mut input,
            &mut out,
            &mut err,
            plugins,
            engine,
        );
        let End { status, why, told } = end;
        drop(why);
        Ok(Answer {
            status,
            told,
            out: String::from_utf8(out.into_bytes())?,
            err: String::from_utf8(err.into_bytes())?,
            left: count_left(&mut input),
        })
    }

    /// A line for each row of the data of a name: its context, path, numbers and count. Nothing
    /// where there is none.
    pub(crate) fn rows(&mut self, alloc: Global, name: &str) -> Result<String, AllocError> {
        let mut lines = String::new(alloc);
        if let Ok(data) = self.vault.load(alloc, name) {
            for row in &data.rows()? {
                let (context, path) = (row.context.as_str(), row.path.as_str());
                let line = format!(in alloc;
                    "{context}: {path} {} {} {}\n",
                    row.from, row.to, row.count
                )?;
                lines.push_str(line.as_str())?;
            }
        }
        Ok(lines)
    }

    /// The names of the data, with a blank between them. Nothing where they can't be told.
    pub(crate) fn names(&mut self, alloc: Global) -> Result<String, AllocError> {
        match self.vault.names(alloc) {
            Ok(names) => names.join(alloc, " "),
            Err(_) => Ok(String::new(alloc)),
        }
    }

    /// The text of a file of at most 100,000 bytes. Nothing where there is none.
    pub(crate) fn file(&mut self, alloc: Global, name: &str) -> Result<String, Fail> {
        match self.shelf.read(alloc, name, 100_000) {
            Ok(bytes) => Ok(String::from_utf8(bytes)?),
            Err(_) => Ok(String::new(alloc)),
        }
    }
}

/// What comes of the words over files of text, by the machine.
pub(crate) fn answer_to(
    alloc: Global,
    words: &str,
    files: &[(&str, &str)],
    input: &str,
    failing: Failing,
) -> Result<Answer, Fail> {
    let files = shelf_of(alloc, files)?;
    answer_by(alloc, words, files, input, failing, &mut Machine)
}

/// Files of text.
pub(crate) fn shelf_of(
    alloc: Global,
    files: &[(&str, &str)],
) -> Result<Vec<(String, Vec<u8>)>, AllocError> {
    let mut pairs = Vec::new(alloc);
    for (name, text) in files {
        let bytes = Vec::from_slice(alloc, text.as_bytes())?;
        pairs.push((String::from_str(alloc, name)?, bytes))?;
    }
    Ok(pairs)
}

/// What comes of the words over files, by an engine.
pub(crate) fn answer_by<G: Engine>(
    alloc: Global,
    words: &str,
    files: Vec<(String, Vec<u8>)>,
    input: &str,
    failing: Failing,
    engine: &mut G,
) -> Result<Answer, Fail> {
    let mut none: Vec<Box<dyn ContextPlugin>> = Vec::new(alloc);
    let mut world = World::new(alloc, files, Vec::new(alloc), failing)?;
    world.answer_by(alloc, words, input, &mut none, engine)
}

/// The words between blanks.
fn split(alloc: Global, words: &str) -> Result<Vec<String>, AllocError> {
    let mut all = Vec::new(alloc);
    for word in words.split_whitespace() {
        all.push(String::from_str(alloc, word)?)?;
    }
    Ok(all)
}

fn numbers(alloc: Global, failing: &[u64]) -> Result<Vec<u64>, AllocError> {
    Vec::from_slice(alloc, failing)
}

/// Reads at most 1,000 bytes, and counts them.
fn count_left(input: &mut MemSource) -> usize {
    let mut buf = [0u8; 1000];
    match input.read(&mut buf) {
        Ok(count) => count,
        Err(_) => 0,
    }
}

/// The output, and then a line for each arc of a path. Arcs are written as `1 2; 2 -1`.
pub(crate) fn listed(
    alloc: Global,
    out: &str,
    path: &str,
    arcs: &str,
) -> Result<String, AllocError> {
    let mut all = String::from_str(alloc, out)?;
    for arc in arcs.split("; ") {
        if !arc.is_empty() {
            let line = format!(in alloc; "{path} {arc}\n")?;
            all.push_str(line.as_str())?;
        }
    }
    Ok(all)
}
