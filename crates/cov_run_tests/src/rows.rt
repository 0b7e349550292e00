//! Loads the files of a row.

use cov_outside::MemShelf;
use cov_run::{Loaded, LoadedSource, load, load_sources};
use cov_why::Why;
use std::alloc::Global;
use std::process::Abort;
use std::test::Fail;

/// Files by name; the first is the script.
#[derive(Drop)]
pub(crate) struct Files {
    pairs: Vec<(String, Vec<u8>)>,
}

impl Files {
    pub(crate) fn new(alloc: Global) -> Files {
        Files {
            pairs: Vec::new(alloc),
        }
    }

    pub(crate) fn put(&mut self, alloc: Global, name: &str, bytes: Vec<u8>) -> Result<(), Fail> {
        let name = String::from_str(alloc, name)?;
        self.pairs.push((name, bytes))?;
        Ok(())
    }

    pub(crate) fn text(&mut self, alloc: Global, name: &str, source: &str) -> Result<(), Fail> {
        let bytes = Vec::from_slice(alloc, source.as_bytes())?;
        self.put(alloc, name, bytes)
    }

    /// What loading the script gives, where these calls of the shelf fail: names and files of the
    /// modules, or the answer.
    pub(crate) fn load(self, alloc: Global, script: &str, failing: &[u64]) -> Result<String, Fail> {
        let failing = Vec::from_slice(alloc, failing)?;
        let mut shelf = MemShelf::new(alloc, self.pairs, failing);
        match load_sources(alloc, script, "__main__", &mut shelf) {
            Ok(sources) => listed(alloc, sources.as_slice()),
            Err(why) => refused(alloc, &why),
        }
    }

    /// The same with the code: how many units each program has, and how many statements its tree.
    pub(crate) fn compile(self, alloc: Global, script: &str) -> Result<String, Fail> {
        let mut shelf = MemShelf::new(alloc, self.pairs, Vec::new(alloc));
        match load(alloc, script, "__main__", &mut shelf) {
            Ok(loaded) => compiled(alloc, &loaded),
            Err(why) => refused(alloc, &why),
        }
    }
}

/// An answer of loading, with its fields.
pub(crate) fn refused(alloc: Global, why: &Why) -> Result<String, Fail> {
    match why {
        Why::NoSuchFile(name) => Ok(format!(in alloc; "NoSuchFile({name:?})")?),
        Why::NoSource(path) => Ok(format!(in alloc; "NoSource({path:?})")?),
        Why::Syntax(file, line, kind) => {
            Ok(format!(in alloc; "Syntax({file:?}, {line}, {kind:?})")?)
        }
        Why::Limit(kind, count) => Ok(format!(in alloc; "Limit({kind:?}, {count})")?),
        Why::ShelfFault => Ok(String::from_str(alloc, "ShelfFault")?),
        Why::NoMemory => Ok(String::from_str(alloc, "NoMemory")?),
        _ => Ok(String::from_str(alloc, "an answer of another command")?),
    }
}

fn compiled(alloc: Global, loaded: &Loaded) -> Result<String, Fail> {
    let mut text = String::new(alloc);
    for program in &loaded.programs.modules {
        let units = program.code.units().len();
        let name = program.name.as_str();
        let path = program.path.as_str();
        let line = format!(in alloc; "{name} {path} units={units}\n")?;
        text.push_str(line.as_str())?;
    }
    for module in &loaded.modules {
        let statements = module.body.len();
        let line = format!(in alloc; "statements={statements}\n")?;
        text.push_str(line.as_str())?;
    }
    Ok(text)
}

fn listed(alloc: Global, sources: &[LoadedSource]) -> Result<String, Fail> {
    let mut text = String::new(alloc);
    for source in sources {
        text.push_str(source.name.as_str())?;
        text.push(' ')?;
        text.push_str(source.path.as_str())?;
        text.push('\n')?;
    }
    Ok(text)
}

/// A row of one script, `s.py`, that is refused.
pub(crate) fn assert_refused(
    rt: &impl Abort,
    alloc: Global,
    title: &str,
    source: &str,
    answer: &str,
) -> Result<(), Fail> {
    let mut files = Files::new(alloc);
    files.text(alloc, "s.py", source)?;
    let told = files.load(alloc, "s.py", &[])?;
    assert_eq!(rt; told.as_str(), answer, "{title}");
    Ok(())
}

/// Files, each with its source.
fn files_of(alloc: Global, sources: &[(&str, &str)]) -> Result<Files, Fail> {
    let mut files = Files::new(alloc);
    for (name, source) in sources {
        files.text(alloc, name, source)?;
    }
    Ok(files)
}

/// The name of the first file, which is the script.
fn script_of<'a>(sources: &[(&'a str, &'a str)]) -> &'a str {
    match sources {
        [] => "",
        [(name, _), ..] => *name,
    }
}

/// A row of files, each with its source, of which the first is the script.
pub(crate) fn assert_loads(
    rt: &impl Abort,
    alloc: Global,
    title: &str,
    sources: &[(&str, &str)],
    failing: &[u64],
    answer: &str,
) -> Result<(), Fail> {
    let files = files_of(alloc, sources)?;
    let told = files.load(alloc, script_of(sources), failing)?;
    assert_eq!(rt; told.as_str(), answer, "{title}");
    Ok(())
}

/// The same of a program with its code.
pub(crate) fn assert_compiles(
    rt: &impl Abort,
    alloc: Global,
    title: &str,
    sources: &[(&str, &str)],
    answer: &str,
) -> Result<(), Fail> {
    let files = files_of(alloc, sources)?;
    let told = files.compile(alloc, script_of(sources))?;
    assert_eq!(rt; told.as_str(), answer, "{title}");
    Ok(())
}
