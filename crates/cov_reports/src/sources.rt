//! The sources that are reported.
ghost use Rattle.std.specs.Prelude.{◌≡◌, ◌++◌, ◌∷◌, [], map, string_bytes, OnOk};
ghost use Rattle.cov_programs.specs.Ends.{Follows};
ghost use Rattle.cov_programs.specs.Programs.{each};
ghost use Rattle.cov_run.specs.Alone.{plain_file};
ghost use Rattle.cov_step.specs.Calls.{IsNoMemory, seen};
ghost use Rattle.cov_step.specs.Objects.{on_shelf};
ghost use Rattle.cov_step.specs.Phases.{source};
ghost use Rattle.cov_reports.specs.Views.{read_source, source_view};

use cov_outside::Shelf;
use cov_run::{SourceFile, load_source};
use cov_why::Why;
use py_syntax::Module;
use py_text::NoMemory;
use std::alloc::Global;

/// A source with its path.
#[derive(Drop)]
pub(crate) struct ReportedSource {
    pub(crate) path: String,
    pub(crate) text: String,
    pub(crate) module: Module,
}

/// The source of a path.
pub(crate) fn source<H: Shelf>(
    alloc: Global,
    path: &str,
    shelf: &mut H,
) -> Result<ReportedSource, Why>
    ensures { Follows (on_shelf H.Shelf) IsNoMemory (source path.now) shelf.old
        (seen source_view result) shelf.new }
{
    let Ok(owned) = String::from_str(alloc, path) else {
        return Err(Why::NoMemory);
    };
    with_path(owned, load_source(alloc, path, shelf))
}

fn with_path(path: String, answer: Result<SourceFile, Why>) -> Result<ReportedSource, Why>
    ensures { seen source_view result
        ≡ seen (λ file. read_source (plain_file (string_bytes path) file)) answer }
{
    match answer {
        Ok(SourceFile { text, module }) => Ok(ReportedSource { path, text, module }),
        Err(why) => Err(why),
    }
}

/// The sources of these paths, in order.
pub(crate) fn sources<H: Shelf>(
    alloc: Global,
    paths: &[String],
    shelf: &mut H,
) -> Result<Vec<ReportedSource>, Why>
    ensures { Follows (on_shelf H.Shelf) IsNoMemory (each source (map string_bytes paths.now))
        shelf.old (seen (λ sources. map source_view sources.items) result) shelf.new }
{
    let mut sources = Vec::new(alloc);
    for path in paths {
        let source = source(alloc, path.as_str(), shelf)?;
        let Ok(()) = add(&mut sources, source) else {
            return Err(Why::NoMemory);
        };
    }
    Ok(sources)
}

fn add(sources: &mut Vec<ReportedSource>, source: ReportedSource) -> Result<(), NoMemory>
    ensures { OnOk result (map source_view sources.new.items
        ≡ map source_view sources.old.items ++ source_view source ∷ []) }
{
    sources.push(source)?;
    Ok(())
}
