// Rows of sources: what a reader of each can tell of its runs.

use cov_predict::{ArcSet, possible, predict, statements};
use py_parse::parse;
use py_syntax::Module;
use py_token::{LINE_LIMIT, count_lines, tokens};
use std::alloc::{AllocError, Global};
use std::test::Fail;

/// A source, its statement lines, its arcs, and its branches: predicted arcs from a line that has
/// more than one.
pub(crate) struct Row {
    pub(crate) title: &'static str,
    pub(crate) source: &'static str,
    pub(crate) lines: &'static str,
    pub(crate) predicted: &'static str,
    pub(crate) possible: &'static str,
    pub(crate) branches: &'static str,
}

/// The title of the first row that isn't so, or no text.
pub(crate) fn first_wrong(alloc: Global, rows: &[Row]) -> Result<&'static str, Fail> {
    for row in rows {
        if !is_so(alloc, row)? {
            return Ok(row.title);
        }
    }
    Ok("")
}

fn is_so(alloc: Global, row: &Row) -> Result<bool, Fail> {
    let module = module(alloc, row.source)?;
    let predicted = predict(alloc, &module)?;
    let lines = lines_of(alloc, &statements(alloc, &module)?)?;
    let arcs = arcs_of(alloc, &predicted)?;
    let branches = branches_of(alloc, &predicted)?;
    let all = arcs_of(alloc, &possible(alloc, &module)?)?;
    Ok(
        lines.as_str() == row.lines
            && arcs.as_str() == row.predicted
            && branches.as_str() == row.branches
            && all.as_str() == row.possible,
    )
}

/// The module of a short source.
fn module(alloc: Global, source: &str) -> Result<Module, Fail> {
    if count_lines(source) > LINE_LIMIT {
        return Err(AllocError.into());
    }
    Ok(parse(alloc, &tokens(alloc, source)?)?)
}

fn lines_of(alloc: Global, lines: &[u32]) -> Result<String, Fail> {
    let mut text = String::new(alloc);
    for line in lines {
        let word = format!(in alloc; "{line}")?;
        add(&mut text, " ", word.as_str())?;
    }
    Ok(text)
}

fn arcs_of(alloc: Global, arcs: &ArcSet) -> Result<String, Fail> {
    let mut text = String::new(alloc);
    for place in 0..arcs.len() {
        let (from, to) = arcs.at(place);
        let word = format!(in alloc; "{from} {to}")?;
        add(&mut text, "; ", word.as_str())?;
    }
    Ok(text)
}

fn branches_of(alloc: Global, arcs: &ArcSet) -> Result<String, Fail> {
    let mut text = String::new(alloc);
    for place in 0..arcs.len() {
        let (from, to) = arcs.at(place);
        let follows = place > 0 && arcs.at(place - 1).0 == from;
        let goes_on = place + 1 < arcs.len() && arcs.at(place + 1).0 == from;
        if from > 0 && (follows || goes_on) {
            let word = format!(in alloc; "{from} {to}")?;
            add(&mut text, "; ", word.as_str())?;
        }
    }
    Ok(text)
}

/// Adds a word, with this between words.
fn add(text: &mut String, between: &str, word: &str) -> Result<(), Fail> {
    if !text.is_empty() {
        text.push_str(between)?;
    }
    text.push_str(word)?;
    Ok(())
}
