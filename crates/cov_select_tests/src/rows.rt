// Rows of two versions of a module, and the lines that changed.

use cov_select::{changed, fits};
use py_parse::parse;
use py_syntax::Module;
use py_token::{LINE_LIMIT, count_lines, tokens};
use std::alloc::{AllocError, Global};
use std::test::Fail;

/// The old version of a module and the new one, the changed lines of each, and whether the old one
/// marks a line or is the same.
pub(crate) struct Row {
    pub(crate) title: &'static str,
    pub(crate) old: &'static str,
    pub(crate) new: &'static str,
    pub(crate) before: &'static str,
    pub(crate) after: &'static str,
    pub(crate) fits: bool,
}

/// The title of the first row that isn't so, or no text.
pub(crate) fn first_wrong(alloc: Global, rows: &[Row]) -> Result<&'static str, Fail> {
    for row in rows {
        if !is_so(alloc, row)? {
            return Ok(row.title);
        }
    }
    Ok("")
}

fn is_so(alloc: Global, row: &Row) -> Result<bool, Fail> {
    let old = module(alloc, row.old)?;
    let new = module(alloc, row.new)?;
    let (before, after) = changed(alloc, &old, &new)?;
    let before = words(alloc, &before)?;
    let after = words(alloc, &after)?;
    Ok(before.as_str() == row.before && after.as_str() == row.after && fits(&old, &new) == row.fits)
}

/// The module of a short source.
fn module(alloc: Global, source: &str) -> Result<Module, Fail> {
    if count_lines(source) > LINE_LIMIT {
        return Err(AllocError.into());
    }
    Ok(parse(alloc, &tokens(alloc, source)?)?)
}

/// Lines with a space between two.
fn words(alloc: Global, lines: &[u32]) -> Result<String, Fail> {
    let mut text = String::new(alloc);
    for line in lines {
        if !text.is_empty() {
            text.push_str(" ")?;
        }
        let word = format!(in alloc; "{line}")?;
        text.push_str(word.as_str())?;
    }
    Ok(text)
}
