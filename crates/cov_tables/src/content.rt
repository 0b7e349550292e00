//! The content of a data file.
ghost use Rattle.std.specs.Prelude.{◌≡◌, IfOk, OnOk};
ghost use Rattle.std.specs.List.{fold, list_any};
ghost use Rattle.std.specs.Option.{option_to_list};
ghost use Rattle.cov_data.specs.DataSet.{with_path};
ghost use Rattle.cov_tables.specs.Fields.{row, rows, text_at};
ghost use Rattle.cov_tables.specs.Content.{is_schema_7, names_arcs, says_arcs, is_arcs, paths_only, unless_bad, arc_content, bits_content, content};
ghost use Rattle.cov_tables.specs.Given.{tables};

use crate::adding::add_entries;
use crate::cells::{RowCells, holds, text_at, whole_at};
use crate::entries::{arc_entries, bits_entries};
use crate::hits::hits_of;
use crate::names::Names;
use cov_data::Data;
use cov_vault::Content;
use std::alloc::{AllocError, Global};

/// What was read of a data file: the rows of each table, each with its cells in the order of
/// the table's columns.
#[derive(Drop)]
pub struct Tables {
    pub coverage_schema: Vec<RowCells>,
    pub meta: Vec<RowCells>,
    pub file: Vec<RowCells>,
    pub context: Vec<RowCells>,
    pub line_bits: Vec<RowCells>,
    pub arc: Vec<RowCells>,
    /// No row where the table isn't there.
    pub hits: Vec<RowCells>,
}

/// Whether the table holds exactly one row with the number 7.
pub fn is_schema_7(lists: &[RowCells]) -> bool
    ensures { result ≡ is_schema_7 (rows lists.now) }
{
    match lists {
        [cells] => whole_at(cells, 0) == Some(7),
        _ => false,
    }
}

fn names_arcs(cells: &RowCells) -> bool
    ensures { result ≡ names_arcs (row cells.now) }
{
    holds(cells, 0, "has_arcs")
}

fn says_arcs(cells: &RowCells) -> bool
    ensures { result ≡ says_arcs (row cells.now) }
{
    names_arcs(cells) && holds(cells, 1, "1")
}

fn any_names(lists: &[RowCells]) -> bool
    ensures { result ≡ list_any (λ cells. names_arcs (row cells)) lists.now }
{
    lists.iter().any(|cells| names_arcs(cells))
}

fn any_says(lists: &[RowCells]) -> bool
    ensures { result ≡ list_any (λ cells. says_arcs (row cells)) lists.now }
{
    lists.iter().any(|cells| says_arcs(cells))
}

fn is_arcs(meta: &[RowCells], arcs: &[RowCells]) -> bool
    ensures { result ≡ is_arcs (rows meta.now) (rows arcs.now) }
{
    if any_names(meta) {
        any_says(meta)
    } else {
        !arcs.is_empty()
    }
}

/// Adds the path of a row of `file`.
fn add_path(data: &mut Data, cells: &RowCells) -> Result<(), AllocError>
    ensures { OnOk result (data.new
        ≡ fold with_path data.old (option_to_list (text_at (row cells.now) 1))) }
{
    match text_at(cells, 1) {
        Some(path) => data.add_path(path),
        None => Ok(()),
    }
}

/// Data of the paths of these rows.
fn paths_only(alloc: Global, arcs: bool, lists: &[RowCells]) -> Result<Data, AllocError>
    ensures { IfOk result (λ made. made ≡ paths_only arcs (rows lists.now)) }
{
    let mut data = Data::new(alloc, arcs);
    for cells in lists {
        add_path(&mut data, cells)?;
    }
    Ok(data)
}

fn arc_content(alloc: Global, given: Tables) -> Result<Content, AllocError>
    ensures { IfOk result (λ held. held ≡ arc_content (tables given)) }
{
    let Tables {
        coverage_schema: _,
        meta: _,
        file,
        context,
        line_bits: _,
        arc,
        hits,
    } = given;
    let hits = hits_of(alloc, hits)?;
    let files = Names::of(alloc, &file)?;
    let contexts = Names::of(alloc, &context)?;
    let entries = arc_entries(alloc, &files, &contexts, &arc)?;
    let mut whole = paths_only(alloc, true, &file)?;
    let bad = add_entries(alloc, &entries, &hits, &mut whole)?;
    Ok(unless_bad(bad, whole))
}

fn bits_content(alloc: Global, given: Tables) -> Result<Content, AllocError>
    ensures { IfOk result (λ held. held ≡ bits_content (tables given)) }
{
    let Tables {
        coverage_schema: _,
        meta: _,
        file,
        context,
        line_bits,
        arc: _,
        hits,
    } = given;
    let hits = hits_of(alloc, hits)?;
    let files = Names::of(alloc, &file)?;
    let contexts = Names::of(alloc, &context)?;
    let entries = bits_entries(alloc, &files, &contexts, &line_bits)?;
    let mut whole = paths_only(alloc, false, &file)?;
    let bad = add_entries(alloc, &entries, &hits, &mut whole)?;
    Ok(unless_bad(bad, whole))
}

fn unless_bad(bad: Option<u64>, whole: Data) -> Content
    ensures { result ≡ unless_bad bad whole }
{
    match bad {
        Some(row) => Content::BadRow(row),
        None => Content::Good(whole),
    }
}

/// What a data file with these tables holds: its data, or why it holds none. Rows are joined with
/// their file and context, counted from 0 in the order of their ids and numbers.
pub fn content_of(alloc: Global, given: Tables) -> Result<Content, AllocError>
    ensures { IfOk result (λ held. held ≡ content (tables given)) }
{
    if !is_schema_7(&given.coverage_schema) {
        return Ok(Content::NotSchema7);
    }
    if is_arcs(&given.meta, &given.arc) {
        arc_content(alloc, given)
    } else {
        bits_content(alloc, given)
    }
}
