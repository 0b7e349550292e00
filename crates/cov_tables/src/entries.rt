//! Rows of `arc` and `line_bits` with their file and context.
ghost use Rattle.std.specs.Prelude.{◌≡◌, ◌++◌, option_map, map, IfOk, OnOk};
ghost use Rattle.cov_tables.specs.Entries.{column_view, entry_view, entry_cmp, number_at, blob_at};
ghost use Rattle.cov_tables.specs.Fields.{row, rows};
ghost use Rattle.cov_tables.specs.Order.{in_order};
ghost use Rattle.cov_tables.specs.Joins.{arc_key, bits_key, entry, joined, joined_if};
ghost use Rattle.cov_tables.specs.Kept.{key_view, texts_at, seen, texts, arcs_named, bits_named};

use crate::cells::{RowCells, bits_at, whole_at};
use crate::names::Names;
use std::alloc::{AllocError, Global};

/// What a column holds that should hold a number or a blob. Others come last, and stand equal.
#[derive(PartialEq, Eq, PartialOrd, Ord, Drop)]
pub(crate) enum Column {
    Int(i64),
    Blob(Vec<u8>),
    Other,
}

/// A row with its path and the text of its context, which stay where they are.
#[derive(PartialEq, Eq, PartialOrd, Ord, Drop)]
pub(crate) struct Entry<'a> {
    pub(crate) file_id: i64,
    pub(crate) context_id: i64,
    pub(crate) first: Column,
    pub(crate) second: Column,
    pub(crate) path: &'a str,
    pub(crate) context: &'a str,
}

pub(crate) fn number_at(cells: &RowCells, at: usize) -> Column
    ensures { column_view result ≡ number_at (row cells.now) at }
{
    match whole_at(cells, at) {
        Some(number) => Column::Int(number),
        None => Column::Other,
    }
}

pub(crate) fn blob_at(alloc: Global, cells: &RowCells, at: usize) -> Result<Column, AllocError>
    ensures { IfOk result (λ column. column_view column ≡ blob_at (row cells.now) at) }
{
    match bits_at(cells, at) {
        Some(bits) => Ok(Column::Blob(Vec::from_slice(alloc, bits)?)),
        None => Ok(Column::Other),
    }
}

/// A row before it is joined.
#[derive(Drop)]
pub(crate) struct Key {
    file_id: i64,
    context_id: i64,
    first: Column,
    second: Column,
}

fn arc_key(cells: &RowCells) -> Option<Key>
    ensures { option_map key_view result ≡ arc_key (row cells.now) }
{
    let file_id = whole_at(cells, 0)?;
    let context_id = whole_at(cells, 1)?;
    Some(Key {
        file_id,
        context_id,
        first: number_at(cells, 2),
        second: number_at(cells, 3),
    })
}

fn bits_key(alloc: Global, cells: &RowCells) -> Result<Option<Key>, AllocError>
    ensures { IfOk result (λ key. option_map key_view key ≡ bits_key (row cells.now)) }
{
    let first = blob_at(alloc, cells, 2)?;
    match (whole_at(cells, 0), whole_at(cells, 1)) {
        (Some(file_id), Some(context_id)) => Ok(Some(Key {
            file_id,
            context_id,
            first,
            second: Column::Other,
        })),
        _ => Ok(None),
    }
}

impl Column {
    fn copied(&self, alloc: Global) -> Result<Column, AllocError>
        ensures { IfOk result (λ copy. column_view copy ≡ column_view self.now) }
    {
        match self {
            Column::Int(number) => Ok(Column::Int(*number)),
            Column::Blob(bits) => Ok(Column::Blob(Vec::from_slice(alloc, bits)?)),
            Column::Other => Ok(Column::Other),
        }
    }
}

impl Key {
    fn entry<'a>(
        &self,
        alloc: Global,
        path: &'a str,
        context: &'a str,
    ) -> Result<Entry<'a>, AllocError>
        ensures { IfOk result (λ made.
            entry_view made ≡ entry (key_view self.now) path.now context.now) }
    {
        Ok(Entry {
            file_id: self.file_id,
            context_id: self.context_id,
            first: self.first.copied(alloc)?,
            second: self.second.copied(alloc)?,
            path,
            context,
        })
    }

    /// Appends the row with this path and each of these contexts.
    fn push_path<'a>(
        &self,
        alloc: Global,
        path: &'a str,
        contexts: &'a [String],
        entries: &mut Vec<Entry<'a>>,
    ) -> Result<(), AllocError>
        ensures { OnOk result (seen entries.new.items ≡ seen entries.old.items
            ++ map (entry (key_view self.now) path.now) (texts contexts.now)) }
    {
        for context in contexts {
            entries.push(self.entry(alloc, path, context.as_str())?)?;
        }
        Ok(())
    }

    /// Appends the row with each of its paths and contexts.
    fn push_joined<'a>(
        &self,
        alloc: Global,
        paths: &'a [String],
        contexts: &'a [String],
        entries: &mut Vec<Entry<'a>>,
    ) -> Result<(), AllocError>
        ensures { OnOk result (seen entries.new.items ≡ seen entries.old.items
            ++ joined (key_view self.now) (texts paths.now) (texts contexts.now)) }
    {
        for path in paths {
            self.push_path(alloc, path.as_str(), contexts, entries)?;
        }
        Ok(())
    }
}

/// Appends a row with each of its paths and contexts, if it has ids.
fn push_row<'a>(
    alloc: Global,
    key: &Option<Key>,
    files: &'a Names,
    contexts: &'a Names,
    entries: &mut Vec<Entry<'a>>,
) -> Result<(), AllocError>
    ensures { OnOk result (seen entries.new.items ≡ seen entries.old.items
        ++ joined_if (option_map key_view key.now) (texts_at files.now) (texts_at contexts.now)) }
{
    match key {
        Some(key) => {
            let paths = files.get(&key.file_id);
            let labels = contexts.get(&key.context_id);
            key.push_joined(alloc, paths, labels, entries)
        }
        None => Ok(()),
    }
}

/// The rows of `arc`, each with each of its paths and contexts, in order.
pub(crate) fn arc_entries<'a>(
    alloc: Global,
    files: &'a Names,
    contexts: &'a Names,
    lists: &[RowCells],
) -> Result<Vec<Entry<'a>>, AllocError>
    ensures { IfOk result (λ entries.
        seen entries.items ≡ arcs_named files.now contexts.now (rows lists.now)) }
{
    let mut entries = Vec::new(alloc);
    for cells in lists {
        push_row(alloc, &arc_key(cells), files, contexts, &mut entries)?;
    }
    sort(&mut entries)?;
    Ok(entries)
}

/// The same of `line_bits`.
pub(crate) fn bits_entries<'a>(
    alloc: Global,
    files: &'a Names,
    contexts: &'a Names,
    lists: &[RowCells],
) -> Result<Vec<Entry<'a>>, AllocError>
    ensures { IfOk result (λ sets.
        seen sets.items ≡ bits_named files.now contexts.now (rows lists.now)) }
{
    let mut sets = Vec::new(alloc);
    for cells in lists {
        let key = bits_key(alloc, cells)?;
        push_row(alloc, &key, files, contexts, &mut sets)?;
    }
    sort(&mut sets)?;
    Ok(sets)
}

fn sort(entries: &mut Vec<Entry<'_>>) -> Result<(), AllocError>
    ensures { OnOk result (seen entries.new.items ≡ in_order entry_cmp (seen entries.old.items)) }
{
    entries.sort()
}
