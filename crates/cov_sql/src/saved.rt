//! The rows that a data file has of data.
ghost use Rattle.std.specs.Prelude.{◌≡◌, true, false, cond, [], map, string_bytes, IfOk, IfSome};
ghost use Rattle.std.specs.List.{AllZip};
ghost use Rattle.cov_data.specs.Rows.{lent_view};
ghost use Rattle.cov_sql.specs.Blobs.{AreBitsOf};
ghost use Rattle.cov_sql.specs.Groups.{AreLines};
ghost use Rattle.cov_sql.specs.SavedData.{lent_texts, contexts_in, IsNumbered, IsSavedRow, IsSavedOf};

use crate::bits::bits_of;
use cov_data::{Data, LentRow};
use std::alloc::{AllocError, Global};
use std::collections::BTreeSet;

/// A row of data, with the numbers of its file and its context.
#[derive(Clone, Copy, Drop)]
pub(crate) struct SavedRow {
    pub(crate) file_id: i64,
    pub(crate) context_id: i64,
    pub(crate) from: i64,
    pub(crate) to: i64,
    pub(crate) count: i64,
}

/// The lines of one file in one context, as bits.
#[derive(Drop)]
pub(crate) struct SavedBits {
    pub(crate) file_id: i64,
    pub(crate) context_id: i64,
    pub(crate) numbits: Vec<u8>,
}

/// What is written of data. Files and contexts are numbered from 1 in the order of their texts.
#[derive(Drop)]
pub(crate) struct Saved {
    pub(crate) arcs: bool,
    pub(crate) paths: Vec<String>,
    /// Those that a row has.
    pub(crate) contexts: Vec<String>,
    pub(crate) rows: Vec<SavedRow>,
    /// None of arcs.
    pub(crate) bits: Vec<SavedBits>,
}

impl Saved {
    pub(crate) fn of(alloc: Global, content: &Data) -> Result<Saved, AllocError>
        ensures { IfOk result (IsSavedOf content.now) }
    {
        let arcs = content.is_arcs();
        let paths = content.paths()?;
        let given = content.lent_rows()?;
        let listed = given.as_slice();
        let labels = contexts_of(alloc, listed)?;
        let rows = numbered_by(alloc, listed, &paths, &labels)?;
        let contexts = copied(alloc, &labels)?;
        let bits = bits_if(alloc, arcs, &rows)?;
        Ok(Saved {
            arcs,
            paths,
            contexts,
            rows,
            bits,
        })
    }

    /// The rows of arcs, of which lines have none.
    pub(crate) fn arc_rows(&self) -> &[SavedRow]
        ensures { result.now ≡ cond self.now.arcs self.now.rows.items [] }
    {
        if self.arcs { self.rows.as_slice() } else { &[] }
    }
}

/// The contexts of these rows, in order.
fn contexts_of<'a>(alloc: Global, rows: &[LentRow<'a>]) -> Result<Vec<&'a str>, AllocError>
    ensures { IfOk result (λ texts. lent_texts texts.items ≡ contexts_in (map lent_view rows.now)) }
{
    let mut contexts = BTreeSet::new(alloc);
    for at in 0..rows.len() {
        contexts.insert(rows[at].context)?;
    }
    listed(alloc, contexts)
}

fn listed<'a>(alloc: Global, texts: BTreeSet<&'a str>) -> Result<Vec<&'a str>, AllocError>
    ensures { IfOk result (λ v. v.items ≡ texts.entry.keys) }
{
    texts.into_iter().collect(alloc)
}

fn copied(alloc: Global, texts: &[&str]) -> Result<Vec<String>, AllocError>
    ensures { IfOk result (λ all. map string_bytes all.items ≡ lent_texts texts.now) }
{
    let mut all = Vec::new(alloc);
    for at in 0..texts.len() {
        all.push(String::from_str(alloc, texts[at])?)?;
    }
    Ok(all)
}

fn lent(alloc: Global, texts: &[String]) -> Result<Vec<&str>, AllocError>
    ensures { IfOk result (λ all. lent_texts all.items ≡ map string_bytes texts.now) }
{
    let mut all = Vec::new(alloc);
    for text in texts {
        all.push(text.as_str())?;
    }
    Ok(all)
}

/// The number of a text among these, which stand in order.
fn number_in(texts: &[&str], text: &str) -> Option<i64>
    ensures { IfSome result (IsNumbered (lent_texts texts.now) text.now) }
{
    match texts.binary_search(&text) {
        Ok(at) => Some((at + 1) as i64),
        Err(_) => None,
    }
}

fn numbered_row(row: &LentRow<'_>, paths: &[&str], contexts: &[&str]) -> Option<SavedRow>
    ensures { IfSome result (IsSavedRow (lent_texts paths.now) (lent_texts contexts.now)
        (lent_view row.now)) }
{
    let file_id = number_in(paths, row.path)?;
    let context_id = number_in(contexts, row.context)?;
    Some(SavedRow {
        file_id,
        context_id,
        from: row.from as i64,
        to: row.to as i64,
        count: row.count as i64,
    })
}

fn numbered(
    alloc: Global,
    rows: &[LentRow<'_>],
    paths: &[&str],
    contexts: &[&str],
) -> Result<Vec<SavedRow>, AllocError>
    ensures { IfOk result (λ all. AllZip (λ r s.
        IsSavedRow (lent_texts paths.now) (lent_texts contexts.now) (lent_view r) s)
        rows.now all.items) }
{
    let mut all = Vec::new(alloc);
    for at in 0..rows.len() {
        // The path and the context of a row are among these.
        let Some(saved) = numbered_row(&rows[at], paths, contexts) else {
            return Err(AllocError);
        };
        all.push(saved)?;
    }
    Ok(all)
}

fn numbered_by(
    alloc: Global,
    rows: &[LentRow<'_>],
    paths: &[String],
    contexts: &[&str],
) -> Result<Vec<SavedRow>, AllocError>
    ensures { IfOk result (λ all. AllZip (λ r s.
        IsSavedRow (map string_bytes paths.now) (lent_texts contexts.now) (lent_view r) s)
        rows.now all.items) }
{
    let lent_paths = lent(alloc, paths)?;
    numbered(alloc, rows, &lent_paths, contexts)
}

fn bits_if(alloc: Global, arcs: bool, rows: &[SavedRow]) -> Result<Vec<SavedBits>, AllocError>
    ensures none { IfOk result (λ bits. arcs ≡ true → bits.items ≡ []) }
    ensures all { arcs ≡ false → AreLines rows.now
        → IfOk result (λ bits. AreBitsOf rows.now bits.items) }
{
    if arcs {
        return Ok(Vec::new(alloc));
    }
    bits_of(alloc, rows)
}
