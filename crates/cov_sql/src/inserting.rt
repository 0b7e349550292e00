//! Inserting the rows of data into the tables of a data file.
ghost use Rattle.std.specs.Prelude.{◌≡◌, [], ◌∷◌, map, cond, codes, string_bytes};
ghost use Rattle.sqlite.specs.Held.{state};
ghost use Rattle.cov_sql.specs.declared.tables.Table.TheVariants as name;
ghost use Rattle.cov_sql.specs.Steps.{WorksBy};
ghost use Rattle.cov_sql.specs.Holding.{with_rows, Fills};
ghost use Rattle.cov_sql.specs.SavedRows.{flag_row, numbered, table_of, InsertsText, name_of, row_in, InsertsRow, bits_row, with_names, with_data, with_all};

use crate::saved::{Saved, SavedBits, SavedRow};
use crate::statements::{StatementError, Statements};
use sqlite::{Alter, Transaction};

/// Texts that have numbers in a table of their own.
#[derive(Clone, Copy, Drop)]
pub(crate) enum Texts {
    Paths,
    Contexts,
}

/// Tables that have a row for each row of data.
#[derive(Clone, Copy, Drop)]
pub(crate) enum RowTable {
    Arc,
    Hits,
}

fn insert_flag<S: Alter, Q: Statements>(
    work: &mut Transaction<'_, S>,
    by: &mut Q,
    arcs: bool,
) -> Result<(), StatementError>
    ensures steps { WorksBy S.Store Q.tells Q.refusals work.old work.new by.old by.new result }
    ensures fills { Q.tells by.old → Fills S.Store (with_rows name.Meta (flag_row arcs ∷ []))
        work.old.conn.now work.new.conn.now result }
{
    by.insert_meta(work, "has_arcs", flag_text(arcs))
}

fn flag_text(arcs: bool) -> &'static str
    ensures { result.now ≡ cond arcs (codes "1") (codes "0") }
{
    if arcs { "1" } else { "0" }
}

fn insert_text<S: Alter, Q: Statements>(
    work: &mut Transaction<'_, S>,
    by: &mut Q,
    kind: Texts,
    id: i64,
    text: &str,
) -> Result<(), StatementError>
    ensures steps { WorksBy S.Store Q.tells Q.refusals work.old work.new by.old by.new result }
    ensures inserts { Q.tells by.old → InsertsText kind id text.now
        (state S.Store work.old.conn.now) (state S.Store work.new.conn.now) result }
{
    match kind {
        Texts::Paths => by.insert_file(work, id, text),
        Texts::Contexts => by.insert_context(work, id, text),
    }
}

/// Inserts texts in their order, numbered from 1.
fn insert_texts<S: Alter, Q: Statements>(
    work: &mut Transaction<'_, S>,
    by: &mut Q,
    kind: Texts,
    texts: &[String],
) -> Result<(), StatementError>
    ensures steps { WorksBy S.Store Q.tells Q.refusals work.old work.new by.old by.new result }
    ensures fills { Q.tells by.old
        → Fills S.Store (with_rows (table_of kind) (numbered 1 (map string_bytes texts.now)))
        work.old.conn.now work.new.conn.now result }
{
    let mut number: i64 = 0;
    for text in texts {
        number += 1;
        insert_text(work, by, kind, number, text.as_str())?;
    }
    Ok(())
}

fn insert_row<S: Alter, Q: Statements>(
    work: &mut Transaction<'_, S>,
    by: &mut Q,
    table: RowTable,
    row: &SavedRow,
) -> Result<(), StatementError>
    ensures steps { WorksBy S.Store Q.tells Q.refusals work.old work.new by.old by.new result }
    ensures inserts { Q.tells by.old → InsertsRow table row.now
        (state S.Store work.old.conn.now) (state S.Store work.new.conn.now) result }
{
    match table {
        RowTable::Arc => by.insert_arc(work, row.file_id, row.context_id, row.from, row.to),
        RowTable::Hits => by.insert_hits(
            work,
            row.file_id,
            row.context_id,
            row.from,
            row.to,
            row.count,
        ),
    }
}

fn insert_rows<S: Alter, Q: Statements>(
    work: &mut Transaction<'_, S>,
    by: &mut Q,
    table: RowTable,
    rows: &[SavedRow],
) -> Result<(), StatementError>
    ensures steps { WorksBy S.Store Q.tells Q.refusals work.old work.new by.old by.new result }
    ensures fills { Q.tells by.old
        → Fills S.Store (with_rows (name_of table) (map (row_in table) rows.now))
        work.old.conn.now work.new.conn.now result }
{
    for row in rows {
        insert_row(work, by, table, row)?;
    }
    Ok(())
}

fn insert_bits<S: Alter, Q: Statements>(
    work: &mut Transaction<'_, S>,
    by: &mut Q,
    bits: &[SavedBits],
) -> Result<(), StatementError>
    ensures steps { WorksBy S.Store Q.tells Q.refusals work.old work.new by.old by.new result }
    ensures fills { Q.tells by.old → Fills S.Store (with_rows name.LineBits (map bits_row bits.now))
        work.old.conn.now work.new.conn.now result }
{
    for set in bits {
        by.insert_line_bits(work, set.file_id, set.context_id, &set.numbits)?;
    }
    Ok(())
}

fn insert_names<S: Alter, Q: Statements>(
    work: &mut Transaction<'_, S>,
    by: &mut Q,
    saved: &Saved,
) -> Result<(), StatementError>
    ensures steps { WorksBy S.Store Q.tells Q.refusals work.old work.new by.old by.new result }
    ensures fills { Q.tells by.old → Fills S.Store (with_names saved.now)
        work.old.conn.now work.new.conn.now result }
{
    insert_flag(work, by, saved.arcs)?;
    let paths = saved.paths.as_slice();
    insert_texts(work, by, Texts::Paths, paths)?;
    let contexts = saved.contexts.as_slice();
    insert_texts(work, by, Texts::Contexts, contexts)
}

fn insert_data<S: Alter, Q: Statements>(
    work: &mut Transaction<'_, S>,
    by: &mut Q,
    saved: &Saved,
) -> Result<(), StatementError>
    ensures steps { WorksBy S.Store Q.tells Q.refusals work.old work.new by.old by.new result }
    ensures fills { Q.tells by.old → Fills S.Store (with_data saved.now)
        work.old.conn.now work.new.conn.now result }
{
    let arcs = saved.arc_rows();
    insert_rows(work, by, RowTable::Arc, arcs)?;
    let bits = saved.bits.as_slice();
    insert_bits(work, by, bits)?;
    let rows = saved.rows.as_slice();
    insert_rows(work, by, RowTable::Hits, rows)
}

/// Fills the tables, which have no data.
pub(crate) fn insert_all<S: Alter, Q: Statements>(
    work: &mut Transaction<'_, S>,
    by: &mut Q,
    saved: &Saved,
) -> Result<(), StatementError>
    ensures steps { WorksBy S.Store Q.tells Q.refusals work.old work.new by.old by.new result }
    ensures fills { Q.tells by.old → Fills S.Store (with_all saved.now)
        work.old.conn.now work.new.conn.now result }
{
    insert_names(work, by, saved)?;
    insert_data(work, by, saved)
}
