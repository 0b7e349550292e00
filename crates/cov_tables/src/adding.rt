//! The rows of entries, added to data.
ghost use Rattle.std.specs.Prelude.{◌≡◌, ◌<◌, true, false, nat_eq, take, drop, IfOk, OnOk};
ghost use Rattle.std.specs.List.{fold, flat_map, list_all};
ghost use Rattle.cov_data.specs.DataSet.{IsInRange};
ghost use Rattle.cov_data.specs.Rows.{with_row};
ghost use Rattle.cov_tables.specs.Content.{is_within, is_number, is_set, is_bad_arc, is_bad, row_with, line_row, arc_rows, bits_rows, rows_said, unless_bad, read_entries};
ghost use Rattle.cov_tables.specs.Entries.{column_view, entry_view};
ghost use Rattle.cov_tables.specs.Hits.{Spot as Spots};
ghost use Rattle.cov_tables.specs.Kept.{count_at, seen};

use crate::entries::{Column, Entry};
use crate::hits::{Hits, Spot};
use cov_data::{Data, MOST_NUMBER, Row, lines_of_numbits};
use std::alloc::{AllocError, Global};

/// Whether a number is within the greatest of a row either way.
fn is_within(number: i64) -> bool
    ensures { result ≡ is_within number }
{
    let most = i64::from(MOST_NUMBER);
    -most <= number && number <= most
}

impl Column {
    fn is_number(&self) -> bool
        ensures { result ≡ is_number (column_view self.now) }
    {
        match self {
            Column::Int(number) => is_within(*number),
            Column::Blob(_) => false,
            Column::Other => false,
        }
    }

    /// Whether it is a blob without a line beyond 65,535.
    fn is_set(&self) -> bool
        ensures { result ≡ is_set (column_view self.now) }
    {
        match self {
            Column::Int(_) => false,
            Column::Blob(bits) => are_zero(last_bytes(bits)),
            Column::Other => false,
        }
    }
}

impl Entry<'_> {
    fn spot(&self, from: i32, to: i32) -> Spot
        ensures { result
            ≡ record {
              file_id = self.now.file_id;
              context_id = self.now.context_id;
              from = from;
              to
                  = to;
            } }
    {
        Spot {
            file_id: self.file_id,
            context_id: self.context_id,
            from: from as i64,
            to: to as i64,
        }
    }

    fn add_row(
        &self,
        alloc: Global,
        from: i32,
        to: i32,
        hits: &Hits,
        data: &mut Data,
    ) -> Result<(), AllocError>
        requires { IsInRange data.old.arcs from to
            (row_with (count_at hits.now) (entry_view self.now) from to).count }
        ensures { OnOk result (data.new
            ≡ with_row data.old (row_with (count_at hits.now) (entry_view self.now) from to)) }
    {
        let spot = self.spot(from, to);
        let count = hits.count(spot);
        data.add(Row {
            path: String::from_str(alloc, self.path)?,
            context: String::from_str(alloc, self.context)?,
            from,
            to,
            count,
        })
    }

    /// Adds the arc, unless it has a 0.
    fn add_arc(&self, alloc: Global, hits: &Hits, data: &mut Data) -> Result<(), AllocError>
        requires arcs { data.old.arcs ≡ true }
        requires good { is_bad_arc (entry_view self.now) ≡ false }
        requires counted { (spot : Spots) → 0 < count_at hits.now spot }
        ensures { OnOk result (data.new
            ≡ fold with_row data.old (arc_rows (count_at hits.now) (entry_view self.now))) }
    {
        match (&self.first, &self.second) {
            (Column::Int(from), Column::Int(to)) if *from != 0 && *to != 0 => {
                self.add_row(alloc, *from as i32, *to as i32, hits, data)
            }
            _ => Ok(()),
        }
    }

    /// Adds a line, unless it is 0.
    fn add_line(
        &self,
        alloc: Global,
        line: u32,
        hits: &Hits,
        data: &mut Data,
    ) -> Result<(), AllocError>
        requires lines { data.old.arcs ≡ false }
        requires counted { (spot : Spots) → 0 < count_at hits.now spot }
        ensures { OnOk result (data.new
            ≡ fold with_row data.old (line_row (count_at hits.now) (entry_view self.now) line)) }
    {
        if 0 < line && line <= MOST_NUMBER as u32 {
            self.add_row(alloc, line as i32, line as i32, hits, data)
        } else {
            Ok(())
        }
    }

    fn add_lines(
        &self,
        alloc: Global,
        lines: &[u32],
        hits: &Hits,
        data: &mut Data,
    ) -> Result<(), AllocError>
        requires lines { data.old.arcs ≡ false }
        requires counted { (spot : Spots) → 0 < count_at hits.now spot }
        ensures { OnOk result (data.new
            ≡ fold with_row data.old
            (flat_map (line_row (count_at hits.now) (entry_view self.now)) lines.now)) }
    {
        for line in lines {
            self.add_line(alloc, *line, hits, data)?;
        }
        Ok(())
    }

    /// Adds the lines of the blob.
    fn add_bits(&self, alloc: Global, hits: &Hits, data: &mut Data) -> Result<(), AllocError>
        requires lines { data.old.arcs ≡ false }
        requires counted { (spot : Spots) → 0 < count_at hits.now spot }
        ensures { OnOk result (data.new
            ≡ fold with_row data.old (bits_rows (count_at hits.now) (entry_view self.now))) }
    {
        match &self.first {
            Column::Int(_) => Ok(()),
            Column::Blob(bits) => {
                let lines = lines_of_numbits(alloc, first_bytes(bits))?;
                self.add_lines(alloc, &lines, hits, data)
            }
            Column::Other => Ok(()),
        }
    }

    /// Whether it can't be read: by its numbers as an arc, or else by its blob.
    fn is_bad(&self, arcs: bool) -> bool
        ensures { result ≡ is_bad arcs (entry_view self.now) }
    {
        if arcs {
            !(self.first.is_number() && self.second.is_number())
        } else {
            !self.first.is_set()
        }
    }

    /// Adds the arc, or else the lines of the blob.
    fn add_rows(&self, alloc: Global, hits: &Hits, data: &mut Data) -> Result<(), AllocError>
        requires good { is_bad data.old.arcs (entry_view self.now) ≡ false }
        requires counted { (spot : Spots) → 0 < count_at hits.now spot }
        ensures { OnOk result (data.new ≡ fold with_row data.old
            (rows_said data.old.arcs (count_at hits.now) (entry_view self.now))) }
    {
        if data.is_arcs() {
            self.add_arc(alloc, hits, data)
        } else {
            self.add_bits(alloc, hits, data)
        }
    }
}

fn first_bytes(bits: &[u8]) -> &[u8]
    ensures { result.now ≡ take 8192 bits.now }
{
    if bits.len() <= 8192 {
        bits
    } else {
        &bits[..8192]
    }
}

fn last_bytes(bits: &[u8]) -> &[u8]
    ensures { result.now ≡ drop 8192 bits.now }
{
    if bits.len() <= 8192 {
        &[]
    } else {
        &bits[8192..]
    }
}

fn are_zero(bytes: &[u8]) -> bool
    ensures { result ≡ list_all (λ byte. nat_eq byte 0) bytes.now }
{
    bytes.iter().all(|byte| *byte == 0)
}

/// Adds the rows of entries up to the first bad one, whose number it gives.
pub(crate) fn add_entries(
    alloc: Global,
    entries: &[Entry<'_>],
    hits: &Hits,
    data: &mut Data,
) -> Result<Option<u64>, AllocError>
    requires { (spot : Spots) → 0 < count_at hits.now spot }
    ensures { let arcs = data.old.arcs in IfOk result (λ bad. unless_bad bad data.new
        ≡ read_entries (is_bad arcs) (rows_said arcs (count_at hits.now)) (seen entries.now)
        data.old) }
{
    let arcs = data.is_arcs();
    for at in 0..entries.len() {
        if entries[at].is_bad(arcs) {
            return Ok(Some(at as u64));
        }
        entries[at].add_rows(alloc, hits, data)?;
    }
    Ok(None)
}
