//! The counts of rows.
ghost use Rattle.std.specs.Prelude.{◌≡◌, IfOk, OnOk};
ghost use Rattle.cov_tables.specs.Fields.{row, rows};
ghost use Rattle.cov_tables.specs.Hits.{Spot as Spots, spot_at, counts_with, counted, count_of};
ghost use Rattle.cov_tables.specs.Kept.{kept_at, kept_after, with_count, with_counts, count_at};

use crate::cells::{RowCells, whole_at};
use std::alloc::{AllocError, Global};
use std::collections::BTreeMap;

/// What a count is of.
#[derive(Clone, Copy, PartialEq, Eq, PartialOrd, Ord)]
pub(crate) struct Spot {
    pub(crate) file_id: i64,
    pub(crate) context_id: i64,
    pub(crate) from: i64,
    pub(crate) to: i64,
}

fn spot_at(cells: &RowCells) -> Option<Spot>
    ensures { result ≡ spot_at (row cells.now) }
{
    Some(Spot {
        file_id: whole_at(cells, 0)?,
        context_id: whole_at(cells, 1)?,
        from: whole_at(cells, 2)?,
        to: whole_at(cells, 3)?,
    })
}

/// What a row counts.
fn counted(count: Option<i64>) -> u32
    ensures { result ≡ counted count }
{
    match count {
        Some(count) if 1 <= count && count <= 4_294_967_295 => count as u32,
        _ => 1,
    }
}

#[derive(Drop)]
pub(crate) struct Hits {
    counts: BTreeMap<Spot, u32>,
}

/// The counts of the rows of `hits`, which take no room from then on.
pub(crate) fn hits_of(alloc: Global, lists: Vec<RowCells>) -> Result<Hits, AllocError>
    ensures { IfOk result (λ hits.
        (spot : Spots) → count_at hits spot ≡ count_of (rows lists.items) spot) }
{
    Hits::of(alloc, &lists)
}

impl Hits {
    /// The counts of these rows of `hits`.
    fn of(alloc: Global, lists: &[RowCells]) -> Result<Hits, AllocError>
        ensures { IfOk result (λ hits.
            (spot : Spots) → count_at hits spot ≡ count_of (rows lists.now) spot) }
    {
        let mut hits = Hits {
            counts: BTreeMap::new(alloc),
        };
        for cells in lists {
            hits.add_row(cells)?;
        }
        Ok(hits)
    }

    fn add_row(&mut self, cells: &RowCells) -> Result<(), AllocError>
        ensures { OnOk result ((spot : Spots)
            → kept_at self.new spot
            ≡ with_counts (kept_at self.old spot) (counts_with spot (row cells.now))) }
    {
        match spot_at(cells) {
            Some(spot) => self.add(spot, counted(whole_at(cells, 4))),
            None => Ok(()),
        }
    }

    fn add(&mut self, spot: Spot, count: u32) -> Result<(), AllocError>
        ensures { OnOk result ((other : Spots)
            → kept_at self.new other ≡ kept_after self.old spot count other) }
    {
        let count = self.counted_with(&spot, count);
        self.counts.insert(spot, count)?;
        Ok(())
    }

    /// A second row of one spot makes its count 1.
    fn counted_with(&self, spot: &Spot, count: u32) -> u32
        ensures { result ≡ with_count (kept_at self.now spot.now) count }
    {
        match self.counts.get(spot) {
            Some(_) => 1,
            None => count,
        }
    }

    pub(crate) fn count(&self, spot: Spot) -> u32
        ensures { result ≡ count_at self.now spot }
    {
        match self.counts.get(&spot) {
            Some(count) => *count,
            None => 1,
        }
    }
}
