//! The counts of the rows of one path in one context.
ghost use Rattle.std.specs.Prelude.{◌≡◌, ◌++◌, map, IfOk, OnOk, OnErr};
ghost use Rattle.std.specs.List.{fold, flat_map};
ghost use Rattle.std.specs.Ordering.{nat_cmp};
ghost use Rattle.std.specs.BTreeSet.{insert_key};
ghost use Rattle.std.specs.FinMap.{entries};
ghost use Rattle.cov_data.specs.Rows.{row_view, lent_view, row_of, arc_cmp};
ghost use Rattle.cov_data.specs.Stored.{no_counts, add_at, both_counts, number_lines, under};

use crate::rows::{LentRow, Row};
use crate::sets::add_line;
use itertools::{EitherOrBoth, Itertools};
use std::alloc::{AllocError, Global};
use std::collections::{BTreeMap, BTreeSet};
use std::marker::Model;

/// The row of `path` and `context` with these numbers.
fn row_at(
    alloc: Global,
    path: &str,
    context: &str,
    numbers: (i32, i32),
    count: u32,
) -> Result<Row, AllocError>
    ensures { IfOk result (λ row.
        row_view row ≡ row_of path.now ((context.now, (numbers.0, numbers.1)), count)) }
{
    Ok(Row {
        path: String::from_str(alloc, path)?,
        context: String::from_str(alloc, context)?,
        from: numbers.0,
        to: numbers.1,
        count,
    })
}

fn lent_at<'a>(path: &'a str, context: &'a str, numbers: (i32, i32), count: u32) -> LentRow<'a>
    ensures { lent_view result
        ≡ row_of path.now ((context.now, (numbers.0, numbers.1)), count) }
{
    LentRow {
        path,
        context,
        from: numbers.0,
        to: numbers.1,
        count,
    }
}

/// Adds those of the two numbers that are lines.
fn add_both(lines: &mut BTreeSet<u32>, numbers: (i32, i32)) -> Result<(), AllocError>
    ensures { OnOk result (lines.new.keys
        ≡ fold (insert_key nat_cmp) lines.old.keys (number_lines numbers)) }
{
    add_line(lines, numbers.0)?;
    add_line(lines, numbers.1)
}

/// Counts by the two numbers of a row.
#[derive(Drop)]
pub(crate) struct Tally {
    counts: BTreeMap<(i32, i32), u32>,
}

impl Model for Tally {
    ghost use Rattle.cov_data.specs.Stored.{Counts, counts_code, counts_from};

    ghost Value = { Counts };

    ghost coded = { counts_code };

    ghost view = { λ t. counts_from t.counts.entries };
}

impl Tally {
    pub(crate) fn new(alloc: Global) -> Tally
        ensures { result ≡ no_counts }
    {
        Tally {
            counts: BTreeMap::new(alloc),
        }
    }

    pub(crate) fn add(&mut self, numbers: (i32, i32), count: u32) -> Result<(), AllocError>
        ensures ok { OnOk result (self.new ≡ add_at self.old numbers count) }
        ensures err { OnErr result (self.new ≡ self.old) }
    {
        let sum = match self.counts.get(&numbers) {
            Some(had) => had.saturating_add(count),
            None => count,
        };
        self.counts.insert(numbers, sum)?;
        Ok(())
    }

    /// Adds all counts of `other`, one by one, since the counts here may be many more. After a
    /// refusal some of them are added.
    pub(crate) fn merge(&mut self, other: &Tally) -> Result<(), AllocError>
        ensures ok { OnOk result (self.new ≡ both_counts self.old other.now) }
    {
        for (numbers, count) in &other.counts {
            self.add(*numbers, *count)?;
        }
        Ok(())
    }

    pub(crate) fn copied(&self) -> Result<Tally, AllocError>
        ensures { IfOk result (λ copy. copy ≡ self.now) }
    {
        Ok(Tally {
            counts: self.counts.clone()?,
        })
    }

    /// The counts of both, in linear time: one walk goes over both side by side, and the map is
    /// collected from numbers that are in order already.
    pub(crate) fn united(&self, alloc: Global, other: &Tally) -> Result<Tally, AllocError>
        ensures { IfOk result (λ all. all ≡ both_counts self.now other.now) }
    {
        let sides = self
            .counts
            .iter()
            .merge_join_by(&other.counts, |mine, theirs| mine.0.cmp(theirs.0));
        let mut counts = Vec::new(alloc);
        for side in sides {
            let (numbers, count) = match side {
                EitherOrBoth::Left((numbers, count)) => (numbers, *count),
                EitherOrBoth::Right((numbers, count)) => (numbers, *count),
                EitherOrBoth::Both((numbers, mine), (_, theirs)) => {
                    (numbers, mine.saturating_add(*theirs))
                }
            };
            counts.push((*numbers, count))?;
        }
        Ok(Tally {
            counts: counts.into_iter().collect(alloc)?,
        })
    }

    /// Appends the rows, as rows of `path` and `context`. After a refusal some of them are there.
    pub(crate) fn push_rows(
        &self,
        alloc: Global,
        path: &str,
        context: &str,
        rows: &mut Vec<Row>,
    ) -> Result<(), AllocError>
        ensures ok { OnOk result (map row_view rows.new.items ≡ map row_view rows.old.items
            ++ map (row_of path.now) (under context.now (entries self.now))) }
    {
        for (numbers, count) in &self.counts {
            rows.push(row_at(alloc, path, context, *numbers, *count)?)?;
        }
        Ok(())
    }

    /// Appends the rows likewise, with the texts lent.
    pub(crate) fn push_lent<'a>(
        &self,
        path: &'a str,
        context: &'a str,
        rows: &mut Vec<LentRow<'a>>,
    ) -> Result<(), AllocError>
        ensures ok { OnOk result (map lent_view rows.new.items ≡ map lent_view rows.old.items
            ++ map (row_of path.now) (under context.now (entries self.now))) }
    {
        for (numbers, count) in &self.counts {
            rows.push(lent_at(path, context, *numbers, *count))?;
        }
        Ok(())
    }

    /// Adds the numbers that are lines.
    pub(crate) fn add_lines(&self, lines: &mut BTreeSet<u32>) -> Result<(), AllocError>
        ensures ok { OnOk result (lines.new.keys ≡ fold (insert_key nat_cmp) lines.old.keys
            (flat_map (λ e. number_lines e.0) (entries self.now))) }
    {
        for (numbers, _count) in &self.counts {
            add_both(lines, *numbers)?;
        }
        Ok(())
    }

    /// Adds the pairs of numbers.
    pub(crate) fn add_arcs(&self, arcs: &mut BTreeSet<(i32, i32)>) -> Result<(), AllocError>
        ensures ok { OnOk result (arcs.new.keys ≡ fold (insert_key arc_cmp) arcs.old.keys
            (map (λ e. e.0) (entries self.now))) }
    {
        for (numbers, _count) in &self.counts {
            arcs.insert(*numbers)?;
        }
        Ok(())
    }
}
