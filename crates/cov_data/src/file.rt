//! The counts of the rows of one path.
ghost use Rattle.std.specs.Prelude.{◌≡◌, ◌++◌, map, string_bytes, IfOk, OnOk, OnErr};
ghost use Rattle.cov_data.specs.DataSet.{add_count, merged, no_rows};

use crate::rows::{LentRow, Row};
use crate::sets::{listed_arcs, listed_lines};
use crate::tally::Tally;
use itertools::{EitherOrBoth, Itertools};
use std::alloc::{AllocError, Global};
use std::collections::{BTreeMap, BTreeSet};
use std::marker::Model;

/// Where a row stands in its file.
#[derive(Drop)]
pub(crate) struct Place {
    pub(crate) context: String,
    pub(crate) numbers: (i32, i32),
}

/// The counts of each context, whose text stands once.
#[derive(Drop)]
pub(crate) struct FileCounts {
    alloc: Global,
    contexts: BTreeMap<String, Tally>,
}

impl Model for FileCounts {
    ghost use Rattle.cov_data.specs.DataSet.{File, file_code};

    ghost Value = { File };

    ghost coded = { file_code };

    ghost use Rattle.cov_data.specs.Stored.{file_from};

    ghost view = { λ f. file_from f.contexts.entries };
}

impl FileCounts {
    ghost use Rattle.cov_data.specs.Stored.{place_view, add_under};
    ghost use Rattle.cov_data.specs.Rows.{row_view, lent_view, file_rows, file_lines, file_arcs};

    pub(crate) fn new(alloc: Global) -> FileCounts
        ensures { result ≡ no_rows }
    {
        FileCounts {
            alloc,
            contexts: BTreeMap::new(alloc),
        }
    }

    pub(crate) fn add(&mut self, place: Place, count: u32) -> Result<(), AllocError>
        ensures ok { OnOk result (self.new ≡ add_count self.old (place_view place) count) }
        ensures err { OnErr result (self.new ≡ self.old) }
    {
        let Place { context, numbers } = place;
        match self.contexts.get_mut(context.as_str()) {
            Some(tally) => tally.add(numbers, count),
            None => {
                let mut tally = Tally::new(self.alloc);
                tally.add(numbers, count)?;
                self.contexts.insert(context, tally)?;
                Ok(())
            }
        }
    }

    /// Adds counts under a context. After a refusal some of them are added.
    fn add_tally(&mut self, context: &str, tally: &Tally) -> Result<(), AllocError>
        ensures ok { OnOk result (self.new ≡ add_under self.old context.now tally.now) }
    {
        match self.contexts.get_mut(context) {
            Some(mine) => mine.merge(tally),
            None => {
                let mine = tally.copied()?;
                let key = String::from_str(self.alloc, context)?;
                self.contexts.insert(key, mine)?;
                Ok(())
            }
        }
    }

    /// Adds all counts of `other`, one by one, since the counts here may be many more. After a
    /// refusal some of them are added.
    pub(crate) fn merge(&mut self, other: &FileCounts) -> Result<(), AllocError>
        ensures ok { OnOk result (self.new ≡ merged self.old other.now) }
    {
        for (context, tally) in &other.contexts {
            self.add_tally(context.as_str(), tally)?;
        }
        Ok(())
    }

    pub(crate) fn copied(&self, alloc: Global) -> Result<FileCounts, AllocError>
        ensures { IfOk result (λ copy. copy ≡ self.now) }
    {
        let none = FileCounts::new(alloc);
        self.united(alloc, &none)
    }

    /// The counts of both, in linear time: one walk goes over both side by side, and the map is
    /// collected from contexts that are in order already.
    pub(crate) fn united(&self, alloc: Global, other: &FileCounts) -> Result<FileCounts, AllocError>
        ensures { IfOk result (λ all. all ≡ merged self.now other.now) }
    {
        let sides = self
            .contexts
            .iter()
            .merge_join_by(&other.contexts, |mine, theirs| mine.0.cmp(theirs.0));
        let mut contexts = Vec::new(alloc);
        for side in sides {
            let (context, tally) = match side {
                EitherOrBoth::Left((context, tally)) => (context, tally.copied()?),
                EitherOrBoth::Right((context, tally)) => (context, tally.copied()?),
                EitherOrBoth::Both((context, mine), (_, theirs)) => {
                    (context, mine.united(alloc, theirs)?)
                }
            };
            contexts.push((context.clone()?, tally))?;
        }
        Ok(FileCounts {
            alloc,
            contexts: contexts.into_iter().collect(alloc)?,
        })
    }

    /// Appends the rows, as rows of `path`. After a refusal some of them are there.
    pub(crate) fn push_rows(
        &self,
        alloc: Global,
        path: &str,
        rows: &mut Vec<Row>,
    ) -> Result<(), AllocError>
        ensures ok { OnOk result (map row_view rows.new.items
            ≡ map row_view rows.old.items ++ file_rows path.now self.now) }
    {
        for (context, tally) in &self.contexts {
            tally.push_rows(alloc, path, context.as_str(), rows)?;
        }
        Ok(())
    }

    /// Appends the rows likewise, with the texts lent.
    pub(crate) fn push_lent<'a>(
        &'a self,
        path: &'a str,
        rows: &mut Vec<LentRow<'a>>,
    ) -> Result<(), AllocError>
        ensures ok { OnOk result (map lent_view rows.new.items
            ≡ map lent_view rows.old.items ++ file_rows path.now self.now) }
    {
        for (context, tally) in &self.contexts {
            tally.push_lent(path, context.as_str(), rows)?;
        }
        Ok(())
    }

    pub(crate) fn lines(&self, alloc: Global) -> Result<Vec<u32>, AllocError>
        ensures ok { IfOk result (λ v. v.items ≡ file_lines self.now) }
    {
        let mut lines = BTreeSet::new(alloc);
        for (_context, tally) in &self.contexts {
            tally.add_lines(&mut lines)?;
        }
        listed_lines(alloc, lines)
    }

    pub(crate) fn arcs(&self, alloc: Global) -> Result<Vec<(i32, i32)>, AllocError>
        ensures ok { IfOk result (λ v. v.items ≡ file_arcs self.now) }
    {
        let mut arcs = BTreeSet::new(alloc);
        for (_context, tally) in &self.contexts {
            tally.add_arcs(&mut arcs)?;
        }
        listed_arcs(alloc, arcs)
    }
}
