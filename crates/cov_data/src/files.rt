//! The files of measured data by their paths.
ghost use Rattle.std.specs.Prelude.{◌≡◌, ◌≤◌, map, string_bytes, IfOk, OnOk, OnErr};
ghost use Rattle.std.specs.Option.{option_copied};
ghost use Rattle.std.specs.FinMap as finite;
ghost use Rattle.cov_data.specs.DataSet.{most_count, no_files, add_path, add_row, add_file, all_files};

use crate::file::{FileCounts, Place};
use crate::rows::{LentRow, Row};
use itertools::{EitherOrBoth, Itertools};
use std::alloc::{AllocError, Global};
use std::collections::BTreeMap;
use std::marker::Model;

#[derive(Drop)]
pub(crate) struct FileMap {
    alloc: Global,
    files: BTreeMap<String, FileCounts>,
}

impl Model for FileMap {
    ghost use Rattle.cov_data.specs.DataSet.{Files, files_code};

    ghost Value = { Files };

    ghost coded = { files_code };

    ghost use Rattle.cov_data.specs.Stored.{files_from};

    ghost view = { λ m. files_from m.files.entries };
}

impl FileMap {
    ghost use Rattle.cov_data.specs.Stored.{place_view};
    ghost use Rattle.cov_data.specs.Rows.{row_view, lent_view, files_rows};

    pub(crate) fn new(alloc: Global) -> FileMap
        ensures { result ≡ no_files }
    {
        FileMap {
            alloc,
            files: BTreeMap::new(alloc),
        }
    }

    pub(crate) fn get(&self, path: &str) -> Option<&FileCounts>
        ensures { option_copied result ≡ finite.get self.now path.now }
    {
        self.files.get(path)
    }

    pub(crate) fn add_path(&mut self, path: &str) -> Result<(), AllocError>
        ensures ok { OnOk result (self.new ≡ add_path self.old path.now) }
        ensures err { OnErr result (self.new ≡ self.old) }
    {
        if self.files.contains_key(path) {
            return Ok(());
        }
        let key = String::from_str(self.alloc, path)?;
        self.files.insert(key, FileCounts::new(self.alloc))?;
        Ok(())
    }

    pub(crate) fn add(&mut self, path: String, place: Place, count: u32) -> Result<(), AllocError>
        ensures ok { OnOk result (self.new
            ≡ add_row self.old (string_bytes path) (place_view place) count) }
        ensures err { OnErr result (self.new ≡ self.old) }
        ensures fits { count ≤ most_count }
    {
        match self.files.get_mut(path.as_str()) {
            Some(file) => file.add(place, count),
            None => {
                let mut file = FileCounts::new(self.alloc);
                file.add(place, count)?;
                self.files.insert(path, file)?;
                Ok(())
            }
        }
    }

    /// Adds all counts of `file`, as counts of `path`. After a refusal some of them are added.
    pub(crate) fn add_file(&mut self, path: &str, file: &FileCounts) -> Result<(), AllocError>
        ensures ok { OnOk result (self.new ≡ add_file self.old path.now file.now) }
    {
        match self.files.get_mut(path) {
            Some(mine) => mine.merge(file),
            None => {
                let mut mine = FileCounts::new(self.alloc);
                mine.merge(file)?;
                let key = String::from_str(self.alloc, path)?;
                self.files.insert(key, mine)?;
                Ok(())
            }
        }
    }

    /// The files of both, in linear time: one walk goes over both side by side, and the map is
    /// collected from paths that are in order already.
    pub(crate) fn united(&self, other: &FileMap) -> Result<FileMap, AllocError>
        ensures { IfOk result (λ all. all ≡ all_files self.now other.now) }
    {
        let sides = self
            .files
            .iter()
            .merge_join_by(&other.files, |mine, theirs| mine.0.cmp(theirs.0));
        let mut files = Vec::new(self.alloc);
        for side in sides {
            let (path, file) = match side {
                EitherOrBoth::Left((path, file)) => (path, file.copied(self.alloc)?),
                EitherOrBoth::Right((path, file)) => (path, file.copied(self.alloc)?),
                EitherOrBoth::Both((path, mine), (_, theirs)) => {
                    (path, mine.united(self.alloc, theirs)?)
                }
            };
            files.push((path.clone()?, file))?;
        }
        Ok(FileMap {
            alloc: self.alloc,
            files: files.into_iter().collect(self.alloc)?,
        })
    }

    pub(crate) fn paths(&self) -> Result<Vec<String>, AllocError>
        ensures ok { IfOk result (λ v. map string_bytes v.items ≡ finite.keys self.now) }
    {
        let mut paths = Vec::new(self.alloc);
        for (path, _file) in &self.files {
            paths.push(path.clone()?)?;
        }
        Ok(paths)
    }

    pub(crate) fn rows(&self) -> Result<Vec<Row>, AllocError>
        ensures ok { IfOk result (λ v. map row_view v.items ≡ files_rows self.now) }
    {
        let mut rows = Vec::new(self.alloc);
        for (path, file) in &self.files {
            file.push_rows(self.alloc, path.as_str(), &mut rows)?;
        }
        Ok(rows)
    }

    pub(crate) fn lent_rows(&self) -> Result<Vec<LentRow<'_>>, AllocError>
        ensures ok { IfOk result (λ v. map lent_view v.items ≡ files_rows self.now) }
    {
        let mut rows = Vec::new(self.alloc);
        for (path, file) in &self.files {
            file.push_lent(path.as_str(), &mut rows)?;
        }
        Ok(rows)
    }
}
