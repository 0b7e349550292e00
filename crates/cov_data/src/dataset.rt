//! Measured data: what was executed, in which context and how often.
ghost use Rattle.std.specs.Prelude.{◌≡◌, ◌≢◌, ◌||◌, ℕ, List, map, string_bytes, All, IsTrue, ◌↔◌, IsErrOf, IfOk, IfErr, OnOk, OnErr};
ghost use Rattle.cov_data.specs.DataSet.{no_data, has_path, file_of, with_path, with_file, union, AddsCounts, IsNumber, IsInRange, IsSound};

use crate::NoMemory;
use crate::file::Place;
use crate::files::FileMap;
use crate::limits::MOST_NUMBER;
use crate::rows::{LentRow, Row};
use std::alloc::{AllocError, Global};
use std::marker::Model;

/// Why two data were not united.
#[derive(Debug, PartialEq, Drop)]
pub enum DataError {
    /// One holds arcs and the other lines: whether each holds arcs.
    Mixed { mine: bool, other: bool },
    NoMemory,
}

impl From<AllocError> for DataError {
    ghost use Rattle.cov_data.specs.declared.dataset.DataError.TheVariants.{NoMemory};

    ghost from_gives = { λ _ e. e ≡ NoMemory };

    fn from(_e: AllocError) -> DataError {
        DataError::NoMemory
    }
}

/// Whether a row may have this number.
fn is_number(number: i32) -> bool
    ensures { IsTrue result ↔ IsNumber number }
{
    number != 0 && -MOST_NUMBER <= number && number <= MOST_NUMBER
}

/// The rows of any number of files, all of arcs or all of lines. A file may have no row.
#[derive(Drop)]
pub struct Data {
    alloc: Global,
    arcs: bool,
    files: FileMap,
}

impl Model for Data {
    ghost use Rattle.cov_data.specs.DataSet.{DataSet, data_code, IsSound};

    ghost Value = { DataSet };

    ghost coded = { data_code };

    ghost view = { λ d. record { arcs = d.arcs; files = d.files } };

    ghost invariant = { λ d. IsSound (record { arcs = d.arcs; files = d.files }) };
}

impl Data {
    ghost use Rattle.cov_data.specs.Rows.{row_view, lent_view, with_row, paths_of, rows_of, file_rows, lines_of, arcs_of, IsMixture};

    /// Data of arcs, or else of lines, without a path.
    pub fn new(alloc: Global, arcs: bool) -> Data
        ensures { result ≡ no_data arcs }
    {
        Data {
            alloc,
            arcs,
            files: FileMap::new(alloc),
        }
    }

    pub fn is_arcs(&self) -> bool
        ensures flag { result ≡ self.now.arcs }
        ensures sound { IsSound self.now }
    {
        self.arcs
    }

    /// Adds a path, which may stay without a row.
    pub fn add_path(&mut self, path: &str) -> Result<(), NoMemory>
        ensures ok { OnOk result (self.new ≡ with_path self.old path.now) }
        ensures err { OnErr result (self.new ≡ self.old) }
    {
        self.files.add_path(path)
    }

    /// Whether `add` takes the row: its numbers and its count are in range.
    pub fn accepts(&self, row: &Row) -> bool
        ensures { IsTrue result ↔ IsInRange self.now.arcs row.now.from row.now.to row.now.count }
    {
        is_number(row.from)
            && is_number(row.to)
            && row.count > 0
            && (self.arcs || (row.from == row.to && row.from > 0))
    }

    /// Adds a row and its path. The count is added to that of an equal row.
    pub fn add(&mut self, row: Row) -> Result<(), NoMemory>
        requires { IsInRange self.old.arcs row.from row.to row.count }
        ensures ok { OnOk result (self.new ≡ with_row self.old (row_view row)) }
        ensures err { OnErr result (self.new ≡ self.old) }
    {
        let Row {
            path,
            context,
            from,
            to,
            count,
        } = row;
        let place = Place {
            context,
            numbers: (from, to),
        };
        self.files.add(path, place, count)
    }

    /// The paths in byte order.
    pub fn paths(&self) -> Result<Vec<String>, NoMemory>
        ensures { IfOk result (λ paths. map string_bytes paths.items ≡ paths_of self.now) }
    {
        self.files.paths()
    }

    /// The rows in order of path, context, from, to.
    pub fn rows(&self) -> Result<Vec<Row>, NoMemory>
        ensures rows { IfOk result (λ rows. map row_view rows.items ≡ rows_of self.now) }
        ensures in_range { All (λ row.
            IsInRange self.now.arcs row.from row.to row.count) (rows_of self.now) }
    {
        self.files.rows()
    }

    /// The same rows, whose texts stay here.
    pub fn lent_rows(&self) -> Result<Vec<LentRow<'_>>, NoMemory>
        ensures { IfOk result (λ rows. map lent_view rows.items ≡ rows_of self.now) }
    {
        self.files.lent_rows()
    }

    /// The executed lines of a path, each once, in order.
    pub fn lines(&self, path: &str) -> Result<Vec<u32>, NoMemory>
        ensures { IfOk result (λ lines. lines.items ≡ lines_of self.now path.now) }
    {
        match self.files.get(path) {
            Some(file) => file.lines(self.alloc),
            None => Ok(Vec::new(self.alloc)),
        }
    }

    /// The arcs of a path, each once, in order of from, to. Line data have none.
    pub fn arcs(&self, path: &str) -> Result<Vec<(i32, i32)>, NoMemory>
        ensures { IfOk result (λ arcs. arcs.items ≡ arcs_of self.now path.now) }
    {
        if !self.arcs {
            return Ok(Vec::new(self.alloc));
        }
        match self.files.get(path) {
            Some(file) => file.arcs(self.alloc),
            None => Ok(Vec::new(self.alloc)),
        }
    }

    /// The rows of one path, in order of context, from, to.
    pub fn path_rows(&self, path: &str) -> Result<Vec<Row>, NoMemory>
        ensures { IfOk result (λ rows.
            map row_view rows.items ≡ file_rows path.now (file_of self.now path.now)) }
    {
        match self.files.get(path) {
            Some(file) => {
                let mut rows = Vec::new(self.alloc);
                file.push_rows(self.alloc, path, &mut rows)?;
                Ok(rows)
            }
            None => Ok(Vec::new(self.alloc)),
        }
    }

    /// Adds the paths and rows of `other`. The counts of equal rows are added. One walk goes over
    /// both data side by side, so its time is linear in their rows. `with_file` suits small
    /// additions to large data.
    pub fn union(&mut self, other: &Data) -> Result<(), DataError>
        ensures ok { OnOk result (self.new ≡ union self.old other.now) }
        ensures paths { OnOk result ((path : List ℕ)
            → has_path self.new path ≡ (has_path self.old path || has_path other.now path)) }
        ensures counts { OnOk result (AddsCounts self.old other.now self.new) }

        ensures mixed { self.old.arcs ≢ other.now.arcs
            → IsErrOf result (DataError.Mixed self.old.arcs other.now.arcs) }
        ensures refused { IfErr result (IsMixture self.old other.now) }
        ensures err { OnErr result (self.new ≡ self.old) }
    {
        if self.arcs != other.arcs {
            return Err(DataError::Mixed {
                mine: self.arcs,
                other: other.arcs,
            });
        }
        self.files = self.files.united(&other.files)?;
        Ok(())
    }

    /// Adds `path` and, as its rows, the rows that `other` has for the path `from`.
    pub fn with_file(mut self, path: &str, other: &Data, from: &str) -> Result<Data, NoMemory>
        requires { self.arcs ≡ other.now.arcs }
        ensures { IfOk result (λ all. all ≡ with_file self path.now (file_of other.now from.now)) }
    {
        match other.files.get(from) {
            Some(file) => {
                self.files.add_file(path, file)?;
                Ok(self)
            }
            None => {
                self.files.add_path(path)?;
                Ok(self)
            }
        }
    }
}
