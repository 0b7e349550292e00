// Rows of counters, by module and label.
ghost use Rattle.std.specs.Prelude.{◌≡◌, [], map, OnOk, OnErr, IfOk};
ghost use Rattle.cov_recorder.specs.Counters.{no_counts, raised};
ghost use Rattle.cov_recorder.specs.Rows.{row_from};

use crate::index::Index;
use py_text::NoMemory;
use std::alloc::Global;
use std::marker::Model;

/// The counts of the arcs of a module under a label.
#[derive(Drop)]
pub(crate) struct Counters {
    pub(crate) module: u32,
    pub(crate) label: String,
    pub(crate) counts: Vec<u32>,
}

/// Rows of counters, each of which keeps its number.
#[derive(Drop)]
pub(crate) struct Rows {
    rows: Vec<Counters>,
    numbers: Vec<Index>,
}

impl Model for Rows {
    ghost use Rattle.std.specs.Prelude.{List, map};
    ghost use Rattle.cov_recorder.specs.Counters.{Row, AreIndexed};

    ghost Value = { List Row };

    ghost use Rattle.cov_recorder.specs.Rows.{row_from};

    ghost view = { λ r. map row_from r.rows.items };

    ghost invariant = { λ r. AreIndexed r.numbers.items (map row_from r.rows.items) };
}

impl Rows {
    ghost use Rattle.cov_recorder.specs.Counters.{HasRow, MakesRow, bumped};

    /// No row, for so many modules.
    pub(crate) fn new(alloc: Global, modules: usize) -> Result<Rows, NoMemory>
        ensures { IfOk result (λ rows. rows ≡ []) }
    {
        let mut numbers = Vec::new(alloc);
        for _ in 0..modules {
            numbers.push(Index::new(alloc))?;
        }
        Ok(Rows {
            rows: Vec::new(alloc),
            numbers,
        })
    }

    /// The number of the row of a module and a label, which is made where there is none yet.
    pub(crate) fn number_of(
        &mut self,
        alloc: Global,
        module: u32,
        label: &str,
        size: usize,
    ) -> Result<usize, NoMemory>
        ensures row { IfOk result (λ n. HasRow self.new n «module» label.now) }
        ensures made { OnOk result (MakesRow self.old «module» label.now size self.new) }
        ensures err { OnErr result (self.new ≡ self.old) }
    {
        let found = match self.numbers.get(module as usize) {
            Some(index) => index.get(label),
            None => None,
        };
        match found {
            Some(number) => Ok(number),
            None => self.add(alloc, module, label, size),
        }
    }

    fn add(
        &mut self,
        alloc: Global,
        module: u32,
        label: &str,
        size: usize,
    ) -> Result<usize, NoMemory>
        ensures row { IfOk result (λ n. HasRow self.new n «module» label.now) }
        ensures made { OnOk result (MakesRow self.old «module» label.now size self.new) }
        ensures err { OnErr result (self.new ≡ self.old) }
    {
        let number = self.rows.len();
        let key = String::from_str(alloc, label)?;
        let row = no_counts(alloc, module, label, size)?;
        self.rows.push(row)?;
        let place = module as usize;
        if place < self.numbers.len() {
            if let Err(refused) = self.numbers[place].insert(key, number) {
                self.rows.truncate(number);
                return Err(refused);
            }
        }
        Ok(number)
    }

    /// Counts once more at a place of a row.
    pub(crate) fn bump(&mut self, number: usize, place: usize)
        ensures { self.new ≡ bumped self.old number place }
    {
        if number < self.rows.len() {
            let row = &mut self.rows[number];
            raise(&mut row.counts, place);
        }
    }

    pub(crate) fn as_slice(&self) -> &[Counters]
        ensures { map row_from result.now ≡ self.now }
    {
        self.rows.as_slice()
    }
}

fn no_counts(alloc: Global, module: u32, label: &str, size: usize) -> Result<Counters, NoMemory>
    ensures { IfOk result (λ c. row_from c ≡ no_counts «module» label.now size) }
{
    Ok(Counters {
        module,
        label: String::from_str(alloc, label)?,
        counts: vec![in alloc; 0; size]?,
    })
}

fn raise(counts: &mut Vec<u32>, place: usize)
    ensures { counts.new.items ≡ raised counts.old.items place }
{
    if place < counts.len() {
        counts[place] = counts[place].saturating_add(1);
    }
}
