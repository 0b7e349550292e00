// The numbers of rows of counters, by their labels.
ghost use Rattle.std.specs.Prelude.{◌≡◌, string_bytes, OnOk, OnErr};
ghost use Rattle.std.specs.FinMap as finite;

use py_text::NoMemory;
use std::alloc::Global;
use std::collections::BTreeMap;
use std::marker::Model;

/// Numbers by labels, which are seen as UTF-8.
#[derive(Drop)]
pub(crate) struct Index {
    numbers: BTreeMap<String, usize>,
}

impl Model for Index {
    ghost use Rattle.cov_recorder.specs.Counters.{Numbers, numbers_code, numbers_from};

    ghost Value = { Numbers };

    ghost coded = { numbers_code };

    ghost view = { λ i. numbers_from i.numbers.entries };
}

impl Index {
    pub(crate) fn new(alloc: Global) -> Index
        ensures { result ≡ finite.empty }
    {
        Index {
            numbers: BTreeMap::new(alloc),
        }
    }

    pub(crate) fn get(&self, label: &str) -> Option<usize>
        ensures { result ≡ finite.get self.now label.now }
    {
        self.numbers.get(label).copied()
    }

    pub(crate) fn insert(&mut self, label: String, number: usize) -> Result<(), NoMemory>
        ensures ok { OnOk result (self.new ≡ finite.insert self.old (string_bytes label) number) }
        ensures err { OnErr result (self.new ≡ self.old) }
    {
        self.numbers.insert(label, number)?;
        Ok(())
    }
}
