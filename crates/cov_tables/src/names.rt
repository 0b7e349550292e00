//! The texts of `file` and of `context` by their ids.
ghost use Rattle.std.specs.Prelude.{◌≡◌, ◌++◌, [], ◌∷◌, ℤ, cond, map, string_bytes, IfOk, OnOk};
ghost use Rattle.cov_tables.specs.Fields.{row, rows};
ghost use Rattle.cov_tables.specs.Joins.{same_whole, texts_with, texts_of};
ghost use Rattle.cov_tables.specs.Kept.{texts_at};

use crate::cells::{RowCells, text_at, whole_at};
use std::alloc::{AllocError, Global};
use std::collections::BTreeMap;

/// Of some bases an id has several texts.
#[derive(Drop)]
pub(crate) struct Names {
    texts: BTreeMap<i64, Vec<String>>,
}

impl Names {
    /// The texts of these rows, each with an id and a text.
    pub(crate) fn of(alloc: Global, lists: &[RowCells]) -> Result<Names, AllocError>
        ensures { IfOk result (λ names.
            (id : ℤ) → texts_at names id ≡ texts_of (rows lists.now) id) }
    {
        let mut names = Names {
            texts: BTreeMap::new(alloc),
        };
        for cells in lists {
            names.add_row(alloc, cells)?;
        }
        Ok(names)
    }

    fn add_row(&mut self, alloc: Global, cells: &RowCells) -> Result<(), AllocError>
        ensures { OnOk result ((q : ℤ)
            → texts_at self.new q ≡ texts_at self.old q ++ texts_with q (row cells.now)) }
    {
        match (whole_at(cells, 0), text_at(cells, 1)) {
            (Some(id), Some(text)) => self.add(alloc, id, text),
            _ => Ok(()),
        }
    }

    fn add(&mut self, alloc: Global, id: i64, text: &str) -> Result<(), AllocError>
        ensures { OnOk result ((q : ℤ)
            → texts_at self.new q
            ≡ texts_at self.old q ++ cond (same_whole q id) (text.now ∷ []) []) }
    {
        let text = String::from_str(alloc, text)?;
        let mut texts = match self.texts.remove(&id) {
            Some(texts) => texts,
            None => Vec::new(alloc),
        };
        texts.push(text)?;
        self.texts.insert(id, texts)?;
        Ok(())
    }

    pub(crate) fn get(&self, id: &i64) -> &[String]
        ensures { map string_bytes result.now ≡ texts_at self.now id.now }
    {
        match self.texts.get(id) {
            Some(texts) => texts.as_slice(),
            None => &[],
        }
    }
}
