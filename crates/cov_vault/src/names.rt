//! Lists of pairs by their names.
ghost use Rattle.std.specs.Prelude.{◌≡◌, IfOk, map, position, string_bytes};
ghost use Rattle.std.specs.Str.{bytes_eq};
ghost use Rattle.cov_data.specs.DataSet.{text_cmp};
ghost use Rattle.cov_data.specs.Rows.{distinct_in_order};

use std::alloc::{AllocError, Global};
use std::collections::BTreeSet;

/// The place of the first pair of this name.
pub fn first_named<T>(pairs: &[(String, T)], name: &str) -> Option<usize>
    ensures { result ≡ position (λ pair. bytes_eq (string_bytes pair.0) name.now) pairs.now }
{
    pairs.iter().position(|pair| pair.0.as_str() == name)
}

/// The names of pairs in byte order, each once.
pub fn names_of<T>(alloc: Global, pairs: &[(String, T)]) -> Result<Vec<String>, AllocError>
    ensures { IfOk result (λ names. map string_bytes names.items
        ≡ distinct_in_order text_cmp (map (λ pair. string_bytes pair.0) pairs.now)) }
{
    let mut names = BTreeSet::new(alloc);
    for pair in pairs {
        names.insert(pair.0.clone()?)?;
    }
    listed(alloc, names)
}

fn listed(alloc: Global, names: BTreeSet<String>) -> Result<Vec<String>, AllocError>
    ensures { IfOk result (λ list. list.items ≡ names.keys) }
{
    names.into_iter().collect(alloc)
}
