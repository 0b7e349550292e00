//! How far a pattern reaches in a list: a row has a place for each front of the list, the empty one
//! and the whole included. A place is true where the pattern so far matches that front.
ghost use Rattle.std.specs.Prelude.{◌≡◌, ◌+◌, ◌∷◌, true, false, length, replicate, IfOk};
ghost use Rattle.cov_config.specs.Rows.{spread, advanced};

use crate::NoMemory;
use std::alloc::Global;

/// The row of an empty pattern.
pub(crate) fn first_row(alloc: Global, len: usize) -> Result<Vec<bool>, NoMemory>
    ensures { IfOk result (λ row. row.items ≡ true ∷ replicate len false) }
{
    let mut row = Vec::new(alloc);
    row.push(true)?;
    for _place in 0..len {
        row.push(false)?;
    }
    Ok(row)
}

/// Any run of elements may follow.
pub(crate) fn spread(row: &mut [bool])
    ensures { row.new ≡ spread false row.old }
{
    let mut reached = false;
    for place in row.iter_mut() {
        reached |= *place;
        *place = reached;
    }
}

/// One element follows, which passes the test.
pub(crate) fn advance(row: &mut [bool], tests: &[bool])
    requires { length row.old ≡ length tests.now + 1 }
    ensures { row.new ≡ advanced false row.old tests.now }
{
    let mut reached = false;
    for (i, passes) in tests.iter().enumerate() {
        let here = row[i];
        row[i] = reached;
        reached = here & *passes;
    }
    row[tests.len()] = reached;
}
