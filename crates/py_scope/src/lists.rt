// Lists of names.

ghost use Rattle.std.specs.Prelude.{◌≡◌, IfOk};
ghost use Rattle.py_scope.specs.Patterns.{has_repeats};

use crate::names::NameSet;
use py_text::{NoMemory, Text};
use std::alloc::Global;

/// Whether some name stands twice in the list.
pub(crate) fn has_repeats(alloc: Global, names: &[Text]) -> Result<bool, NoMemory>
    ensures { IfOk result (λ b. b ≡ has_repeats names.now) }
{
    let mut before = NameSet::new(alloc);
    for name in names {
        if !before.insert(alloc, name)? {
            return Ok(true);
        }
    }
    Ok(false)
}
