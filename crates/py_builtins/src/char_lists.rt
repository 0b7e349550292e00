// Texts as lists of characters.

ghost use Rattle.std.specs.Prelude.{◌≡◌, IfOk};

use py_value::{NoMemory, Text};
use std::alloc::Global;

/// The characters of a text.
pub(crate) fn characters_of(alloc: Global, text: &Text) -> Result<Vec<char>, NoMemory>
    ensures { IfOk result (λ characters. characters.items ≡ text.now) }
{
    let mut characters = Vec::new(alloc);
    for c in text.as_str().chars() {
        characters.push(c)?;
    }
    Ok(characters)
}
