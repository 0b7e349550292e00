// The units of functions, by the lines of their `def`s.

ghost use Rattle.std.specs.Prelude.{◌≡◌, ℕ, length, nat_eq, unwrap_or, IfOk};
ghost use Rattle.indexmap.specs.IndexMap.{get};
ghost use Rattle.py_meaning.specs.Modules.{unit_at};
ghost use Rattle.py_compile_body.specs.Parts.{at_lines};

use indexmap::IndexMap;
use py_compile_expr::number;
use py_text::NoMemory;
use std::alloc::Global;
use std::marker::Model;

/// The lines of the `def`s of a module in the order of the text, seen as their list.
pub struct Defs {
    lines: Vec<u32>,
    numbers: IndexMap<u32, u32>,
}

// Written out, and not derived, so that letting them go is one call wherever that happens.
impl Drop for Defs {
    fn drop(self) {
        let Defs { lines, numbers } = self;
        drop(lines);
        drop(numbers)
    }
}

impl Model for Defs {
    ghost use Rattle.std.specs.Prelude.{◌≡◌, List, ℕ, length, nat_eq, unwrap_or};
    ghost use Rattle.indexmap.specs.IndexMap.{get};
    ghost use Rattle.py_meaning.specs.Modules.{unit_at};
    ghost use Rattle.py_compile_body.specs.Parts.{at_lines};

    ghost Value = { List ℕ };

    ghost view = { λ d. d.lines.items };

    ghost invariant = { λ d. (l : ℕ)
        → unwrap_or (get nat_eq d.numbers l) (length d.lines.items)
        ≡ unit_at l (at_lines d.lines.items) };
}

impl Defs {
    pub fn new(alloc: Global, lines: Vec<u32>) -> Result<Defs, NoMemory>
        ensures { IfOk result (λ d. d ≡ lines.items) }
    {
        let numbers = numbers_of(alloc, &lines)?;
        Ok(Defs { lines, numbers })
    }

    /// The unit of the function whose `def` begins at a line.
    pub(crate) fn unit(&self, line: u32) -> Result<u32, NoMemory>
        ensures { IfOk result (λ n. n ≡ unit_at line (at_lines self.now)) }
    {
        match self.numbers.get(&line) {
            Some(unit) => Ok(*unit),
            None => number(self.lines.len()),
        }
    }
}

/// The units of functions from 1 on. Of two `def`s in one line, which no text spells, the first one
/// counts.
fn numbers_of(alloc: Global, lines: &[u32]) -> Result<IndexMap<u32, u32>, NoMemory>
    ensures { IfOk result (λ m.
        (l : ℕ) → unwrap_or (get nat_eq m l) (length lines.now) ≡ unit_at l (at_lines lines.now)) }
{
    let mut numbers = IndexMap::new(alloc);
    let mut left = lines.len();
    'lines: while left > 0 {
        let unit = number(left)?;
        left -= 1;
        numbers.insert(lines[left], unit)?;
    }
    Ok(numbers)
}
