//! The statement lines of a module.
ghost use Rattle.std.specs.Prelude.{◌≡◌, IfOk};
ghost use Rattle.py_syntax.specs.View.{plain_module};
ghost use Rattle.py_syntax.specs.Marks.{statement_lines};

use crate::marks;
use py_syntax::Module;
use py_text::NoMemory;
use std::alloc::Global;

/// The lines that can be executed, counted from 1: each once, in order.
pub fn statements(alloc: Global, module: &Module) -> Result<Vec<u32>, NoMemory>
    ensures { IfOk result (λ lines. lines.items ≡ statement_lines (plain_module «module».now)) }
{
    let mut lines = Vec::new(alloc);
    marks::statements(&mut lines, true, &module.body)?;
    lines.sort_unstable();
    lines.dedup();
    Ok(lines)
}
