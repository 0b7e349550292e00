// Contexts of rows.
ghost use Rattle.std.specs.Prelude.{◌≡◌, string_bytes, IfOk};
ghost use Rattle.cov_recorder.specs.Recording.{joined};

use py_text::NoMemory;
use std::alloc::Global;

/// The static context and the label, with `|` between them. Where one is empty, it is the other.
pub(crate) fn joined(alloc: Global, fixed: &str, label: &str) -> Result<String, NoMemory>
    ensures { IfOk result (λ context. string_bytes context ≡ joined fixed.now label.now) }
{
    if fixed.is_empty() {
        return String::from_str(alloc, label);
    }
    let mut context = String::from_str(alloc, fixed)?;
    if !label.is_empty() {
        context.push('|')?;
        context.push_str(label)?;
    }
    Ok(context)
}
