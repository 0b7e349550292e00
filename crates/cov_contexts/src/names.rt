// The labels that names give.
ghost use Rattle.std.specs.Prelude.{◌≡◌, IfOk};
ghost use Rattle.cov_contexts.specs.Names.{dotted, is_of_test, label_by_name};

use py_text::{NoMemory, Text};
use std::alloc::Global;

/// The function's name behind that of its module.
pub(crate) fn dotted(alloc: Global, module: &str, function: &str) -> Result<Text, NoMemory>
    ensures { IfOk result (λ text. text ≡ dotted «module».now function.now) }
{
    let mut text = Text::from_str(alloc, module)?;
    text.push('.')?;
    text.push_str(function)?;
    Ok(text)
}

fn is_of_test(function: &str) -> bool
    ensures { result ≡ is_of_test function.now }
{
    function.starts_with("test") || function == "runTest"
}

/// What the name rule gives, where it is on.
pub(crate) fn label(
    alloc: Global,
    by_name: bool,
    module: &str,
    function: &str,
) -> Result<Option<Text>, NoMemory>
    ensures { IfOk result (λ label. label ≡ label_by_name by_name «module».now function.now) }
{
    if by_name && is_of_test(function) {
        Ok(Some(dotted(alloc, module, function)?))
    } else {
        Ok(None)
    }
}
