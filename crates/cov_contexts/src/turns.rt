// Plugins that are asked in turn.
ghost use Rattle.std.specs.Prelude.{IfOk, OnErr};
ghost use Rattle.cov_contexts.specs.Plugins.{PluginsGive, PluginsStop};

use crate::plugins::Plugin;
use cov_event::Verdict;
use py_text::{NoMemory, Text};
use std::alloc::Global;

/// The first label that a plugin gives. Those that leave are dropped.
pub(crate) fn first_label<P: Plugin>(
    plugins: &mut Vec<P>,
    alloc: Global,
    module: &str,
    function: &str,
) -> Result<Option<Text>, NoMemory>
    ensures given { IfOk result (λ label.
        PluginsGive P.Plugin «module».now function.now plugins.old.items label plugins.new.items) }
    ensures refused { OnErr result (
        PluginsStop P.Plugin «module».now function.now plugins.old.items plugins.new.items) }
{
    let mut at = 0;
    'plugins: while at < plugins.len() {
        match plugins[at].answer(alloc, module, function)? {
            Verdict::Quiet => at += 1,
            Verdict::Label(text) => return Ok(Some(text)),
            Verdict::Leave => drop(plugins.remove(at)),
        }
    }
    Ok(None)
}
