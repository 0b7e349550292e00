// Who gives the labels of calls.
ghost use Rattle.std.specs.Prelude.{◌≡◌, IfOk, OnErr};
ghost use Rattle.cov_contexts.specs.Asking.{HookGives, HookRefused, Labels, LabelRefused};

use crate::plugins::Plugin;
use crate::{names, turns};
use cov_event::{Ask, ContextPlugin};
use py_text::{NoMemory, Text};
use std::alloc::Global;
use std::marker::Model;

/// Gives the labels of calls: by a hook, by plugins, and by the rule for names of tests.
#[derive(Drop)]
pub struct Contexts<A, P = Box<dyn ContextPlugin>> {
    hook: Option<A>,
    plugins: Vec<P>,
    by_name: bool,
}

impl<A, P> Model for Contexts<A, P> {
    ghost use Rattle.cov_contexts.specs.Sources.{Sources};

    ghost Value = { Sources A P };

    ghost view = { λ c. record {
      hook = c.hook;
      plugins = c.plugins.items;
      by_name = c.by_name;
    } };
}

impl<A: Ask, P: Plugin> Contexts<A, P> {
    /// Without `by_name` the name rule gives no label.
    pub fn new(hook: Option<A>, plugins: Vec<P>, by_name: bool) -> Contexts<A, P>
        ensures { result ≡ record { hook = hook; plugins = plugins.items; by_name = by_name } }
    {
        Contexts {
            hook,
            plugins,
            by_name,
        }
    }

    /// The label of a call of this function of this module: the hook's, or else the first that a
    /// plugin gives, or else the name rule's. A plugin that answers `Leave` is dropped.
    pub fn label(
        &mut self,
        alloc: Global,
        module: &str,
        function: &str,
    ) -> Result<Option<Text>, NoMemory>
        ensures labels { IfOk result (λ label.
            Labels A.Ask P.Plugin «module».now function.now self.old label self.new) }
        ensures refused { OnErr result (
            LabelRefused A.Ask P.Plugin «module».now function.now self.old self.new) }
    {
        if let Some(label) = ask_hook(&mut self.hook, alloc, module, function)? {
            return Ok(Some(label));
        }
        if let Some(label) = turns::first_label(&mut self.plugins, alloc, module, function)? {
            return Ok(Some(label));
        }
        names::label(alloc, self.by_name, module, function)
    }

    /// The plugins that haven't left, in order.
    pub fn into_plugins(self) -> Vec<P>
        ensures { result.items ≡ self.plugins }
    {
        self.plugins
    }
}

fn ask_hook<A: Ask>(
    hook: &mut Option<A>,
    alloc: Global,
    module: &str,
    function: &str,
) -> Result<Option<Text>, NoMemory>
    ensures given { IfOk result (λ label.
        HookGives A.Ask «module».now function.now hook.old label hook.new) }
    ensures refused { OnErr result (HookRefused A.Ask hook.old hook.new) }
{
    match hook {
        None => Ok(None),
        Some(hook) => hook.ask(alloc, module, function),
    }
}
