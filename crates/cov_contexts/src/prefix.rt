// A plugin that labels functions by a prefix of their names.
ghost use Rattle.std.specs.Prelude.{◌≡◌, IfOk};
ghost use Rattle.std.specs.Str.{chars};
ghost use Rattle.cov_contexts.specs.Prefixes.{prefixed, begins};

use crate::names;
use cov_event::{ContextPlugin, Verdict};
use py_text::{NoMemory, Text};
use std::alloc::Global;
use std::marker::Model;

/// Labels each function whose name begins with the prefix, so many times.
#[derive(Drop)]
pub struct PrefixPlugin {
    prefix: Text,
    left: u64,
}

impl Model for PrefixPlugin {
    ghost use Rattle.cov_contexts.specs.Prefixes.{Prefix};

    ghost Value = { Prefix };

    ghost view = { λ p. record { prefix = p.prefix; left = p.left } };
}

impl PrefixPlugin {
    pub fn new(alloc: Global, prefix: &str, left: u64) -> Result<PrefixPlugin, NoMemory>
        ensures { IfOk result (λ plugin.
            plugin ≡ record { prefix = chars prefix.now; left = left }) }
    {
        Ok(PrefixPlugin {
            prefix: Text::from_str(alloc, prefix)?,
            left,
        })
    }

    fn begins(&self, function: &str) -> bool
        ensures { result ≡ begins self.now.prefix function.now }
    {
        function.starts_with(self.prefix.as_str())
    }

    fn label(&self, alloc: Global, module: &str, function: &str) -> Result<Text, NoMemory>
        ensures { IfOk result (λ text.
            text ≡ prefixed self.now.prefix «module».now function.now) }
    {
        let mut text = self.prefix.copy()?;
        text.push(':')?;
        text.append(&names::dotted(alloc, module, function)?)?;
        Ok(text)
    }
}

impl ContextPlugin for PrefixPlugin {
    ghost use Rattle.cov_contexts.specs.Prefixes.{PrefixMoves};

    ghost moves = { PrefixMoves };

    fn context(
        &mut self,
        alloc: Global,
        module: &str,
        function: &str,
    ) -> Result<Verdict, NoMemory> {
        if self.left == 0 {
            return Ok(Verdict::Leave);
        }
        if !self.begins(function) {
            return Ok(Verdict::Quiet);
        }
        let label = self.label(alloc, module, function)?;
        self.left -= 1;
        Ok(Verdict::Label(label))
    }
}
