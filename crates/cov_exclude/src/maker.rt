//! What makes patterns of texts.
ghost use Rattle.std.specs.Prelude.{◌≡◌, ℕ, ◌≤◌, List, IfOk, IfErr};
ghost use Rattle.cov_outside.specs.Counts.{Rose};
ghost use Rattle.cov_exclude.specs.Texts.{IsNoPattern, IsMadeOf};

use regex::Regex;
use std::alloc::Global;
use thiserror::Error;

/// Why no pattern was made of a text.
#[derive(Clone, Copy, Debug, PartialEq, Eq, Error)]
pub enum MakeError {
    #[error("the text is no pattern")]
    NoPattern,
    #[error("the pattern is too large")]
    Size,
    #[error("no memory")]
    NoMemory,
}

/// What makes patterns of texts, and counts those that are too large.
pub trait Maker {
    // How many patterns were too large.
    ghost sizes: { Self → ℕ };

    // A call on a text that found it too large leads from one state to another.
    ghost too_large: { Self → List ℕ → Self → Type 0 };

    fn make(&mut self, alloc: Global, text: &str) -> Result<Regex, MakeError>
        ensures large { IfErr result (λ e.
            e ≡ MakeError.Size → too_large self.old text.now self.new) }
        ensures made { IfOk result (IsMadeOf text.now) }
        ensures no_pattern { IfErr result (λ e. e ≡ MakeError.NoPattern → IsNoPattern text.now) }
        ensures size { IfErr result (λ e.
            e ≡ MakeError.Size → Rose (sizes self.old) (sizes self.new)) }
        ensures count { sizes self.old ≤ sizes self.new };
}

fn made(alloc: Global, text: &str, sizes: &mut u64) -> Result<Regex, MakeError>
    ensures made { IfOk result (IsMadeOf text.now) }
    ensures no_pattern { IfErr result (λ e. e ≡ MakeError.NoPattern → IsNoPattern text.now) }
    ensures size { IfErr result (λ e. e ≡ MakeError.Size → Rose sizes.old sizes.new) }
    ensures count { sizes.old ≤ sizes.new }
{
    match Regex::new(alloc, text) {
        Ok(regex) => Ok(regex),
        Err(regex::Error::Syntax(_)) => Err(MakeError::NoPattern),
        Err(regex::Error::OutOfMemory) => Err(MakeError::NoMemory),
        Err(regex::Error::CompiledTooBig | regex::Error::Internal) => {
            *sizes = sizes.saturating_add(1);
            Err(MakeError::Size)
        }
    }
}

/// Makes patterns with the `regex` crate.
#[derive(Debug, Drop)]
pub struct RegexMaker {
    sizes: u64,
}

impl RegexMaker {
    pub fn new() -> RegexMaker
        ensures { ⟦<RegexMaker as Maker>⟧.sizes result ≡ 0 }
    {
        RegexMaker { sizes: 0 }
    }
}

impl Maker for RegexMaker {
    ghost sizes = { λ maker. maker.sizes };

    ghost too_large = { λ old _ new. Rose old.sizes new.sizes };

    fn make(&mut self, alloc: Global, text: &str) -> Result<Regex, MakeError> {
        made(alloc, text, &mut self.sizes)
    }
}

/// Makes patterns with the `regex` crate, and finds those of the given calls too large.
#[derive(Drop)]
pub struct MemMaker {
    sizes: u64,
    failing: Vec<u64>,
    calls: u64,
}

impl MemMaker {
    ghost use Rattle.std.specs.Prelude.{◌↔◌, IsTrue};
    ghost use Rattle.cov_outside.specs.Calls.{FailsNext, after_call};
    ghost use Rattle.cov_exclude.specs.Makers.{maker_sizes, maker_calls};

    /// Calls are counted from 0.
    pub fn new(failing: Vec<u64>) -> MemMaker
        ensures sizes { maker_sizes result ≡ 0 }
        ensures calls { maker_calls result ≡ record { failing = failing.items; count = 0 } }
    {
        MemMaker {
            sizes: 0,
            failing,
            calls: 0,
        }
    }

    /// Counts a call, and says whether it fails.
    fn fails(&mut self) -> bool
        ensures answer { IsTrue result ↔ FailsNext (maker_calls self.old) }
        ensures calls { maker_calls self.new ≡ after_call (maker_calls self.old) }
        ensures sizes { maker_sizes self.new ≡ maker_sizes self.old }
    {
        let fails = self.failing.contains(&self.calls);
        self.calls = self.calls.saturating_add(1);
        fails
    }
}

impl Maker for MemMaker {
    ghost use Rattle.std.specs.Prelude.{IsErrOf};
    ghost use Rattle.cov_outside.specs.Calls.{FailsNext, after_call};
    ghost use Rattle.cov_exclude.specs.Makers.{maker_sizes, maker_calls};

    ghost sizes = { maker_sizes };

    ghost too_large = { λ old _ new. Rose (maker_sizes old) (maker_sizes new) };

    fn make(&mut self, alloc: Global, text: &str) -> Result<Regex, MakeError>
        // The calls that the list names find a pattern too large.
        ensures fails { FailsNext (maker_calls self.old) → IsErrOf result MakeError.Size }
        ensures calls { maker_calls self.new ≡ after_call (maker_calls self.old) }

        ensures large { IfErr result (λ e.
            e ≡ MakeError.Size → Rose (maker_sizes self.old) (maker_sizes self.new)) }
        ensures made { IfOk result (IsMadeOf text.now) }
        ensures no_pattern { IfErr result (λ e. e ≡ MakeError.NoPattern → IsNoPattern text.now) }
        ensures size { IfErr result (λ e.
            e ≡ MakeError.Size → Rose (maker_sizes self.old) (maker_sizes self.new)) }
        ensures count { maker_sizes self.old ≤ maker_sizes self.new }
    {
        if self.fails() {
            self.sizes = self.sizes.saturating_add(1);
            return Err(MakeError::Size);
        }
        made(alloc, text, &mut self.sizes)
    }
}
