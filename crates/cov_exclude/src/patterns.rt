//! Patterns that are made of texts.
ghost use Rattle.std.specs.Prelude.{◌≡◌, ℕ, ◌≤◌, List, [], ◌∷◌, ◌++◌, map, string_bytes, IfOk, IfErr, OnOk};
ghost use Rattle.cov_exclude.specs.Texts.{IsMadeOf, ArePlainlyMade, texts_of, matched_lines};
ghost use Rattle.cov_exclude.specs.Refusals.{FoundLarge, IsCauseOf, IsCauseAt};

use crate::lines;
use crate::maker::{MakeError, Maker};
use crate::matched::Matched;
use py_text::NoMemory;
use regex::Regex;
use std::alloc::{AllocError, Global};
use std::marker::Model;
use thiserror::Error;

/// Why patterns weren't made of texts. Texts are counted from 0.
#[derive(Debug, Drop, Error)]
pub enum PatternError {
    #[error("text {0} is no pattern")]
    BadPattern(usize),
    #[error("pattern {0} is too large")]
    PatternSize(usize),
    #[error("no memory")]
    NoMemory,
}

impl From<AllocError> for PatternError {
    ghost use Rattle.cov_exclude.specs.declared.patterns.PatternError.TheVariants.{NoMemory};

    ghost from_gives = { λ _ e. e ≡ NoMemory };

    fn from(_error: AllocError) -> PatternError {
        PatternError::NoMemory
    }
}

/// Patterns, as the texts that they were made of.
#[derive(Drop)]
pub struct Patterns {
    made: Vec<Regex>,
}

impl Model for Patterns {
    ghost Value = { List (List ℕ) };

    ghost view = { λ patterns. texts_of patterns.made.items };

    ghost invariant = { λ patterns. ArePlainlyMade patterns.made.items };
}

impl Patterns {
    /// The patterns of texts, made in order. The first text that can't be made into one is named.
    pub fn build<M: Maker>(
        alloc: Global,
        texts: &[String],
        maker: &mut M,
    ) -> Result<Patterns, PatternError>
        ensures built { IfOk result (λ patterns. patterns ≡ map string_bytes texts.now) }
        ensures refused { IfErr result
            (IsCauseOf (map string_bytes texts.now) (FoundLarge M.too_large maker.new)
            (M.sizes maker.old) (M.sizes maker.new)) }
        ensures count { M.sizes maker.old ≤ M.sizes maker.new }
    {
        let mut made = Vec::new(alloc);
        for at in 0..texts.len() {
            let regex = made_at(alloc, at, texts[at].as_str(), maker)?;
            add(&mut made, regex)?;
        }
        Ok(Patterns { made })
    }

    /// The physical lines of a text that one of the patterns matches. Each pattern is set up once.
    pub(crate) fn matched_lines(&self, alloc: Global, source: &str) -> Result<Matched, NoMemory>
        ensures { IfOk result (λ matched. matched ≡ matched_lines self.now source.now) }
    {
        lines::matched_lines(alloc, &self.made, source)
    }
}

fn add(made: &mut Vec<Regex>, regex: Regex) -> Result<(), NoMemory>
    ensures { OnOk result (made.new.items ≡ made.old.items ++ regex ∷ []) }
{
    made.push(regex)?;
    Ok(())
}

/// The pattern of the text at a place.
fn made_at<M: Maker>(
    alloc: Global,
    at: usize,
    text: &str,
    maker: &mut M,
) -> Result<Regex, PatternError>
    ensures made { IfOk result (IsMadeOf text.now) }
    ensures refused { IfErr result (IsCauseAt at text.now (FoundLarge M.too_large maker.new)
        (M.sizes maker.old) (M.sizes maker.new)) }
    ensures count { M.sizes maker.old ≤ M.sizes maker.new }
{
    match maker.make(alloc, text) {
        Ok(regex) => Ok(regex),
        Err(MakeError::NoPattern) => Err(PatternError::BadPattern(at)),
        Err(MakeError::Size) => Err(PatternError::PatternSize(at)),
        Err(MakeError::NoMemory) => Err(PatternError::NoMemory),
    }
}
