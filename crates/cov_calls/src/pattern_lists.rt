//! The patterns of a report.
ghost use Rattle.std.specs.Prelude.{◌≡◌, ◌≤◌, ◌<◌, ◌+◌, ◌^◌, ◌++◌, ◌∷◌, [], IfOk, IfErr, OnOk, length, map, string_bytes};
ghost use Rattle.cov_config.specs.Plain.{settings_view, texts_view};
ghost use Rattle.cov_programs.specs.Ends.{Follows};
ghost use Rattle.cov_programs.specs.Objects.{nobody};
ghost use Rattle.cov_programs.specs.Programs.{ask};
ghost use Rattle.cov_step.specs.Answers.{on, pattern_refusal};
ghost use Rattle.cov_step.specs.Calls.{Call, Answer, IsNoMemory, makes, seen};
ghost use Rattle.cov_step.specs.Objects.{on_maker};
ghost use Rattle.cov_step.specs.Phases.{always, few, patterns, patterns_by, short, most_patterns, most_pattern_bytes};
ghost use Rattle.cov_calls.specs.Parts.{making};
ghost use Rattle.cov_calls.specs.Views.{NamesSmallPlace, lists_view, pattern_error_of};

use cov_config::Config;
use cov_exclude::{Maker, PatternError, Patterns};
use cov_why::{LimitKind, Why};
use std::alloc::{AllocError, Global};

/// The most patterns of a list.
const MOST_PATTERNS: usize = 32;

/// The most bytes of a pattern.
const MOST_PATTERN_BYTES: usize = 200;

/// Which lines are excluded, and which needn't take all of their branches.
#[derive(Drop)]
pub struct PatternLists {
    pub exclude: Patterns,
    pub partial: Patterns,
}

/// The patterns of settings.
pub fn patterns<M: Maker>(
    alloc: Global,
    settings: &Config,
    maker: &mut M,
) -> Result<PatternLists, Why>
    ensures { Follows (on_maker M.Maker) IsNoMemory (patterns (settings_view settings.now).report)
        maker.old (seen lists_view result) maker.new }
{
    let exclude = joined(
        alloc,
        settings.exclude_lines.as_slice(),
        settings.exclude_also.as_slice(),
    );
    match exclude {
        Ok(exclude) => patterns_by(
            alloc,
            exclude.as_slice(),
            settings.partial_branches.as_slice(),
            maker,
        ),
        Err(_) => Err(Why::NoMemory),
    }
}

/// The patterns of these texts: of both lists first the counts are looked at, then the sizes, and
/// then each text.
pub fn patterns_by<M: Maker>(
    alloc: Global,
    exclude: &[String],
    partial: &[String],
    maker: &mut M,
) -> Result<PatternLists, Why>
    ensures { Follows (on_maker M.Maker) IsNoMemory
        (patterns_by (map string_bytes exclude.now) (map string_bytes partial.now)) maker.old
        (seen lists_view result) maker.new }
{
    few(exclude)?;
    few(partial)?;
    short(exclude)?;
    short(partial)?;
    made(alloc, exclude, partial, maker)
}

/// A list has no more patterns than it may.
fn few(texts: &[String]) -> Result<(), Why>
    ensures follows { Follows (nobody Call Answer) IsNoMemory (few (map string_bytes texts.now)) tt
        (seen (λ _. tt) result) tt }
    ensures few { OnOk result (length texts.now ≤ most_patterns) }
{
    if texts.len() > MOST_PATTERNS {
        return Err(Why::Limit(LimitKind::Patterns, texts.len() as u64));
    }
    Ok(())
}

/// No pattern of a list is too long.
fn short(texts: &[String]) -> Result<(), Why>
    ensures { Follows (nobody Call Answer) IsNoMemory (short (map string_bytes texts.now)) tt
        (seen (λ _. tt) result) tt }
{
    for text in texts {
        if text.len() > MOST_PATTERN_BYTES {
            return Err(Why::Limit(LimitKind::PatternBytes, text.len() as u64));
        }
    }
    Ok(())
}

/// The patterns of texts of which there aren't too many.
fn made<M: Maker>(
    alloc: Global,
    exclude: &[String],
    partial: &[String],
    maker: &mut M,
) -> Result<PatternLists, Why>
    requires { length exclude.now ≤ most_patterns }
    ensures { Follows (on_maker M.Maker) IsNoMemory
        (making (map string_bytes exclude.now) (map string_bytes partial.now)) maker.old
        (seen lists_view result) maker.new }
{
    let Ok(freeing) = with_always(alloc, partial) else {
        return Err(Why::NoMemory);
    };
    let excluding = built(alloc, 0, exclude, maker)?;
    let partial = built(alloc, exclude.len(), freeing.as_slice(), maker)?;
    Ok(PatternLists {
        exclude: excluding,
        partial,
    })
}

/// The patterns of texts, of which the first has this number.
fn built<M: Maker>(
    alloc: Global,
    first: usize,
    texts: &[String],
    maker: &mut M,
) -> Result<Patterns, Why>
    requires { first ≤ most_patterns }
    ensures follows { Follows (on_maker M.Maker) IsNoMemory
        (ask (makes (map string_bytes texts.now)) (on (pattern_refusal first))) maker.old
        (seen (λ _. tt) result) maker.new }
    ensures made { IfOk result (λ patterns. patterns ≡ map string_bytes texts.now) }
{
    built_of(first, Patterns::build(alloc, texts, maker))
}

fn built_of(first: usize, answer: Result<Patterns, PatternError>) -> Result<Patterns, Why>
    requires few { first ≤ most_patterns }
    requires small { IfErr answer NamesSmallPlace }
    ensures follows { Follows (nobody Call Answer) IsNoMemory
        (on (pattern_refusal first) (pattern_error_of answer)) tt (seen (λ _. tt) result) tt }
    ensures made { IfOk result (λ patterns. IfOk answer (λ made. patterns ≡ made)) }
{
    match answer {
        Ok(patterns) => Ok(patterns),
        Err(PatternError::BadPattern(at)) => Err(Why::BadPattern(first + at)),
        Err(PatternError::PatternSize(at)) => Err(Why::PatternSize(first + at)),
        Err(PatternError::NoMemory) => Err(Why::NoMemory),
    }
}

/// The texts that free branches, with those that always do.
fn with_always(alloc: Global, partial: &[String]) -> Result<Vec<String>, AllocError>
    ensures { IfOk result (λ texts.
        map string_bytes texts.items ≡ map string_bytes partial.now ++ always) }
{
    let mut texts = Vec::new(alloc);
    copy_into(alloc, &mut texts, partial)?;
    texts.push(String::from_str(alloc, "while (True|1|False|0):")?)?;
    texts.push(String::from_str(alloc, "if (True|1|False|0):")?)?;
    Ok(texts)
}

fn joined(alloc: Global, first: &[String], more: &[String]) -> Result<Vec<String>, AllocError>
    ensures { IfOk result (λ texts.
        map string_bytes texts.items ≡ map string_bytes first.now ++ map string_bytes more.now) }
{
    let mut texts = Vec::new(alloc);
    copy_into(alloc, &mut texts, first)?;
    copy_into(alloc, &mut texts, more)?;
    Ok(texts)
}

fn copy_into(alloc: Global, texts: &mut Vec<String>, more: &[String]) -> Result<(), AllocError>
    ensures { OnOk result (map string_bytes texts.new.items
        ≡ map string_bytes texts.old.items ++ map string_bytes more.now) }
{
    for text in more {
        texts.push(String::from_str(alloc, text.as_str())?)?;
    }
    Ok(())
}
