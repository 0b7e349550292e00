// Patterns with their heights.

ghost use Rattle.std.specs.Prelude.{◌≡◌, ◌<◌, ◌^◌, max, true, false, IfOk, OnOk};
ghost use Rattle.py_syntax.specs.Tree.{no_patterns, sequence, p_as};
ghost use Rattle.py_syntax.specs.View.{plain_pattern, plain_patterns};
ghost use Rattle.py_parse_pattern.specs.Machine.{snoc, joined, enclosed, listed, ended, is_some, named, is_underscore, brackets_of};
ghost use Rattle.py_parse_pattern.specs.Views.{view_measured, IsMeasured, view_many, AreMeasured, Makes};

use crate::token_classes::Bracket;
use py_syntax::{Brackets, Pattern};
use py_text::{NoMemory, Text};
use std::alloc::Global;

/// A pattern and its height.
#[derive(Drop)]
pub struct Measured {
    pub pattern: Pattern,
    pub height: usize,
}

/// Patterns and the greatest of their heights.
#[derive(Drop)]
pub struct Many {
    pub patterns: Vec<Pattern>,
    pub height: usize,
}

/// The greater of two numbers.
pub fn higher(one: usize, other: usize) -> usize
    ensures { result ≡ max one other }
{
    if one < other { other } else { one }
}

fn are_some(patterns: &[Pattern]) -> bool
    ensures { result ≡ is_some (plain_patterns patterns.now) }
{
    !patterns.is_empty()
}

impl Many {
    pub fn new(alloc: Global) -> Many
        ensures none { view_many result ≡ no_patterns }
        ensures height { result.height ≡ 0 }
    {
        Many {
            patterns: Vec::new(alloc),
            height: 0,
        }
    }

    pub fn push(&mut self, measured: Measured) -> Result<(), NoMemory>
        ensures patterns { OnOk result
            (view_many self.new ≡ snoc (view_many self.old) (view_measured measured)) }
        ensures height { OnOk result (self.new.height ≡ max self.old.height measured.height) }
    {
        self.patterns.push(measured.pattern)?;
        self.height = higher(self.height, measured.height);
        Ok(())
    }

    pub fn is_some(&self) -> bool
        ensures { result ≡ is_some (view_many self.now) }
    {
        are_some(&self.patterns)
    }
}

/// The last of some alternatives, with those in front of it.
pub fn joined(alternatives: Many, last: Measured) -> Result<Measured, NoMemory>
    requires few { alternatives.height < 2 ^ 60 }
    requires low { last.height < 2 ^ 60 }
    requires heights { AreMeasured alternatives }
    requires height { IsMeasured last }
    ensures { IfOk result (Makes (joined (view_many alternatives) (view_measured last))) }
{
    if !alternatives.is_some() {
        return Ok(last);
    }
    let mut all = alternatives;
    all.push(last)?;
    Ok(Measured {
        pattern: Pattern::Or(all.patterns),
        height: all.height + 1,
    })
}

fn brackets_of(bracket: Bracket) -> Brackets
    ensures { result ≡ brackets_of bracket }
{
    match bracket {
        Bracket::Round => Brackets::Round,
        Bracket::Square => Brackets::Square,
    }
}

/// The items and a last one with no comma after it.
fn sequence(brackets: Brackets, items: Many, last: Measured) -> Result<Measured, NoMemory>
    requires few { items.height < 2 ^ 60 }
    requires low { last.height < 2 ^ 60 }
    requires heights { AreMeasured items }
    requires height { IsMeasured last }
    ensures { IfOk result
        (Makes (sequence brackets (snoc (view_many items) (view_measured last)) false)) }
{
    let mut all = items;
    all.push(last)?;
    Ok(Measured {
        pattern: Pattern::Sequence {
            brackets,
            items: all.patterns,
            comma: false,
        },
        height: all.height + 1,
    })
}

/// What brackets hold where the last item has no comma after it.
pub fn enclosed(
    alloc: Global,
    bracket: Bracket,
    items: Many,
    last: Measured,
) -> Result<Measured, NoMemory>
    requires few { items.height < 2 ^ 60 }
    requires low { last.height < 2 ^ 60 }
    requires heights { AreMeasured items }
    requires height { IsMeasured last }
    ensures { IfOk result (Makes (enclosed bracket (view_many items) (view_measured last))) }
{
    match bracket {
        Bracket::Square => sequence(Brackets::Square, items, last),
        Bracket::Round => {
            if !items.is_some() {
                let height = last.height + 1;
                return Ok(Measured {
                    pattern: Pattern::Paren(Box::new(alloc, last.pattern)?),
                    height,
                });
            }
            sequence(Brackets::Round, items, last)
        }
    }
}

/// The same with no brackets.
pub fn listed(items: Many, last: Measured) -> Result<Measured, NoMemory>
    requires few { items.height < 2 ^ 60 }
    requires low { last.height < 2 ^ 60 }
    requires heights { AreMeasured items }
    requires height { IsMeasured last }
    ensures { IfOk result (Makes (listed (view_many items) (view_measured last))) }
{
    if !items.is_some() {
        return Ok(last);
    }
    sequence(Brackets::Bare, items, last)
}

/// What brackets hold where each item has a comma after it.
pub fn ended(bracket: Bracket, items: Many) -> Measured
    requires few { items.height < 2 ^ 60 }
    requires heights { AreMeasured items }
    ensures { Makes (ended bracket (view_many items)) result }
{
    let height = items.height + 1;
    let comma = items.is_some();
    Measured {
        pattern: Pattern::Sequence {
            brackets: brackets_of(bracket),
            items: items.patterns,
            comma,
        },
        height,
    }
}

/// A list with no brackets where each item has a comma after it.
pub fn trailed(items: Many) -> Measured
    requires few { items.height < 2 ^ 60 }
    requires heights { AreMeasured items }
    ensures { Makes (sequence Brackets.Bare (view_many items) true) result }
{
    let height = items.height + 1;
    Measured {
        pattern: Pattern::Sequence {
            brackets: Brackets::Bare,
            items: items.patterns,
            comma: true,
        },
        height,
    }
}

pub fn is_underscore(name: &Text) -> bool
    ensures { result ≡ is_underscore name.now }
{
    name.as_str() == "_"
}

/// A name alone.
pub fn named(name: Text) -> Pattern
    ensures { plain_pattern result ≡ named name }
{
    if is_underscore(&name) {
        return Pattern::Wild;
    }
    Pattern::Capture(name)
}

/// What has the height of a name.
pub fn low(pattern: Pattern) -> Measured
    ensures pattern { view_measured result ≡ plain_pattern pattern }
    ensures height { result.height ≡ 1 }
{
    Measured { pattern, height: 1 }
}

/// `p as name`.
pub fn renamed(alloc: Global, measured: Measured, name: Text) -> Result<Measured, NoMemory>
    requires low { measured.height < 2 ^ 60 }
    requires height { IsMeasured measured }
    ensures { IfOk result (Makes (p_as (view_measured measured) name)) }
{
    let height = measured.height + 1;
    Ok(Measured {
        pattern: Pattern::As(Box::new(alloc, measured.pattern)?, name),
        height,
    })
}
