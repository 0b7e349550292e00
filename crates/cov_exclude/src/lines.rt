//! The physical lines of a text that patterns match.
ghost use Rattle.std.specs.Prelude.{◌≡◌, ◌++◌, ◌||◌, length, map, IfOk, OnOk};
ghost use Rattle.std.specs.Str.Lines.{lines};
ghost use Rattle.regex.specs.Strings.{regex_pattern, regex_source, matcher_pattern};
ghost use Rattle.cov_exclude.specs.Flags.{flagged_by, flagged_from};
ghost use Rattle.cov_exclude.specs.Texts.{IsPlainlyMade, ArePlainlyMade, texts_of, is_matched_by, is_matched, matched_lines};
ghost use Rattle.cov_exclude.specs.Touched.{mark_if};
ghost use Rattle.cov_exclude.specs.Views.{texts_view};

use crate::matched::Matched;
use py_text::NoMemory;
use regex::{Matcher, Regex};
use std::alloc::Global;

/// The lines of a text that one of the patterns matches. Each pattern is set up once.
pub(crate) fn matched_lines(
    alloc: Global,
    made: &[Regex],
    source: &str,
) -> Result<Matched, NoMemory>
    requires { ArePlainlyMade made.now }
    ensures { IfOk result (λ matched. matched ≡ matched_lines (texts_of made.now) source.now) }
{
    let texts = texts(alloc, source)?;
    let flags = flags(alloc, made, &texts)?;
    let numbers = numbers(alloc, &flags)?;
    Ok(Matched::new(numbers))
}

fn texts<'s>(alloc: Global, source: &'s str) -> Result<Vec<&'s str>, NoMemory>
    ensures { IfOk result (λ texts. texts_view texts.items ≡ lines source.now) }
{
    source.lines().collect(alloc)
}

/// Whether one of the patterns matches each text. The patterns take turns, since the matcher of one
/// may take a hundred megabytes.
fn flags(alloc: Global, made: &[Regex], texts: &[&str]) -> Result<Vec<bool>, NoMemory>
    requires { ArePlainlyMade made.now }
    ensures { IfOk result (λ flags.
        flags.items ≡ map (is_matched (texts_of made.now)) (texts_view texts.now)) }
{
    let mut flags = vec![in alloc; false; texts.len()]?;
    for regex in made {
        flag_texts(alloc, &mut flags, regex, texts)?;
    }
    Ok(flags)
}

/// Sets the flags of the texts that a pattern matches. A text whose flag is set isn't searched.
fn flag_texts(
    alloc: Global,
    flags: &mut [bool],
    regex: &Regex,
    texts: &[&str],
) -> Result<(), NoMemory>
    requires lengths { length flags.old ≡ length texts.now }
    requires made { IsPlainlyMade regex.now }
    ensures { OnOk result
        (flags.new ≡ flagged_by (regex_source regex.now) flags.old (texts_view texts.now)) }
{
    let mut matcher = regex.matcher(alloc)?;
    for at in 0..texts.len() {
        flags[at] = flags[at] || matches(&mut matcher, regex, texts[at]);
    }
    Ok(())
}

fn matches(matcher: &mut Matcher<'_>, regex: &Regex, line: &str) -> bool
    requires alike { matcher_pattern matcher.old ≡ regex_pattern regex.now }
    requires made { IsPlainlyMade regex.now }
    ensures found { result ≡ is_matched_by (regex_source regex.now) line.now }
    ensures same { matcher_pattern matcher.new ≡ matcher_pattern matcher.old }
{
    matcher.is_match(line)
}

/// The numbers of the flags that are set, counted from 1.
fn numbers(alloc: Global, flags: &[bool]) -> Result<Vec<usize>, NoMemory>
    ensures { IfOk result (λ numbers. numbers.items ≡ flagged_from 1 flags.now) }
{
    let mut numbers = Vec::new(alloc);
    for at in 0..flags.len() {
        push_if(&mut numbers, flags[at], at + 1)?;
    }
    Ok(numbers)
}

fn push_if(numbers: &mut Vec<usize>, passes: bool, number: usize) -> Result<(), NoMemory>
    ensures { OnOk result (numbers.new.items ≡ numbers.old.items ++ mark_if passes number) }
{
    if passes {
        numbers.push(number)?;
    }
    Ok(())
}
