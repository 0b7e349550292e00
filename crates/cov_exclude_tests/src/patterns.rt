// What makers make of texts, and what they refuse.

use crate::texts::{BRANCH, COVER, IF, WHILE, texts_of};
use cov_exclude::{MakeError, Maker, MemMaker, Patterns, RegexMaker};
use std::alloc::Global;
use std::test::Fail;

/// Why a maker makes no pattern of a text, if it doesn't.
fn refusal<M: Maker>(alloc: Global, maker: &mut M, text: &str) -> Option<MakeError> {
    match maker.make(alloc, text) {
        Ok(pattern) => {
            drop(pattern);
            None
        }
        Err(error) => Some(error),
    }
}

/// A title, a text, and why there is no pattern.
static MADE: [(&str, &str, Option<MakeError>); 3] = [
    ("a pattern", COVER, None),
    ("no pattern", "(", Some(MakeError::NoPattern)),
    ("too large", "a{1000}{1000}{1000}", Some(MakeError::Size)),
];

#[test]
fn a_maker_says_why_there_is_no_pattern(rt: HostRuntime) -> Result<(), Fail> {
    let mut maker = RegexMaker::new();
    for row in &MADE {
        let found = refusal(rt.alloc(), &mut maker, row.1);
        assert!(rt; found == row.2, "{}", row.0);
    }
    Ok(())
}

/// The same of a maker whose call 1 fails, call by call.
static MADE_IN_MEMORY: [(&str, &str, Option<MakeError>); 3] = [
    ("call 0", "a", None),
    ("call 1", "a", Some(MakeError::Size)),
    ("call 2", "(", Some(MakeError::NoPattern)),
];

#[test]
fn a_maker_in_memory_fails_at_chosen_calls(rt: HostRuntime) -> Result<(), Fail> {
    let alloc = rt.alloc();
    let mut maker = MemMaker::new(vec![in alloc; 1]?);
    for row in &MADE_IN_MEMORY {
        let found = refusal(alloc, &mut maker, row.1);
        assert!(rt; found == row.2, "{}", row.0);
    }
    Ok(())
}

/// Which of the texts is refused, and why; nothing where none is.
fn built<M: Maker>(alloc: Global, maker: &mut M, texts: &[&str]) -> Result<String, Fail> {
    let owned = texts_of(alloc, texts)?;
    match Patterns::build(alloc, &owned, maker) {
        Ok(patterns) => {
            drop(patterns);
            Ok(String::new(alloc))
        }
        Err(error) => Ok(format!(in alloc; "{error:?}")?),
    }
}

#[test]
fn the_first_bad_text_is_named(rt: HostRuntime) -> Result<(), Fail> {
    let alloc = rt.alloc();
    let found = built(alloc, &mut RegexMaker::new(), &[COVER, "(", "["])?;
    assert_eq!(rt; found.as_str(), "BadPattern(1)", "the second");
    let mut maker = MemMaker::new(vec![in alloc; 1]?);
    let found = built(alloc, &mut maker, &["a", "b", "("])?;
    assert_eq!(rt; found.as_str(), "PatternSize(1)", "too large");
    Ok(())
}

#[test]
fn the_default_patterns_are_accepted(rt: HostRuntime) -> Result<(), Fail> {
    let texts = [COVER, BRANCH, WHILE, IF];
    let found = built(rt.alloc(), &mut RegexMaker::new(), &texts)?;
    assert_eq!(rt; found.as_str(), "", "all four");
    Ok(())
}
