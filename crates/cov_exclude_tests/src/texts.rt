// The default patterns, and patterns of given texts.

use cov_exclude::{Patterns, RegexMaker};
use std::alloc::Global;
use std::test::Fail;

pub(crate) const COVER: &str = r"#\s*(pragma|PRAGMA)[:\s]?\s*(no|NO)\s*(cover|COVER)";

pub(crate) const BRANCH: &str = r"#\s*(pragma|PRAGMA)[:\s]?\s*(no|NO)\s*(branch|BRANCH)";

pub(crate) const WHILE: &str = "while (True|1|False|0):";

pub(crate) const IF: &str = "if (True|1|False|0):";

pub(crate) fn texts_of(alloc: Global, texts: &[&str]) -> Result<Vec<String>, Fail> {
    let mut owned = Vec::new(alloc);
    for text in texts {
        owned.push(String::from_str(alloc, text)?)?;
    }
    Ok(owned)
}

/// The patterns of these texts.
pub(crate) fn patterns_of(alloc: Global, texts: &[&str]) -> Result<Patterns, Fail> {
    let owned = texts_of(alloc, texts)?;
    match Patterns::build(alloc, &owned, &mut RegexMaker::new()) {
        Ok(patterns) => Ok(patterns),
        Err(_) => Err(Fail::new("a pattern isn't made")),
    }
}
