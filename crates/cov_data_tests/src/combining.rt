use crate::sets::{data_of, shown};
use cov_combine::{AliasRules, CombineError, combine};
use cov_data::{Data, Row};
use std::alloc::{AllocError, Global};
use std::test::Fail;

/// Rules as `name=place,pattern,pattern`, with `;` between them.
fn rules_of(alloc: Global, text: &str) -> Result<AliasRules, AllocError> {
    let mut given = Vec::new(alloc);
    for rule in text.split(';') {
        given.push(rule_of(alloc, rule)?)?;
    }
    AliasRules::read(alloc, given.as_slice())
}

fn rule_of(alloc: Global, rule: &str) -> Result<(String, Vec<String>), AllocError> {
    let (name, list) = rule.split_once('=').unwrap_or((rule, ""));
    let patterns = texts_of(alloc, list)?;
    Ok((String::from_str(alloc, name)?, patterns))
}

fn texts_of(alloc: Global, list: &str) -> Result<Vec<String>, AllocError> {
    let mut texts = Vec::new(alloc);
    if !list.is_empty() {
        for text in list.split(',') {
            texts.push(String::from_str(alloc, text)?)?;
        }
    }
    Ok(texts)
}

/// The inputs, with `|` between them, combined.
fn combined(alloc: Global, inputs: &str, rules: &str) -> Result<String, AllocError> {
    let rules = rules_of(alloc, rules)?;
    let mut all = Vec::new(alloc);
    for input in inputs.split('|') {
        all.push(data_of(alloc, true, input)?)?;
    }
    if all.is_empty() {
        return Ok(String::new(alloc));
    }
    match combine(alloc, all.as_slice(), &rules) {
        Ok(data) => shown(alloc, &data),
        Err(_) => String::from_str(alloc, "refused"),
    }
}

fn alias(alloc: Global, rules: &str, path: &str) -> Result<String, AllocError> {
    let rules = rules_of(alloc, rules)?;
    rules.alias(path)
}

/// A rule of a folder whose files have three places.
const SOURCE: &str = "source=src,c:\\proj\\src,/home/*/src";

/// Rules, a path and its alias.
static ALIASES: [(&str, &str, &str, &str); 13] = [
    ("Backslashes", SOURCE, "c:\\proj\\src\\a.py", "src/a.py"),
    ("A star for a part", SOURCE, "/home/u/src/a.py", "src/a.py"),
    ("The place itself", SOURCE, "src/a.py", "src/a.py"),
    (
        "No part after the pattern",
        SOURCE,
        "/home/u/src",
        "/home/u/src",
    ),
    (
        "A star for two parts",
        SOURCE,
        "/home/u/v/src/a.py",
        "/home/u/v/src/a.py",
    ),
    (
        "A star in front of a path",
        "source=src,*/src",
        "/home/u/src/b/src/c.py",
        "src/b/src/c.py",
    ),
    (
        "A star in front of the place",
        "source=src,*/src",
        "src/a.py",
        "src/a.py",
    ),
    ("A star alone", "source=src,*", "a.py", "a.py"),
    (
        "Two ways to write a folder",
        "source=d:\\new\\,old/",
        "old\\x\\a.py",
        "d:/new/x/a.py",
    ),
    (
        "Rules in the order of their names",
        "b=two,lib;a=one,lib",
        "lib/a.py",
        "one/a.py",
    ),
    (
        "A later pattern of an earlier rule",
        "a=one,x,lib;b=two,lib",
        "lib/a.py",
        "one/a.py",
    ),
    ("An alias is not aliased", "a=b,a;b=c,b", "a/x.py", "b/x.py"),
    ("A rule without a place", "a=;b=c,a", "a/x.py", "c/x.py"),
];

#[test]
fn aliases(rt: HostRuntime) -> Result<(), Fail> {
    for (title, rules, path, wanted) in &ALIASES {
        let text = alias(rt.alloc(), *rules, *path)?;
        assert_eq!(rt; text.as_str(), *wanted, "{title}");
    }
    Ok(())
}

/// Inputs, and what they are combined.
static COMBINATIONS: [(&str, &str, &str); 3] = [
    (
        "Three places of a file",
        "c:\\proj\\src\\a.py . -1 1 1;c:\\proj\\src\\a.py . 1 2 1|\
         /home/u/src/a.py . -1 1 1;/home/u/src/a.py . 1 3 1|src/a.py . -1 1 1",
        "src/a.py . -1 1 3;src/a.py . 1 2 1;src/a.py . 1 3 1;",
    ),
    (
        "Four inputs in another order",
        "src/a.py . -1 1 1|/home/u/src/a.py . -1 1 1;/home/u/src/a.py . 1 3 1|\
         c:\\proj\\src\\a.py . 1 2 1|/home/u/src/a.py . 1 3 1",
        "src/a.py . -1 1 2;src/a.py . 1 2 1;src/a.py . 1 3 2;",
    ),
    ("A path without a row", "/home/u/src/b.py", "src/b.py;"),
];

#[test]
fn combinations(rt: HostRuntime) -> Result<(), Fail> {
    for (title, inputs, wanted) in &COMBINATIONS {
        let text = combined(rt.alloc(), *inputs, SOURCE)?;
        assert_eq!(rt; text.as_str(), *wanted, "{title}");
    }
    Ok(())
}

fn is_refused(alloc: Global) -> Result<bool, AllocError> {
    let rules = rules_of(alloc, "")?;
    let lines = data_of(alloc, false, "a.py . 1 1 1")?;
    let arcs = data_of(alloc, true, "a.py . 1 2 1")?;
    let answer = combine(alloc, &[lines, arcs], &rules);
    Ok(matches!(
        answer,
        Err(CombineError::Mixed {
            first: false,
            other: true
        })
    ))
}

#[test]
fn arcs_and_lines_are_not_combined(rt: HostRuntime) -> Result<(), Fail> {
    let refused = is_refused(rt.alloc())?;
    assert!(rt; refused);
    Ok(())
}

/// Arc data of 1,000 paths with 100 rows each, which come path by path in turn.
fn large(alloc: Global, run: i32) -> Result<Data, AllocError> {
    let mut data = Data::new(alloc, true);
    for line in 1..101 {
        for file in 0..1_000 {
            add(alloc, &mut data, run, line, file)?;
        }
    }
    Ok(data)
}

/// Adds the row of one line and one file.
fn add(alloc: Global, data: &mut Data, run: i32, line: i32, file: i32) -> Result<(), AllocError> {
    let path = format!(in alloc; "/home/run{run}/src/file{file}.py")?;
    let row = Row {
        path,
        context: String::new(alloc),
        from: line,
        to: run,
        count: 1,
    };
    if data.accepts(&row) {
        return data.add(row);
    }
    Ok(())
}

/// The number of paths, of rows and of executions of two large runs of the same files as one.
fn large_combined(alloc: Global) -> Result<(usize, usize, u64), AllocError> {
    let rules = rules_of(alloc, "source=src,/home/*/src")?;
    let inputs = [large(alloc, 1)?, large(alloc, 2)?, large(alloc, 2)?];
    match combine(alloc, &inputs, &rules) {
        Ok(data) => sizes(&data),
        Err(_) => Ok((0, 0, 0)),
    }
}

fn sizes(data: &Data) -> Result<(usize, usize, u64), AllocError> {
    let paths = data.paths()?;
    let rows = data.rows()?;
    let mut executions = 0u64;
    for row in &rows {
        executions = executions.saturating_add(u64::from(row.count));
    }
    Ok((paths.len(), rows.len(), executions))
}

#[test]
fn large_combinations(rt: HostRuntime) -> Result<(), Fail> {
    let sizes = large_combined(rt.alloc())?;
    assert_eq!(rt; sizes, (1_000, 200_000, 300_000));
    Ok(())
}
