//! Rows of settings.
use cov_config::{Config, ConfigError, read_config};
use std::alloc::Global;
use std::test::Fail;

/// The texts of a list in angle brackets.
fn push_texts(text: &mut String, texts: &[String]) -> Result<(), Fail> {
    for item in texts {
        text.push('<')?;
        text.push_str(item.as_str())?;
        text.push('>')?;
    }
    text.push(' ')?;
    Ok(())
}

fn push_hook(text: &mut String, config: &Config) -> Result<(), Fail> {
    match &config.hook {
        Some((file, name)) => {
            text.push_str(file.as_str())?;
            text.push('+')?;
            text.push_str(name.as_str())?;
        }
        None => text.push('-')?,
    }
    text.push(' ')?;
    Ok(())
}

/// All settings in one line.
fn shown(alloc: Global, config: &Config) -> Result<String, Fail> {
    let mut text = format!(in alloc;
        "{} <{}> <{}> ",
        config.branch, config.context, config.data_file
    )?;
    let flags = format!(in alloc; "{} {} ", config.dynamic_context, config.budget)?;
    text.push_str(flags.as_str())?;
    push_hook(&mut text, config)?;
    let limits = format!(in alloc; "{} {} ", config.fail_under, config.show_missing)?;
    text.push_str(limits.as_str())?;
    push_texts(&mut text, config.omit.as_slice())?;
    push_texts(&mut text, config.exclude_lines.as_slice())?;
    push_texts(&mut text, config.exclude_also.as_slice())?;
    push_texts(&mut text, config.partial_branches.as_slice())?;
    for (name, texts) in &config.paths {
        text.push_str(name.as_str())?;
        text.push('=')?;
        push_texts(&mut text, texts.as_slice())?;
    }
    Ok(text)
}

/// The settings that bytes mean, or `bad ` and the key.
fn read(alloc: Global, bytes: &[u8]) -> Result<String, Fail> {
    match read_config(alloc, bytes) {
        Ok(config) => shown(alloc, &config),
        Err(ConfigError::BadConfig(key)) => Ok(format!(in alloc; "bad {key}")?),
        Err(ConfigError::NoMemory) => Ok(String::from_str(alloc, "no memory")?),
    }
}

const NO_COVER: &str = r"<#\s*(pragma|PRAGMA)[:\s]?\s*(no|NO)\s*(cover|COVER)>";

const NO_BRANCH: &str = r"<#\s*(pragma|PRAGMA)[:\s]?\s*(no|NO)\s*(branch|BRANCH)>";

/// A line of `shown` with `COVER` and `BRANCH` in place of the default patterns.
fn whole(alloc: Global, short: &str) -> Result<String, Fail> {
    let mut text = String::new(alloc);
    for (i, word) in short.split(' ').enumerate() {
        if i > 0 {
            text.push(' ')?;
        }
        match word {
            "COVER" => text.push_str(NO_COVER)?,
            "BRANCH" => text.push_str(NO_BRANCH)?,
            _ => text.push_str(word)?,
        }
    }
    Ok(text)
}

const DEFAULTS: &str = "false <> <.coverage> false 1000000 - 0 false  COVER  BRANCH ";

/// Settings and what they mean.
static GOOD: [(&str, &str, &str); 13] = [
    ("an empty file", "", DEFAULTS),
    (
        "keys of other names",
        "x = 1\n[tool.coverage.run]\nsource = 3\n[tool.coverage.xml]\na = 1\n",
        DEFAULTS,
    ),
    ("a tool that is no table", "tool = 1\n", DEFAULTS),
    (
        "sections that are no tables",
        "[tool]\ncoverage = { run = 1, report = [], paths = \"x\" }\n",
        DEFAULTS,
    ),
    (
        "every key of run",
        "[tool.coverage.run]\nbranch = true\ncontext = \"c\"\ndata_file = \"d\"\ndynamic_context = \"test_function\"\nbudget = 7\nhook = \"a:b.py:f\"\n",
        "true <c> <d> true 7 a:b.py+f 0 false  COVER  BRANCH ",
    ),
    (
        "every key of report",
        "[tool.coverage.report]\nfail_under = 7\nshow_missing = true\nomit = [\"a\", \"\"]\nexclude_lines = [\"b\"]\nexclude_also = [\"c\"]\npartial_branches = [\"d\", \"e\"]\n",
        "false <> <.coverage> false 1000000 - 7 true <a><> <b> <c> <d><e> ",
    ),
    (
        "an empty context",
        "tool.coverage.run.context = \"\"",
        DEFAULTS,
    ),
    (
        "the greatest numbers",
        "[tool.coverage]\nrun.budget = 1_000_000_000\nreport.fail_under = 100\n",
        "false <> <.coverage> false 1000000000 - 100 false  COVER  BRANCH ",
    ),
    (
        "the least numbers, with a sign",
        "[tool.coverage]\nrun.budget = -0\nreport.fail_under = +0\n",
        "false <> <.coverage> false 0 - 0 false  COVER  BRANCH ",
    ),
    (
        "a number with a plus",
        "tool.coverage.run.budget = +12",
        "false <> <.coverage> false 12 - 0 false  COVER  BRANCH ",
    ),
    (
        "lists without a text",
        "[tool.coverage.report]\nexclude_lines = []\npartial_branches = []\n",
        "false <> <.coverage> false 1000000 - 0 false     ",
    ),
    (
        "what is added leaves the default",
        "tool.coverage.report.exclude_also = [\"x\"]",
        "false <> <.coverage> false 1000000 - 0 false  COVER <x> BRANCH ",
    ),
    (
        "rules in the byte order of their names",
        "[tool.coverage.paths]\nsource = [\"src\", \"*/src\"]\nB = [\"b\"]\n",
        "false <> <.coverage> false 1000000 - 0 false  COVER  BRANCH B=<b> source=<src><*/src> ",
    ),
];

#[test]
fn good_values(rt: HostRuntime) -> Result<(), Fail> {
    for row in &GOOD {
        let alloc = rt.alloc();
        let found = read(alloc, row.1.as_bytes())?;
        let wanted = whole(alloc, row.2)?;
        assert_eq!(rt; found.as_str(), wanted.as_str(), "{}", row.0);
    }
    Ok(())
}

/// Settings of which one is bad, and its key.
static BAD: [(&str, &str); 31] = [
    ("run.branch = 1", "run.branch"),
    ("run.context = 1", "run.context"),
    ("run.data_file = []", "run.data_file"),
    ("run.data_file = \"\"", "run.data_file"),
    ("run.dynamic_context = true", "run.dynamic_context"),
    ("run.dynamic_context = \"none\"", "run.dynamic_context"),
    ("run.budget = \"1\"", "run.budget"),
    ("run.budget = 1.0", "run.budget"),
    ("run.budget = 1000000001", "run.budget"),
    ("run.budget = -1", "run.budget"),
    ("run.hook = 1", "run.hook"),
    ("run.hook = \"f\"", "run.hook"),
    ("run.hook = \":f\"", "run.hook"),
    ("run.hook = \"a.py:\"", "run.hook"),
    ("report.fail_under = \"x\"", "report.fail_under"),
    ("report.fail_under = 101", "report.fail_under"),
    ("report.fail_under = -1", "report.fail_under"),
    ("report.show_missing = \"true\"", "report.show_missing"),
    ("report.omit = \"a\"", "report.omit"),
    ("report.omit = [\"a\", 1]", "report.omit"),
    ("report.exclude_lines = 1", "report.exclude_lines"),
    ("report.exclude_also = {}", "report.exclude_also"),
    ("report.partial_branches = [[]]", "report.partial_branches"),
    ("paths.a = []", "paths.a"),
    ("paths.a = [\"x\", \"\"]", "paths.a"),
    ("paths.a = \"x\"", "paths.a"),
    ("paths.\"a.b\" = 1", "paths.a.b"),
    ("paths.b = 1\npaths.B = 2", "paths.B"),
    ("report.omit = 1\nrun.hook = 2", "run.hook"),
    (
        "paths.a = 1\nreport.partial_branches = 2",
        "report.partial_branches",
    ),
    ("run.context = 2\nrun.branch = 1", "run.branch"),
];

#[test]
fn bad_values(rt: HostRuntime) -> Result<(), Fail> {
    for row in &BAD {
        let alloc = rt.alloc();
        let text = format!(in alloc; "[tool.coverage]\n{}\n", row.0)?;
        let found = read(alloc, text.as_str().as_bytes())?;
        let wanted = format!(in alloc; "bad tool.coverage.{}", row.1)?;
        assert_eq!(rt; found.as_str(), wanted.as_str(), "{}", row.0);
    }
    Ok(())
}

/// Bytes that are no document.
static NO_DOCUMENT: [(&str, &[u8]); 3] = [
    ("no TOML", b"[tool"),
    ("a key twice", b"a = 1\na = 2\n"),
    ("bytes that are no text", b"a = \"\xff\"\n"),
];

#[test]
fn no_document(rt: HostRuntime) -> Result<(), Fail> {
    for row in &NO_DOCUMENT {
        let found = read(rt.alloc(), row.1)?;
        assert_eq!(rt; found.as_str(), "bad ", "{}", row.0);
    }
    Ok(())
}

#[test]
fn defaults(rt: HostRuntime) -> Result<(), Fail> {
    let alloc = rt.alloc();
    let config = Config::defaults(alloc)?;
    let usual = shown(alloc, &config)?;
    let empty = read(alloc, b"")?;
    assert_eq!(rt; usual.as_str(), empty.as_str());
    Ok(())
}
