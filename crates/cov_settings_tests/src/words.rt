//! Rows of the words of a command.
use cov_words::{WordsError, read_words};
use std::alloc::Global;
use std::test::Fail;

/// The words of a line, cut at each blank. No word is empty but where two blanks meet.
fn words_of(alloc: Global, line: &str) -> Result<Vec<String>, Fail> {
    let mut words = Vec::new(alloc);
    if line.is_empty() {
        return Ok(words);
    }
    for word in line.split(' ') {
        words.push(String::from_str(alloc, word)?)?;
    }
    Ok(words)
}

/// The command of a line with its fields, or how many words begin one.
fn shown(alloc: Global, line: &str) -> Result<String, Fail> {
    let words = words_of(alloc, line)?;
    match read_words(alloc, words.as_slice()) {
        Ok(command) => Ok(format!(in alloc; "{command:?}")?),
        Err(WordsError::Usage(count)) => Ok(format!(in alloc; "Usage({count})")?),
        Err(WordsError::NoMemory) => Ok(String::from_str(alloc, "no memory")?),
    }
}

/// Words that are no command, and how many of them begin one.
static NO_COMMAND: [(&str, &str); 36] = [
    ("", "Usage(0)"),
    ("frob", "Usage(0)"),
    ("arcs", "Usage(1)"),
    ("run --branch", "Usage(2)"),
    ("report --frob", "Usage(1)"),
    ("make 1", "Usage(2)"),
    ("make 1 2 3", "Usage(3)"),
    ("make x 2", "Usage(1)"),
    ("make 1 16001", "Usage(2)"),
    ("make 12345678901 1", "Usage(1)"),
    ("make +1 1", "Usage(1)"),
    ("run --branch --branch a.py", "Usage(2)"),
    ("combine -a --append", "Usage(2)"),
    ("report -m --show-missing", "Usage(2)"),
    ("arcs --branch a.py", "Usage(1)"),
    ("arcs --budget", "Usage(2)"),
    ("arcs --budget x a.py", "Usage(2)"),
    ("arcs --budget 1000000001 a.py", "Usage(2)"),
    ("arcs --budget=x a.py", "Usage(1)"),
    ("report --fail-under 101", "Usage(2)"),
    ("report a.py", "Usage(1)"),
    ("erase a", "Usage(1)"),
    ("annotate", "Usage(1)"),
    ("annotate a.py b.py", "Usage(2)"),
    ("annotate -x", "Usage(1)"),
    ("select a", "Usage(2)"),
    ("select a b c", "Usage(3)"),
    ("json -o", "Usage(2)"),
    ("json -o=x", "Usage(1)"),
    ("run --hook a.py a.py", "Usage(2)"),
    ("run --hook=:f a.py", "Usage(1)"),
    ("run --append=1 a.py", "Usage(1)"),
    ("combine a --keep", "Usage(2)"),
    ("script", "Usage(1)"),
    ("suite --append a.py", "Usage(1)"),
    ("Arcs a.py", "Usage(0)"),
];

/// Words that are a command, with its fields.
static COMMANDS: [(&str, &str); 17] = [
    (
        "arcs a.py",
        "Arcs { budget: None, script: \"a.py\", args: [] }",
    ),
    (
        "arcs --budget 0 a.py --budget -x",
        "Arcs { budget: Some(0), script: \"a.py\", args: [\"--budget\", \"-x\"] }",
    ),
    (
        "arcs --budget=0001000000 a.py",
        "Arcs { budget: Some(1000000), script: \"a.py\", args: [] }",
    ),
    (
        "run a.py --branch",
        "Run { branch: false, append: false, context: None, budget: None, hook: None, data_file: None, rcfile: None, script: \"a.py\", args: [\"--branch\"] }",
    ),
    (
        "run -a --context --branch --branch --hook a:b:c --rcfile= a.py",
        "Run { branch: true, append: true, context: Some(\"--branch\"), budget: None, hook: Some((\"a:b\", \"c\")), data_file: None, rcfile: Some(\"\"), script: \"a.py\", args: [] }",
    ),
    (
        "combine",
        "Combine { append: false, keep: false, data_file: None, rcfile: None, names: [] }",
    ),
    (
        "combine --keep --data-file=d=e x y",
        "Combine { append: false, keep: true, data_file: Some(\"d=e\"), rcfile: None, names: [\"x\", \"y\"] }",
    ),
    (
        "report -m --fail-under 100",
        "Report { show_missing: true, fail_under: Some(100), data_file: None, rcfile: None }",
    ),
    (
        "json -o - --fail-under=0",
        "Json { name: Some(\"-\"), fail_under: Some(0), data_file: None, rcfile: None }",
    ),
    (
        "lcov",
        "Lcov { name: None, fail_under: None, data_file: None, rcfile: None }",
    ),
    (
        "annotate --data-file D a.py",
        "Annotate { data_file: Some(\"D\"), rcfile: None, file: \"a.py\" }",
    ),
    (
        "erase --rcfile r",
        "Erase { data_file: None, rcfile: Some(\"r\") }",
    ),
    ("script s.txt", "Script { file: \"s.txt\" }"),
    (
        "make 9999999999 16000",
        "Make { seed: 9999999999, size: 16000 }",
    ),
    (
        "suite --branch t.py",
        "Suite { branch: true, budget: None, data_file: None, rcfile: None, file: \"t.py\" }",
    ),
    (
        "select --budget 5 a b",
        "Select { budget: Some(5), old: \"a\", new: \"b\" }",
    ),
    ("mutate m.py", "Mutate { budget: None, file: \"m.py\" }"),
];

#[test]
fn words_that_are_no_command(rt: HostRuntime) -> Result<(), Fail> {
    for row in &NO_COMMAND {
        let found = shown(rt.alloc(), row.0)?;
        assert_eq!(rt; found.as_str(), row.1, "{}", row.0);
    }
    Ok(())
}

#[test]
fn words_that_are_a_command(rt: HostRuntime) -> Result<(), Fail> {
    for row in &COMMANDS {
        let found = shown(rt.alloc(), row.0)?;
        assert_eq!(rt; found.as_str(), row.1, "{}", row.0);
    }
    Ok(())
}
