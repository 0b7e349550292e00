//! Words that are a command, and words that are none.

use crate::harness::{NONE, answer_to};
use std::test::Fail;

/// Words that are refused, and how many of them begin a command.
static REFUSED: [(&str, &str, &str); 14] = [
    ("No words", "", "0"),
    ("No such command", "trace s.py", "0"),
    ("No script", "arcs", "1"),
    ("No such option", "arcs -x s.py", "1"),
    ("A budget that is no number", "arcs --budget=x s.py", "1"),
    ("A budget without its number", "arcs --budget", "2"),
    (
        "A budget that is too great",
        "arcs --budget 1000000001 s.py",
        "2",
    ),
    ("A selection without a new version", "select s.py", "2"),
    ("A mutation without a file", "mutate --budget 9", "3"),
    ("A run without a script", "run --branch", "2"),
    ("No option of a report", "report --frob", "1"),
    ("A report with an operand", "report s.py", "1"),
    ("A seed without a size", "make 1", "2"),
    ("A script without a file", "script", "1"),
];

#[test]
fn refused_words(rt: HostRuntime) -> Result<(), Fail> {
    let alloc = rt.alloc();
    for (title, words, wanted) in &REFUSED {
        let found = answer_to(alloc, *words, &[("s.py", "x = 1\n")], "", NONE)?;
        let wanted = format!(in alloc; "coverage: usage: stopped after {wanted} words\n")?;
        assert_eq!(&rt; found.status, 1, "{title}");
        assert_eq!(&rt; found.out.as_str(), "", "{title}");
        assert_eq!(&rt; found.err.as_str(), wanted.as_str(), "{title}");
    }
    Ok(())
}

const ARGUMENTS: &str = "\
import sys
for word in sys.argv: print(word)
";

const LISTED: &str = "\
s.py -1 1
s.py 1 2
s.py 2 -1
s.py 2 2
";

/// Words after the script belong to it, whatever they look like. The words, and those that the
/// script prints.
static PASSED_ON: [(&str, &str, &str); 3] = [
    ("The script alone", "arcs s.py", "s.py\n"),
    (
        "Options after the script",
        "arcs s.py --budget=0 -x",
        "s.py\n--budget=0\n-x\n",
    ),
    (
        "The command's own word after it",
        "arcs --budget 9 s.py arcs",
        "s.py\narcs\n",
    ),
];

#[test]
fn words_of_the_script(rt: HostRuntime) -> Result<(), Fail> {
    let alloc = rt.alloc();
    for (title, words, printed) in &PASSED_ON {
        let found = answer_to(alloc, *words, &[("s.py", ARGUMENTS)], "", NONE)?;
        let wanted = format!(in alloc; "{printed}{LISTED}")?;
        assert_eq!(&rt; found.status, 0, "{title}");
        assert_eq!(&rt; found.out.as_str(), wanted.as_str(), "{title}");
    }
    Ok(())
}

#[test]
fn no_such_file(rt: HostRuntime) -> Result<(), Fail> {
    let alloc = rt.alloc();
    let found = answer_to(alloc, "arcs t.py", &[("s.py", "")], "", NONE)?;
    assert_eq!(&rt; found.status, 1);
    assert_eq!(&rt; found.err.as_str(), "coverage: no file t.py\n");
    Ok(())
}
