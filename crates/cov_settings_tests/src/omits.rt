//! Rows of omit patterns.
use cov_config::is_omitted;
use std::alloc::Global;
use std::test::Fail;

/// Titles, each with a pattern, a path and whether the pattern omits the path.
static ROWS: [(&str, &str, &str, bool); 45] = [
    ("A name and the same name", "a.py", "a.py", true),
    ("A name and another name", "a.py", "b.py", false),
    (
        "A name and a path that ends in it",
        "a.py",
        "src/a.py",
        false,
    ),
    ("A name and a longer name", "a.py", "a.pyc", false),
    ("A name and an empty path", "a.py", "", false),
    ("An empty pattern and an empty path", "", "", true),
    ("An empty pattern and a name", "", "a", false),
    ("A star at the end, for no character", "a*", "a", true),
    ("A star at the end, for two characters", "a*", "abc", true),
    ("A star alone and a name", "*", "a.py", true),
    (
        "A star alone and a path of two parts",
        "*",
        "src/a.py",
        false,
    ),
    ("A star before an ending", "*.py", "a.py", true),
    (
        "A star before an ending, and a path of two parts",
        "*.py",
        "src/a.py",
        false,
    ),
    ("Two stars in a name", "a*c*e", "abcde", true),
    (
        "Two stars in a name, for no character",
        "a*c*e",
        "ace",
        true,
    ),
    (
        "Two stars in a name of another order",
        "a*c*e",
        "aec",
        false,
    ),
    ("A star is no slash", "a*b", "a/b", false),
    ("Two stars within a part are one", "**b", "ab", true),
    ("A question mark for a character", "a?c", "abc", true),
    ("A question mark for no character", "a?c", "ac", false),
    ("A question mark is no slash", "a?c", "a/c", false),
    (
        "A question mark for a character of two bytes",
        "?",
        "é",
        true,
    ),
    (
        "Two question marks for a character of two bytes",
        "??",
        "é",
        false,
    ),
    (
        "A star after a folder and a file there",
        "src/*",
        "src/a.py",
        true,
    ),
    (
        "A star after a folder and a file further down",
        "src/*",
        "src/b/a.py",
        true,
    ),
    (
        "A star after a folder and the folder itself",
        "src/*",
        "src",
        true,
    ),
    (
        "A star after a folder that is not the first",
        "src/*",
        "lib/src/a.py",
        false,
    ),
    (
        "A star before a name and the name alone",
        "*/a.py",
        "a.py",
        true,
    ),
    (
        "A star before a name and a path that ends in it",
        "*/a.py",
        "x/y/a.py",
        true,
    ),
    (
        "A star before a name and a longer name",
        "*/a.py",
        "x/ya.py",
        false,
    ),
    ("Two parts of stars and a name", "*/*", "a", true),
    ("A star for a part within", "a/*/b", "a/x/b", true),
    ("A star for no part within", "a/*/b", "a/b", false),
    ("A star for two parts within", "a/*/b", "a/x/y/b", false),
    ("Two stars for no part within", "a/**/b", "a/b", true),
    ("Two stars for two parts within", "a/**/b", "a/x/y/b", true),
    ("Two stars within and another end", "a/**/b", "a/x/y", false),
    ("Two stars alone", "**", "any/path/of.py", true),
    (
        "Two stars around a part that is there",
        "**/b/**",
        "a/b",
        true,
    ),
    (
        "Two stars around a part that is missing",
        "**/b/**",
        "a/c",
        false,
    ),
    (
        "A slash in front of pattern and path",
        "/**/b",
        "/a/b",
        true,
    ),
    (
        "A slash in front of the pattern alone",
        "/**/b",
        "a/b",
        false,
    ),
    ("A backslash in both", "a\\b", "a\\b", true),
    ("Two slashes for one", "a//b", "a/b", false),
    ("A bracket is a character", "[a]", "a", false),
];

/// Whether one pattern omits a path.
fn omits(alloc: Global, pattern: &str, path: &str) -> Result<bool, Fail> {
    let mut patterns = Vec::new(alloc);
    patterns.push(String::from_str(alloc, pattern)?)?;
    Ok(is_omitted(alloc, patterns.as_slice(), path)?)
}

#[test]
fn patterns_and_paths(rt: HostRuntime) -> Result<(), Fail> {
    for (title, pattern, path, omitted) in &ROWS {
        let found = omits(rt.alloc(), *pattern, *path)?;
        assert_eq!(rt; found, *omitted, "{title}");
    }
    Ok(())
}

#[test]
fn several_patterns(rt: HostRuntime) -> Result<(), Fail> {
    let alloc = rt.alloc();
    let mut patterns = Vec::new(alloc);
    assert!(rt;
        !is_omitted(alloc, patterns.as_slice(), "a.py")?,
        "no pattern"
    );
    patterns.push(String::from_str(alloc, "b.py")?)?;
    patterns.push(String::from_str(alloc, "*/a.py")?)?;
    assert!(rt;
        is_omitted(alloc, patterns.as_slice(), "a.py")?,
        "the second"
    );
    assert!(rt; !is_omitted(alloc, patterns.as_slice(), "c.py")?, "neither");
    Ok(())
}
