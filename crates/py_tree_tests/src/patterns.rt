// What patterns are read from sources, row by row: the pattern with the place after it, or the
// refusal with its place.

use crate::writer::Writer;
use py_parse_pattern::read_patterns;
use py_syntax::{Brackets, Constant, Pattern};
use py_token::{LINE_LIMIT, count_lines, tokens};
use std::alloc::Global;
use std::test::Fail;

fn show_constant(out: &mut Writer, value: &Constant) {
    match value {
        Constant::Int(number) => out.number(*number),
        Constant::Str(texts) => {
            for text in texts {
                out.quoted(text.as_str());
            }
        }
        Constant::None => out.put("None"),
        Constant::Bool(is) => out.put(if *is { "true" } else { "false" }),
    }
}

fn brackets(brackets: &Brackets) -> &'static str {
    match brackets {
        Brackets::Bare => "Bare",
        Brackets::Round => "Round",
        Brackets::Square => "Square",
    }
}

/// Writes a pattern down.
#[cycle(show)]
fn show(out: &mut Writer, pattern: &Pattern) {
    match pattern {
        Pattern::Literal { minus, value } => {
            if *minus {
                out.put("-");
            }
            show_constant(out, value);
        }
        Pattern::Capture(name) => out.put(name.as_str()),
        Pattern::Wild => out.put("_"),
        Pattern::Member(of, name) => {
            out.put(of.as_str());
            out.put(".");
            out.put(name.as_str());
        }
        Pattern::Sequence {
            brackets: outer,
            items,
            comma,
        } => {
            out.put(brackets(outer));
            show_all(out, items);
            if *comma {
                out.put(",");
            }
        }
        Pattern::Or(patterns) => {
            out.put("Or");
            show_all(out, patterns);
        }
        Pattern::As(pattern, name) => {
            out.put("As[");
            show(out, pattern);
            out.put("]=");
            out.put(name.as_str());
        }
        Pattern::Paren(pattern) => {
            out.put("(");
            show(out, pattern);
            out.put(")");
        }
    }
}

#[cycle(show)]
fn show_all(out: &mut Writer, patterns: &[Pattern]) {
    out.put("[");
    for pattern in patterns {
        show(out, pattern);
        out.put(" ");
    }
    out.put("]");
}

/// What is read from the beginning of a source, written down.
fn shown(alloc: Global, source: &str) -> Result<String, Fail> {
    let mut out = Writer::new(alloc);
    if count_lines(source) > LINE_LIMIT {
        return out.done();
    }
    let Ok(tokens) = tokens(alloc, source) else {
        out.put("tokens");
        return out.done();
    };
    match read_patterns(alloc, &tokens, 0) {
        Ok(read) => {
            show(&mut out, &read.pattern);
            out.put(" @");
            out.count(read.next);
        }
        Err(error) => out.made(format!(in alloc; "{error:?}")),
    }
    out.done()
}

// A row is a source and what is read from it, with `~` between them and `^` after them.

fn rows() -> &'static str {
    "\
    a:~a @1^\
    _:~_ @1^\
    1 if x:~1 @1^\
    -1:~-1 @2^\
    - a:~Unexpected(1)^\
    -'x':~Unexpected(1)^\
    --1:~Unexpected(1)^\
    'a' 'b':~'a''b' @2^\
    f'a':~Unexpected(0)^\
    'a' f'b':~'a' @1^\
    None | True | False:~Or[None true false ] @5^\
    a.b:~a.b @3^\
    a.b.c:~a.b @3^\
    a.1:~Unexpected(2)^\
    (a):~(a) @3^\
    (a,):~Round[a ], @4^\
    (a, b):~Round[a b ] @5^\
    (a, b,):~Round[a b ], @6^\
    ():~Round[] @2^\
    (,):~Unexpected(1)^\
    []:~Square[] @2^\
    [a]:~Square[a ] @3^\
    [a, b,]:~Square[a b ], @6^\
    a, b:~Bare[a b ] @3^\
    a,:~Bare[a ], @2^\
    a, *b:~Bare[a ], @2^\
    ((a, b), [c]):~Round[Round[a b ] Square[c ] ] @11^\
    a | b as c:~As[Or[a b ]]=c @5^\
    (a as b) | c:~Or[(As[a]=b) c ] @7^\
    a as b, c:~Bare[As[a]=b c ] @5^\
    a as b as c:~As[a]=b @3^\
    a as b | c:~As[a]=b @3^\
    a as _:~Unexpected(2)^\
    a as 1:~Unexpected(2)^\
    a |:~Unexpected(2)^\
    a | | b:~Unexpected(2)^\
    (a | b]:~Unexpected(4)^\
    (a b):~Unexpected(2)^\
    [a | b, -1 as n]:~Square[Or[a b ] As[-1]=n ] @10^\
    *a:~Unexpected(0)^\
    {}:~Unexpected(0)^\
    :~Unexpected(0)\
    "
}

#[test]
fn patterns_of_sources(rt: HostRuntime) -> Result<(), Fail> {
    for row in rows().split('^') {
        if let Some((source, expected)) = row.split_once('~') {
            let found = shown(rt.alloc(), source)?;
            assert_eq!(rt; found.as_str(), expected, "{source}");
        } else {
            assert!(rt; false, "{row}");
        }
    }
    Ok(())
}

/// Where the reading of a pattern in so many brackets ends.
fn nested(alloc: Global, count: usize, middle: &str) -> Result<String, Fail> {
    let mut source = Writer::new(alloc);
    source.nest("(", count, middle, ")");
    source.put(":");
    let source = source.done()?;
    let mut out = Writer::new(alloc);
    if count_lines(source.as_str()) > LINE_LIMIT {
        return out.done();
    }
    let Ok(tokens) = tokens(alloc, source.as_str()) else {
        return out.done();
    };
    match read_patterns(alloc, &tokens, 0) {
        Ok(read) => {
            out.put("@");
            out.count(read.next);
        }
        Err(error) => out.made(format!(in alloc; "{error:?}")),
    }
    out.done()
}

#[test]
fn deep_patterns(rt: HostRuntime) -> Result<(), Fail> {
    assert_eq!(rt; nested(rt.alloc(), 200, "")?.as_str(), "@400");
    assert_eq!(rt; nested(rt.alloc(), 199, "a")?.as_str(), "@399");
    assert_eq!(rt; nested(rt.alloc(), 200, "a")?.as_str(), "TooDeep(200)");
    assert_eq!(rt; nested(rt.alloc(), 201, "")?.as_str(), "TooDeep(200)");
    assert_eq!(rt; nested(rt.alloc(), 198, "a | b")?.as_str(), "@399");
    assert_eq!(rt; nested(rt.alloc(), 199, "a | b")?.as_str(), "TooDeep(200)");
    assert_eq!(rt; nested(rt.alloc(), 200, "1 |")?.as_str(), "TooDeep(200)");
    assert_eq!(rt; nested(rt.alloc(), 50000, "a")?.as_str(), "TooDeep(200)");
    Ok(())
}
