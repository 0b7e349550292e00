// Where the reading of expressions ends at the limit on their height.

use crate::writer::Writer;
use py_parse_expr::{ExprPart, read_expr};
use py_token::{LINE_LIMIT, Piece, Token, TokenKind, count_lines, tokens};
use std::alloc::Global;
use std::test::Fail;

/// Where the reading of tokens ends.
fn outcome(alloc: Global, tokens: &[Token], part: ExprPart) -> Result<String, Fail> {
    let mut out = Writer::new(alloc);
    match read_expr(alloc, tokens, 0, part) {
        Ok(read) => {
            out.put("@");
            out.count(read.next);
        }
        Err(error) => out.made(format!(in alloc; "{error:?}")),
    }
    out.done()
}

/// Where the reading of a source ends.
fn ends(alloc: Global, source: &str, part: ExprPart) -> Result<String, Fail> {
    if count_lines(source) > LINE_LIMIT {
        return Ok(String::new(alloc));
    }
    let Ok(tokens) = tokens(alloc, source) else {
        return Ok(String::new(alloc));
    };
    outcome(alloc, &tokens, part)
}

/// Openings, a middle and as many closings, read as a part of the grammar, and where that ends.
struct Nest {
    title: &'static str,
    count: usize,
    open: &'static str,
    middle: &'static str,
    close: &'static str,
    part: ExprPart,
    wanted: &'static str,
}

/// Where the reading of a nest ends.
fn nested(alloc: Global, nest: &Nest) -> Result<String, Fail> {
    let mut source = Writer::new(alloc);
    source.nest(nest.open, nest.count, nest.middle, nest.close);
    ends(alloc, source.done()?.as_str(), nest.part)
}

/// Where the reading of an f-string ends that has a field with so many round brackets.
fn nested_field(alloc: Global, count: usize, middle: &str) -> Result<String, Fail> {
    let mut source = Writer::new(alloc);
    source.put("f'{");
    source.nest("(", count, middle, ")");
    source.put("}'");
    ends(alloc, source.done()?.as_str(), ExprPart::Any)
}

/// Where the reading of a source ends that stands in so many f-strings inside each other.
fn nested_strings(alloc: Global, count: usize, source: &str) -> Result<String, Fail> {
    if count_lines(source) > LINE_LIMIT {
        return Ok(String::new(alloc));
    }
    let Ok(mut tokens) = tokens(alloc, source) else {
        return Ok(String::new(alloc));
    };
    tokens.pop();
    tokens.pop();
    for _ in 0..count {
        let mut pieces = Vec::new(alloc);
        pieces.push(Piece::Field(tokens))?;
        tokens = Vec::new(alloc);
        tokens.push(Token {
            kind: TokenKind::FString(pieces),
            first: 1,
            last: 1,
        })?;
    }
    tokens.push(Token {
        kind: TokenKind::End,
        first: 1,
        last: 1,
    })?;
    outcome(alloc, &tokens, ExprPart::Any)
}

static EXPRESSIONS: [Nest; 15] = [
    Nest {
        title: "Brackets around nothing at the limit",
        count: 200,
        open: "(",
        middle: "",
        close: ")",
        part: ExprPart::Any,
        wanted: "@400",
    },
    Nest {
        title: "Brackets around a number at the limit",
        count: 199,
        open: "(",
        middle: "0",
        close: ")",
        part: ExprPart::Any,
        wanted: "@399",
    },
    Nest {
        title: "Brackets around a number past it",
        count: 200,
        open: "(",
        middle: "0",
        close: ")",
        part: ExprPart::Any,
        wanted: "TooDeep(200)",
    },
    Nest {
        title: "Brackets around what is no expression",
        count: 200,
        open: "(",
        middle: "=",
        close: ")",
        part: ExprPart::Any,
        wanted: "Unexpected(200)",
    },
    Nest {
        title: "Brackets around nothing past the limit",
        count: 201,
        open: "(",
        middle: "",
        close: ")",
        part: ExprPart::Any,
        wanted: "TooDeep(200)",
    },
    Nest {
        title: "Brackets around a sum at the limit",
        count: 198,
        open: "(",
        middle: "a + b",
        close: ")",
        part: ExprPart::Any,
        wanted: "@399",
    },
    Nest {
        title: "Brackets around a sum past it",
        count: 199,
        open: "(",
        middle: "a + b",
        close: ")",
        part: ExprPart::Any,
        wanted: "TooDeep(200)",
    },
    Nest {
        title: "Brackets around two names without an operator",
        count: 199,
        open: "(",
        middle: "a b",
        close: ")",
        part: ExprPart::Any,
        wanted: "Unexpected(200)",
    },
    Nest {
        title: "Brackets around a tuple at the limit",
        count: 198,
        open: "(",
        middle: "a, b",
        close: ")",
        part: ExprPart::Any,
        wanted: "@399",
    },
    Nest {
        title: "Brackets around a tuple past it",
        count: 199,
        open: "(",
        middle: "a, b",
        close: ")",
        part: ExprPart::Any,
        wanted: "TooDeep(200)",
    },
    Nest {
        title: "Calls inside each other at the limit",
        count: 199,
        open: "f(",
        middle: "",
        close: ")",
        part: ExprPart::Any,
        wanted: "@597",
    },
    Nest {
        title: "Calls inside each other past it",
        count: 200,
        open: "f(",
        middle: "",
        close: ")",
        part: ExprPart::Any,
        wanted: "TooDeep(399)",
    },
    Nest {
        title: "Targets with items inside each other",
        count: 198,
        open: "(",
        middle: "1",
        close: ")[x]",
        part: ExprPart::Target,
        wanted: "TooDeep(204)",
    },
    Nest {
        title: "Fewer of them",
        count: 100,
        open: "(",
        middle: "1",
        close: ")[x]",
        part: ExprPart::Target,
        wanted: "TooDeep(498)",
    },
    Nest {
        title: "Half a million brackets",
        count: 500_000,
        open: "(",
        middle: "0",
        close: ")",
        part: ExprPart::Any,
        wanted: "TooDeep(200)",
    },
];

#[test]
fn deep_expressions(rt: HostRuntime) -> Result<(), Fail> {
    for row in &EXPRESSIONS {
        let found = nested(rt.alloc(), row)?;
        assert_eq!(rt; found.as_str(), row.wanted, "{}", row.title);
    }
    Ok(())
}

static STRINGS: [Nest; 5] = [
    Nest {
        title: "A string without a field at the limit",
        count: 199,
        open: "(",
        middle: "f'a'",
        close: ")",
        part: ExprPart::Any,
        wanted: "@399",
    },
    Nest {
        title: "A field at the limit",
        count: 198,
        open: "(",
        middle: "f'{a}'",
        close: ")",
        part: ExprPart::Any,
        wanted: "@397",
    },
    Nest {
        title: "A field past it",
        count: 199,
        open: "(",
        middle: "f'{a}'",
        close: ")",
        part: ExprPart::Any,
        wanted: "TooDeep(199)",
    },
    Nest {
        title: "A field that is no expression, past it",
        count: 199,
        open: "(",
        middle: "f'{a b}'",
        close: ")",
        part: ExprPart::Any,
        wanted: "Unexpected(199)",
    },
    Nest {
        title: "A string without a field past it",
        count: 200,
        open: "(",
        middle: "f'a'",
        close: ")",
        part: ExprPart::Any,
        wanted: "TooDeep(200)",
    },
];

#[test]
fn deep_strings(rt: HostRuntime) -> Result<(), Fail> {
    for row in &STRINGS {
        let found = nested(rt.alloc(), row)?;
        assert_eq!(rt; found.as_str(), row.wanted, "{}", row.title);
    }
    Ok(())
}

/// So many brackets in a field, what stands in them, and where the reading ends.
static FIELDS: [(&str, usize, &str, &str); 4] = [
    ("A name at the limit", 198, "a", "@1"),
    ("A name past it", 199, "a", "TooDeep(0)"),
    ("A name far past it", 300, "a", "TooDeep(0)"),
    ("No expression, far past it", 300, "a b", "Unexpected(0)"),
];

#[test]
fn deep_fields(rt: HostRuntime) -> Result<(), Fail> {
    for (title, count, middle, wanted) in &FIELDS {
        let found = nested_field(rt.alloc(), *count, middle)?;
        assert_eq!(rt; found.as_str(), *wanted, "{title}");
    }
    Ok(())
}

/// So many f-strings inside each other, what stands in them, and where the reading ends.
static NESTED_STRINGS: [(&str, usize, &str, &str); 4] = [
    ("A name at the limit", 199, "a", "@1"),
    ("A name past it", 200, "a", "TooDeep(0)"),
    ("A name far past it", 1000, "a", "TooDeep(0)"),
    ("No expression, far past it", 1000, "a b", "Unexpected(0)"),
];

#[test]
fn strings_inside_each_other(rt: HostRuntime) -> Result<(), Fail> {
    for (title, count, middle, wanted) in &NESTED_STRINGS {
        let found = nested_strings(rt.alloc(), *count, middle)?;
        assert_eq!(rt; found.as_str(), *wanted, "{title}");
    }
    Ok(())
}
