// Which fields of f-strings are expressions, row by row.

use py_grammar::ReadError;
use py_parse_expr::{ExprPart, read_expr};
use py_token::{LINE_LIMIT, TokenKind, count_lines, tokens};
use std::alloc::Global;
use std::test::Fail;

/// What is told of the f-string that a source begins with.
fn told(alloc: Global, source: &str) -> Result<&'static str, Fail> {
    if count_lines(source) > LINE_LIMIT {
        return Ok("lines");
    }
    let Ok(tokens) = tokens(alloc, source) else {
        return Ok("tokens");
    };
    if tokens.is_empty() {
        return Ok("nothing");
    }
    match &tokens[0].kind {
        TokenKind::FString(_) => match read_expr(alloc, &tokens, 0, ExprPart::Any) {
            Ok(read) => {
                drop(read);
                Ok("yes")
            }
            Err(ReadError::Unexpected(_)) => Ok("no"),
            Err(ReadError::TooDeep(_)) => Ok("too deep"),
            Err(ReadError::NoMemory) => Ok("memory"),
        },
        _ => Ok("another token"),
    }
}

// A row is an f-string and whether its fields are expressions, with `~` between them and `^` after
// them.

fn rows() -> &'static str {
    "\
    f''~yes^\
    f'a'~yes^\
    f'{}'~no^\
    f'a{b}c{d, e}'~yes^\
    f'{a}{b c}'~no^\
    f'{a if b else c if d else e}'~yes^\
    f'{a if b}'~no^\
    f'{a if b if c else d else e}'~no^\
    f'{not a == b}'~yes^\
    f'{a == not b}'~no^\
    f'{a not in b is not None}'~yes^\
    f'{a not b}'~no^\
    f'{a is b}'~no^\
    f'{a is None + b}'~no^\
    f'{-a.b(c, d,)[e:][:]}'~yes^\
    f'{a[:b:c]}'~no^\
    f'{ {a: b, c: d,}[e,] }'~yes^\
    f'{ {a, b} }'~no^\
    f'{()}{(,)}'~no^\
    f'{(]}'~no\
    "
}

#[test]
fn fields_of_sources(rt: HostRuntime) -> Result<(), Fail> {
    for row in rows().split('^') {
        if let Some((source, expected)) = row.split_once('~') {
            assert_eq!(rt; told(rt.alloc(), source)?, expected, "{source}");
        } else {
            assert!(rt; false, "{row}");
        }
    }
    Ok(())
}
