// What sources spell, row by row: each token, with its lines where they aren't the first, or the
// fault.

use crate::writer::Writer;
use py_token::{LINE_LIMIT, Piece, Token, TokenKind, count_lines, tokens};
use std::alloc::Global;
use std::test::Fail;

/// Writes tokens down, each with its lines where they aren't the first.
#[cycle(show)]
fn show_tokens(out: &mut Writer, tokens: &[Token]) {
    for token in tokens {
        out.put(" ");
        show_kind(out, &token.kind);
        if token.first != token.last {
            out.put("@");
            out.number(i64::from(token.first));
            out.put("-");
            out.number(i64::from(token.last));
        } else if token.last != 1 {
            out.put("@");
            out.number(i64::from(token.last));
        }
    }
}

#[cycle(show)]
fn show_kind(out: &mut Writer, kind: &TokenKind) {
    match kind {
        TokenKind::Name(text) => out.put(text.as_str()),
        TokenKind::Keyword(keyword) => out.keyword(*keyword),
        TokenKind::Int(value) => out.number(*value),
        TokenKind::Str(text) => {
            out.quoted(text.as_str());
        }
        TokenKind::FString(pieces) => {
            out.put("f[");
            show_pieces(out, pieces);
            out.put("]");
        }
        TokenKind::Mark(mark) => out.mark(*mark),
        TokenKind::Newline => out.put("NL"),
        TokenKind::Indent => out.put("IN"),
        TokenKind::Dedent => out.put("DE"),
        TokenKind::End => out.put("END"),
    }
}

#[cycle(show)]
fn show_pieces(out: &mut Writer, pieces: &[Piece]) {
    for piece in pieces {
        match piece {
            Piece::Chars(text) => {
                out.put("<");
                out.put(text.as_str());
                out.put(">");
            }
            Piece::Field(tokens) => {
                out.put("{");
                show_tokens(out, tokens);
                out.put(" }");
            }
        }
    }
}

/// The tokens of a source, or its fault, written down.
fn shown(alloc: Global, source: &str) -> Result<String, Fail> {
    let mut out = Writer::new(alloc);
    if count_lines(source) > LINE_LIMIT {
        return out.done();
    }
    match tokens(alloc, source) {
        Ok(tokens) => show_tokens(&mut out, &tokens),
        Err(error) => out.made(format!(in alloc; "{error:?}")),
    }
    out.done()
}

// A row is a source and what it spells, with `~` between them and `^` after them.

/// Refused sources, empty lines and characters that no rule takes.
fn refused_and_plain_lines() -> &'static str {
    "\
    if 1:\n    x = 1\n  y = 2\n~BadIndent(3)^\
    x = (1~OpenBracket(1)^\
    x = \"a~OpenString(1)^\
    f\"{x!r}\"~BadCharacter(1)^\
    f\"{x\"~BadCharacter(1)^\
    f\"}\"~BadCharacter(1)^\
    f\"{}\"~\x20f[{ }] NL END^\
    f\"{x:>5}\"~\x20f[{ x Colon Greater 5 }] NL END^\
    rf\"{x}\"~\x20rf '{x}' NL END^\
    f\"{x~OpenString(1)^\
    x\n\u{fffd}~BadCharacter(2)^\
    ~\x20END^\
    \n\n\n~\x20END@3^\
    # only\n   # this\n~\x20END@2^\
    x~\x20x NL END^\
    \u{feff}x\r\ny\r\n~\x20x NL y@2 NL@2 END@2^\
    x\u{feff}~BadCharacter(1)^\
    x\ry~BadCharacter(1)^\
    # a\rb~BadCharacter(1)^\
    'a\rb'~BadCharacter(1)^\
    x \x0c y~BadCharacter(1)^\
    '\x0c' # \x0c~\x20'\x0c' NL END^\
    x ; y\n~\x20x Semicolon y NL END^\
    \u{e9}~BadCharacter(1)^\
    x $~BadCharacter(1)\
    "
}

/// Joined lines, brackets and indentation.
fn joined_lines_and_blocks() -> &'static str {
    "\
    x = \\\n 1\n~\x20x Equal 1@2 NL@2 END@2^\
    x = \\\n~\x20x Equal NL END^\
    x \\ y~BadCharacter(1)^\
    x \\~BadCharacter(1)^\
    \x20 \\\n\nx\n~\x20x@3 NL@3 END@3^\
    if 1:\n  \\\n   x\n  y\n~\x20If 1 Colon NL IN@3 x@3 NL@3 y@4 NL@4 DE@4 END@4^\
    f(1,\n  2)\nx\n~\x20f LeftParen 1 Comma 2@2 RightParen@2 NL@2 x@3 NL@3 END@3^\
    [1, # one\n\n 2]~\x20LeftBracket 1 Comma 2@3 RightBracket@3 NL@3 END@3^\
    (]~\x20LeftParen RightBracket NL END^\
    )\n(~OpenBracket(2)^\
    (\n[\n)~OpenBracket(1)^\
    {\n(~OpenBracket(2)^\
    if x:\n  y\nz\n~\x20If x Colon NL IN@2 y@2 NL@2 DE@3 z@3 NL@3 END@3^\
    a\n  b\n    c\n~\x20a NL IN@2 b@2 NL@2 IN@3 c@3 NL@3 DE@3 DE@3 END@3^\
    a\n \tb\n \tc\n d\n~BadIndent(4)^\
    a\n\tb\n  c\n~BadIndent(3)^\
    a\n  b\n    c\n  d\ne~\x20a NL IN@2 b@2 NL@2 IN@3 c@3 NL@3 DE@4 d@4 NL@4 DE@5 e@5 NL@5 END@5^\
    a\n  b\n $~BadIndent(3)^\
    \x20 x\n~\x20IN x NL DE END^\
    a\n  b\n # c\n  d\n~\x20a NL IN@2 b@2 NL@2 d@4 NL@4 DE@4 END@4\
    "
}

/// Operators, names and keywords.
fn marks_and_words() -> &'static str {
    "\
    a//=b//c/ d~BadCharacter(1)^\
    a//=b//c~\x20a DoubleSlashEqual b DoubleSlash c NL END^\
    == != <= >= += -= *= %=~\x20EqualEqual NotEqual LessEqual GreaterEqual PlusEqual MinusEqual StarEqual PercentEqual NL END^\
    ===~\x20EqualEqual Equal NL END^\
    +-*%<>=.:,|~\x20Plus Minus Star Percent Less GreaterEqual Dot Colon Comma Bar NL END^\
    {}[]();~\x20LeftBrace RightBrace LeftBracket RightBracket LeftParen RightParen Semicolon NL END^\
    a ! b~BadCharacter(1)^\
    **~\x20Star Star NL END^\
    None nonlocal notx match case _ __a1~\x20None Nonlocal notx match case _ __a1 NL END^\
    False True and as assert async await break class continue def del elif else except finally for from global if import in is lambda not or pass raise return try while with yield~\x20False True And As Assert Async Await Break Class Continue Def Del Elif Else Except Finally For From Global If Import In Is Lambda Not Or Pass Raise Return Try While With Yield NL END\
    "
}

/// Numbers.
fn numbers() -> &'static str {
    "\
    0 00 0_0 1_000 10~\x200 0 0 1000 10 NL END^\
    0x_1 0XfF 0o17 0O7 0b101 0B1~\x201 255 15 7 5 1 NL END^\
    01~BadCharacter(1)^\
    1__0~BadCharacter(1)^\
    1_~BadCharacter(1)^\
    0b2~BadCharacter(1)^\
    0x~BadCharacter(1)^\
    0x_~BadCharacter(1)^\
    0o8~BadCharacter(1)^\
    1.5~BadCharacter(1)^\
    1a~BadCharacter(1)^\
    0_1~BadCharacter(1)^\
    1e5~BadCharacter(1)^\
    0xg~BadCharacter(1)^\
    9223372036854775808x~BadCharacter(1)^\
    9223372036854775807~\x209223372036854775807 NL END^\
    9223372036854775808~WideNumber(1)^\
    \n0x8000_0000_0000_0000~WideNumber(2)^\
    99999999999999999999999999~WideNumber(1)\
    "
}

/// Strings.
fn strings() -> &'static str {
    "\
    '' \"\" 'a' \"b'c\"~\x20'' '' 'a' 'b'c' NL END^\
    '''a\n'b''' x~\x20'a\n'b'@1-2 x@2 NL@2 END@2^\
    \"\"\"a\"~OpenString(1)^\
    x = '''a\n\nb~OpenString(1)^\
    x\n'a\n'~OpenString(2)^\
    '\\\\\\'\\\"\\a\\b\\f\\n\\r\\t\\v\\0\\101\\400\\18'~\x20'\\'\"\x07\x08\x0c\n\r\t\x0b\0A\u{100}\x018' NL END^\
    '\\x41\\u00e9\\U0001F600\\q'~\x20'A\u{e9}\u{1f600}\\q' NL END^\
    'a\\\nb'~\x20'ab'@1-2 NL@2 END@2^\
    'a\\\r\nb'~\x20'ab'@1-2 NL@2 END@2^\
    '\\x4'~BadCharacter(1)^\
    '\\u12'~BadCharacter(1)^\
    '\\ud800'~BadCharacter(1)^\
    '\\U00110000'~BadCharacter(1)^\
    '\\N{DASH}'~BadCharacter(1)^\
    '\\xg1'~BadCharacter(1)^\
    '''a\n\\xq'''~BadCharacter(2)^\
    '\\~OpenString(1)^\
    r'\\n\\'' R'\\x'~\x20'\\n\\'' '\\x' NL END^\
    r'a\\\nb'~\x20'a\\\nb'@1-2 NL@2 END@2^\
    'a' 'b'~\x20'a' 'b' NL END^\
    b'a'~\x20b 'a' NL END\
    "
}

/// F-strings and their fields.
fn fstrings() -> &'static str {
    "\
    f\"\" F'a'~\x20f[] f[<a>] NL END^\
    f\"{x}+{x + 1}={{{x * 2 + 1}}}\"~\x20f[{ x }<+>{ x Plus 1 }<={>{ x Star 2 Plus 1 }<}>] NL END^\
    f\"{d['k'][{1: 2}]}\"~\x20f[{ d LeftBracket 'k' RightBracket LeftBracket LeftBrace 1 Colon 2 RightBrace RightBracket }] NL END^\
    f'''a\n{x}\\x41\n'''~\x20f[<a\n>{ x@2 }<A\n>]@1-3 NL@3 END@3^\
    f'a\\\n{x}'~\x20f[<a>{ x@2 }]@1-2 NL@2 END@2^\
    f\"{f'a'}\"~BadCharacter(1)^\
    f\"{'a\\n'}\"~BadCharacter(1)^\
    f\"{'#'}\"~BadCharacter(1)^\
    f\"{'a\"b'}\"~BadCharacter(1)^\
    f\"{x\n}\"~OpenString(1)^\
    f\"{'a\n'}\"~OpenString(1)^\
    f'''{x\n}'''~BadCharacter(1)^\
    \nf'''\n{\"a~OpenString(2)^\
    f'''\n{!~BadCharacter(2)^\
    f\"{9223372036854775808}\"~WideNumber(1)^\
    f\"{(}\"}\"~BadCharacter(1)^\
    f\"{ (} } \"~\x20f[{ LeftParen RightBrace }< >] NL END^\
    f\"a~OpenString(1)^\
    f'''{''}'''~\x20f[{ '' }] NL END^\
    f\"\"\"{\"\"}\"\"\"~\x20f[{ '' }] NL END^\
    f\"\"\"{\"a\"\"\"}~BadCharacter(1)^\
    f\"\\{x}\"~\x20f[<\\>{ x }] NL END\
    "
}

#[test]
fn sources_and_what_they_spell(rt: HostRuntime) -> Result<(), Fail> {
    let tables = [
        refused_and_plain_lines(),
        joined_lines_and_blocks(),
        marks_and_words(),
        numbers(),
        strings(),
        fstrings(),
    ];
    for table in tables {
        for row in table.split('^') {
            if let Some((source, expected)) = row.split_once('~') {
                let found = shown(rt.alloc(), source)?;
                assert_eq!(rt; found.as_str(), expected, "{source}");
            } else {
                assert!(rt; false, "{row}");
            }
        }
    }
    Ok(())
}

/// Lines without a token, as many as a source may have, and one more.
#[test]
fn many_lines(rt: HostRuntime) -> Result<(), Fail> {
    let mut source = Writer::new(rt.alloc());
    source.nest("\n", 65535, "", "");
    let mut source = source.done()?;
    assert_eq!(rt; count_lines(source.as_str()), 65535);
    assert_eq!(rt; shown(rt.alloc(), source.as_str())?.as_str(), " END@65535");
    source.push('\n')?;
    assert_eq!(rt; count_lines(source.as_str()), 65536);
    Ok(())
}

/// Three lines of a mebibyte: names, a string, and an f-string of many fields.
#[test]
fn long_lines(rt: HostRuntime) -> Result<(), Fail> {
    let mut source = Writer::new(rt.alloc());
    source.nest("name , ", 40000, "\n'", "");
    source.nest("abc", 100000, "'\nf'", "");
    source.nest("{a}{ }", 60000, "'", "");
    let source = source.done()?;
    if count_lines(source.as_str()) > LINE_LIMIT {
        return Ok(());
    }
    match tokens(rt.alloc(), source.as_str()) {
        Ok(tokens) => assert_eq!(rt; tokens.len(), 80006),
        Err(error) => assert!(rt; false, "{error:?}"),
    }
    Ok(())
}
