// What expressions are read from sources, row by row: the expression with the place after it, or
// the refusal with its place.

use crate::writer::Writer;
use py_operator::{BinOp, CmpOp};
use py_parse_expr::{ExprPart, parse_expr, read_expr};
use py_syntax::{Comparison, Expr, FormatPart, Fragment, Sign};
use py_token::{LINE_LIMIT, Token, count_lines, tokens};
use std::alloc::Global;
use std::test::Fail;

fn operator(op: BinOp) -> &'static str {
    match op {
        BinOp::Add => "+",
        BinOp::Sub => "-",
        BinOp::Mul => "*",
        BinOp::Floor => "//",
        BinOp::Mod => "%",
    }
}

fn comparison(op: Comparison) -> &'static str {
    match op {
        Comparison::Is => "is",
        Comparison::IsNot => "is not",
        Comparison::Op(CmpOp::Eq) => "==",
        Comparison::Op(CmpOp::Ne) => "!=",
        Comparison::Op(CmpOp::Lt) => "<",
        Comparison::Op(CmpOp::Le) => "<=",
        Comparison::Op(CmpOp::Gt) => ">",
        Comparison::Op(CmpOp::Ge) => ">=",
        Comparison::Op(CmpOp::In) => "in",
        Comparison::Op(CmpOp::NotIn) => "not in",
    }
}

/// Writes a part of a node down, after the node's name.
#[cycle(show)]
fn single(out: &mut Writer, head: &str, part: &Expr) {
    out.put(head);
    out.put("[");
    show(out, part);
    out.put("]");
}

#[cycle(show)]
fn items(out: &mut Writer, head: &str, exprs: &[Expr], comma: bool) {
    out.put(head);
    out.put("[");
    let mut first = true;
    for part in exprs {
        if !first {
            out.put(" ");
        }
        first = false;
        show(out, part);
    }
    if comma {
        out.put(",");
    }
    out.put("]");
}

#[cycle(show)]
fn bound(out: &mut Writer, expr: &Option<Box<Expr>>) {
    out.put(" ");
    match expr {
        None => out.put("~"),
        Some(expr) => show(out, expr),
    }
}

#[cycle(show)]
fn fragment(out: &mut Writer, fragment: &Fragment) {
    match fragment {
        Fragment::Plain(text) => out.quoted(text.as_str()),
        Fragment::Format(parts) => {
            out.put("f[");
            for part in parts {
                match part {
                    FormatPart::Chars(text) => out.quoted(text.as_str()),
                    FormatPart::Field(expr) => {
                        out.put("{");
                        show(out, expr);
                        out.put("}");
                    }
                }
            }
            out.put("]");
        }
    }
}

/// Writes an expression down.
#[cycle(show)]
fn show(out: &mut Writer, expr: &Expr) {
    match expr {
        Expr::Name(name) => out.put(name.as_str()),
        Expr::Int(number) => out.number(*number),
        Expr::Str(texts) => {
            for text in texts {
                out.quoted(text.as_str());
            }
        }
        Expr::FStr(fragments) => {
            for piece in fragments {
                fragment(out, piece);
            }
        }
        Expr::None => out.put("None"),
        Expr::Bool(is) => out.put(if *is { "true" } else { "false" }),
        Expr::Tuple {
            items: exprs,
            comma,
        } => items(out, "T", exprs, *comma),
        Expr::List {
            items: exprs,
            comma,
        } => items(out, "L", exprs, *comma),
        Expr::Dict {
            items: pairs,
            comma,
        } => {
            out.put("D[");
            for pair in pairs {
                show(out, &pair.key);
                out.put(":");
                show(out, &pair.value);
                out.put(" ");
            }
            if *comma {
                out.put(",");
            }
            out.put("]");
        }
        Expr::Paren(inner) => single(out, "", inner),
        Expr::Not(operand) => single(out, "not", operand),
        Expr::And(left, right) => {
            single(out, "and", left);
            single(out, "", right);
        }
        Expr::Or(left, right) => {
            single(out, "or", left);
            single(out, "", right);
        }
        Expr::Unary(Sign::Minus, operand) => single(out, "-", operand),
        Expr::Unary(Sign::Plus, operand) => single(out, "+", operand),
        Expr::Binary(op, left, right) => {
            single(out, operator(*op), left);
            single(out, "", right);
        }
        Expr::Compare(first, links) => {
            out.put("cmp[");
            show(out, first);
            for link in links {
                out.put(" ");
                out.put(comparison(link.op));
                out.put(" ");
                show(out, &link.right);
            }
            out.put("]");
        }
        Expr::Cond { body, test, orelse } => {
            single(out, "if", body);
            single(out, "", test);
            single(out, "else", orelse);
        }
        Expr::Call {
            callee,
            args,
            comma,
        } => {
            show(out, callee);
            items(out, "call", args, *comma);
        }
        Expr::Index(of, at) => {
            single(out, "at", of);
            single(out, "", at);
        }
        Expr::Slice { of, from, to } => {
            out.put("slice[");
            show(out, of);
            bound(out, from);
            bound(out, to);
            out.put("]");
        }
        Expr::Attr(of, name) => {
            show(out, of);
            out.put(".");
            out.put(name.as_str());
        }
    }
}

/// What is read from the beginning of a source, written down.
fn shown(alloc: Global, source: &str, part: ExprPart) -> Result<String, Fail> {
    let mut out = Writer::new(alloc);
    if count_lines(source) > LINE_LIMIT {
        return out.done();
    }
    let Ok(tokens) = tokens(alloc, source) else {
        out.put("tokens");
        return out.done();
    };
    match read_expr(alloc, &tokens, 0, part) {
        Ok(read) => {
            show(&mut out, &read.expr);
            out.put(" @");
            out.count(read.next);
        }
        Err(error) => out.made(format!(in alloc; "{error:?}")),
    }
    out.done()
}

/// What is read from a source as a whole list without the end of its line, written down.
fn shown_whole(alloc: Global, source: &str) -> Result<String, Fail> {
    let mut out = Writer::new(alloc);
    if count_lines(source) > LINE_LIMIT {
        return out.done();
    }
    let Ok(mut tokens) = tokens(alloc, source) else {
        out.put("tokens");
        return out.done();
    };
    let end = tokens.pop();
    tokens.pop();
    if let Some(end) = end {
        tokens.push(end)?;
    }
    match parse_expr(alloc, &tokens) {
        Ok(expr) => show(&mut out, &expr),
        Err(error) => out.made(format!(in alloc; "{error:?}")),
    }
    out.done()
}

/// The rows that are read otherwise; without a part, as whole lists. Each row is a source and what
/// is read from it, with `~~` between them and `^` after them.
fn misread(alloc: Global, rows: &str, part: Option<ExprPart>) -> Result<String, Fail> {
    let mut out = Writer::new(alloc);
    for row in rows.split('^') {
        if let Some((source, expected)) = row.split_once("~~") {
            let found = match part {
                Some(part) => shown(alloc, source, part)?,
                None => shown_whole(alloc, source)?,
            };
            if found.as_str() != expected {
                out.put(source);
                out.put(" ~~ ");
                out.put(found.as_str());
                out.put("\n");
            }
        } else {
            out.put(row);
        }
    }
    out.done()
}

fn expressions() -> &'static str {
    "\
    a~~a @1^\
    1 + 2 * 3~~+[1][*[2][3]] @5^\
    a - b - c~~-[-[a][b]][c] @5^\
    a // b % c~~%[//[a][b]][c] @5^\
    -x * +y~~*[-[x]][+[y]] @5^\
    a == b != c~~cmp[a == b != c] @5^\
    not a == b~~not[cmp[a == b]] @4^\
    not not a~~not[not[a]] @3^\
    a or b and not c~~or[a][and[b][not[c]]] @6^\
    a or b or c~~or[or[a][b]][c] @5^\
    a if b else c if d else e~~if[a][b]else[if[c][d]else[e]] @9^\
    a < b in c~~cmp[a < b in c] @5^\
    a not in b~~cmp[a not in b] @4^\
    a is None~~cmp[a is None] @3^\
    a is not None~~cmp[a is not None] @4^\
    a is not True~~cmp[a is not true] @4^\
    a is None is not False == b~~cmp[a is None is not false == b] @8^\
    a is b~~Unexpected(2)^\
    a is not b~~Unexpected(3)^\
    a not b~~Unexpected(2)^\
    a,~~T[a,] @2^\
    a, b~~T[a b] @3^\
    a, b,~~T[a b,] @4^\
    ,~~Unexpected(0)^\
    a, , b~~T[a,] @2^\
    ()~~T[] @2^\
    (a)~~[a] @3^\
    (a,)~~[T[a,]] @4^\
    (,)~~Unexpected(1)^\
    [], [a], [a, b,]~~T[L[] L[a] L[a b,]] @13^\
    [a b]~~Unexpected(2)^\
    {}, {a: b}, {a: b, c: d,}~~T[D[] D[a:b ] D[a:b c:d ,]] @19^\
    {a}~~Unexpected(2)^\
    f()(a, b,)~~fcall[]call[a b,] @9^\
    f(,)~~Unexpected(2)^\
    f(a=b)~~Unexpected(3)^\
    a[b], a[b, c], a[b,]~~T[at[a][b] at[a][T[b c]] at[a][T[b,]]] @17^\
    a[:], a[b:], a[:c], a[b:c]~~T[slice[a ~ ~] slice[a b ~] slice[a ~ c] slice[a b c]] @23^\
    a[b:c:d]~~Unexpected(5)^\
    a[]~~Unexpected(2)^\
    a.b.c~~a.b.c @5^\
    a.1~~Unexpected(2)^\
    'a' 'b'~~'a''b' @2^\
    -f(x)[1].y~~-[at[fcall[x]][1].y] @10^\
    a b~~a @1^\
    a = b~~a @1^\
    a +~~Unexpected(2)^\
    a if b~~Unexpected(3)^\
    a + not b~~Unexpected(2)^\
    a * -b~~*[a][-[b]] @4^\
    lambda~~Unexpected(0)^\
    x y~~x @1^\
    (1~~tokens\
    "
}

fn strings() -> &'static str {
    "\
    f''~~f[] @1^\
    f'a{b}c'~~f['a'{b}'c'] @1^\
    'a' f'{b}' 'c' f'd' e~~'a'f[{b}]'c'f['d'] @4^\
    f'{a, b}{c,}'~~f[{T[a b]}{T[c,]}] @1^\
    f'{a if b else c}'~~f[{if[a][b]else[c]}] @1^\
    f'{f\"{a}b\"}'~~tokens^\
    -f'{a}'.b(f'{c}')[0]~~-[at[f[{a}].bcall[f[{c}]]][0]] @10^\
    f'{a}' in f'{b}' == c~~cmp[f[{a}] in f[{b}] == c] @5^\
    f'{}'~~Unexpected(0)^\
    f'{x:>5}'~~Unexpected(0)^\
    rf'{x}'~~rf @1^\
    'a' f'{b}{c d}'~~Unexpected(1)^\
    f'{a +}'~~Unexpected(0)^\
    (f'{a = b}')~~Unexpected(1)^\
    a f'{b c}'~~a @1^\
    (a f'{b}')~~Unexpected(2)^\
    a.f'{b}'~~Unexpected(2)^\
    a is f'{b}'~~Unexpected(2)^\
    a not f'{b c}'~~Unexpected(2)\
    "
}

#[test]
fn expressions_of_sources(rt: HostRuntime) -> Result<(), Fail> {
    let wrong = misread(rt.alloc(), expressions(), Some(ExprPart::Any))?;
    assert_eq!(rt; wrong.as_str(), "");
    let wrong = misread(rt.alloc(), strings(), Some(ExprPart::Any))?;
    assert_eq!(rt; wrong.as_str(), "");
    Ok(())
}

fn single_expressions() -> &'static str {
    "\
    a, b~~a @1^\
    a if b else c, d~~if[a][b]else[c] @5^\
    (a, b): c~~[T[a b]] @5^\
    a < b: c~~cmp[a < b] @3\
    "
}

fn targets() -> &'static str {
    "\
    a in b~~a @1^\
    a, b in c~~T[a b] @3^\
    a, in c~~T[a,] @2^\
    (a, [b, c]), d[0] in e~~T[[T[a L[b c]]] at[d][0]] @14^\
    f(x) in y~~Unexpected(4)^\
    f(x)[0] in y~~at[fcall[x]][0] @7^\
    a.b in c~~Unexpected(3)^\
    a < b in c~~a @1^\
    (a < b) in c~~Unexpected(5)^\
    (a < b)[0] in c~~at[[cmp[a < b]]][0] @8^\
    a, 1 in c~~Unexpected(3)^\
    -a in b~~Unexpected(0)^\
    () in b~~T[] @2^\
    in b~~Unexpected(0)\
    "
}

#[test]
fn parts_of_sources(rt: HostRuntime) -> Result<(), Fail> {
    let wrong = misread(rt.alloc(), single_expressions(), Some(ExprPart::One))?;
    assert_eq!(rt; wrong.as_str(), "");
    let wrong = misread(rt.alloc(), targets(), Some(ExprPart::Target))?;
    assert_eq!(rt; wrong.as_str(), "");
    Ok(())
}

fn lists() -> &'static str {
    "\
    a~~a^\
    a, (b,)~~T[a [T[b,]]]^\
    f'{a}' 'b' if c else d~~if[f[{a}]'b'][c]else[d]^\
    x y~~Unexpected(1)^\
    rf'{x}'~~Unexpected(1)^\
    a = b~~Unexpected(1)^\
    a, , b~~Unexpected(2)^\
    a if b~~Unexpected(3)^\
    (a) b)~~Unexpected(3)\
    "
}

#[test]
fn lists_of_sources(rt: HostRuntime) -> Result<(), Fail> {
    let wrong = misread(rt.alloc(), lists(), None)?;
    assert_eq!(rt; wrong.as_str(), "");
    Ok(())
}
