// What sources are read as, row by row: the kinds of the statements, or the refusal.

use crate::writer::Writer;
use py_operator::BinOp;
use py_parse::{SyntaxError, parse};
use py_syntax::{Alias, Case, Clause, Module, Stmt, StmtKind, Suite};
use py_token::{LINE_LIMIT, count_lines, tokens};
use std::alloc::Global;
use std::test::Fail;

fn operator(op: BinOp) -> &'static str {
    match op {
        BinOp::Add => "Add",
        BinOp::Sub => "Sub",
        BinOp::Mul => "Mul",
        BinOp::Floor => "Floor",
        BinOp::Mod => "Mod",
    }
}

/// Writes statements down, each with its lines.
#[cycle(show)]
fn show_all(out: &mut Writer, statements: &[Stmt]) {
    for statement in statements {
        let first = statement.first;
        let last = statement.last;
        show(out, &statement.kind);
        out.put("@");
        out.number(i64::from(first));
        if last != first {
            out.put("-");
            out.number(i64::from(last));
        }
        out.put(if statement.end.semicolon { "; " } else { " " });
    }
}

#[cycle(show)]
fn show_suite(out: &mut Writer, suite: &Suite) {
    out.number(i64::from(suite.first));
    out.put("-");
    out.number(i64::from(suite.last));
    out.put(if suite.inline { ":[ " } else { "[ " });
    show_all(out, &suite.body);
    out.put("]");
}

#[cycle(show)]
fn show_optional(out: &mut Writer, suite: &Option<Suite>) {
    if let Some(suite) = suite {
        out.put("else");
        show_suite(out, suite);
    }
}

#[cycle(show)]
fn show_clauses(out: &mut Writer, clauses: &[Clause]) {
    for clause in clauses {
        out.put(if clause.kind.is_some() {
            "except"
        } else {
            "any"
        });
        if let Some(name) = &clause.name {
            out.put("=");
            out.put(name.as_str());
        }
        show_suite(out, &clause.body);
    }
}

#[cycle(show)]
fn show_cases(out: &mut Writer, cases: &[Case]) {
    for case in cases {
        out.put(if case.guard.is_some() {
            "guarded"
        } else {
            "case"
        });
        show_suite(out, &case.body);
    }
}

fn show_names(out: &mut Writer, names: &[Alias]) {
    for alias in names {
        out.put(" ");
        out.put(alias.name.as_str());
        if let Some(bound) = &alias.bound {
            out.put("=");
            out.put(bound.as_str());
        }
    }
}

/// Writes a kind of statement down, with its suites.
#[cycle(show)]
fn show(out: &mut Writer, kind: &StmtKind) {
    match kind {
        StmtKind::Expr(_) => out.put("expr"),
        StmtKind::Assign { targets, value: _ } => {
            out.put("assign");
            out.count(targets.len());
        }
        StmtKind::AugAssign { op, .. } => {
            out.put("aug");
            out.put(operator(*op))
        }
        StmtKind::Pass => out.put("pass"),
        StmtKind::Break => out.put("break"),
        StmtKind::Continue => out.put("continue"),
        StmtKind::Return(value) => { out.put(if value.is_some() { "return1" } else { "return" }) }
        StmtKind::Raise(value) => out.put(if value.is_some() { "raise1" } else { "raise" }),
        StmtKind::Assert(_, why) => { out.put(if why.is_some() { "assert2" } else { "assert" }) }
        StmtKind::Global(names) => {
            out.put("global");
            out.count(names.len());
        }
        StmtKind::Import(names) => {
            out.put("import");
            show_names(out, names);
        }
        StmtKind::From(source, names) => {
            out.put("from ");
            out.put(source.as_str());
            show_names(out, names);
        }
        StmtKind::If { arms, orelse } => {
            for arm in arms {
                out.put("if");
                show_suite(out, &arm.body);
            }
            show_optional(out, orelse);
        }
        StmtKind::While { body, orelse, .. } => {
            out.put("while");
            show_suite(out, body);
            show_optional(out, orelse);
        }
        StmtKind::For { body, orelse, .. } => {
            out.put("for");
            show_suite(out, body);
            show_optional(out, orelse);
        }
        StmtKind::Try {
            body,
            clauses,
            orelse,
            finally,
        } => {
            out.put("try");
            show_suite(out, body);
            show_clauses(out, clauses);
            show_optional(out, orelse);
            if finally.is_some() {
                out.put("finally ");
            }
            show_optional(out, finally);
        }
        StmtKind::Def {
            name,
            params,
            defaults,
            comma,
            body,
        } => {
            out.put("def ");
            out.put(name.as_str());
            out.put(" ");
            out.count(params.len());
            out.put("/");
            out.count(defaults.len());
            out.put(if *comma { "," } else { "" });
            show_suite(out, body);
        }
        StmtKind::Match {
            header_last,
            cases,
            ..
        } => {
            out.put("match");
            out.number(i64::from(*header_last));
            show_cases(out, cases);
        }
    }
}

/// What a source is read as.
fn read(alloc: Global, source: &str) -> Option<Result<Module, SyntaxError>> {
    if count_lines(source) > LINE_LIMIT {
        return None;
    }
    match tokens(alloc, source) {
        Ok(tokens) => Some(parse(alloc, &tokens)),
        Err(_) => None,
    }
}

/// The same, written down.
fn shown(alloc: Global, source: &str) -> Result<String, Fail> {
    let mut out = Writer::new(alloc);
    match read(alloc, source) {
        None => out.put("no tokens"),
        Some(Ok(module)) => show_all(&mut out, &module.body),
        Some(Err(error)) => out.made(format!(in alloc; "{error:?}")),
    }
    out.done()
}

// A row is a source and what it is read as, with `~` between them and `^` after them; `$` stands
// for a new line.

fn simple_rows() -> &'static str {
    "\
    ~^\
    pass~pass@1 ^\
    $$pass$~pass@3 ^\
    pass; break~pass@1; break@1 ^\
    pass;~pass@1; ^\
    ;~Unexpected(1)^\
    pass;;~Unexpected(1)^\
    pass pass~Unexpected(1)^\
    x~expr@1 ^\
    x = 1$x y~Unexpected(2)^\
    a = b = c~assign2@1 ^\
    a < b = c~Unexpected(1)^\
    f() = 1~Unexpected(1)^\
    a, (b, [c[0]]) = d~assign1@1 ^\
    a.b = 1~Unexpected(1)^\
    a =~Unexpected(1)^\
    a += 1~augAdd@1 ^\
    a[0] //= 2~augFloor@1 ^\
    a, b += 1~Unexpected(1)^\
    (a) += 1~Unexpected(1)^\
    a = b += 1~Unexpected(1)^\
    a /= 1~no tokens^\
    return~return@1 ^\
    return a, b~return1@1 ^\
    return; pass~return@1; pass@1 ^\
    raise~raise@1 ^\
    raise a~raise1@1 ^\
    raise a, b~Unexpected(1)^\
    raise a from b~Unexpected(1)^\
    assert a~assert@1 ^\
    assert a, b~assert2@1 ^\
    assert a, b, c~Unexpected(1)^\
    global a~global1@1 ^\
    global a, b~global2@1 ^\
    global a,~Unexpected(1)^\
    global a as b~Unexpected(1)^\
    import a~import a@1 ^\
    import a as b, c~import a=b c@1 ^\
    import a.b~Unexpected(1)^\
    from a import b as c, d~from a b=c d@1 ^\
    from a import *~Unexpected(1)^\
    from a import~Unexpected(1)^\
    from . import b~Unexpected(1)^\
    nonlocal a~Unexpected(1)^\
    del a~Unexpected(1)^\
    lambda: 1~Unexpected(1)^\
    with a: pass~Unexpected(1)^\
    class A: pass~Unexpected(1)^\
    @a~no tokens^\
    async def f(): pass~Unexpected(1)^\
    (a,$b)~expr@1-2 ^\
    x = (1$~no tokens^\
    break continue~Unexpected(1)^\
    else: pass~Unexpected(1)^\
    elif a: pass~Unexpected(1)^\
    \"a\"$'''b$c'''~expr@1 expr@2-3 \
    "
}

fn compound_rows() -> &'static str {
    "\
    if a: pass~if1-1:[ pass@1 ]@1 ^\
    if a: pass; break$pass~if1-1:[ pass@1; break@1 ]@1 pass@2 ^\
    if a:$    pass$    break$pass~if1-1[ pass@2 break@3 ]@1-4 pass@4 ^\
    if a: pass$elif b: pass$elif c: pass$else: pass~if1-1:[ pass@1 ]if2-2:[ pass@2 ]if3-3:[ pass@3 ]else4-4:[ pass@4 ]@1-4 ^\
    if (a and$  b):$    pass~if1-2[ pass@3 ]@1-3 ^\
    if a: pass$else: pass$else: pass~Unexpected(3)^\
    if a: pass$pass$else: pass~Unexpected(3)^\
    if a:$pass~Unexpected(2)^\
    if a:~Unexpected(1)^\
    if a~Unexpected(1)^\
    if a, b: pass~Unexpected(1)^\
    if a: if b: pass~Unexpected(1)^\
    pass; if a: pass~Unexpected(1)^\
    if a:$    if b: pass$    else: pass$else: pass~if1-1[ if2-2:[ pass@2 ]else3-3:[ pass@3 ]@2-3 ]else4-4:[ pass@4 ]@1-4 ^\
    $    pass~Unexpected(2)^\
    pass$  pass~Unexpected(2)^\
    if 1:$    x = 1$  y = 2~no tokens^\
    while a: break$else: pass~while1-1:[ break@1 ]else2-2:[ pass@2 ]@1-2 ^\
    while a, b: pass~Unexpected(1)^\
    for a in b: pass~for1-1:[ pass@1 ]@1 ^\
    for a, (b, c) in d, e: pass$else: pass~for1-1:[ pass@1 ]else2-2:[ pass@2 ]@1-2 ^\
    for a[0], in b: pass~for1-1:[ pass@1 ]@1 ^\
    for f() in b: pass~Unexpected(1)^\
    for a.b in c: pass~Unexpected(1)^\
    for a in: pass~Unexpected(1)^\
    try: pass$except: pass~try1-1:[ pass@1 ]any2-2:[ pass@2 ]@1-2 ^\
    try: pass$except A: pass$except (A, B) as e: pass$else: pass$finally: pass~try1-1:[ pass@1 ]except2-2:[ pass@2 ]except=e3-3:[ pass@3 ]else4-4:[ pass@4 ]finally else5-5:[ pass@5 ]@1-5 ^\
    try: pass$except: pass$except A: pass~try1-1:[ pass@1 ]any2-2:[ pass@2 ]except3-3:[ pass@3 ]@1-3 ^\
    try: pass$finally: pass~try1-1:[ pass@1 ]finally else2-2:[ pass@2 ]@1-2 ^\
    try: pass~Unexpected(1)^\
    try: pass$pass~Unexpected(2)^\
    try: pass$else: pass~Unexpected(2)^\
    try: pass$except A as: pass~Unexpected(2)^\
    try: pass$except A, B: pass~Unexpected(2)^\
    try: pass$finally: pass$else: pass~Unexpected(3)^\
    try a: pass~Unexpected(1)^\
    def f(): pass~def f 0/01-1:[ pass@1 ]@1 ^\
    def f(a, b=1, c=2,): return a~def f 3/2,1-1:[ return1@1 ]@1 ^\
    def f(a=1, b): pass~Unexpected(1)^\
    def f(,): pass~Unexpected(1)^\
    def f(a b): pass~Unexpected(1)^\
    def f(*a): pass~Unexpected(1)^\
    def f: pass~Unexpected(1)^\
    def f() -> a: pass~Unexpected(1)^\
    def f(a: int): pass~Unexpected(1)^\
    def f():$    def g(): pass$    return~def f 0/01-1[ def g 0/02-2:[ pass@2 ]@2 return@3 ]@1-3 ^\
    match = 1~assign1@1 ^\
    match~expr@1 ^\
    match$while a: pass~expr@1 while2-2:[ pass@2 ]@2 ^\
    match(a)~expr@1 ^\
    match a~Unexpected(1)^\
    match a:$    case 1: pass$    case b, c if d: pass~match1case2-2:[ pass@2 ]guarded3-3:[ pass@3 ]@1-3 ^\
    match (a,$b):$    case _:$        pass$pass~match2case3-3[ pass@4 ]@1-5 pass@5 ^\
    match a, b:$    case _: pass~match1case2-2:[ pass@2 ]@1-2 ^\
    match a: pass~Unexpected(1)^\
    match a:$    pass~Unexpected(2)^\
    match a:$    case 1: pass$    pass~Unexpected(3)^\
    match a:$pass~Unexpected(2)^\
    match[a]:$    case 1: pass~match1case2-2:[ pass@2 ]@1-2 ^\
    match: a~Unexpected(1)^\
    case = 1~assign1@1 ^\
    x = 1;match a:~Unexpected(1)^\
    if a: match b:$    case 1: pass~Unexpected(1)\
    "
}

/// The rows that are read otherwise.
fn misread(alloc: Global, rows: &str) -> Result<String, Fail> {
    let mut out = Writer::new(alloc);
    for row in rows.split('^') {
        if let Some((source, expected)) = row.split_once('~') {
            let mut text = String::new(alloc);
            for c in source.chars() {
                text.push(if c == '$' { '\n' } else { c })?;
            }
            let found = shown(alloc, text.as_str())?;
            if found.as_str() != expected {
                out.put(source);
                out.put(" ~ ");
                out.put(found.as_str());
                out.put("\n");
            }
        } else {
            out.put(row);
        }
    }
    out.done()
}

#[test]
fn simple_statements(rt: HostRuntime) -> Result<(), Fail> {
    let wrong = misread(rt.alloc(), simple_rows())?;
    assert_eq!(rt; wrong.as_str(), "");
    Ok(())
}

#[test]
fn compound_statements(rt: HostRuntime) -> Result<(), Fail> {
    let wrong = misread(rt.alloc(), compound_rows())?;
    assert_eq!(rt; wrong.as_str(), "");
    Ok(())
}

/// So many `if 1:` inside each other, with a `pass` in the innermost.
fn deep_suites(alloc: Global, count: usize) -> Result<String, Fail> {
    let mut source = Writer::new(alloc);
    for depth in 0..count {
        source.nest(" ", depth, "if 1:\n", "");
    }
    source.nest(" ", count, "pass", "");
    source.done()
}

/// A `0` in so many parentheses.
fn deep_parentheses(alloc: Global, count: usize) -> Result<String, Fail> {
    let mut source = Writer::new(alloc);
    source.nest("(", count, "0", ")");
    source.done()
}

#[test]
fn limits(rt: HostRuntime) -> Result<(), Fail> {
    let alloc = rt.alloc();
    let suites = shown(alloc, deep_suites(alloc, 65)?.as_str())?;
    assert_eq!(rt; suites.as_str(), "TooDeep(Suites, 65)");
    let fewer = read(alloc, deep_suites(alloc, 64)?.as_str());
    assert!(rt; matches!(fewer, Some(Ok(_))));
    let expressions = shown(alloc, deep_parentheses(alloc, 200)?.as_str())?;
    assert_eq!(rt; expressions.as_str(), "TooDeep(Expressions, 1)");
    let lower = read(alloc, deep_parentheses(alloc, 199)?.as_str());
    assert!(rt; matches!(lower, Some(Ok(_))));
    let many = shown(alloc, deep_parentheses(alloc, 500000)?.as_str())?;
    assert_eq!(rt; many.as_str(), "TooDeep(Expressions, 1)");
    Ok(())
}
