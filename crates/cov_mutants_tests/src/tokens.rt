// The tokens of the mutants of a module with one statement.

use cov_mutants::{mutant_at, mutant_count};
use py_operator::BinOp;
use py_syntax::{Expr, LineEnd, Module, Stmt, StmtKind};
use py_text::{NoMemory, Text};
use std::alloc::Global;
use std::test::Fail;

/// `x //= 9` on line 4.
fn quotient(alloc: Global) -> Result<Module, NoMemory> {
    let x = Text::from_str(alloc, "x")?;
    let end = LineEnd {
        semicolon: false,
        newline: true,
    };
    let kind = StmtKind::AugAssign {
        place: Expr::Name(x),
        op: BinOp::Floor,
        value: Expr::Int(9),
    };
    let mut body = Vec::new(alloc);
    body.push(Stmt {
        first: 4,
        last: 4,
        kind,
        end,
    })?;
    Ok(Module { body })
}

#[test]
fn changes_each_token(rt: HostRuntime) -> Result<(), Fail> {
    let module = quotient(rt.alloc())?;
    assert_eq!(rt; mutant_count(&module), 2);
    let first = mutant_at(rt.alloc(), &module, 0)?.ok_or("no first mutant")?;
    assert_eq!(rt; first.line, 4);
    assert_eq!(rt; first.old.as_str(), "//=");
    assert_eq!(rt; first.new.as_str(), "*=");
    let second = mutant_at(rt.alloc(), &module, 1)?.ok_or("no second mutant")?;
    assert_eq!(rt; second.line, 4);
    assert_eq!(rt; second.old.as_str(), "9");
    assert_eq!(rt; second.new.as_str(), "10");
    assert!(rt; mutant_at(rt.alloc(), &module, 2)?.is_none());
    Ok(())
}
