// Lines that no text has.

use cov_predict::{possible, predict, statements};
use py_syntax::{LineEnd, Module, Stmt, StmtKind};
use std::alloc::Global;
use std::test::Fail;

/// A `pass` in this line.
fn pass(alloc: Global, line: u32) -> Result<Module, Fail> {
    let statement = Stmt {
        first: line,
        last: line,
        kind: StmtKind::Pass,
        end: LineEnd {
            semicolon: false,
            newline: true,
        },
    };
    Ok(Module {
        body: vec![in alloc; statement]?,
    })
}

#[test]
fn arcs_of_the_greatest_line(rt: HostRuntime) -> Result<(), Fail> {
    let alloc = rt.alloc();
    let module = pass(alloc, 2147483647)?;
    let arcs = predict(alloc, &module)?;
    assert!(rt;
        arcs.has(-1, 2147483647) && arcs.has(2147483647, -1),
        "its arcs"
    );
    assert_eq!(rt; arcs.len(), 2);
    Ok(())
}

#[test]
fn no_arcs_of_a_later_line(rt: HostRuntime) -> Result<(), Fail> {
    let alloc = rt.alloc();
    let module = pass(alloc, 2147483648)?;
    assert!(rt; predict(alloc, &module).is_err(), "predicted");
    assert!(rt; possible(alloc, &module).is_err(), "possible");
    assert!(rt;
        statements(alloc, &module)?.as_slice() == [2147483648].as_slice(),
        "its line"
    );
    Ok(())
}
