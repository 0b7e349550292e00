// The handler table of cells.

ghost use Rattle.std.specs.Prelude.{◌≡◌, ◌+◌, ◌++◌, ◌∷◌, List, map, IfOk, OnOk};
ghost use Rattle.py_compile_expr.specs.Cells.{Op, Cell as PlainCell, cell};
ghost use Rattle.py_compile_expr.specs.CellView.{plain_guard, plain_cell};
ghost use Rattle.py_compile.specs.Units.{is_same, closed, ranges, handlers_of};

use py_code::Handler;
use py_compile_expr::{Cell, Guard, sum};
use py_text::NoMemory;
use std::alloc::Global;

/// A range that isn't closed: the handler of all cells from a place on, if there is one.
#[derive(Clone, Copy)]
struct Open {
    from: u32,
    guard: Option<Guard>,
}

/// A range for each run of cells with one handler.
pub(crate) fn handlers_of(alloc: Global, cells: &[Cell]) -> Result<Vec<Handler>, NoMemory>
    ensures { IfOk result (λ v. v.items ≡ handlers_of (map plain_cell cells.now)) }
{
    let mut handlers = Vec::new(alloc);
    let mut range = Open {
        from: 0,
        guard: None,
    };
    let mut at = 0;
    for cell in cells {
        let next = sum(at, 1)?;
        range = continued(&mut handlers, range, at, cell.guard)?;
        at = next;
    }
    close(&mut handlers, range, at)?;
    Ok(handlers)
}

/// The open range with a further cell, which closes it where that has another handler.
fn continued(
    handlers: &mut Vec<Handler>,
    range: Open,
    at: u32,
    guard: Option<Guard>,
) -> Result<Open, NoMemory>
    ensures { IfOk result (λ r. (op : Op) (cs : List PlainCell)
        → handlers.new.items ++ ranges r.from (plain_guard r.guard) (at + 1) cs
        ≡ handlers.old.items
        ++ ranges range.from (plain_guard range.guard) at (cell (plain_guard guard) op ∷ cs)) }
{
    if is_same(range.guard, guard) {
        return Ok(range);
    }
    close(handlers, range, at)?;
    Ok(Open { from: at, guard })
}

/// Adds the range of a handler up to a place, if there is one.
fn close(handlers: &mut Vec<Handler>, range: Open, to: u32) -> Result<(), NoMemory>
    ensures { OnOk result (handlers.new.items
        ≡ handlers.old.items ++ closed range.from to (plain_guard range.guard)) }
{
    match range.guard {
        None => Ok(()),
        Some(guard) => {
            handlers.push(Handler {
                from: range.from,
                to,
                target: guard.target,
                depth: guard.depth,
            })?;
            Ok(())
        }
    }
}

fn is_same(a: Option<Guard>, b: Option<Guard>) -> bool
    ensures { result ≡ is_same (plain_guard a) (plain_guard b) }
{
    match (a, b) {
        (None, None) => true,
        (None, Some(_)) => false,
        (Some(_), None) => false,
        (Some(a), Some(b)) => a.target == b.target && a.depth == b.depth,
    }
}
