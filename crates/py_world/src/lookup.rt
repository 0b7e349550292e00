// Units and handlers of programs.
ghost use Rattle.std.specs.Prelude.{◌≡◌, None, Some, MatchOption, if◌then◌else◌};
ghost use Rattle.py_code.specs.Loaded.{modules_of};
ghost use Rattle.py_code.specs.Units.{plain_unit, unit_at, guards, inner, handler_of, handler_at};

use cov_event::CodeId;
use py_code::{Handler, Programs, Unit};

/// The unit of a code.
pub fn unit_in(programs: &Programs, code: CodeId) -> Option<&Unit>
    ensures { MatchOption result (unit_at (modules_of programs.now) code ≡ None)
        (λ u. unit_at (modules_of programs.now) code ≡ Some (plain_unit u.now)) }
{
    match programs.modules.get(code.module as usize) {
        None => None,
        Some(program) => program.code.units().get(code.unit as usize),
    }
}

/// The innermost handler of a place.
pub fn handler_in(programs: &Programs, code: CodeId, place: usize) -> Option<Handler>
    ensures { result ≡ handler_at (modules_of programs.now) code place }
{
    match unit_in(programs, code) {
        None => None,
        Some(unit) => handler_among(&unit.handlers, place),
    }
}

/// The innermost of the handlers whose ranges hold a place.
pub fn handler_among(handlers: &[Handler], place: usize) -> Option<Handler>
    ensures { result ≡ handler_of place handlers.now }
{
    let mut found = None;
    let mut rest = handlers.len();
    while rest > 0 {
        rest -= 1;
        found = nearer(handlers[rest], place, found);
    }
    found
}

/// The handler, if its range holds the place and isn't wider than that of another, or else that
/// one.
fn nearer(handler: Handler, place: usize, other: Option<Handler>) -> Option<Handler>
    ensures { result ≡ (if guards place handler then Some (inner handler other) else other) }
{
    if (handler.from as usize) <= place && place < (handler.to as usize) {
        Some(inner(handler, other))
    } else {
        other
    }
}

fn inner(handler: Handler, other: Option<Handler>) -> Handler
    ensures { result ≡ inner handler other }
{
    match other {
        None => handler,
        Some(other) => {
            if other.to.saturating_sub(other.from) < handler.to.saturating_sub(handler.from) {
                other
            } else {
                handler
            }
        }
    }
}
