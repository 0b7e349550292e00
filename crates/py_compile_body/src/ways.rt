// How the code of a suite goes on where it is left.

ghost use Rattle.std.specs.Prelude.{◌≡◌, IfOk};
ghost use Rattle.py_compile_body.specs.WaysView.{plain_route, plain_ways};
ghost use Rattle.py_compile.specs.Ways.{outermost, lower, under, in_finally, in_try, in_loop, in_clause, in_hand, break_exit, continue_exit, return_exit};

use py_code::Instr;
use py_compile_expr::{Guard, sum};
use py_text::NoMemory;

/// Where one way out leads.
#[derive(Clone, Copy)]
pub(crate) enum Route {
    /// Nowhere inside the body.
    Out,
    /// So many operands are taken away, and it goes on at the place.
    Straight(u32, u32),
    /// The same, through the suite of a `finally`.
    Through(u32, u32),
}

/// Where the ways out of a suite lead, the handler, how many operands stand below, and how many
/// stand below the exception that is handled.
#[derive(Clone, Copy)]
pub(crate) struct Ways {
    pub on_break: Route,
    pub on_continue: Route,
    pub on_return: Route,
    pub guard: Option<Guard>,
    pub depth: u32,
    pub handled: Option<u32>,
}

/// The body of a module or a function, whose statements end at the place. Outside of a loop `break`
/// and `continue` lead there too.
pub(crate) fn outermost(end: u32) -> Ways
    ensures { plain_ways result ≡ outermost end }
{
    Ways {
        on_break: Route::Straight(0, end),
        on_continue: Route::Straight(0, end),
        on_return: Route::Out,
        guard: None,
        depth: 0,
        handled: None,
    }
}

fn lower(route: Route) -> Result<Route, NoMemory>
    ensures { IfOk result (λ r. plain_route r ≡ lower (plain_route route)) }
{
    match route {
        Route::Out => Ok(Route::Out),
        Route::Straight(drops, to) => Ok(Route::Straight(sum(drops, 1)?, to)),
        Route::Through(drops, to) => Ok(Route::Through(sum(drops, 1)?, to)),
    }
}

/// With one more operand below.
pub(crate) fn under(ways: Ways) -> Result<Ways, NoMemory>
    ensures { IfOk result (λ w. plain_ways w ≡ under (plain_ways ways)) }
{
    let on_break = lower(ways.on_break)?;
    let on_continue = lower(ways.on_continue)?;
    let on_return = lower(ways.on_return)?;
    let depth = sum(ways.depth, 1)?;
    Ok(Ways {
        on_break,
        on_continue,
        on_return,
        guard: ways.guard,
        depth,
        handled: ways.handled,
    })
}

/// In front of a suite at the place that each way out goes through.
pub(crate) fn in_finally(ways: Ways, to: u32) -> Ways
    ensures { plain_ways result ≡ in_finally (plain_ways ways) to }
{
    Ways {
        on_break: Route::Through(0, to),
        on_continue: Route::Through(0, to),
        on_return: Route::Through(0, to),
        guard: Some(Guard {
            target: to,
            depth: ways.depth,
        }),
        depth: ways.depth,
        handled: ways.handled,
    }
}

/// In the body of a `try` whose clauses begin at the place.
pub(crate) fn in_try(ways: Ways, to: u32) -> Ways
    ensures { plain_ways result ≡ in_try (plain_ways ways) to }
{
    Ways {
        on_break: ways.on_break,
        on_continue: ways.on_continue,
        on_return: ways.on_return,
        guard: Some(Guard {
            target: to,
            depth: ways.depth,
        }),
        depth: ways.depth,
        handled: ways.handled,
    }
}

/// In the suite of a loop: `break` takes so many operands away and goes on at the end, `continue`
/// at the jump back.
pub(crate) fn in_loop(ways: Ways, drops: u32, end: u32, back: u32) -> Ways
    ensures { plain_ways result ≡ in_loop (plain_ways ways) drops end back }
{
    Ways {
        on_break: Route::Straight(drops, end),
        on_continue: Route::Straight(0, back),
        on_return: ways.on_return,
        guard: ways.guard,
        depth: ways.depth,
        handled: ways.handled,
    }
}

/// In the suite of a clause: the exception stands on top of what stood there.
pub(crate) fn in_clause(ways: Ways) -> Result<Ways, NoMemory>
    ensures { IfOk result (λ w. plain_ways w ≡ in_clause (plain_ways ways)) }
{
    let inside = under(ways)?;
    Ok(Ways {
        on_break: inside.on_break,
        on_continue: inside.on_continue,
        on_return: inside.on_return,
        guard: inside.guard,
        depth: inside.depth,
        handled: Some(ways.depth),
    })
}

/// Whether a bare `raise` has an exception.
pub(crate) fn in_hand(ways: Ways) -> bool
    ensures { result ≡ in_hand (plain_ways ways) }
{
    match ways.handled {
        None => false,
        Some(_) => true,
    }
}

pub(crate) fn break_exit(route: Route, next: u32) -> Instr
    ensures { result ≡ break_exit (plain_route route) next }
{
    match route {
        Route::Out => Instr::Goto(next),
        Route::Straight(drops, to) => Instr::Leave(drops, to),
        Route::Through(drops, to) => Instr::Breaking(drops, to),
    }
}

pub(crate) fn continue_exit(route: Route, next: u32) -> Instr
    ensures { result ≡ continue_exit (plain_route route) next }
{
    match route {
        Route::Out => Instr::Goto(next),
        Route::Straight(drops, to) => Instr::Leave(drops, to),
        Route::Through(drops, to) => Instr::Continuing(drops, to),
    }
}

pub(crate) fn return_exit(route: Route) -> Instr
    ensures { result ≡ return_exit (plain_route route) }
{
    match route {
        Route::Out => Instr::Return,
        Route::Straight(_, _) => Instr::Return,
        Route::Through(drops, to) => Instr::Returning(drops, to),
    }
}
