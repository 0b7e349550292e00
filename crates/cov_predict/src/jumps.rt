//! Where the marks of a part lead: the jumps out of it, by each way. Those of a suite are on the
//! stack of the calls that walk it.
ghost use Rattle.std.specs.Prelude.{◌≡◌, ◌++◌, OnOk, IfOk};
ghost use Rattle.cov_predict.specs.Leaving.{list_of, targets_of, targets_by, plain_way, way_of};
ghost use Rattle.cov_predict.specs.Steps.{Enters, IsBefore, IsBeforeFinally, IsInTry};
ghost use Rattle.cov_predict.specs.Walk.{arc_to, arcs_to, in_loop, leaving, with_target, with_targets, with_way, united};

use crate::lines::{add_arc, end_of};
use crate::ways::{Way, Ways};
use py_text::NoMemory;
use std::alloc::Global;

/// Where a mark leads.
#[derive(Clone, Copy)]
pub(crate) enum Jump<'a> {
    /// To a mark, but not from its own line.
    Mark(i64),
    /// To the header of a loop, or out of a body: from every line.
    Always(i64),
    /// To each of these, with whether it is one from its own line too.
    Each(&'a [(i64, bool)]),
}

/// Where each way out of a part leads.
#[derive(Clone, Copy)]
pub(crate) struct Jumps<'a> {
    pub(crate) onward: Jump<'a>,
    pub(crate) breaking: Jump<'a>,
    pub(crate) continuing: Jump<'a>,
    pub(crate) returning: Jump<'a>,
    pub(crate) raising: Jump<'a>,
}

impl<'a> Jumps<'a> {
    /// Where a mark that is left by a way leads.
    pub(crate) fn by(self, way: Way) -> Jump<'a>
        ensures { list_of result ≡ targets_by (targets_of self.entry) (plain_way way) }
    {
        match way {
            Way::Onward => self.onward,
            Way::Breaking => self.breaking,
            Way::Continuing => self.continuing,
            Way::Returning => self.returning,
        }
    }
}

/// Out of a body. No loop is there to leave.
pub(crate) fn leaving<'a>(outside: i64) -> Jumps<'a>
    ensures { targets_of result ≡ leaving outside }
{
    Jumps {
        onward: Jump::Always(outside),
        breaking: Jump::Each(&[]),
        continuing: Jump::Each(&[]),
        returning: Jump::Always(outside),
        raising: Jump::Always(outside),
    }
}

/// Into a part with this first mark, or past one without a mark.
pub(crate) fn entering<'a>(first: Option<u32>, after: Jump<'a>) -> Jump<'a>
    ensures { Enters first after.entry result }
{
    match first {
        Some(line) => Jump::Mark(end_of(line)),
        None => after,
    }
}

/// In front of a part that is entered onward alone.
pub(crate) fn ahead<'a>(jumps: Jumps<'a>, first: Option<u32>) -> Jumps<'a>
    ensures { IsBefore first jumps.entry result }
{
    Jumps {
        onward: entering(first, jumps.onward),
        ..jumps
    }
}

/// In the suite of a loop with this header.
pub(crate) fn in_loop<'a>(jumps: Jumps<'a>, header: i64) -> Jumps<'a>
    ensures { targets_of result ≡ in_loop header (targets_of jumps.entry) }
{
    Jumps {
        onward: Jump::Always(header),
        breaking: jumps.onward,
        continuing: Jump::Always(header),
        returning: jumps.returning,
        raising: jumps.raising,
    }
}

/// In front of a `finally`, through which each way goes.
pub(crate) fn before_finally<'a>(jumps: Jumps<'a>, first: Option<u32>) -> Jumps<'a>
    ensures { IsBeforeFinally first jumps.entry result }
{
    Jumps {
        onward: entering(first, jumps.onward),
        breaking: entering(first, jumps.breaking),
        continuing: entering(first, jumps.continuing),
        returning: entering(first, jumps.returning),
        raising: entering(first, jumps.raising),
    }
}

/// In the suite of a `try`: onward into its `else`, and by an exception to its first clause.
pub(crate) fn in_try<'a>(jumps: Jumps<'a>, clause: Option<u32>, orelse: Option<u32>) -> Jumps<'a>
    ensures { IsInTry clause orelse jumps.entry result }
{
    Jumps {
        onward: entering(orelse, jumps.onward),
        raising: entering(clause, jumps.raising),
        ..jumps
    }
}

/// Adds the arcs from a line.
pub(crate) fn arcs_to(out: &mut Vec<(i32, i32)>, line: i64, jump: Jump) -> Result<(), NoMemory>
    ensures { OnOk result (out.new.items ≡ out.old.items ++ arcs_to line (list_of jump.entry)) }
{
    match jump {
        Jump::Mark(end) => arc_to(out, line, (end, false)),
        Jump::Always(end) => arc_to(out, line, (end, true)),
        Jump::Each(ends) => arcs_to_each(out, line, ends),
    }
}

fn arcs_to_each(out: &mut Vec<(i32, i32)>, line: i64, ends: &[(i64, bool)]) -> Result<(), NoMemory>
    ensures { OnOk result (out.new.items ≡ out.old.items ++ arcs_to line ends.now) }
{
    for end in ends {
        arc_to(out, line, *end)?;
    }
    Ok(())
}

fn arc_to(out: &mut Vec<(i32, i32)>, line: i64, end: (i64, bool)) -> Result<(), NoMemory>
    ensures { OnOk result (out.new.items ≡ out.old.items ++ arc_to line end) }
{
    if line == end.0 && !end.1 {
        return Ok(());
    }
    add_arc(out, line, end.0)
}

/// Where the end of a `finally` suite leads, which was entered by these ways: each end once.
pub(crate) fn united(alloc: Global, came: Ways, jumps: Jumps) -> Result<Vec<(i64, bool)>, NoMemory>
    ensures { IfOk result (λ ends. ends.items ≡ united (way_of came) (targets_of jumps.entry)) }
{
    let mut ends = Vec::new(alloc);
    add_way(&mut ends, came.onward, jumps.onward)?;
    add_way(&mut ends, came.breaking, jumps.breaking)?;
    add_way(&mut ends, came.continuing, jumps.continuing)?;
    add_way(&mut ends, came.returning, jumps.returning)?;
    add_way(&mut ends, came.raising, jumps.raising)?;
    Ok(ends)
}

fn add_way(ends: &mut Vec<(i64, bool)>, came: bool, jump: Jump) -> Result<(), NoMemory>
    ensures { OnOk result (ends.new.items ≡ with_way came ends.old.items (list_of jump.entry)) }
{
    if !came {
        return Ok(());
    }
    match jump {
        Jump::Mark(end) => add(ends, (end, false)),
        Jump::Always(end) => add(ends, (end, true)),
        Jump::Each(more) => add_each(ends, more),
    }
}

fn add_each(ends: &mut Vec<(i64, bool)>, more: &[(i64, bool)]) -> Result<(), NoMemory>
    ensures { OnOk result (ends.new.items ≡ with_targets ends.old.items more.now) }
{
    for end in more {
        add(ends, *end)?;
    }
    Ok(())
}

fn add(ends: &mut Vec<(i64, bool)>, end: (i64, bool)) -> Result<(), NoMemory>
    ensures { OnOk result (ends.new.items ≡ with_target ends.old.items end) }
{
    if !ends.contains(&end) {
        ends.push(end)?;
    }
    Ok(())
}
