// What stands in brackets, a token at a time.

ghost use Rattle.std.specs.Prelude.{IfOk};
ghost use Rattle.py_syntax.specs.Tree.{Expr};
ghost use Rattle.py_grammar.specs.Machine.{on, post_rest, Next, Have};
ghost use Rattle.py_parse_expr.specs.ExprViews.{IsMeasured, AreMeasured, AreEntries, ValidOpener, ValidBound, ValidClass, Makes};
ghost use Rattle.py_parse_expr.specs.ExprStacks.{Valid};
ghost use Rattle.py_parse_expr.specs.ExprTurns.{in_bracket, in_braces, Moves, Steps};

use crate::expr_classes::TokenClass;
use crate::expr_frames::closes;
use crate::expr_nodes::{Entries, Measured, Opener, Row, dict, made, slice, tuple};
use crate::expr_stack::{Frame, Stack};
use crate::expr_steps::begin_in;
use crate::expr_turns::{Progress, Turn};
use py_parse_fields::operators::Precedence;
use py_parse_fields::token_classes::Symbol;
use py_text::NoMemory;
use std::alloc::Global;

/// A tree is made that may be called, indexed or asked for a name.
pub fn closed(stack: &mut Stack, whole: Result<Measured, NoMemory>) -> Result<Turn, NoMemory>
    requires { Valid stack.old.limit stack.old }
    ensures { (e : Expr) → IfOk whole (Makes e)
        → Moves (λ k. Next (Have e (on post_rest k))) stack.old stack.new result }
{
    match whole {
        Ok(measured) => {
            stack.push(Frame::PostRest)?;
            Ok(Turn::Next(Progress::Have(measured)))
        }
        Err(error) => Err(error),
    }
}

pub fn after_open(alloc: Global, stack: &mut Stack, class: TokenClass) -> Result<Turn, NoMemory>
    requires valid { Valid stack.old.limit stack.old }
    requires class { ValidClass class }
    ensures { Steps Progress.AfterOpen class stack.old stack.new result }
{
    match class {
        TokenClass::Symbol(Symbol::RightParen) => {
            let whole = tuple(alloc, Row::new(alloc), false);
            closed(stack, whole)
        }
        rest => begin_in(alloc, stack, Frame::InParen, Precedence::Exprs, rest),
    }
}

/// A bracket with items is closed, or another item begins.
pub fn in_items(
    alloc: Global,
    stack: &mut Stack,
    opener: Opener,
    items: Row,
    comma: bool,
    class: TokenClass,
) -> Result<Turn, NoMemory>
    requires valid { Valid stack.old.limit stack.old }
    requires opener { ValidOpener opener }
    requires items { AreMeasured items }
    requires class { ValidClass class }
    ensures { Moves (in_bracket opener items comma class) stack.old stack.new result }
{
    if closes(&opener, &class) {
        drop(class);
        let whole = made(alloc, opener, items, comma);
        return closed(stack, whole);
    }
    begin_in(
        alloc,
        stack,
        Frame::InItems(opener, items),
        Precedence::Expr,
        class,
    )
}

/// The bracket of a dict is closed, or another entry begins.
pub fn in_dict(
    alloc: Global,
    stack: &mut Stack,
    entries: Entries,
    comma: bool,
    class: TokenClass,
) -> Result<Turn, NoMemory>
    requires valid { Valid stack.old.limit stack.old }
    requires entries { AreEntries entries }
    requires class { ValidClass class }
    ensures { Moves (in_braces entries comma class) stack.old stack.new result }
{
    match class {
        TokenClass::Symbol(Symbol::RightBrace) => {
            let whole = dict(alloc, entries, comma);
            closed(stack, whole)
        }
        rest => begin_in(alloc, stack, Frame::InKey(entries), Precedence::Expr, rest),
    }
}

pub fn index_open(
    alloc: Global,
    stack: &mut Stack,
    of: Measured,
    class: TokenClass,
) -> Result<Turn, NoMemory>
    requires valid { Valid stack.old.limit stack.old }
    requires of { IsMeasured of }
    requires class { ValidClass class }
    ensures { Steps (Progress.IndexOpen of) class stack.old stack.new result }
{
    match class {
        TokenClass::Symbol(Symbol::Colon) => Ok(Turn::Next(Progress::SliceColon(of, None))),
        rest => begin_in(alloc, stack, Frame::IndexFirst(of), Precedence::Expr, rest),
    }
}

pub fn slice_colon(
    alloc: Global,
    stack: &mut Stack,
    of: Measured,
    from: Option<Measured>,
    class: TokenClass,
) -> Result<Turn, NoMemory>
    requires valid { Valid stack.old.limit stack.old }
    requires of { IsMeasured of }
    requires from { ValidBound from }
    requires class { ValidClass class }
    ensures { Steps (Progress.SliceColon of from) class stack.old stack.new result }
{
    match class {
        TokenClass::Symbol(Symbol::RightBracket) => {
            let whole = slice(alloc, of, from, None);
            closed(stack, whole)
        }
        rest => begin_in(
            alloc,
            stack,
            Frame::SliceTo(of, from),
            Precedence::Expr,
            rest,
        ),
    }
}
