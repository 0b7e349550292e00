// What a token makes of an expression that is read.

ghost use Rattle.py_parse_expr.specs.ExprViews.{ValidClass};
ghost use Rattle.py_parse_expr.specs.ExprStacks.{Valid};
ghost use Rattle.py_parse_expr.specs.ExprTurns.{ValidAt, Steps};

use crate::expr_brackets::{after_open, in_dict, in_items, index_open, slice_colon};
use crate::expr_chains::{after_is, after_is_not, after_not, linked};
use crate::expr_classes::TokenClass;
use crate::expr_nodes::{Chain, Entries, Measured, Opener, Row, Strings};
use crate::expr_stack::{Frame, Stack};
use crate::expr_steps::{after_comma, after_dot, after_target, begin, have, in_strings};
use py_parse_fields::operators::Precedence;
use py_text::NoMemory;
use std::alloc::Global;

/// What of an expression stands after what the stack holds.
pub enum Progress {
    Want(Precedence),
    Have(Measured),
    Strings(Strings),
    AfterOpen,
    AfterComma(Row),
    AfterTarget(Row),
    ItemsOpen(Opener),
    ItemsComma(Opener, Row),
    DictOpen,
    DictComma(Entries),
    IndexOpen(Measured),
    SliceColon(Measured, Option<Measured>),
    AfterDot(Measured),
    AfterNot(Chain),
    AfterIs(Chain),
    AfterIsNot(Chain),
    Linked(Chain),
}

// Written out, and not derived, so that letting it go is one call wherever that happens.
impl Drop for Progress {
    fn drop(self) {
        match self {
            Progress::Want(_) => (),
            Progress::Have(measured) => drop(measured),
            Progress::Strings(strings) => drop(strings),
            Progress::AfterOpen => (),
            Progress::AfterComma(items) => drop(items),
            Progress::AfterTarget(items) => drop(items),
            Progress::ItemsOpen(opener) => drop(opener),
            Progress::ItemsComma(opener, items) => {
                drop(opener);
                drop(items)
            }
            Progress::DictOpen => (),
            Progress::DictComma(entries) => drop(entries),
            Progress::IndexOpen(of) => drop(of),
            Progress::SliceColon(of, from) => {
                drop(of);
                drop(from)
            }
            Progress::AfterDot(of) => drop(of),
            Progress::AfterNot(chain) => drop(chain),
            Progress::AfterIs(chain) => drop(chain),
            Progress::AfterIsNot(chain) => drop(chain),
            Progress::Linked(chain) => drop(chain),
        }
    }
}

/// What a frame makes of an expression and the token after it.
#[derive(Drop)]
pub enum FrameStep {
    /// The token is taken.
    Next(Progress),
    /// The token is taken, and this frame is open.
    Opens(Frame, Progress),
    Stuck,
    /// This expression is whole for the next frame.
    Passes(Measured),
}

/// What a token does. Left: the outermost expression is whole, and the token isn't taken.
#[derive(Drop)]
pub enum Turn {
    Next(Progress),
    Stuck,
    Deep,
    Left(Measured),
}

impl Progress {
    /// What a token does, whatever its height.
    pub fn act(self, alloc: Global, stack: &mut Stack, class: TokenClass) -> Result<Turn, NoMemory>
        requires valid { Valid stack.old.limit stack.old }
        requires at { ValidAt self }
        requires class { ValidClass class }
        ensures { Steps self class stack.old stack.new result }
    {
        match self {
            Progress::Want(precedence) => begin(alloc, stack, precedence, class),
            Progress::Have(measured) => have(alloc, stack, measured, class),
            Progress::Strings(strings) => in_strings(alloc, stack, strings, class),
            Progress::AfterOpen => after_open(alloc, stack, class),
            Progress::AfterComma(items) => after_comma(alloc, stack, items, class),
            Progress::AfterTarget(items) => after_target(alloc, stack, items, class),
            Progress::ItemsOpen(opener) => {
                in_items(alloc, stack, opener, Row::new(alloc), false, class)
            }
            Progress::ItemsComma(opener, items) => {
                in_items(alloc, stack, opener, items, true, class)
            }
            Progress::DictOpen => in_dict(alloc, stack, Entries::new(alloc), false, class),
            Progress::DictComma(entries) => in_dict(alloc, stack, entries, true, class),
            Progress::IndexOpen(of) => index_open(alloc, stack, of, class),
            Progress::SliceColon(of, from) => slice_colon(alloc, stack, of, from, class),
            Progress::AfterDot(of) => after_dot(alloc, stack, of, class),
            Progress::AfterNot(chain) => after_not(stack, chain, class),
            Progress::AfterIs(chain) => after_is(alloc, chain, class),
            Progress::AfterIsNot(chain) => after_is_not(alloc, chain, class),
            Progress::Linked(chain) => {
                let turn = linked(alloc, stack, chain, &class);
                drop(class);
                turn
            }
        }
    }
}
