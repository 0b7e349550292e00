// The limit on the height of an expression, token by token.

ghost use Rattle.std.specs.Prelude.{◌≡◌};
ghost use Rattle.py_parse_expr.specs.ExprViews.{AreMeasured, ValidOpener, ValidClass};
ghost use Rattle.py_parse_expr.specs.ExprStacks.{Valid};
ghost use Rattle.py_parse_expr.specs.ExprTurns.{ValidAt, IsWithin, is_within, StepsWithin};

use crate::expr_classes::TokenClass;
use crate::expr_nodes::{Opener, Row, bound_height, higher, over};
use crate::expr_stack::{HeightBudget, Stack};
use crate::expr_turns::{Progress, Turn};
use py_text::NoMemory;
use std::alloc::Global;

/// Whether the bracket of a call or a list is within the budget where it is closed at once.
fn is_within_budget_open(opener: &Opener, budget: HeightBudget) -> bool
    requires { ValidOpener opener.now }
    ensures { IsWithin budget (Progress.ItemsOpen opener.now) result }
{
    match opener {
        Opener::Call(callee) => over(callee.height) <= budget.postfix(false),
        Opener::List => 1 <= budget.postfix(true),
    }
}

/// Whether it is within the budget where it is closed after a comma.
fn is_within_budget_comma(opener: &Opener, items: &Row, budget: HeightBudget) -> bool
    requires opener { ValidOpener opener.now }
    requires items { AreMeasured items.now }
    ensures { IsWithin budget (Progress.ItemsComma opener.now items.now) result }
{
    match opener {
        Opener::Call(callee) => {
            over(higher(callee.height, items.height)) <= budget.postfix(false)
        }
        Opener::List => over(items.height) <= budget.postfix(items.targets),
    }
}

/// Whether the least expression that goes on from here is within the limit.
fn is_within_budget(progress: &Progress, stack: &Stack) -> bool
    requires at { ValidAt progress.now }
    requires valid { Valid stack.now.limit stack.now }
    ensures { result ≡ is_within progress.now stack.now }
{
    let budget = stack.budget();
    match progress {
        Progress::Want(_) => 1 <= budget.target,
        Progress::Have(measured) => measured.height <= budget.of(measured.target),
        Progress::Strings(strings) => strings.height() <= budget.other,
        Progress::AfterOpen => 1 <= budget.postfix(true),
        Progress::AfterComma(items) => over(items.height) <= budget.of(items.targets),
        Progress::AfterTarget(items) => over(items.height) <= stack.limit,
        Progress::ItemsOpen(opener) => is_within_budget_open(opener, budget),
        Progress::ItemsComma(opener, items) => is_within_budget_comma(opener, items, budget),
        Progress::DictOpen => 1 <= budget.postfix(false),
        Progress::DictComma(entries) => over(entries.height) <= budget.postfix(false),
        Progress::IndexOpen(of) => over(higher(of.height, 1)) <= budget.target,
        Progress::SliceColon(of, from) => {
            over(higher(of.height, bound_height(from))) <= budget.postfix(false)
        }
        Progress::AfterDot(of) => over(of.height) <= budget.postfix(false),
        Progress::AfterNot(chain) => over(higher(chain.height, 1)) <= budget.other,
        Progress::AfterIs(chain) => over(higher(chain.height, 1)) <= budget.other,
        Progress::AfterIsNot(chain) => over(higher(chain.height, 1)) <= budget.other,
        Progress::Linked(chain) => over(chain.height) <= budget.other,
    }
}

/// What a token does within the limit.
pub fn step(
    alloc: Global,
    stack: &mut Stack,
    progress: Progress,
    class: TokenClass,
) -> Result<Turn, NoMemory>
    requires valid { Valid stack.old.limit stack.old }
    requires at { ValidAt progress }
    requires class { ValidClass class }
    ensures { StepsWithin progress class stack.old stack.new result }
{
    match progress.act(alloc, stack, class)? {
        Turn::Next(next) => {
            if !is_within_budget(&next, stack) {
                return Ok(Turn::Deep);
            }
            Ok(Turn::Next(next))
        }
        Turn::Stuck => Ok(Turn::Stuck),
        Turn::Deep => Ok(Turn::Deep),
        Turn::Left(measured) => Ok(Turn::Left(measured)),
    }
}
