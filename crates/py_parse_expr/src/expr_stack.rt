// What is open round a place of an expression, with the budget that is left there.

ghost use Rattle.std.specs.Prelude.{◌≡◌, ℕ, ◌≤◌, cond, true, false, OnOk};
ghost use Rattle.py_syntax.specs.Spelling.{HEIGHT};
ghost use Rattle.py_grammar.specs.Machine.{on, Ctx, Outside};
ghost use Rattle.py_grammar.specs.Budgets.{under, budget, postfix};
ghost use Rattle.py_parse_fields.specs.Frames.{view_precedence};
ghost use Rattle.py_parse_expr.specs.ExprViews.{IsMeasured, AreMeasured, ValidOpener};
ghost use Rattle.py_parse_expr.specs.ExprStacks.{opened, opened_with, view_goal, view_frame, view_stack, ValidGoal, ValidItems, ValidFrame, IsBudget, IsInside, Valid, Pops, Opens};
ghost use Rattle.py_parse_expr.specs.ExprTurns.{Meets};

use crate::expr_classes::TokenClass;
use crate::expr_frames::{
    compare_first, compare_rest, cond_first, cond_test, exprs_first, exprs_rest, in_index,
    in_items, in_key, in_paren, in_value, index_first, operand, passed, post_rest, right, slice_to,
};
use crate::expr_nodes::{
    Chain, Entries, Measured, Opener, Row, both, bound_height, conditional, higher, negation, unary,
};
use crate::expr_turns::FrameStep;
use py_operator::CmpOp;
use py_parse_fields::operators::{BinaryOperator, Precedence};
use py_syntax::Sign;
use py_text::NoMemory;
use std::alloc::Global;

/// What the whole is to be: any list of expressions, one expression, or the target of a `for`, of
/// which the items in front of a comma are kept.
#[derive(Drop)]
pub enum Goal {
    Any,
    One,
    Target,
    Targets(Row),
}

/// A place where a production waits for a part, with the parts in front of it.
pub enum Frame {
    ExprsFirst,
    ExprsRest(Row),
    CondFirst,
    CondTest(Measured),
    CondElse(Measured, Measured),
    First(Precedence),
    Right(BinaryOperator, Measured),
    NotOf,
    CompareFirst,
    CompareRest(Chain, CmpOp),
    UnaryOf(Sign),
    PostRest,
    InItems(Opener, Row),
    IndexFirst(Measured),
    InIndex(Measured),
    SliceTo(Measured, Option<Measured>),
    InParen,
    InKey(Entries),
    InValue(Entries, Measured),
}

// Written out, and not derived, so that letting it go is one call wherever that happens.
impl Drop for Frame {
    fn drop(self) {
        match self {
            Frame::ExprsFirst => (),
            Frame::ExprsRest(items) => drop(items),
            Frame::CondFirst => (),
            Frame::CondTest(body) => drop(body),
            Frame::CondElse(body, test) => {
                drop(body);
                drop(test)
            }
            Frame::First(_) => (),
            Frame::Right(_, left) => drop(left),
            Frame::NotOf => (),
            Frame::CompareFirst => (),
            Frame::CompareRest(chain, _) => drop(chain),
            Frame::UnaryOf(_) => (),
            Frame::PostRest => (),
            Frame::InItems(opener, items) => {
                drop(opener);
                drop(items)
            }
            Frame::IndexFirst(of) => drop(of),
            Frame::InIndex(of) => drop(of),
            Frame::SliceTo(of, from) => {
                drop(of);
                drop(from)
            }
            Frame::InParen => (),
            Frame::InKey(entries) => drop(entries),
            Frame::InValue(entries, key) => {
                drop(entries);
                drop(key)
            }
        }
    }
}

impl Frame {
    /// What the innermost frame makes of an expression and the token after it.
    pub fn meet(
        self,
        alloc: Global,
        measured: Measured,
        class: &TokenClass,
    ) -> Result<FrameStep, NoMemory>
        requires frame { ValidFrame self }
        requires measured { IsMeasured measured }
        ensures { Meets measured self class.now result }
    {
        match self {
            Frame::ExprsFirst => exprs_first(alloc, measured, class),
            Frame::ExprsRest(items) => exprs_rest(alloc, items, measured, class),
            Frame::CondFirst => Ok(cond_first(measured, class)),
            Frame::CondTest(body) => Ok(cond_test(body, measured, class)),
            Frame::CondElse(body, test) => passed(conditional(alloc, body, test, measured)),
            Frame::First(precedence) => Ok(operand(precedence, measured, class)),
            Frame::Right(operator, left) => right(alloc, operator, left, measured, class),
            Frame::NotOf => passed(negation(alloc, measured)),
            Frame::CompareFirst => compare_first(alloc, measured, class),
            Frame::CompareRest(chain, op) => compare_rest(alloc, chain, op, measured, class),
            Frame::UnaryOf(sign) => passed(unary(alloc, sign, measured)),
            Frame::PostRest => Ok(post_rest(measured, class)),
            Frame::InItems(opener, items) => in_items(alloc, opener, items, measured, class),
            Frame::IndexFirst(of) => index_first(alloc, of, measured, class),
            Frame::InIndex(of) => in_index(alloc, of, measured, class),
            Frame::SliceTo(of, from) => slice_to(alloc, of, from, measured, class),
            Frame::InParen => in_paren(alloc, measured, class),
            Frame::InKey(entries) => Ok(in_key(entries, measured, class)),
            Frame::InValue(entries, key) => in_value(alloc, entries, key, measured, class),
        }
    }
}

/// How high a tree may be at a place: one that has the form of a target, and any other; and whether
/// what is open can still become a target by it.
#[derive(Clone, Copy)]
pub struct HeightBudget {
    pub target: usize,
    pub other: usize,
    pub wants: bool,
}

/// A frame with the budget inside it.
#[derive(Drop)]
pub struct OpenFrame {
    pub frame: Frame,
    pub budget: HeightBudget,
}

/// What is open, the innermost last, under a limit of heights.
pub struct Stack {
    pub limit: usize,
    pub goal: Goal,
    pub frames: Vec<OpenFrame>,
}

// Written out, and not derived, so that letting it go is one call wherever that happens.
impl Drop for Stack {
    fn drop(self) {
        let Stack {
            limit: _,
            goal,
            frames,
        } = self;
        drop(goal);
        drop(frames)
    }
}

/// The budget below a node with other parts of that height.
fn under(height: usize, budget: usize) -> usize
    ensures { result ≡ under height budget }
{
    if height < budget { budget - 1 } else { 0 }
}

impl HeightBudget {
    /// The same budget for all trees, none of which makes a target of the whole.
    fn same(budget: usize) -> HeightBudget
        ensures target { result.target ≡ budget }
        ensures other { result.other ≡ budget }
        ensures wants { result.wants ≡ false }
    {
        HeightBudget {
            target: budget,
            other: budget,
            wants: false,
        }
    }

    /// The budget below a node with other parts of that height, which makes no target of the whole.
    fn below(height: usize, budget: usize) -> HeightBudget
        ensures target { result.target ≡ under height budget }
        ensures other { result.other ≡ under height budget }
        ensures wants { result.wants ≡ false }
    {
        HeightBudget::same(under(height, budget))
    }

    pub fn of(self, target: bool) -> usize
        ensures { result ≡ cond target self.target self.other }
    {
        if target { self.target } else { self.other }
    }

    /// The budget where a postfix stands, which an index after it can make a target.
    pub fn postfix(self, target: bool) -> usize
        ensures { (limit : ℕ) (k : Ctx) → IsBudget limit k self → result ≡ postfix limit k target }
    {
        if target {
            return self.target;
        }
        if self.wants {
            return under(0, self.target);
        }
        self.other
    }
}

fn budget_in_items(opener: &Opener, items: &Row, outer: HeightBudget) -> HeightBudget
    requires opener { ValidOpener opener.now }
    requires items { AreMeasured items.now }
    ensures { IsInside outer (Frame.InItems opener.now items.now) result }
{
    match opener {
        Opener::Call(callee) => {
            let budget = outer.postfix(false);
            HeightBudget::below(higher(callee.height, items.height), budget)
        }
        Opener::List => HeightBudget {
            target: under(items.height, outer.postfix(items.targets)),
            other: under(items.height, outer.postfix(false)),
            wants: both(items.targets, outer.wants),
        },
    }
}

/// The budget of a further item after a comma.
fn budget_of_rest(items: &Row, outer: HeightBudget) -> HeightBudget
    requires { ValidItems items.now }
    ensures { IsInside outer (Frame.ExprsRest items.now) result }
{
    HeightBudget {
        target: under(items.height, outer.of(items.targets)),
        other: under(items.height, outer.other),
        wants: both(items.targets, outer.wants),
    }
}

/// The budget inside a frame.
fn budget_inside(frame: &Frame, outer: HeightBudget) -> HeightBudget
    requires { ValidFrame frame.now }
    ensures { IsInside outer frame.now result }
{
    match frame {
        Frame::ExprsFirst => outer,
        Frame::ExprsRest(items) => budget_of_rest(items, outer),
        Frame::CondFirst => outer,
        Frame::CondTest(body) => HeightBudget::below(higher(body.height, 1), outer.other),
        Frame::CondElse(body, test) => {
            HeightBudget::below(higher(body.height, test.height), outer.other)
        }
        Frame::First(_) => outer,
        Frame::Right(_, left) => HeightBudget::below(left.height, outer.other),
        Frame::NotOf => HeightBudget::below(0, outer.other),
        Frame::CompareFirst => outer,
        Frame::CompareRest(chain, _) => HeightBudget::below(chain.height, outer.other),
        Frame::UnaryOf(_) => HeightBudget::below(0, outer.other),
        Frame::PostRest => HeightBudget {
            target: outer.target,
            other: outer.postfix(false),
            wants: outer.wants,
        },
        Frame::InItems(opener, items) => budget_in_items(opener, items, outer),
        Frame::IndexFirst(of) => HeightBudget::below(of.height, outer.target),
        Frame::InIndex(of) => HeightBudget::below(of.height, outer.target),
        Frame::SliceTo(of, from) => {
            let height = higher(of.height, bound_height(from));
            HeightBudget::below(height, outer.postfix(false))
        }
        Frame::InParen => HeightBudget {
            target: under(0, outer.target),
            other: under(0, outer.postfix(false)),
            wants: outer.wants,
        },
        Frame::InKey(entries) => {
            HeightBudget::below(higher(entries.height, 1), outer.postfix(false))
        }
        Frame::InValue(entries, key) => {
            let height = higher(entries.height, key.height);
            HeightBudget::below(height, outer.postfix(false))
        }
    }
}

/// The budget with nothing open.
fn budget_outside(limit: usize, goal: &Goal) -> HeightBudget
    requires low { limit ≤ HEIGHT }
    requires goal { ValidGoal goal.now }
    ensures { IsBudget limit (Outside (view_goal goal.now)) result }
{
    match goal {
        Goal::Any => HeightBudget::same(limit),
        Goal::One => HeightBudget::same(limit),
        Goal::Target => HeightBudget {
            target: limit,
            other: under(0, limit),
            wants: true,
        },
        Goal::Targets(items) => HeightBudget {
            target: under(items.height, limit),
            other: under(0, under(items.height, limit)),
            wants: true,
        },
    }
}

impl Stack {
    pub fn new(alloc: Global, limit: usize, goal: Goal) -> Stack
        requires low { limit ≤ HEIGHT }
        requires goal { ValidGoal goal }
        ensures view { view_stack result ≡ Outside (view_goal goal) }
        ensures valid { Valid limit result }
    {
        Stack {
            limit,
            goal,
            frames: Vec::new(alloc),
        }
    }

    /// The budget at the place.
    pub fn budget(&self) -> HeightBudget
        requires { Valid self.now.limit self.now }
        ensures { IsBudget self.now.limit (view_stack self.now) result }
    {
        match self.frames.last() {
            Some(held) => held.budget,
            None => budget_outside(self.limit, &self.goal),
        }
    }

    pub fn push(&mut self, frame: Frame) -> Result<(), NoMemory>
        requires valid { Valid self.old.limit self.old }
        requires frame { ValidFrame frame }
        ensures view { OnOk result (Opens (λ k. on (view_frame frame) k) self.old self.new) }
        ensures valid { OnOk result (Valid self.old.limit self.new) }
    {
        let budget = budget_inside(&frame, self.budget());
        self.frames.push(OpenFrame { frame, budget })?;
        Ok(())
    }

    /// Takes the innermost frame off.
    pub fn pop(&mut self) -> Option<Frame>
        requires { Valid self.old.limit self.old }
        ensures pops { Pops result self.old self.new }
        ensures valid { Valid self.old.limit self.new }
    {
        match self.frames.pop() {
            Some(held) => Some(held.frame),
            None => None,
        }
    }

    // ---- the frames from one precedence up to another

    /// Where a tree of this precedence, or of a looser one, was to begin: the frames of the looser
    /// precedences, and in them this one.
    #[cycle(opened)]
    fn opened_with(
        &mut self,
        from: Precedence,
        looser: Precedence,
        precedence: Precedence,
        frame: Frame,
    ) -> Result<(), NoMemory>
        requires valid { Valid self.old.limit self.old }
        requires frame { ValidFrame frame }
        ensures view { OnOk result
            (Opens (opened_with from looser precedence frame) self.old self.new) }
        ensures valid { OnOk result (Valid self.old.limit self.new) }
    {
        if !from.at_most(precedence) {
            drop(frame);
            return Ok(());
        }
        self.opened(from, looser)?;
        self.push(frame)
    }

    /// The frames from one precedence up to another.
    #[cycle(opened)]
    pub fn opened(&mut self, from: Precedence, to: Precedence) -> Result<(), NoMemory>
        requires { Valid self.old.limit self.old }
        ensures view { OnOk result
            (Opens (opened (view_precedence from) (view_precedence to)) self.old self.new) }
        ensures valid { OnOk result (Valid self.old.limit self.new) }
    {
        match to {
            Precedence::Exprs => {
                if !from.at_most(Precedence::Exprs) {
                    return Ok(());
                }
                self.push(Frame::ExprsFirst)
            }
            Precedence::Expr => self.opened_with(from, Precedence::Exprs, to, Frame::CondFirst),
            Precedence::Or => self.opened_with(from, Precedence::Expr, to, Frame::First(to)),
            Precedence::And => self.opened_with(from, Precedence::Or, to, Frame::First(to)),
            Precedence::Not => self.opened(from, Precedence::And),
            Precedence::Compare => self.opened_with(from, Precedence::And, to, Frame::CompareFirst),
            Precedence::Sum => self.opened_with(from, Precedence::Compare, to, Frame::First(to)),
            Precedence::Term => self.opened_with(from, Precedence::Sum, to, Frame::First(to)),
            Precedence::Unary => self.opened(from, Precedence::Term),
            Precedence::Post => {
                self.opened(from, Precedence::Term)?;
                self.push(Frame::PostRest)
            }
        }
    }
}
