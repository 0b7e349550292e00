// Expressions, a token at a time, whatever their heights.

ghost use Rattle.std.specs.Prelude.{◌≡◌, false};
ghost use Rattle.py_syntax.specs.View.{plain_expr};
ghost use Rattle.py_syntax.specs.Normal.{height, is_target};
ghost use Rattle.py_grammar.specs.Machine.{Next, Have, begin};
ghost use Rattle.py_parse_fields.specs.Frames.{view_symbol, view_precedence};
ghost use Rattle.py_parse_expr.specs.ExprViews.{IsMeasured, ValidClass, ValidStrings};
ghost use Rattle.py_parse_expr.specs.ExprStacks.{opened, upto_post, ValidGoal, ValidItems, ValidFrame, Valid};
ghost use Rattle.py_parse_expr.specs.ExprTurns.{view_at, ValidAt, prefixed, begin_in, Leaves, Moves, Steps};

use crate::expr_brackets::closed;
use crate::expr_classes::TokenClass;
use crate::expr_frames::is_comma;
use crate::expr_nodes::{Measured, Opener, Row, Strings, attribute, tuple};
use crate::expr_stack::{Frame, Goal, Stack};
use crate::expr_turns::{FrameStep, Progress, Turn};
use py_operator::BinOp;
use py_parse_fields::operators::{BinaryOperator, Precedence};
use py_parse_fields::token_classes::Symbol;
use py_syntax::{Expr, Sign};
use py_text::NoMemory;
use std::alloc::Global;

/// The outermost expression is whole, and is to be the target of a `for`, or its first item.
fn leave_first(alloc: Global, measured: Measured, class: &TokenClass) -> Result<Turn, NoMemory>
    requires { IsMeasured measured }
    ensures { Leaves measured Goal.Target class.now result }
{
    if !measured.target {
        drop(measured);
        return Ok(Turn::Stuck);
    }
    match class {
        TokenClass::Symbol(Symbol::Comma) => {
            let items = Row::new(alloc).with(measured)?;
            Ok(Turn::Next(Progress::AfterTarget(items)))
        }
        _ => Ok(Turn::Left(measured)),
    }
}

/// The outermost expression is whole, and is to be a further item of the target of a `for`.
fn leave_next(
    alloc: Global,
    items: Row,
    measured: Measured,
    class: &TokenClass,
) -> Result<Turn, NoMemory>
    requires items { ValidItems items }
    requires measured { IsMeasured measured }
    ensures { Leaves measured (Goal.Targets items) class.now result }
{
    if !measured.target {
        drop(items);
        drop(measured);
        return Ok(Turn::Stuck);
    }
    let items = items.with(measured)?;
    if is_comma(class) {
        Ok(Turn::Next(Progress::AfterTarget(items)))
    } else {
        Ok(Turn::Left(tuple(alloc, items, false)?))
    }
}

/// The outermost expression is whole.
fn leave(
    alloc: Global,
    goal: Goal,
    measured: Measured,
    class: &TokenClass,
) -> Result<Turn, NoMemory>
    requires goal { ValidGoal goal }
    requires measured { IsMeasured measured }
    ensures { Leaves measured goal class.now result }
{
    match goal {
        Goal::Any => Ok(Turn::Left(measured)),
        Goal::One => Ok(Turn::Left(measured)),
        Goal::Target => leave_first(alloc, measured, class),
        Goal::Targets(items) => leave_next(alloc, items, measured, class),
    }
}

/// An expression is whole as far as the stack knows.
pub fn give(
    alloc: Global,
    stack: &mut Stack,
    measured: Measured,
    class: &TokenClass,
) -> Result<Turn, NoMemory>
    requires valid { Valid stack.old.limit stack.old }
    requires measured { IsMeasured measured }
    ensures { Steps (Progress.Have measured) class.now stack.old stack.new result }
{
    let mut measured = measured;
    'frames: while let Some(frame) = stack.pop() {
        match frame.meet(alloc, measured, class)? {
            FrameStep::Next(progress) => return Ok(Turn::Next(progress)),
            FrameStep::Opens(frame, progress) => {
                stack.push(frame)?;
                return Ok(Turn::Next(progress));
            }
            FrameStep::Stuck => return Ok(Turn::Stuck),
            FrameStep::Passes(next) => measured = next,
        }
    }
    let goal = std::mem::replace(&mut stack.goal, Goal::Any);
    *stack = Stack::new(alloc, stack.limit, Goal::Any);
    leave(alloc, goal, measured, class)
}

/// The same with a token that is let go in writing, since one of unknown kind is costly to let go
/// in silence.
pub fn have(
    alloc: Global,
    stack: &mut Stack,
    measured: Measured,
    class: TokenClass,
) -> Result<Turn, NoMemory>
    requires valid { Valid stack.old.limit stack.old }
    requires measured { IsMeasured measured }
    ensures { Steps (Progress.Have measured) class stack.old stack.new result }
{
    let turn = give(alloc, stack, measured, &class);
    drop(class);
    turn
}

/// A token begins a part that has the second precedence, where one of the first was to begin.
fn part(
    stack: &mut Stack,
    from: Precedence,
    to: Precedence,
    progress: Progress,
) -> Result<Turn, NoMemory>
    requires valid { Valid stack.old.limit stack.old }
    requires at { ValidAt progress }
    ensures { Moves (λ k. Next
        (view_at progress (opened (view_precedence from) (view_precedence to) k)))
        stack.old stack.new result }
{
    stack.opened(from, to)?;
    Ok(Turn::Next(progress))
}

/// A number or a word that is an expression.
fn low(
    alloc: Global,
    stack: &mut Stack,
    precedence: Precedence,
    expr: Expr,
) -> Result<Turn, NoMemory>
    requires valid { Valid stack.old.limit stack.old }
    requires height { height (plain_expr expr) ≡ 1 }
    requires target { is_target (plain_expr expr) ≡ false }
    ensures { Moves (λ k. Next (Have (plain_expr expr) (upto_post precedence k)))
        stack.old stack.new result }
{
    let measured = Measured::low(alloc, expr)?;
    part(
        stack,
        precedence,
        Precedence::Post,
        Progress::Have(measured),
    )
}

/// An operator stands in front of its one operand, which has the operator's own precedence.
fn prefixed(
    stack: &mut Stack,
    precedence: Precedence,
    frame: Frame,
    operand: Precedence,
) -> Result<Turn, NoMemory>
    requires valid { Valid stack.old.limit stack.old }
    requires frame { ValidFrame frame }
    ensures { Moves (prefixed precedence frame operand) stack.old stack.new result }
{
    if !precedence.at_most(operand) {
        drop(frame);
        return Ok(Turn::Stuck);
    }
    stack.opened(precedence, operand)?;
    stack.push(frame)?;
    Ok(Turn::Next(Progress::Want(operand)))
}

/// A sign stands in front of an operand.
fn signed(stack: &mut Stack, precedence: Precedence, sign: Sign) -> Result<Turn, NoMemory>
    requires { Valid stack.old.limit stack.old }
    ensures { Moves (prefixed precedence (Frame.UnaryOf sign) Precedence.Unary)
        stack.old stack.new result }
{
    prefixed(stack, precedence, Frame::UnaryOf(sign), Precedence::Unary)
}

/// A token that is no expression by itself begins one of that precedence, or of a tighter one.
fn begin_by(stack: &mut Stack, precedence: Precedence, symbol: Symbol) -> Result<Turn, NoMemory>
    requires { Valid stack.old.limit stack.old }
    ensures { Moves (λ k. begin (view_precedence precedence) k (view_symbol symbol))
        stack.old stack.new result }
{
    match symbol {
        Symbol::Not => prefixed(stack, precedence, Frame::NotOf, Precedence::Not),
        Symbol::BinaryOperator(BinaryOperator::Op(BinOp::Add)) => {
            signed(stack, precedence, Sign::Plus)
        }
        Symbol::BinaryOperator(BinaryOperator::Op(BinOp::Sub)) => {
            signed(stack, precedence, Sign::Minus)
        }
        Symbol::LeftParen => part(stack, precedence, Precedence::Term, Progress::AfterOpen),
        Symbol::LeftBracket => part(
            stack,
            precedence,
            Precedence::Term,
            Progress::ItemsOpen(Opener::List),
        ),
        Symbol::LeftBrace => part(stack, precedence, Precedence::Term, Progress::DictOpen),
        _ => Ok(Turn::Stuck),
    }
}

/// An expression of that precedence, or of a tighter one, begins.
pub fn begin(
    alloc: Global,
    stack: &mut Stack,
    precedence: Precedence,
    class: TokenClass,
) -> Result<Turn, NoMemory>
    requires valid { Valid stack.old.limit stack.old }
    requires class { ValidClass class }
    ensures { Steps (Progress.Want precedence) class stack.old stack.new result }
{
    match class {
        TokenClass::Name(text) => {
            let measured = Measured::name(alloc, text)?;
            part(
                stack,
                precedence,
                Precedence::Post,
                Progress::Have(measured),
            )
        }
        TokenClass::Int(number) => low(alloc, stack, precedence, Expr::Int(number)),
        TokenClass::NoneWord => low(alloc, stack, precedence, Expr::None),
        TokenClass::Bool(truth) => low(alloc, stack, precedence, Expr::Bool(truth)),
        TokenClass::Str(text) => {
            let strings = Strings::text(alloc, text)?;
            part(
                stack,
                precedence,
                Precedence::Post,
                Progress::Strings(strings),
            )
        }
        TokenClass::Format(fields) => {
            let strings = Strings::format(alloc, fields)?;
            part(
                stack,
                precedence,
                Precedence::Post,
                Progress::Strings(strings),
            )
        }
        TokenClass::Symbol(symbol) => begin_by(stack, precedence, symbol),
    }
}

/// The same in a frame of its own.
pub fn begin_in(
    alloc: Global,
    stack: &mut Stack,
    frame: Frame,
    precedence: Precedence,
    class: TokenClass,
) -> Result<Turn, NoMemory>
    requires valid { Valid stack.old.limit stack.old }
    requires frame { ValidFrame frame }
    requires class { ValidClass class }
    ensures { Moves (begin_in frame precedence class) stack.old stack.new result }
{
    match stack.push(frame) {
        Ok(()) => begin(alloc, stack, precedence, class),
        Err(error) => {
            drop(class);
            Err(error)
        }
    }
}

pub fn in_strings(
    alloc: Global,
    stack: &mut Stack,
    strings: Strings,
    class: TokenClass,
) -> Result<Turn, NoMemory>
    requires valid { Valid stack.old.limit stack.old }
    requires strings { ValidStrings strings }
    requires class { ValidClass class }
    ensures { Steps (Progress.Strings strings) class stack.old stack.new result }
{
    match class {
        TokenClass::Str(text) => Ok(Turn::Next(Progress::Strings(strings.with_text(text)?))),
        TokenClass::Format(fields) => {
            let strings = strings.with_format(alloc, fields)?;
            Ok(Turn::Next(Progress::Strings(strings)))
        }
        rest => match strings.measured(alloc) {
            Ok(measured) => have(alloc, stack, measured, rest),
            Err(error) => {
                drop(rest);
                Err(error)
            }
        },
    }
}

pub fn after_comma(
    alloc: Global,
    stack: &mut Stack,
    items: Row,
    class: TokenClass,
) -> Result<Turn, NoMemory>
    requires valid { Valid stack.old.limit stack.old }
    requires items { ValidItems items }
    requires class { ValidClass class }
    ensures { Steps (Progress.AfterComma items) class stack.old stack.new result }
{
    if class.begins() {
        return begin_in(
            alloc,
            stack,
            Frame::ExprsRest(items),
            Precedence::Expr,
            class,
        );
    }
    match tuple(alloc, items, true) {
        Ok(measured) => have(alloc, stack, measured, class),
        Err(error) => {
            drop(class);
            Err(error)
        }
    }
}

pub fn after_target(
    alloc: Global,
    stack: &mut Stack,
    items: Row,
    class: TokenClass,
) -> Result<Turn, NoMemory>
    requires valid { Valid stack.old.limit stack.old }
    requires items { ValidItems items }
    requires class { ValidClass class }
    ensures { Steps (Progress.AfterTarget items) class stack.old stack.new result }
{
    if !class.begins() {
        drop(class);
        return Ok(Turn::Left(tuple(alloc, items, true)?));
    }
    *stack = Stack::new(alloc, stack.limit, Goal::Targets(items));
    begin(alloc, stack, Precedence::Post, class)
}

pub fn after_dot(
    alloc: Global,
    stack: &mut Stack,
    of: Measured,
    class: TokenClass,
) -> Result<Turn, NoMemory>
    requires valid { Valid stack.old.limit stack.old }
    requires of { IsMeasured of }
    ensures { Steps (Progress.AfterDot of) class stack.old stack.new result }
{
    match class {
        TokenClass::Name(text) => {
            let whole = attribute(alloc, of, text);
            closed(stack, whole)
        }
        other => {
            drop(other);
            drop(of);
            Ok(Turn::Stuck)
        }
    }
}
