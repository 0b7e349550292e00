// What is open round a place in an expression, without trees.

ghost use Rattle.std.specs.Prelude.{◌≡◌, cond, IfOk};
ghost use Rattle.py_grammar.specs.Machine.{on, upto_term, upto_and};
ghost use Rattle.py_parse_fields.specs.Frames.{view_precedence, view_frame, Opens, Pops};

use crate::operators::{BinaryOperator, Precedence};
use py_operator::CmpOp;
use py_syntax::Sign;
use py_text::NoMemory;

/// What opened a bracket that holds items.
#[derive(Clone, Copy)]
pub enum Opener {
    Call,
    List,
}

/// A place where a production waits for a part.
#[derive(Clone, Copy)]
pub enum Frame {
    ExprsFirst,
    ExprsRest,
    CondFirst,
    CondTest,
    CondElse,
    First(Precedence),
    Right(BinaryOperator),
    NotOf,
    CompareFirst,
    CompareRest(CmpOp),
    UnaryOf(Sign),
    PostRest,
    InItems(Opener),
    IndexFirst,
    InIndex,
    SliceTo,
    InParen,
    InKey,
    InValue,
}

pub fn push(frames: &mut Vec<Frame>, frame: Frame) -> Result<(), NoMemory>
    ensures { IfOk result (λ done. Opens (λ k. on (view_frame frame) k) frames.old frames.new) }
{
    frames.push(frame)?;
    Ok(())
}

/// The innermost frame.
pub fn pop(frames: &mut Vec<Frame>) -> Option<Frame>
    ensures { Pops result frames.old.items frames.new.items }
{
    frames.pop()
}

fn push_if(wanted: bool, frames: &mut Vec<Frame>, frame: Frame) -> Result<(), NoMemory>
    ensures { IfOk result
        (λ done. Opens (λ k. cond wanted (on (view_frame frame) k) k) frames.old frames.new) }
{
    if wanted {
        push(frames, frame)?;
    }
    Ok(())
}

/// The frames from a precedence up to the operand of a `not`.
pub fn raise_to_not(precedence: Precedence, frames: &mut Vec<Frame>) -> Result<(), NoMemory>
    ensures { IfOk result
        (λ done. Opens (upto_and (view_precedence precedence)) frames.old frames.new) }
{
    push_if(
        precedence.at_most(Precedence::Exprs),
        frames,
        Frame::ExprsFirst,
    )?;
    push_if(
        precedence.at_most(Precedence::Expr),
        frames,
        Frame::CondFirst,
    )?;
    push_if(
        precedence.at_most(Precedence::Or),
        frames,
        Frame::First(Precedence::Or),
    )?;
    push_if(
        precedence.at_most(Precedence::And),
        frames,
        Frame::First(Precedence::And),
    )?;
    Ok(())
}

/// The frames from a precedence up to the operand of a sign.
pub fn raise_to_unary(precedence: Precedence, frames: &mut Vec<Frame>) -> Result<(), NoMemory>
    ensures { IfOk result
        (λ done. Opens (upto_term (view_precedence precedence)) frames.old frames.new) }
{
    raise_to_not(precedence, frames)?;
    push_if(
        precedence.at_most(Precedence::Compare),
        frames,
        Frame::CompareFirst,
    )?;
    push_if(
        precedence.at_most(Precedence::Sum),
        frames,
        Frame::First(Precedence::Sum),
    )?;
    push_if(
        precedence.at_most(Precedence::Term),
        frames,
        Frame::First(Precedence::Term),
    )?;
    Ok(())
}
