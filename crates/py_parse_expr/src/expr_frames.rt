// An expression is whole as far as the stack knows, and a token comes: one function for each frame.

ghost use Rattle.std.specs.Prelude.{◌≡◌, IfOk};
ghost use Rattle.py_syntax.specs.Tree.{Expr};
ghost use Rattle.py_grammar.specs.TokenClasses as classes_;
ghost use Rattle.py_grammar.specs.Machine.{Ctx, give};
ghost use Rattle.py_parse_expr.specs.ExprViews.{view_class, view_opener, IsMeasured, AreMeasured, AreEntries, IsChain, ValidOpener, ValidBound, Makes};
ghost use Rattle.py_parse_expr.specs.ExprStacks.{ValidFrame};
ghost use Rattle.py_parse_expr.specs.ExprTurns.{is_comma, closes, Becomes, Links, MeetsAs, Meets};

use crate::expr_classes::TokenClass;
use crate::expr_nodes::{
    Chain, Entries, Measured, Opener, Row, comparison, dict, index, joined, made, paren, slice,
    tuple,
};
use crate::expr_stack::Frame;
use crate::expr_turns::{FrameStep, Progress};
use py_operator::CmpOp;
use py_parse_fields::operators::{BinaryOperator, Precedence};
use py_parse_fields::token_classes::Symbol;
use py_syntax::Comparison;
use py_text::NoMemory;
use std::alloc::Global;

/// A tree is made for the next frame.
pub fn passed(whole: Result<Measured, NoMemory>) -> Result<FrameStep, NoMemory>
    ensures { (e : Expr) (k : Ctx) (t : classes_.TokenClass) → IfOk whole (Makes e)
        → Becomes (give e k t) k t result }
{
    match whole {
        Ok(measured) => Ok(FrameStep::Passes(measured)),
        Err(error) => Err(error),
    }
}

pub fn exprs_first(
    alloc: Global,
    measured: Measured,
    class: &TokenClass,
) -> Result<FrameStep, NoMemory>
    requires { IsMeasured measured }
    ensures { Meets measured Frame.ExprsFirst class.now result }
{
    match class {
        TokenClass::Symbol(Symbol::Comma) => Ok(FrameStep::Next(Progress::AfterComma(Row::new(
            alloc,
        ).with(measured)?))),
        _ => Ok(FrameStep::Passes(measured)),
    }
}

pub fn exprs_rest(
    alloc: Global,
    items: Row,
    measured: Measured,
    class: &TokenClass,
) -> Result<FrameStep, NoMemory>
    requires frame { ValidFrame (Frame.ExprsRest items) }
    requires measured { IsMeasured measured }
    ensures { Meets measured (Frame.ExprsRest items) class.now result }
{
    let items = items.with(measured)?;
    match class {
        TokenClass::Symbol(Symbol::Comma) => Ok(FrameStep::Next(Progress::AfterComma(items))),
        _ => Ok(FrameStep::Passes(tuple(alloc, items, false)?)),
    }
}

pub fn cond_first(measured: Measured, class: &TokenClass) -> FrameStep
    requires { IsMeasured measured }
    ensures { MeetsAs measured Frame.CondFirst class.now result }
{
    match class {
        TokenClass::Symbol(Symbol::If) => FrameStep::Opens(
            Frame::CondTest(measured),
            Progress::Want(Precedence::Or),
        ),
        _ => FrameStep::Passes(measured),
    }
}

pub fn cond_test(body: Measured, measured: Measured, class: &TokenClass) -> FrameStep
    requires body { IsMeasured body }
    requires measured { IsMeasured measured }
    ensures { MeetsAs measured (Frame.CondTest body) class.now result }
{
    match class {
        TokenClass::Symbol(Symbol::Else) => FrameStep::Opens(
            Frame::CondElse(body, measured),
            Progress::Want(Precedence::Expr),
        ),
        _ => FrameStep::Stuck,
    }
}

/// An operand in front of an operator of its precedence, or not.
pub fn operand(precedence: Precedence, measured: Measured, class: &TokenClass) -> FrameStep
    requires { IsMeasured measured }
    ensures { MeetsAs measured (Frame.First precedence) class.now result }
{
    match class {
        TokenClass::Symbol(Symbol::BinaryOperator(operator)) => {
            if precedence.is(operator.precedence()) {
                return FrameStep::Opens(
                    Frame::Right(*operator, measured),
                    Progress::Want(operator.right()),
                );
            }
            FrameStep::Passes(measured)
        }
        _ => FrameStep::Passes(measured),
    }
}

pub fn right(
    alloc: Global,
    operator: BinaryOperator,
    left: Measured,
    measured: Measured,
    class: &TokenClass,
) -> Result<FrameStep, NoMemory>
    requires left { IsMeasured left }
    requires measured { IsMeasured measured }
    ensures { Meets measured (Frame.Right operator left) class.now result }
{
    let measured = joined(alloc, operator, left, measured)?;
    Ok(operand(operator.precedence(), measured, class))
}

pub fn compare_first(
    alloc: Global,
    measured: Measured,
    class: &TokenClass,
) -> Result<FrameStep, NoMemory>
    requires { IsMeasured measured }
    ensures { Meets measured Frame.CompareFirst class.now result }
{
    match class {
        TokenClass::Symbol(Symbol::Compare(op)) => Ok(FrameStep::Opens(
            Frame::CompareRest(Chain::new(alloc, measured), *op),
            Progress::Want(Precedence::Sum),
        )),
        TokenClass::Symbol(Symbol::Not) => Ok(FrameStep::Next(Progress::AfterNot(Chain::new(
            alloc, measured,
        )))),
        TokenClass::Symbol(Symbol::Is) => Ok(FrameStep::Next(Progress::AfterIs(Chain::new(
            alloc, measured,
        )))),
        _ => Ok(FrameStep::Passes(measured)),
    }
}

/// After a comparison.
pub fn link(alloc: Global, chain: Chain, class: &TokenClass) -> Result<FrameStep, NoMemory>
    requires { IsChain chain }
    ensures { Links chain class.now result }
{
    match class {
        TokenClass::Symbol(Symbol::Compare(op)) => Ok(FrameStep::Opens(
            Frame::CompareRest(chain, *op),
            Progress::Want(Precedence::Sum),
        )),
        TokenClass::Symbol(Symbol::Not) => Ok(FrameStep::Next(Progress::AfterNot(chain))),
        TokenClass::Symbol(Symbol::Is) => Ok(FrameStep::Next(Progress::AfterIs(chain))),
        _ => Ok(FrameStep::Passes(comparison(alloc, chain)?)),
    }
}

pub fn compare_rest(
    alloc: Global,
    chain: Chain,
    op: CmpOp,
    measured: Measured,
    class: &TokenClass,
) -> Result<FrameStep, NoMemory>
    requires chain { IsChain chain }
    requires measured { IsMeasured measured }
    ensures { Meets measured (Frame.CompareRest chain op) class.now result }
{
    link(alloc, chain.with(Comparison::Op(op), measured)?, class)
}

pub fn post_rest(measured: Measured, class: &TokenClass) -> FrameStep
    requires { IsMeasured measured }
    ensures { MeetsAs measured Frame.PostRest class.now result }
{
    match class {
        TokenClass::Symbol(Symbol::LeftParen) => FrameStep::Next(Progress::ItemsOpen(Opener::Call(
            measured,
        ))),
        TokenClass::Symbol(Symbol::LeftBracket) => FrameStep::Next(Progress::IndexOpen(measured)),
        TokenClass::Symbol(Symbol::Dot) => FrameStep::Next(Progress::AfterDot(measured)),
        _ => FrameStep::Passes(measured),
    }
}

/// Whether a token is a comma.
pub fn is_comma(class: &TokenClass) -> bool
    ensures { result ≡ is_comma (view_class class.now) }
{
    matches!(class, TokenClass::Symbol(Symbol::Comma))
}

/// Whether a token closes a bracket with items.
pub fn closes(opener: &Opener, class: &TokenClass) -> bool
    ensures { result ≡ closes (view_opener opener.now) (view_class class.now) }
{
    match opener {
        Opener::Call(_) => matches!(class, TokenClass::Symbol(Symbol::RightParen)),
        Opener::List => matches!(class, TokenClass::Symbol(Symbol::RightBracket)),
    }
}

pub fn in_items(
    alloc: Global,
    opener: Opener,
    items: Row,
    measured: Measured,
    class: &TokenClass,
) -> Result<FrameStep, NoMemory>
    requires opener { ValidOpener opener }
    requires items { AreMeasured items }
    requires measured { IsMeasured measured }
    ensures { Meets measured (Frame.InItems opener items) class.now result }
{
    let items = items.with(measured)?;
    if is_comma(class) {
        return Ok(FrameStep::Next(Progress::ItemsComma(opener, items)));
    }
    if !closes(&opener, class) {
        drop(opener);
        drop(items);
        return Ok(FrameStep::Stuck);
    }
    let measured = made(alloc, opener, items, false)?;
    Ok(FrameStep::Opens(Frame::PostRest, Progress::Have(measured)))
}

pub fn index_first(
    alloc: Global,
    of: Measured,
    measured: Measured,
    class: &TokenClass,
) -> Result<FrameStep, NoMemory>
    requires of { IsMeasured of }
    requires measured { IsMeasured measured }
    ensures { Meets measured (Frame.IndexFirst of) class.now result }
{
    match class {
        TokenClass::Symbol(Symbol::Comma) => {
            let items = Row::new(alloc).with(measured)?;
            Ok(FrameStep::Opens(Frame::InIndex(of), Progress::AfterComma(items)))
        }
        TokenClass::Symbol(Symbol::Colon) => Ok(FrameStep::Next(Progress::SliceColon(
            of,
            Some(measured),
        ))),
        TokenClass::Symbol(Symbol::RightBracket) => {
            let whole = index(alloc, of, measured)?;
            Ok(FrameStep::Opens(Frame::PostRest, Progress::Have(whole)))
        }
        _ => {
            drop(of);
            drop(measured);
            Ok(FrameStep::Stuck)
        }
    }
}

pub fn in_index(
    alloc: Global,
    of: Measured,
    measured: Measured,
    class: &TokenClass,
) -> Result<FrameStep, NoMemory>
    requires of { IsMeasured of }
    requires measured { IsMeasured measured }
    ensures { Meets measured (Frame.InIndex of) class.now result }
{
    match class {
        TokenClass::Symbol(Symbol::RightBracket) => {
            let whole = index(alloc, of, measured)?;
            Ok(FrameStep::Opens(Frame::PostRest, Progress::Have(whole)))
        }
        _ => {
            drop(of);
            drop(measured);
            Ok(FrameStep::Stuck)
        }
    }
}

pub fn slice_to(
    alloc: Global,
    of: Measured,
    from: Option<Measured>,
    measured: Measured,
    class: &TokenClass,
) -> Result<FrameStep, NoMemory>
    requires of { IsMeasured of }
    requires from { ValidBound from }
    requires measured { IsMeasured measured }
    ensures { Meets measured (Frame.SliceTo of from) class.now result }
{
    match class {
        TokenClass::Symbol(Symbol::RightBracket) => {
            let whole = slice(alloc, of, from, Some(measured))?;
            Ok(FrameStep::Opens(Frame::PostRest, Progress::Have(whole)))
        }
        _ => {
            drop(of);
            drop(from);
            drop(measured);
            Ok(FrameStep::Stuck)
        }
    }
}

pub fn in_paren(
    alloc: Global,
    measured: Measured,
    class: &TokenClass,
) -> Result<FrameStep, NoMemory>
    requires { IsMeasured measured }
    ensures { Meets measured Frame.InParen class.now result }
{
    match class {
        TokenClass::Symbol(Symbol::RightParen) => {
            let whole = paren(alloc, measured)?;
            Ok(FrameStep::Opens(Frame::PostRest, Progress::Have(whole)))
        }
        _ => {
            drop(measured);
            Ok(FrameStep::Stuck)
        }
    }
}

pub fn in_key(entries: Entries, measured: Measured, class: &TokenClass) -> FrameStep
    requires entries { AreEntries entries }
    requires measured { IsMeasured measured }
    ensures { MeetsAs measured (Frame.InKey entries) class.now result }
{
    match class {
        TokenClass::Symbol(Symbol::Colon) => FrameStep::Opens(
            Frame::InValue(entries, measured),
            Progress::Want(Precedence::Expr),
        ),
        _ => FrameStep::Stuck,
    }
}

pub fn in_value(
    alloc: Global,
    entries: Entries,
    key: Measured,
    measured: Measured,
    class: &TokenClass,
) -> Result<FrameStep, NoMemory>
    requires entries { AreEntries entries }
    requires key { IsMeasured key }
    requires measured { IsMeasured measured }
    ensures { Meets measured (Frame.InValue entries key) class.now result }
{
    match class {
        TokenClass::Symbol(Symbol::Comma) => Ok(FrameStep::Next(Progress::DictComma(entries.with(
            key, measured,
        )?))),
        TokenClass::Symbol(Symbol::RightBrace) => {
            let whole = dict(alloc, entries.with(key, measured)?, false)?;
            Ok(FrameStep::Opens(Frame::PostRest, Progress::Have(whole)))
        }
        _ => {
            drop(entries);
            drop(key);
            drop(measured);
            Ok(FrameStep::Stuck)
        }
    }
}
