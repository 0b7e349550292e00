// What tokens an expression goes on with, told without its trees.

ghost use Rattle.std.specs.Prelude.{◌≡◌, cond};
ghost use Rattle.py_syntax.specs.Normal.{LUnary};
ghost use Rattle.py_grammar.specs.TokenClasses.{t_not};
ghost use Rattle.py_grammar.specs.Machine.{post_rest, unary_of, on, Want, Have, Next, Stuck, upto_term, at_most, give, begin, step};
ghost use Rattle.py_grammar.specs.Least.{least_name};
ghost use Rattle.py_parse_fields.specs.Frames.{view_precedence, view_frame, view_stack, view_symbol, view_class};
ghost use Rattle.py_parse_fields.specs.Reader.{view_at, view_turn, view_reader, Acts, Steps, Reaches};

use crate::frames::{Frame, Opener, pop, push, raise_to_not, raise_to_unary};
use crate::operators::{BinaryOperator, Precedence};
use crate::replies::{Reply, closes, offer};
use crate::token_classes::{Symbol, TokenClass};
use py_operator::{BinOp, CmpOp};
use py_syntax::Sign;
use py_text::NoMemory;

/// What stands in front of the next token.
#[derive(Clone, Copy)]
pub enum Progress {
    Want(Precedence),
    Have,
    Strings,
    AfterOpen,
    AfterComma,
    ItemsOpen(Opener),
    ItemsComma(Opener),
    DictOpen,
    DictComma,
    IndexOpen,
    SliceColon,
    AfterDot,
    AfterNot,
    AfterIs,
    AfterIsNot,
    Linked,
}

#[derive(Drop)]
pub struct Reader {
    pub frames: Vec<Frame>,
    pub progress: Progress,
}

/// What a token does. Left: the outermost expression is whole, and the token isn't taken.
#[derive(Drop)]
pub enum Turn {
    Next(Reader),
    Stuck,
    Left,
}

fn next(frames: Vec<Frame>, progress: Progress) -> Turn
    ensures { view_turn result ≡ Next (view_at progress (view_stack frames.items)) }
{
    Turn::Next(Reader { frames, progress })
}

/// An expression is whole as far as the frames know.
fn give(frames: Vec<Frame>, class: TokenClass) -> Result<Turn, NoMemory>
    ensures { Acts (give least_name (view_stack frames.items) (view_class class)) result }
{
    let mut frames = frames;
    'frames: while let Some(frame) = pop(&mut frames) {
        match offer(frame, class) {
            Reply::Pass => {}
            Reply::Stuck => return Ok(Turn::Stuck),
            Reply::Goes(progress) => return Ok(next(frames, progress)),
            Reply::Opens(inner, progress) => return open(frames, inner, progress),
        }
    }
    Ok(Turn::Left)
}

/// A frame is opened.
fn open(frames: Vec<Frame>, frame: Frame, progress: Progress) -> Result<Turn, NoMemory>
    ensures { Reaches progress (λ k. on (view_frame frame) k) frames.items result }
{
    let mut frames = frames;
    push(&mut frames, frame)?;
    Ok(next(frames, progress))
}

/// A bracket begins an operand.
fn bracket(precedence: Precedence, frames: Vec<Frame>, progress: Progress) -> Result<Turn, NoMemory>
    ensures { Reaches progress (upto_term (view_precedence precedence)) frames.items result }
{
    let mut frames = frames;
    raise_to_unary(precedence, &mut frames)?;
    Ok(next(frames, progress))
}

/// A token is an operand.
fn operand(precedence: Precedence, frames: Vec<Frame>, progress: Progress) -> Result<Turn, NoMemory>
    ensures { Reaches progress (λ k. on post_rest (upto_term (view_precedence precedence) k))
        frames.items result }
{
    let mut frames = frames;
    raise_to_unary(precedence, &mut frames)?;
    open(frames, Frame::PostRest, progress)
}

/// A sign begins an operand.
fn signed(precedence: Precedence, frames: Vec<Frame>, sign: Sign) -> Result<Turn, NoMemory>
    ensures { Acts (cond (at_most (view_precedence precedence) LUnary) (Next (Want LUnary
        (on (unary_of sign) (upto_term (view_precedence precedence) (view_stack frames.items)))))
        Stuck) result }
{
    if !precedence.at_most(Precedence::Unary) {
        return Ok(Turn::Stuck);
    }
    let mut frames = frames;
    raise_to_unary(precedence, &mut frames)?;
    open(
        frames,
        Frame::UnaryOf(sign),
        Progress::Want(Precedence::Unary),
    )
}

/// A `not` begins an operand.
fn negated(precedence: Precedence, frames: Vec<Frame>) -> Result<Turn, NoMemory>
    ensures { Acts (begin (view_precedence precedence) (view_stack frames.items) t_not) result }
{
    if !precedence.at_most(Precedence::Not) {
        return Ok(Turn::Stuck);
    }
    let mut frames = frames;
    raise_to_not(precedence, &mut frames)?;
    open(frames, Frame::NotOf, Progress::Want(Precedence::Not))
}

/// A token that is no expression by itself begins one of that precedence, or of a tighter one.
fn begin_by(precedence: Precedence, frames: Vec<Frame>, symbol: Symbol) -> Result<Turn, NoMemory>
    ensures { Acts (begin (view_precedence precedence) (view_stack frames.items)
        (view_symbol symbol)) result }
{
    match symbol {
        Symbol::Not => negated(precedence, frames),
        Symbol::BinaryOperator(BinaryOperator::Op(BinOp::Add)) => signed(
            precedence,
            frames,
            Sign::Plus,
        ),
        Symbol::BinaryOperator(BinaryOperator::Op(BinOp::Sub)) => signed(
            precedence,
            frames,
            Sign::Minus,
        ),
        Symbol::LeftParen => bracket(precedence, frames, Progress::AfterOpen),
        Symbol::LeftBracket => bracket(precedence, frames, Progress::ItemsOpen(Opener::List)),
        Symbol::LeftBrace => bracket(precedence, frames, Progress::DictOpen),
        _ => Ok(Turn::Stuck),
    }
}

/// An expression of that precedence, or of a tighter one, begins.
fn begin(precedence: Precedence, frames: Vec<Frame>, class: TokenClass) -> Result<Turn, NoMemory>
    ensures { Steps (Progress.Want precedence) frames.items class result }
{
    match class {
        TokenClass::Name => operand(precedence, frames, Progress::Have),
        TokenClass::Number => operand(precedence, frames, Progress::Have),
        TokenClass::Constant => operand(precedence, frames, Progress::Have),
        TokenClass::Text => operand(precedence, frames, Progress::Strings),
        TokenClass::BadFormat => Ok(Turn::Stuck),
        TokenClass::Symbol(symbol) => begin_by(precedence, frames, symbol),
    }
}

/// The same in a frame.
fn begin_in(
    frames: Vec<Frame>,
    frame: Frame,
    precedence: Precedence,
    class: TokenClass,
) -> Result<Turn, NoMemory>
    ensures { Acts (begin (view_precedence precedence)
        (on (view_frame frame) (view_stack frames.items)) (view_class class)) result }
{
    let mut frames = frames;
    push(&mut frames, frame)?;
    begin(precedence, frames, class)
}

/// What was read may be called, indexed or asked for a name.
fn closed(frames: Vec<Frame>) -> Result<Turn, NoMemory>
    ensures { Acts (Next (Have least_name (on post_rest (view_stack frames.items)))) result }
{
    open(frames, Frame::PostRest, Progress::Have)
}

/// After the bracket of a call or a list, or a comma in it.
fn items(opener: Opener, frames: Vec<Frame>, class: TokenClass) -> Result<Turn, NoMemory>
    ensures open { Steps (Progress.ItemsOpen opener) frames.items class result }
    ensures comma { Steps (Progress.ItemsComma opener) frames.items class result }
{
    if closes(opener, class) {
        return closed(frames);
    }
    begin_in(frames, Frame::InItems(opener), Precedence::Expr, class)
}

/// After the brace of a dict, or a comma in it.
fn entries(frames: Vec<Frame>, class: TokenClass) -> Result<Turn, NoMemory>
    ensures open { Steps Progress.DictOpen frames.items class result }
    ensures comma { Steps Progress.DictComma frames.items class result }
{
    match class {
        TokenClass::Symbol(Symbol::RightBrace) => closed(frames),
        rest => begin_in(frames, Frame::InKey, Precedence::Expr, rest),
    }
}

/// After a comma of a tuple.
fn after_comma(frames: Vec<Frame>, class: TokenClass) -> Result<Turn, NoMemory>
    ensures { Steps Progress.AfterComma frames.items class result }
{
    if class.begins() {
        return begin_in(frames, Frame::ExprsRest, Precedence::Expr, class);
    }
    give(frames, class)
}

/// After what stands after `is`.
fn linked(frames: Vec<Frame>, class: TokenClass) -> Result<Turn, NoMemory>
    ensures { Steps Progress.Linked frames.items class result }
{
    match class {
        TokenClass::Symbol(Symbol::Compare(op)) => open(
            frames,
            Frame::CompareRest(op),
            Progress::Want(Precedence::Sum),
        ),
        TokenClass::Symbol(Symbol::Not) => Ok(next(frames, Progress::AfterNot)),
        TokenClass::Symbol(Symbol::Is) => Ok(next(frames, Progress::AfterIs)),
        rest => give(frames, rest),
    }
}

/// After a string, or several.
fn strings(frames: Vec<Frame>, class: TokenClass) -> Result<Turn, NoMemory>
    ensures { Steps Progress.Strings frames.items class result }
{
    match class {
        TokenClass::Text => Ok(next(frames, Progress::Strings)),
        TokenClass::BadFormat => Ok(Turn::Stuck),
        rest => give(frames, rest),
    }
}

/// After the `not` of `not in`.
fn after_not(frames: Vec<Frame>, class: TokenClass) -> Result<Turn, NoMemory>
    ensures { Steps Progress.AfterNot frames.items class result }
{
    match class {
        TokenClass::Symbol(Symbol::Compare(CmpOp::In)) => open(
            frames,
            Frame::CompareRest(CmpOp::NotIn),
            Progress::Want(Precedence::Sum),
        ),
        _ => Ok(Turn::Stuck),
    }
}

/// After `is`.
fn after_is(frames: Vec<Frame>, class: TokenClass) -> Result<Turn, NoMemory>
    ensures { Steps Progress.AfterIs frames.items class result }
{
    match class {
        TokenClass::Symbol(Symbol::Not) => Ok(next(frames, Progress::AfterIsNot)),
        TokenClass::Constant => Ok(next(frames, Progress::Linked)),
        _ => Ok(Turn::Stuck),
    }
}

/// After `is not`.
fn after_is_not(frames: Vec<Frame>, class: TokenClass) -> Result<Turn, NoMemory>
    ensures { Steps Progress.AfterIsNot frames.items class result }
{
    match class {
        TokenClass::Constant => Ok(next(frames, Progress::Linked)),
        _ => Ok(Turn::Stuck),
    }
}

/// What a token does.
pub fn act(reader: Reader, class: TokenClass) -> Result<Turn, NoMemory>
    ensures { Acts (step (view_reader reader) (view_class class)) result }
{
    let Reader { frames, progress } = reader;
    match progress {
        Progress::Want(precedence) => begin(precedence, frames, class),
        Progress::Have => give(frames, class),
        Progress::Strings => strings(frames, class),
        Progress::AfterOpen => match class {
            TokenClass::Symbol(Symbol::RightParen) => closed(frames),
            rest => begin_in(frames, Frame::InParen, Precedence::Exprs, rest),
        },
        Progress::AfterComma => after_comma(frames, class),
        Progress::ItemsOpen(opener) => items(opener, frames, class),
        Progress::ItemsComma(opener) => items(opener, frames, class),
        Progress::DictOpen => entries(frames, class),
        Progress::DictComma => entries(frames, class),
        Progress::IndexOpen => match class {
            TokenClass::Symbol(Symbol::Colon) => Ok(next(frames, Progress::SliceColon)),
            rest => begin_in(frames, Frame::IndexFirst, Precedence::Expr, rest),
        },
        Progress::SliceColon => match class {
            TokenClass::Symbol(Symbol::RightBracket) => closed(frames),
            rest => begin_in(frames, Frame::SliceTo, Precedence::Expr, rest),
        },
        Progress::AfterDot => match class {
            TokenClass::Name => closed(frames),
            _ => Ok(Turn::Stuck),
        },
        Progress::AfterNot => after_not(frames, class),
        Progress::AfterIs => after_is(frames, class),
        Progress::AfterIsNot => after_is_not(frames, class),
        Progress::Linked => linked(frames, class),
    }
}
