// What a frame does with a token after the part that it waits for: one function for each frame.

ghost use Rattle.std.specs.Prelude.{◌≡◌, Bool, cond};
ghost use Rattle.py_syntax.specs.Tree.{Exprs, no_exprs, no_pairs, no_links, absent};
ghost use Rattle.py_grammar.specs.TokenClasses.{operator_precedence};
ghost use Rattle.py_grammar.specs.TokenClasses as classes_;
ghost use Rattle.py_grammar.specs.Machine.{exprs_first, exprs_rest, cond_first, cond_test, first, right, compare_first, compare_rest, post_rest, in_items, index_first, in_index, slice_to, in_paren, in_key, in_value, Ctx, on, Have, Out, Next, close_items};
ghost use Rattle.py_grammar.specs.Bare.{bare_out};
ghost use Rattle.py_grammar.specs.Least.{least_name};
ghost use Rattle.py_parse_fields.specs.Frames.{view_precedence, view_frame, view_class, view_opener};
ghost use Rattle.py_parse_fields.specs.Reader.{Offers};

use crate::frames::{Frame, Opener};
use crate::operators::Precedence;
use crate::reader::Progress;
use crate::token_classes::{Symbol, TokenClass};
use py_operator::CmpOp;

/// What a frame does with a token after the part that it waits for.
#[derive(Clone, Copy)]
pub enum Reply {
    /// The part is whole, and the next frame is asked.
    Pass,
    Stuck,
    Goes(Progress),
    Opens(Frame, Progress),
}

/// After an operand that may be the left one of an operator of that precedence.
fn join(precedence: Precedence, class: TokenClass) -> Reply
    ensures first { Offers (first (view_precedence precedence)) (view_class class) result }
    ensures right { (j : classes_.BinaryOperator)
        → operator_precedence j ≡ view_precedence precedence
        → Offers (right j least_name) (view_class class) result }
{
    match class {
        TokenClass::Symbol(Symbol::BinaryOperator(operator)) => {
            if precedence.is(operator.precedence()) {
                return Reply::Opens(Frame::Right(operator), Progress::Want(operator.right()));
            }
            Reply::Pass
        }
        _ => Reply::Pass,
    }
}

/// After an operand of a chain of comparisons.
fn chain(class: TokenClass) -> Reply
    ensures first { Offers compare_first (view_class class) result }
    ensures rest { (op : CmpOp)
        → Offers (compare_rest least_name no_links op) (view_class class) result }
{
    match class {
        TokenClass::Symbol(Symbol::Compare(op)) => Reply::Opens(
            Frame::CompareRest(op),
            Progress::Want(Precedence::Sum),
        ),
        TokenClass::Symbol(Symbol::Not) => Reply::Goes(Progress::AfterNot),
        TokenClass::Symbol(Symbol::Is) => Reply::Goes(Progress::AfterIs),
        _ => Reply::Pass,
    }
}

/// After what may be called, indexed or asked for a name.
fn postfix(class: TokenClass) -> Reply
    ensures { Offers post_rest (view_class class) result }
{
    match class {
        TokenClass::Symbol(Symbol::LeftParen) => Reply::Goes(Progress::ItemsOpen(Opener::Call)),
        TokenClass::Symbol(Symbol::LeftBracket) => Reply::Goes(Progress::IndexOpen),
        TokenClass::Symbol(Symbol::Dot) => Reply::Goes(Progress::AfterDot),
        _ => Reply::Pass,
    }
}

/// What closes a bracket with items.
pub fn closes(opener: Opener, class: TokenClass) -> bool
    ensures { (es : Exprs) (c : Bool) (k : Ctx) (o : Out)
        → bare_out (close_items (view_opener opener) es c k (view_class class) o)
        ≡ cond result (bare_out (Next (Have least_name (on post_rest k)))) (bare_out o) }
{
    match opener {
        Opener::Call => matches!(class, TokenClass::Symbol(Symbol::RightParen)),
        Opener::List => matches!(class, TokenClass::Symbol(Symbol::RightBracket)),
    }
}

/// After an item of a call or a list.
fn item(opener: Opener, class: TokenClass) -> Reply
    ensures { Offers (in_items (view_opener opener) no_exprs) (view_class class) result }
{
    if matches!(class, TokenClass::Symbol(Symbol::Comma)) {
        return Reply::Goes(Progress::ItemsComma(opener));
    }
    if closes(opener, class) {
        return Reply::Opens(Frame::PostRest, Progress::Have);
    }
    Reply::Stuck
}

/// After the first `expr` of an index or a slice.
fn index(class: TokenClass) -> Reply
    ensures { Offers (index_first least_name) (view_class class) result }
{
    match class {
        TokenClass::Symbol(Symbol::Comma) => Reply::Opens(Frame::InIndex, Progress::AfterComma),
        TokenClass::Symbol(Symbol::Colon) => Reply::Goes(Progress::SliceColon),
        TokenClass::Symbol(Symbol::RightBracket) => Reply::Opens(Frame::PostRest, Progress::Have),
        _ => Reply::Stuck,
    }
}

/// After the last part in square brackets.
fn index_end(class: TokenClass) -> Reply
    ensures index { Offers (in_index least_name) (view_class class) result }
    ensures slice { Offers (slice_to least_name absent) (view_class class) result }
{
    match class {
        TokenClass::Symbol(Symbol::RightBracket) => Reply::Opens(Frame::PostRest, Progress::Have),
        _ => Reply::Stuck,
    }
}

/// After a value of a dict.
fn entry(class: TokenClass) -> Reply
    ensures { Offers (in_value no_pairs least_name) (view_class class) result }
{
    match class {
        TokenClass::Symbol(Symbol::Comma) => Reply::Goes(Progress::DictComma),
        TokenClass::Symbol(Symbol::RightBrace) => Reply::Opens(Frame::PostRest, Progress::Have),
        _ => Reply::Stuck,
    }
}

/// After an `expr` that may be one of several.
fn several(class: TokenClass) -> Reply
    ensures first { Offers exprs_first (view_class class) result }
    ensures rest { Offers (exprs_rest least_name no_exprs) (view_class class) result }
{
    match class {
        TokenClass::Symbol(Symbol::Comma) => Reply::Goes(Progress::AfterComma),
        _ => Reply::Pass,
    }
}

/// After the body of a conditional expression.
fn condition(class: TokenClass) -> Reply
    ensures { Offers cond_first (view_class class) result }
{
    match class {
        TokenClass::Symbol(Symbol::If) => Reply::Opens(
            Frame::CondTest,
            Progress::Want(Precedence::Or),
        ),
        _ => Reply::Pass,
    }
}

/// After its test.
fn test(class: TokenClass) -> Reply
    ensures { Offers (cond_test least_name) (view_class class) result }
{
    match class {
        TokenClass::Symbol(Symbol::Else) => Reply::Opens(
            Frame::CondElse,
            Progress::Want(Precedence::Expr),
        ),
        _ => Reply::Stuck,
    }
}

/// After what stands in round brackets.
fn paren(class: TokenClass) -> Reply
    ensures { Offers in_paren (view_class class) result }
{
    match class {
        TokenClass::Symbol(Symbol::RightParen) => Reply::Opens(Frame::PostRest, Progress::Have),
        _ => Reply::Stuck,
    }
}

/// After a key of a dict.
fn key(class: TokenClass) -> Reply
    ensures { Offers (in_key no_pairs) (view_class class) result }
{
    match class {
        TokenClass::Symbol(Symbol::Colon) => Reply::Opens(
            Frame::InValue,
            Progress::Want(Precedence::Expr),
        ),
        _ => Reply::Stuck,
    }
}

/// What a frame does with a token after the part that it waits for.
pub fn offer(frame: Frame, class: TokenClass) -> Reply
    ensures { Offers (view_frame frame) (view_class class) result }
{
    match frame {
        Frame::ExprsFirst => several(class),
        Frame::ExprsRest => several(class),
        Frame::CondFirst => condition(class),
        Frame::CondTest => test(class),
        Frame::CondElse => Reply::Pass,
        Frame::First(precedence) => join(precedence, class),
        Frame::Right(operator) => join(operator.precedence(), class),
        Frame::NotOf => Reply::Pass,
        Frame::CompareFirst => chain(class),
        Frame::CompareRest(_) => chain(class),
        Frame::UnaryOf(_) => Reply::Pass,
        Frame::PostRest => postfix(class),
        Frame::InItems(opener) => item(opener, class),
        Frame::IndexFirst => index(class),
        Frame::InIndex => index_end(class),
        Frame::SliceTo => index_end(class),
        Frame::InParen => paren(class),
        Frame::InKey => key(class),
        Frame::InValue => entry(class),
    }
}
