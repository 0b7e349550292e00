//! The words of patterns, and of names that statements bind.
ghost use Rattle.std.specs.Prelude.{◌≡◌, ◌∷◌, [], ◌++◌};
ghost use Rattle.py_syntax.specs.View.{plain_constant, plain_pattern, plain_patterns, plain_aliases};
ghost use Rattle.cov_pieces.specs.Pieces.{words};
ghost use Rattle.cov_pieces.specs.Views.{Adds};
ghost use Rattle.cov_pieces.specs.Words.{truth, brackets_number, list_words, constant_words, pattern_words, patterns_words, import_words, alias_words, bound_words};

use crate::expressions::texts;
use crate::outline::Outline;
use crate::piece::Piece;
use py_syntax::{Alias, Brackets, Constant, Pattern};
use py_text::Text;

/// Adds the words of a pattern.
#[cycle(pattern)]
pub(crate) fn pattern<'a>(out: &mut Outline<'a>, p: &'a Pattern)
    ensures { Adds out.old out.new (words (pattern_words (plain_pattern p.now))) }
{
    match p {
        Pattern::Literal { minus, value } => {
            out.number(0);
            out.truth(*minus);
            constant(out, value)
        }
        Pattern::Capture(x) => {
            out.number(1);
            out.push(Piece::Assigned(x))
        }
        Pattern::Wild => out.number(2),
        Pattern::Member(of, x) => {
            out.number(3);
            out.push(Piece::Name(of));
            out.push(Piece::Name(x))
        }
        Pattern::Sequence {
            brackets,
            items,
            comma,
        } => {
            out.number(4);
            out.number(brackets_number(*brackets));
            patterns(out, items);
            out.truth(*comma)
        }
        Pattern::Or(items) => {
            out.number(5);
            patterns(out, items)
        }
        Pattern::As(inner, x) => {
            out.number(6);
            pattern(out, inner);
            out.push(Piece::Assigned(x))
        }
        Pattern::Paren(inner) => {
            out.number(7);
            pattern(out, inner)
        }
    }
}

#[cycle(pattern)]
fn patterns<'a>(out: &mut Outline<'a>, items: &'a [Pattern])
    ensures { Adds out.old out.new (words (patterns_words (plain_patterns items.now))) }
{
    for p in items {
        out.number(1);
        pattern(out, p);
    }
    out.number(0)
}

fn constant<'a>(out: &mut Outline<'a>, value: &'a Constant)
    ensures { Adds out.old out.new (words (constant_words (plain_constant value.now))) }
{
    match value {
        Constant::Int(n) => {
            out.number(0);
            out.push(Piece::Int(n))
        }
        Constant::Str(pieces) => {
            out.number(1);
            texts(out, pieces)
        }
        Constant::None => out.number(2),
        Constant::Bool(b) => {
            out.number(3);
            out.truth(*b)
        }
    }
}

fn brackets_number(brackets: Brackets) -> u32
    ensures { result ≡ brackets_number brackets }
{
    match brackets {
        Brackets::Round => 0,
        Brackets::Square => 1,
        Brackets::Bare => 2,
    }
}

/// Adds the words of names that are imported.
pub(crate) fn aliases<'a>(out: &mut Outline<'a>, names: &'a [Alias])
    ensures { Adds out.old out.new (words (list_words alias_words (plain_aliases names.now))) }
{
    for alias in names {
        out.number(1);
        imported(out, &alias.name, &alias.bound);
    }
    out.number(0)
}

fn imported<'a>(out: &mut Outline<'a>, name: &'a Text, other: &'a Option<Text>)
    ensures { Adds out.old out.new (words (import_words name.now other.now)) }
{
    match other {
        None => {
            out.number(0);
            out.push(Piece::Assigned(name))
        }
        Some(x) => {
            out.number(1);
            out.push(Piece::Name(name));
            out.push(Piece::Assigned(x))
        }
    }
}

/// Adds the name of an exception, which may be missing.
pub(crate) fn exception<'a>(out: &mut Outline<'a>, name: &'a Option<Text>)
    ensures { Adds out.old out.new (words (bound_words name.now)) }
{
    match name {
        None => out.number(0),
        Some(x) => {
            out.number(1);
            out.push(Piece::Assigned(x))
        }
    }
}
