// Patterns, a token at a time.

ghost use Rattle.std.specs.Prelude.{◌≡◌, ◌≢◌, ◌+◌, ◌≤◌, reverse};
ghost use Rattle.py_syntax.specs.Tree.{no_patterns, literal};
ghost use Rattle.py_syntax.specs.Normal.{pattern_height};
ghost use Rattle.py_syntax.specs.Spelling.{HEIGHT};
ghost use Rattle.py_syntax.specs.View.{plain_pattern, plain_constant};
ghost use Rattle.py_parse_pattern.specs.Machine.{a_comma, snoc, stack, Want, Have, Next, begin, wanting, shut, leave, give, act, inside};
ghost use Rattle.py_parse_pattern.specs.Heights.{levels};
ghost use Rattle.py_parse_pattern.specs.Views.{view_class, view_measured, view_many, AreMeasured};
ghost use Rattle.py_parse_pattern.specs.Rows.{view_frames, view_row, view_rows, view_at, view_reader, ValidRow, ValidRows, ValidFrames, ValidMeasured, ValidAt, Valid, SLACK, ActsAs, Acts, Pops, ValidPops, depth_after};

use crate::nodes::{
    Many, Measured, enclosed, ended, is_underscore, joined, listed, low, named, renamed, trailed,
};
use crate::token_classes::{Bracket, TokenClass, same_bracket};
use py_syntax::{Constant, Pattern};
use py_text::{NoMemory, Text};
use std::alloc::Global;

/// A row of patterns: the items with a comma after them, the alternatives of the next one, each
/// with a bar after it, and how many nodes stand above an item.
#[derive(Drop)]
pub struct Row {
    pub items: Many,
    pub alternatives: Many,
    pub depth: usize,
}

/// A bracket that is open, and the row that it stands in.
#[derive(Drop)]
pub struct Frame {
    pub bracket: Bracket,
    pub outer: Row,
}

/// The innermost row, and the brackets that are open round it, the innermost last.
#[derive(Drop)]
pub struct Rows {
    pub row: Row,
    pub frames: Vec<Frame>,
}

/// What of a pattern stands after what the rows hold.
#[derive(Drop)]
pub enum Progress {
    Want,
    Minus,
    Named(Text),
    Dotted(Text),
    Strings(Vec<Text>),
    Have(Measured),
    /// After `as`; the row has no alternatives.
    Naming(Measured),
    /// After the name that follows `as`; the row has no alternatives.
    Item(Measured),
}

pub struct Reader {
    pub rows: Rows,
    pub progress: Progress,
}

// Written out, and not derived, so that letting it go is one call wherever that happens.
impl Drop for Reader {
    fn drop(self) {
        let Reader { rows, progress } = self;
        drop(rows);
        drop(progress)
    }
}

/// What a token does. Left: the outermost pattern is whole, and the token isn't taken.
#[derive(Drop)]
pub enum Turn {
    Next(Reader),
    Stuck,
    Deep,
    Left(Measured),
}

fn next(rows: Rows, progress: Progress) -> Turn
    requires rows { ValidRows SLACK rows }
    requires at { ValidAt SLACK progress }
    ensures { ActsAs (Next (view_at progress rows)) result }
{
    Turn::Next(Reader { rows, progress })
}

/// A closed pattern of one node is whole.
fn one_node(rows: Rows, pattern: Pattern) -> Turn
    requires rows { ValidRows HEIGHT rows }
    requires node { pattern_height (plain_pattern pattern) ≡ 1 }
    ensures { ActsAs (Next (Have (plain_pattern pattern) (view_rows rows))) result }
{
    next(rows, Progress::Have(low(pattern)))
}

fn literal(minus: bool, value: Constant) -> Pattern
    ensures { plain_pattern result ≡ literal minus (plain_constant value) }
{
    Pattern::Literal { minus, value }
}

/// How many nodes the alternatives add above the next one.
pub fn levels(alternatives: &Many) -> usize
    ensures { result ≡ levels (view_many alternatives.now) }
{
    if alternatives.is_some() { 1 } else { 0 }
}

/// A bracket opens a row of its own.
fn open(alloc: Global, rows: Rows, bracket: Bracket) -> Result<Turn, NoMemory>
    requires { ValidRows HEIGHT rows }
    ensures { Acts (Next (Want (inside bracket (view_rows rows)))) result }
{
    let Rows { row, frames } = rows;
    let mut frames = frames;
    let inner = Row {
        items: Many::new(alloc),
        alternatives: Many::new(alloc),
        depth: row.depth + levels(&row.alternatives) + 1,
    };
    frames.push(Frame {
        bracket,
        outer: row,
    })?;
    Ok(next(Rows { row: inner, frames }, Progress::Want))
}

/// The innermost bracket that is open.
fn innermost(frames: &mut Vec<Frame>) -> Option<Frame>
    ensures frames { Pops result (view_frames frames.old.items) (view_frames frames.new.items) }
    ensures valid { ValidFrames (reverse frames.old.items)
        → ValidPops result (view_frames frames.new.items) (reverse frames.new.items) }
{
    frames.pop()
}

/// A closed pattern in the row round a bracket.
fn after(frame: Frame, frames: Vec<Frame>, measured: Measured) -> Turn
    requires row { ValidRow HEIGHT frame.outer (view_frames frames.items) }
    requires frames { ValidFrames (reverse frames.items) }
    requires measured { ValidMeasured SLACK measured }
    ensures { ActsAs (Next (Have (view_measured measured)
        (view_row frame.outer (view_frames frames.items)))) result }
{
    next(
        Rows {
            row: frame.outer,
            frames,
        },
        Progress::Have(measured),
    )
}

/// A list with no brackets ends after these items, each with its comma.
fn leave(items: Many) -> Turn
    requires are { AreMeasured items }
    requires low { items.height ≤ HEIGHT }
    ensures { ActsAs (leave (view_many items)) result }
{
    if items.is_some() {
        return Turn::Left(trailed(items));
    }
    Turn::Stuck
}

/// A row ends after its items, each with its comma.
fn shut(rows: Rows, class: TokenClass) -> Turn
    requires { ValidRows HEIGHT rows }
    ensures { ActsAs (shut (view_many rows.row.items) (view_frames rows.frames.items)
        (view_class class)) result }
{
    let Rows { row, frames } = rows;
    let mut frames = frames;
    match innermost(&mut frames) {
        None => {
            drop(class);
            leave(row.items)
        }
        Some(frame) => match class {
            TokenClass::Close(bracket) => {
                if !same_bracket(frame.bracket, bracket) {
                    return Turn::Stuck;
                }
                let measured = ended(frame.bracket, row.items);
                after(frame, frames, measured)
            }
            other => {
                drop(other);
                Turn::Stuck
            }
        },
    }
}

/// No pattern begins.
fn wanting(rows: Rows, class: TokenClass) -> Turn
    requires { ValidRows HEIGHT rows }
    ensures { ActsAs (wanting (view_rows rows) (view_class class)) result }
{
    if rows.row.alternatives.is_some() {
        drop(class);
        return Turn::Stuck;
    }
    shut(rows, class)
}

/// A pattern begins, or its row ends.
fn begin(alloc: Global, rows: Rows, class: TokenClass) -> Result<Turn, NoMemory>
    requires { ValidRows HEIGHT rows }
    ensures { Acts (begin (view_rows rows) (view_class class)) result }
{
    match class {
        TokenClass::Name(name) => Ok(next(rows, Progress::Named(name))),
        TokenClass::Number(number) => { Ok(one_node(rows, literal(false, Constant::Int(number)))) }
        TokenClass::Str(text) => {
            let mut texts = Vec::new(alloc);
            texts.push(text)?;
            Ok(next(rows, Progress::Strings(texts)))
        }
        TokenClass::NoneWord => Ok(one_node(rows, literal(false, Constant::None))),
        TokenClass::Bool(is) => Ok(one_node(rows, literal(false, Constant::Bool(is)))),
        TokenClass::Minus => Ok(next(rows, Progress::Minus)),
        TokenClass::Open(bracket) => open(alloc, rows, bracket),
        rest => Ok(wanting(rows, rest)),
    }
}

/// How many nodes stand above an item that has others in front of it.
fn depth_after(frames: &[Frame], depth: usize) -> usize
    ensures { result ≡ depth_after frames.now depth }
{
    if frames.is_empty() { 1 } else { depth }
}

/// The row after an item and its comma.
fn after_item(alloc: Global, measured: Measured, rows: Rows) -> Result<Turn, NoMemory>
    requires rows { ValidRows HEIGHT rows }
    requires measured { ValidMeasured (HEIGHT + 2) measured }
    ensures { Acts (Next (Want (stack (snoc (view_many rows.row.items) (view_measured measured))
        no_patterns (view_frames rows.frames.items)))) result }
{
    let Rows { row, frames } = rows;
    let mut items = row.items;
    items.push(measured)?;
    let depth = depth_after(&frames, row.depth);
    let row = Row {
        items,
        alternatives: Many::new(alloc),
        depth,
    };
    Ok(next(Rows { row, frames }, Progress::Want))
}

/// An item is whole.
fn offer(alloc: Global, measured: Measured, rows: Rows, class: TokenClass) -> Result<Turn, NoMemory>
    requires rows { ValidRows HEIGHT rows }
    requires measured { ValidMeasured (HEIGHT + 2) measured }
    ensures { Acts (act (view_at (Progress.Item measured) rows) (view_class class)) result }
{
    match class {
        TokenClass::Comma => after_item(alloc, measured, rows),
        rest => end_item(alloc, measured, rows, rest),
    }
}

/// An item is whole, and no comma stands after it.
fn end_item(
    alloc: Global,
    measured: Measured,
    rows: Rows,
    class: TokenClass,
) -> Result<Turn, NoMemory>
    requires rows { ValidRows HEIGHT rows }
    requires measured { ValidMeasured (HEIGHT + 2) measured }
    ensures { view_class class ≢ a_comma
        → Acts (act (view_at (Progress.Item measured) rows) (view_class class)) result }
{
    let Rows { row, frames } = rows;
    let mut frames = frames;
    match innermost(&mut frames) {
        None => {
            drop(class);
            Ok(Turn::Left(listed(row.items, measured)?))
        }
        Some(frame) => match class {
            TokenClass::Close(bracket) => {
                if !same_bracket(frame.bracket, bracket) {
                    return Ok(Turn::Stuck);
                }
                let measured = enclosed(alloc, frame.bracket, row.items, measured)?;
                Ok(after(frame, frames, measured))
            }
            other => {
                drop(other);
                Ok(Turn::Stuck)
            }
        },
    }
}

/// The row after an alternative and its bar.
fn after_bar(measured: Measured, rows: Rows) -> Result<Turn, NoMemory>
    requires rows { ValidRows HEIGHT rows }
    requires measured { ValidMeasured HEIGHT measured }
    ensures { Acts (Next (Want (stack (view_many rows.row.items)
        (snoc (view_many rows.row.alternatives) (view_measured measured))
        (view_frames rows.frames.items)))) result }
{
    let mut rows = rows;
    rows.row.alternatives.push(measured)?;
    Ok(next(rows, Progress::Want))
}

/// A row, and the alternatives in front of its next item.
fn parted(alloc: Global, rows: Rows) -> (Rows, Many)
    requires { ValidRows HEIGHT rows }
    ensures rows { ValidRows HEIGHT result.0 }
    ensures items { view_many result.0.row.items ≡ view_many rows.row.items }
    ensures frames { view_frames result.0.frames.items ≡ view_frames rows.frames.items }
    ensures alternatives { result.1 ≡ rows.row.alternatives }
{
    let Rows { row, frames } = rows;
    let outer = Row {
        items: row.items,
        alternatives: Many::new(alloc),
        depth: row.depth,
    };
    (Rows { row: outer, frames }, row.alternatives)
}

/// A closed pattern is whole.
fn give(alloc: Global, measured: Measured, rows: Rows, class: TokenClass) -> Result<Turn, NoMemory>
    requires rows { ValidRows HEIGHT rows }
    requires measured { ValidMeasured HEIGHT measured }
    ensures { Acts (give (view_measured measured) (view_rows rows) (view_class class)) result }
{
    match class {
        TokenClass::Bar => after_bar(measured, rows),
        TokenClass::As => {
            let (rows, alternatives) = parted(alloc, rows);
            let measured = joined(alternatives, measured)?;
            Ok(next(rows, Progress::Naming(measured)))
        }
        rest => {
            let (rows, alternatives) = parted(alloc, rows);
            match joined(alternatives, measured) {
                Ok(measured) => offer(alloc, measured, rows, rest),
                Err(error) => {
                    drop(rest);
                    Err(error)
                }
            }
        }
    }
}

/// After `as`, a name stands that isn't `_`.
fn rename(
    alloc: Global,
    measured: Measured,
    rows: Rows,
    class: TokenClass,
) -> Result<Turn, NoMemory>
    requires rows { ValidRows HEIGHT rows }
    requires measured { ValidMeasured HEIGHT measured }
    ensures { Acts (act (view_at (Progress.Naming measured) rows) (view_class class)) result }
{
    match class {
        TokenClass::Name(name) => {
            if is_underscore(&name) {
                return Ok(Turn::Stuck);
            }
            let measured = renamed(alloc, measured, name)?;
            Ok(next(rows, Progress::Item(measured)))
        }
        other => {
            drop(other);
            Ok(Turn::Stuck)
        }
    }
}

impl Reader {
    /// What a token does, whatever its height.
    pub fn act(self, alloc: Global, class: TokenClass) -> Result<Turn, NoMemory>
        requires { Valid HEIGHT self }
        ensures { Acts (act (view_reader self) (view_class class)) result }
    {
        let Reader { rows, progress } = self;
        match progress {
            Progress::Want => begin(alloc, rows, class),
            Progress::Minus => match class {
                TokenClass::Number(number) => {
                    Ok(one_node(rows, literal(true, Constant::Int(number))))
                }
                other => {
                    drop(other);
                    Ok(Turn::Stuck)
                }
            },
            Progress::Named(name) => match class {
                TokenClass::Dot => Ok(next(rows, Progress::Dotted(name))),
                rest => give(alloc, low(named(name)), rows, rest),
            },
            Progress::Dotted(of) => match class {
                TokenClass::Name(name) => Ok(one_node(rows, Pattern::Member(of, name))),
                other => {
                    drop(other);
                    Ok(Turn::Stuck)
                }
            },
            Progress::Strings(texts) => match class {
                TokenClass::Str(text) => {
                    let mut texts = texts;
                    texts.push(text)?;
                    Ok(next(rows, Progress::Strings(texts)))
                }
                rest => give(alloc, low(literal(false, Constant::Str(texts))), rows, rest),
            },
            Progress::Have(measured) => give(alloc, measured, rows, class),
            Progress::Naming(measured) => rename(alloc, measured, rows, class),
            Progress::Item(measured) => offer(alloc, measured, rows, class),
        }
    }
}
