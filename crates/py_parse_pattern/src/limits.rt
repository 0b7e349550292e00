// The limit on the height of a pattern, token by token.

ghost use Rattle.std.specs.Prelude.{◌≡◌, ◌≤◌, ◌*◌, max};
ghost use Rattle.py_token.specs.View.{view_kind};
ghost use Rattle.py_syntax.specs.Kinds.{bare_kind};
ghost use Rattle.py_syntax.specs.Spelling.{HEIGHT};
ghost use Rattle.py_parse_pattern.specs.Machine.{step, least};
ghost use Rattle.py_parse_pattern.specs.Heights.{base_outside};
ghost use Rattle.py_parse_pattern.specs.Views.{AreMeasured};
ghost use Rattle.py_parse_pattern.specs.Rows.{view_frames, view_reader, Valid, SLACK, Turns, row_height, closed_height, item_height};

use crate::nodes::higher;
use crate::reader::{Progress, Reader, Row, Turn, levels};
use crate::token_classes::class_of;
use py_syntax::HEIGHT_LIMIT;
use py_text::NoMemory;
use py_token::TokenKind;
use std::alloc::Global;

/// The height of what is open in a row without a closed pattern.
fn row_height(row: &Row) -> usize
    requires items { row.now.items.height ≤ SLACK }
    requires alternatives { row.now.alternatives.height ≤ SLACK }
    requires depth { row.now.depth ≤ SLACK }
    requires are { AreMeasured row.now.alternatives }
    ensures { result ≡ row_height row.now }
{
    let items = row.items.height + row.depth;
    if row.alternatives.is_some() {
        return higher(items, row.alternatives.height + 1 + row.depth);
    }
    items
}

/// The same with a closed pattern of that height.
fn closed_height(row: &Row, height: usize) -> usize
    requires items { row.now.items.height ≤ SLACK }
    requires alternatives { row.now.alternatives.height ≤ SLACK }
    requires depth { row.now.depth ≤ SLACK }
    requires are { AreMeasured row.now.alternatives }
    requires low { height ≤ 2 * SLACK }
    ensures { result ≡ closed_height row.now height }
{
    higher(
        row_height(row),
        row.depth + levels(&row.alternatives) + height,
    )
}

/// The same with an item of that height.
fn item_height(row: &Row, height: usize) -> usize
    requires items { row.now.items.height ≤ SLACK }
    requires depth { row.now.depth ≤ SLACK }
    requires low { height ≤ 2 * SLACK }
    ensures { result ≡ item_height row.now height }
{
    higher(row.items.height + row.depth, row.depth + height)
}

/// The height of the least pattern that goes on from here, but for what is open outside the
/// innermost brackets.
fn height(reader: &Reader) -> usize
    requires { Valid SLACK reader.now }
    ensures { least (view_reader reader.now)
        ≡ max (max (base_outside (view_frames reader.now.rows.frames.items)) 1) result }
{
    let row = &reader.rows.row;
    match &reader.progress {
        Progress::Want => {
            if row.alternatives.is_some() {
                return closed_height(row, 1);
            }
            row_height(row)
        }
        Progress::Minus => closed_height(row, 1),
        Progress::Named(_) => closed_height(row, 1),
        Progress::Dotted(_) => closed_height(row, 1),
        Progress::Strings(_) => closed_height(row, 1),
        Progress::Have(measured) => closed_height(row, measured.height),
        Progress::Naming(measured) => item_height(row, measured.height + 1),
        Progress::Item(measured) => item_height(row, measured.height),
    }
}

/// What a token does within the limit.
pub fn step(alloc: Global, reader: Reader, kind: &TokenKind) -> Result<Turn, NoMemory>
    requires valid { Valid HEIGHT reader }
    requires low { least (view_reader reader) ≤ HEIGHT }
    ensures { Turns (step (view_reader reader) (bare_kind (view_kind kind.now))) result }
{
    match reader.act(alloc, class_of(kind)?)? {
        Turn::Next(next) => {
            if height(&next) > HEIGHT_LIMIT {
                return Ok(Turn::Deep);
            }
            Ok(Turn::Next(next))
        }
        Turn::Stuck => Ok(Turn::Stuck),
        Turn::Deep => Ok(Turn::Deep),
        Turn::Left(measured) => Ok(Turn::Left(measured)),
    }
}
