//! The values of rows, as data files use them.
ghost use Rattle.std.specs.Prelude.{◌≡◌, option_map, slice_get};
ghost use Rattle.cov_tables.specs.Fields.{row, whole_at, text_at, bits_at, holds};

/// A value of a row.
#[derive(Debug, PartialEq, Drop)]
pub enum Cell {
    Int(i64),
    Text(String),
    Blob(Vec<u8>),
    /// Every other value: none, a float, or a text that is not UTF-8.
    Other,
}

/// The values of a row, in order. Four or five whole numbers, as rows of arcs and of counts have,
/// stand in place, since a data file has many such rows.
#[derive(Drop)]
pub enum RowCells {
    Four(i64, i64, i64, i64),
    Five(i64, i64, i64, i64, i64),
    Any(Vec<Cell>),
}

fn number_in(numbers: &[i64], at: usize) -> Option<i64>
    ensures { result ≡ slice_get numbers.now at }
{
    match numbers.get(at) {
        Some(number) => Some(*number),
        None => None,
    }
}

/// The whole number in a column, from 0.
pub(crate) fn whole_at(cells: &RowCells, at: usize) -> Option<i64>
    ensures { result ≡ whole_at (row cells.now) at }
{
    match cells {
        RowCells::Four(a, b, c, d) => number_in(&[*a, *b, *c, *d], at),
        RowCells::Five(a, b, c, d, e) => number_in(&[*a, *b, *c, *d, *e], at),
        RowCells::Any(cells) => match cells.get(at) {
            Some(Cell::Int(number)) => Some(*number),
            _ => None,
        },
    }
}

pub(crate) fn text_at(cells: &RowCells, at: usize) -> Option<&str>
    ensures { option_map (λ text. text.now) result ≡ text_at (row cells.now) at }
{
    match cells {
        RowCells::Four(..) => None,
        RowCells::Five(..) => None,
        RowCells::Any(cells) => match cells.get(at) {
            Some(Cell::Text(text)) => Some(text.as_str()),
            _ => None,
        },
    }
}

pub(crate) fn bits_at(cells: &RowCells, at: usize) -> Option<&[u8]>
    ensures { option_map (λ bits. bits.now) result ≡ bits_at (row cells.now) at }
{
    match cells {
        RowCells::Four(..) => None,
        RowCells::Five(..) => None,
        RowCells::Any(cells) => match cells.get(at) {
            Some(Cell::Blob(bits)) => Some(bits.as_slice()),
            _ => None,
        },
    }
}

/// Whether a column holds this text.
pub(crate) fn holds(cells: &RowCells, at: usize, text: &str) -> bool
    ensures { result ≡ holds text.now (row cells.now) at }
{
    match text_at(cells, at) {
        Some(found) => found == text,
        None => false,
    }
}
