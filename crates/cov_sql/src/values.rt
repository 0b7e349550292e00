//! The values of rows, as data files use them.
ghost use Rattle.std.specs.Prelude.{◌≡◌, length, IfOk, IfSome};
ghost use Rattle.std.specs.List.{AllZip};
ghost use Rattle.sqlite_value.specs.Value.{owned};
ghost use Rattle.sqlite_value.specs.Order.{column};
ghost use Rattle.sqlite_value.specs.declared.value.Value.TheVariants.{Int};
ghost use Rattle.cov_sql.specs.Cells.{IsCell, IsTextCell, AreCells};

use cov_tables::{Cell, RowCells};
use sqlite::Row;
use sqlite_value::value::ValueRef;
use std::alloc::{AllocError, Global};
use std::str;

/// A value as a cell.
pub(crate) fn cell_of(alloc: Global, value: ValueRef<'_>) -> Result<Cell, AllocError>
    ensures { IfOk result (IsCell (owned value.entry)) }
{
    match value {
        ValueRef::Null => Ok(Cell::Other),
        ValueRef::Int(number) => Ok(Cell::Int(number)),
        ValueRef::Real(_) => Ok(Cell::Other),
        ValueRef::Text(bytes) => text_cell(alloc, bytes),
        ValueRef::Blob(bytes) => Ok(Cell::Blob(Vec::from_slice(alloc, bytes)?)),
    }
}

fn text_cell(alloc: Global, bytes: &[u8]) -> Result<Cell, AllocError>
    ensures { IfOk result (IsTextCell bytes.now) }
{
    match str::from_utf8(bytes) {
        Ok(text) => Ok(Cell::Text(String::from_str(alloc, text)?)),
        Err(_) => Ok(Cell::Other),
    }
}

/// The cell of each value, in order.
fn listed_cells(alloc: Global, row: &Row) -> Result<Vec<Cell>, AllocError>
    ensures { IfOk result (λ cells. AllZip IsCell row.now cells.items) }
{
    let mut cells = Vec::new(alloc);
    for at in 0..row.column_count() {
        // Each place below the count has a value.
        let Ok(value) = row.get_ref(at) else {
            return Err(AllocError);
        };
        cells.push(cell_of(alloc, value)?)?;
    }
    Ok(cells)
}

/// The whole number in a column, if it is one.
fn number_at(row: &Row, at: usize) -> Option<i64>
    ensures { IfSome result (λ number. column row.now at ≡ Int number) }
{
    match row.get_ref(at) {
        Ok(ValueRef::Int(number)) => Some(number),
        _ => None,
    }
}

fn four_numbers(row: &Row) -> Option<RowCells>
    requires { length row.now ≡ 4 }
    ensures { IfSome result (AreCells row.now) }
{
    let first = number_at(row, 0)?;
    let second = number_at(row, 1)?;
    let third = number_at(row, 2)?;
    let fourth = number_at(row, 3)?;
    Some(RowCells::Four(first, second, third, fourth))
}

fn five_numbers(row: &Row) -> Option<RowCells>
    requires { length row.now ≡ 5 }
    ensures { IfSome result (AreCells row.now) }
{
    let first = number_at(row, 0)?;
    let second = number_at(row, 1)?;
    let third = number_at(row, 2)?;
    let fourth = number_at(row, 3)?;
    let fifth = number_at(row, 4)?;
    Some(RowCells::Five(first, second, third, fourth, fifth))
}

/// The values of a row that has four or five whole numbers and nothing else.
fn numbers_of(row: &Row) -> Option<RowCells>
    ensures { IfSome result (AreCells row.now) }
{
    if row.column_count() == 4 {
        return four_numbers(row);
    }
    if row.column_count() == 5 {
        return five_numbers(row);
    }
    None
}

/// The values of a row, in order.
pub(crate) fn cells_of(alloc: Global, row: &Row) -> Result<RowCells, AllocError>
    ensures { IfOk result (AreCells row.now) }
{
    match numbers_of(row) {
        Some(cells) => Ok(cells),
        None => Ok(RowCells::Any(listed_cells(alloc, row)?)),
    }
}
