// Data sets as texts, and back.

use cov_data::{Data, Row};
use std::alloc::{AllocError, Global};

/// The word of an entry at a place, counted from 0; an empty one where there are fewer.
fn word(entry: &str, at: usize) -> &str {
    let mut words = entry.split(' ');
    for _ in 0..at {
        words.next();
    }
    words.next().unwrap_or("")
}

fn row_of(alloc: Global, entry: &str) -> Result<Row, AllocError> {
    let context = word(entry, 1);
    let path = String::from_str(alloc, word(entry, 0))?;
    let context = String::from_str(alloc, if context == "." { "" } else { context })?;
    Ok(Row {
        path,
        context,
        from: word(entry, 2).parse::<i32>().unwrap_or(0),
        to: word(entry, 3).parse::<i32>().unwrap_or(0),
        count: word(entry, 4).parse::<u32>().unwrap_or(0),
    })
}

fn add_entry(alloc: Global, data: &mut Data, entry: &str) -> Result<(), AllocError> {
    if entry.is_empty() {
        return Ok(());
    }
    if word(entry, 1).is_empty() {
        return data.add_path(entry);
    }
    let row = row_of(alloc, entry)?;
    if data.accepts(&row) {
        return data.add(row);
    }
    Ok(())
}

/// Reads rows as `path context from to count` and paths without a row as `path`, with `;` between
/// them. A context `.` is the empty one. Rows that are out of range are left out.
pub fn data_of(alloc: Global, arcs: bool, text: &str) -> Result<Data, AllocError> {
    let mut data = Data::new(alloc, arcs);
    for entry in text.split(';') {
        add_entry(alloc, &mut data, entry)?;
    }
    Ok(data)
}

/// A row with `;` after it.
fn row_text(alloc: Global, row: &Row) -> Result<String, AllocError> {
    let context = if row.context.is_empty() {
        "."
    } else {
        row.context.as_str()
    };
    format!(in alloc;
        "{} {context} {} {} {};",
        row.path, row.from, row.to, row.count
    )
}

/// The paths without a row, and then the rows, each with `;` after it.
pub fn shown(alloc: Global, data: &Data) -> Result<String, AllocError> {
    let paths = data.paths()?;
    let rows = data.rows()?;
    let mut text = String::new(alloc);
    for path in &paths {
        if rows.iter().all(|row| row.path.as_str() != path.as_str()) {
            text.push_str(path.as_str())?;
            text.push(';')?;
        }
    }
    for row in &rows {
        text.push_str(row_text(alloc, row)?.as_str())?;
    }
    Ok(text)
}
