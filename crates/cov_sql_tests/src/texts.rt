//! Data as texts, and rows as data.

use cov_data::{Data, Row};
use std::alloc::{AllocError, Global};

/// A row of data: its path and context, its two numbers and its count. One with a 0 in front is a
/// path without a row.
pub(crate) type Given = (&'static str, &'static str, i32, i32, u32);

fn add(
    alloc: Global,
    data: &mut Data,
    (path, context, from, to, count): Given,
) -> Result<(), AllocError> {
    if from == 0 {
        return data.add_path(path);
    }
    let path = String::from_str(alloc, path)?;
    let context = String::from_str(alloc, context)?;
    let row = Row {
        path,
        context,
        from,
        to,
        count,
    };
    if data.accepts(&row) {
        return data.add(row);
    }
    Ok(())
}

/// Data of these rows. Those that are out of range are left out.
pub(crate) fn data_of(alloc: Global, arcs: bool, rows: &[Given]) -> Result<Data, AllocError> {
    let mut data = Data::new(alloc, arcs);
    for row in rows {
        add(alloc, &mut data, *row)?;
    }
    Ok(data)
}

/// A text in the making. Where memory is wanting it goes on, and tells so at the end.
#[derive(Drop)]
struct Listing {
    text: String,
    wants_memory: bool,
}

impl Listing {
    fn put(&mut self, text: &str) {
        if self.text.push_str(text).is_err() {
            self.wants_memory = true;
        }
    }

    fn row(&mut self, alloc: Global, row: &Row) {
        self.put(row.path.as_str());
        self.put(" ");
        self.put(if row.context.is_empty() {
            "."
        } else {
            row.context.as_str()
        });
        match format!(in alloc; " {} {} {};", row.from, row.to, row.count) {
            Ok(numbers) => self.put(numbers.as_str()),
            Err(_) => self.wants_memory = true,
        }
    }

    /// The paths that no row has.
    fn bare_paths(&mut self, paths: &[String], rows: &[Row]) {
        for path in paths {
            if rows.iter().all(|row| row.path.as_str() != path.as_str()) {
                self.put(path.as_str());
                self.put(";");
            }
        }
    }
}

/// `arcs` or `lines`, the paths without a row, and the rows as `path context from to count`, each
/// with `;` after it. A context `.` is the empty one.
pub(crate) fn shown(alloc: Global, data: &Data) -> Result<String, AllocError> {
    let paths = data.paths()?;
    let rows = data.rows()?;
    let mut listing = Listing {
        text: String::new(alloc),
        wants_memory: false,
    };
    listing.put(if data.is_arcs() { "arcs;" } else { "lines;" });
    listing.bare_paths(&paths, &rows);
    for row in &rows {
        listing.row(alloc, row);
    }
    if listing.wants_memory {
        return Err(AllocError);
    }
    Ok(listing.text)
}
