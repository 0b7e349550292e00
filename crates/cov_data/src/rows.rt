//! Rows of measured data.

/// That from one line to another was gone `count` times in the file `path` under `context`. In line
/// data a row is one line, which stands in both numbers. A number is a line, counted from 1, or the
/// negative first line of a module or function that is entered or left.
#[derive(Debug, PartialEq, Drop)]
pub struct Row {
    pub path: String,
    pub context: String,
    pub from: i32,
    pub to: i32,
    pub count: u32,
}

/// A row of data whose texts stand there, so that they are not copied.
#[derive(Debug, PartialEq, Drop)]
pub struct LentRow<'a> {
    pub path: &'a str,
    pub context: &'a str,
    pub from: i32,
    pub to: i32,
    pub count: u32,
}
