// The limits of rows.

/// The greatest number of a row: the last line that a text may have.
pub const MOST_NUMBER: i32 = 65_535;
