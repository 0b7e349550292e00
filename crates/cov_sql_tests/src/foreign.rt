//! What data files of other programs hold, and which files are none.

use crate::bases::{LOOSE, START, held_by};
use std::alloc::{AllocError, Global};
use std::test::Fail;

/// A title, what is done to a base of schema 7 with its keys, and what it holds then.
static READ: [(&str, &str, &str); 36] = [
    ("No row", "", "lines;a.py;"),
    (
        "Further keys, rows and tables",
        "INSERT INTO meta VALUES ('has_arcs', '1'), ('version', '7.0'), ('sys_argv', NULL);
         INSERT INTO tracer VALUES (1, 'plugin');
         CREATE TABLE further (id integer references file (id)); INSERT INTO further VALUES (1);
         INSERT INTO arc VALUES (1, 1, 1, -1), (1, 1, -1, 1)",
        "arcs;a.py . -1 1 1;a.py . 1 -1 1;",
    ),
    (
        "Further columns, in another order and case",
        "DROP TABLE arc;
         CREATE TABLE ARC (more text, ToNo integer, FROMNO integer, context_id integer, File_Id integer);
         INSERT INTO arc VALUES ('x', 2, 1, 1, 1)",
        "arcs;a.py . 1 2 1;",
    ),
    (
        "Version 6",
        "UPDATE coverage_schema SET version = 6",
        "NotSchema7",
    ),
    ("No version", "DELETE FROM coverage_schema", "NotSchema7"),
    (
        "Two versions",
        "INSERT INTO coverage_schema VALUES (7)",
        "NotSchema7",
    ),
    (
        "A view in place of a table",
        "DROP TABLE tracer; CREATE VIEW tracer AS SELECT 1 AS file_id, 'x' AS tracer",
        "NotSchema7",
    ),
    (
        "A view in place of the counts",
        "CREATE VIEW hits AS
           SELECT 1 AS file_id, 1 AS context_id, 1 AS fromno, 2 AS tono, 9 AS count;
         INSERT INTO arc VALUES (1, 1, 1, 2)",
        "arcs;a.py . 1 2 1;",
    ),
    (
        "Files and contexts",
        "INSERT INTO file VALUES (2, 'b.py'), (7, 'c é.py'); INSERT INTO context VALUES (5, 'x y');
         INSERT INTO arc VALUES (7, 5, 1, 2), (7, 1, 1, 2), (1, 5, 3, 4)",
        "arcs;b.py;a.py x y 3 4 1;c é.py . 1 2 1;c é.py x y 1 2 1;",
    ),
    // Flags.
    (
        "Arcs",
        "INSERT INTO meta VALUES ('has_arcs', '1')",
        "arcs;a.py;",
    ),
    (
        "Lines beside arcs",
        "INSERT INTO meta VALUES ('has_arcs', '0'); INSERT INTO arc VALUES (1, 1, 70000, 1);
         INSERT INTO line_bits VALUES (1, 1, x'02')",
        "lines;a.py . 1 1 1;",
    ),
    (
        "Arcs beside lines",
        "INSERT INTO meta VALUES ('has_arcs', '1'); INSERT INTO arc VALUES (1, 1, 1, 2);
         INSERT INTO line_bits VALUES (1, 1, 'x')",
        "arcs;a.py . 1 2 1;",
    ),
    (
        "Another flag",
        "INSERT INTO meta VALUES ('has_arcs', 'yes'); INSERT INTO arc VALUES (1, 1, 1, 2)",
        "lines;a.py;",
    ),
    (
        "A flag that is none",
        "INSERT INTO meta VALUES ('has_arcs', NULL); INSERT INTO arc VALUES (1, 1, 1, 2)",
        "lines;a.py;",
    ),
    (
        "Another key",
        "INSERT INTO meta VALUES ('HAS_ARCS', '0'); INSERT INTO arc VALUES (1, 1, 1, 2)",
        "arcs;a.py . 1 2 1;",
    ),
    // Numbers of arcs.
    (
        "Row 0 is beyond",
        "INSERT INTO arc VALUES (1, 1, 70000, 1)",
        "BadRow(0)",
    ),
    (
        "Row 1 is beyond",
        "INSERT INTO arc VALUES (1, 1, 70000, 1), (1, 1, 1, 2)",
        "BadRow(1)",
    ),
    (
        "The greatest numbers",
        "INSERT INTO arc VALUES (1, 1, 65535, -65535), (1, 1, -65535, 65535)",
        "arcs;a.py . -65535 65535 1;a.py . 65535 -65535 1;",
    ),
    (
        "One beyond the greatest",
        "INSERT INTO arc VALUES (1, 1, 1, 2), (1, 1, 1, 65536)",
        "BadRow(1)",
    ),
    (
        "One beyond the least",
        "INSERT INTO arc VALUES (1, 1, 1, 2), (1, 1, -65536, 2)",
        "BadRow(0)",
    ),
    (
        "Numbers stand in order as numbers",
        "INSERT INTO arc VALUES (1, 1, 10, 70000), (1, 1, 9, 1)",
        "BadRow(1)",
    ),
    (
        "Ids stand in order before numbers",
        "INSERT INTO file VALUES (2, 'A.py'); INSERT INTO context VALUES (2, 'c');
         INSERT INTO arc VALUES (2, 1, 70000, 1), (1, 2, 3, 4), (1, 1, 5, 6)",
        "BadRow(2)",
    ),
    (
        "An arc with a 0",
        "INSERT INTO arc VALUES (1, 1, 0, 1), (1, 1, 1, 0), (1, 1, 1, 2)",
        "arcs;a.py . 1 2 1;",
    ),
    (
        "An arc with a 0 is counted",
        "INSERT INTO arc VALUES (1, 1, 0, 5), (1, 1, 3, 70000)",
        "BadRow(1)",
    ),
    (
        "An arc with a 0 and a number beyond",
        "INSERT INTO arc VALUES (1, 1, 0, 70000)",
        "BadRow(0)",
    ),
    (
        "A number as a text, in a column of numbers",
        "INSERT INTO arc VALUES (1, 1, '5', 2)",
        "arcs;a.py . 5 2 1;",
    ),
    // Rows without a text path or context.
    (
        "Files without a text path",
        "INSERT INTO file VALUES (2, NULL), (3, x'61');
         INSERT INTO arc VALUES (2, 1, 70000, 1), (3, 1, 'x', 1), (1, 1, 1, 2)",
        "arcs;a.py . 1 2 1;",
    ),
    (
        "Contexts without a text",
        "INSERT INTO context VALUES (2, NULL), (3, x'63');
         INSERT INTO arc VALUES (1, 2, 70000, 1), (1, 3, 'x', 1), (1, 1, 1, 2)",
        "arcs;a.py . 1 2 1;",
    ),
    // Lines.
    (
        "Lines 1, 8 and 9",
        "INSERT INTO line_bits VALUES (1, 1, x'0203')",
        "lines;a.py . 1 1 1;a.py . 8 8 1;a.py . 9 9 1;",
    ),
    (
        "Bit 0",
        "INSERT INTO line_bits VALUES (1, 1, x'03')",
        "lines;a.py . 1 1 1;",
    ),
    (
        "No bit",
        "INSERT INTO context VALUES (2, 'c'), (3, 'd');
         INSERT INTO line_bits VALUES (1, 1, x''), (1, 2, x'00'), (1, 3, x'01')",
        "lines;a.py;",
    ),
    (
        "Bits that are none",
        "INSERT INTO context VALUES (2, 'c');
         INSERT INTO line_bits VALUES (1, 2, NULL), (1, 1, x'02')",
        "BadRow(1)",
    ),
    // Counts.
    (
        "Counts of rows",
        "CREATE TABLE hits (file_id integer, context_id integer, fromno integer, tono integer,
           count integer, unique (file_id, context_id, fromno, tono));
         INSERT INTO arc VALUES (1, 1, 1, 2), (1, 1, 2, 3);
         INSERT INTO hits VALUES (1, 1, 1, 2, 4294967295), (1, 1, 2, 4, 5)",
        "arcs;a.py . 1 2 4294967295;a.py . 2 3 1;",
    ),
    (
        "Counts of lines",
        "CREATE TABLE hits (file_id, context_id, fromno, tono, count);
         INSERT INTO line_bits VALUES (1, 1, x'0a');
         INSERT INTO hits VALUES (1, 1, 1, 1, 5), (1, 1, 3, 4, 6)",
        "lines;a.py . 1 1 5;a.py . 3 3 1;",
    ),
    (
        "Counts without a column",
        "CREATE TABLE hits (file_id, context_id, fromno, tono);
         INSERT INTO arc VALUES (1, 1, 1, 2); INSERT INTO hits VALUES (1, 1, 1, 2)",
        "arcs;a.py . 1 2 1;",
    ),
    (
        "Counts of another order and case",
        "CREATE TABLE Hits (Count, more, tono, fromno, context_id, file_id);
         INSERT INTO arc VALUES (1, 1, 1, 2); INSERT INTO hits VALUES (4, 'x', 2, 1, 1, 1)",
        "arcs;a.py . 1 2 4;",
    ),
];

#[test]
fn foreign_files_are_read(rt: HostRuntime) -> Result<(), Fail> {
    let alloc = rt.alloc();
    for (title, text, wanted) in &READ {
        let found = held_by(alloc, &[START, *text])?;
        assert_eq!(rt; found.as_str(), *wanted, "{title}");
    }
    Ok(())
}

/// The same over a base without types and keys, so that its values stay as they are written.
static READ_LOOSE: [(&str, &str, &str); 24] = [
    (
        "A version that is a text",
        "UPDATE coverage_schema SET version = '7'",
        "NotSchema7",
    ),
    // Flags.
    (
        "A flag twice, at last arcs",
        "INSERT INTO meta VALUES ('has_arcs', '0'), ('has_arcs', '1')",
        "arcs;a.py;",
    ),
    (
        "A flag twice, at first arcs",
        "INSERT INTO meta VALUES ('has_arcs', '1'), ('has_arcs', '0')",
        "arcs;a.py;",
    ),
    (
        "A flag twice, never arcs",
        "INSERT INTO meta VALUES ('has_arcs', '0'), ('has_arcs', 'x');
         INSERT INTO arc VALUES (1, 1, 1, 2)",
        "lines;a.py;",
    ),
    (
        "A flag that is a number",
        "INSERT INTO meta VALUES ('has_arcs', 1); INSERT INTO arc VALUES (1, 1, 1, 2)",
        "lines;a.py;",
    ),
    // Rows without a file or a context.
    (
        "No such file, with no flag",
        "INSERT INTO arc VALUES (9, 1, 1, 2)",
        "arcs;a.py;",
    ),
    (
        "No such file or context",
        "INSERT INTO arc VALUES (0, 1, 70000, 1), (1, 9, 70000, 1), (1, 1, 1, 2), (1, 1, 70000, 3)",
        "BadRow(1)",
    ),
    (
        "No such file or context of lines",
        "INSERT INTO line_bits VALUES (0, 1, 'x'), (1, 9, 'x'), (1, 1, x'02')",
        "lines;a.py . 1 1 1;",
    ),
    (
        "Ids of other values",
        "INSERT INTO arc VALUES ('1', 1, 70000, 1), (1, 1.5, 70000, 1), (NULL, 1, 70000, 1),
           (1, x'31', 70000, 1), (1, 1, 1, 2)",
        "arcs;a.py . 1 2 1;",
    ),
    // Values of other types.
    (
        "A text",
        "INSERT INTO arc VALUES (1, 1, '1', 2)",
        "BadRow(0)",
    ),
    (
        "No value",
        "INSERT INTO arc VALUES (1, 1, 1, NULL)",
        "BadRow(0)",
    ),
    (
        "A float",
        "INSERT INTO arc VALUES (1, 1, 1.5, 2)",
        "BadRow(0)",
    ),
    (
        "A blob",
        "INSERT INTO arc VALUES (1, 1, x'01', 2)",
        "BadRow(0)",
    ),
    (
        "Others come after numbers",
        "INSERT INTO arc VALUES (1, 1, 'x', 2), (1, 1, 5, NULL), (1, 1, 5, 6), (1, 1, 4, 7)",
        "BadRow(2)",
    ),
    (
        "A number as bits, after blobs",
        "INSERT INTO line_bits VALUES (1, 1, 2), (1, 1, x'04'), (1, 1, x'02')",
        "BadRow(2)",
    ),
    (
        "A text as bits",
        "INSERT INTO line_bits VALUES (1, 1, '2')",
        "BadRow(0)",
    ),
    // Rows that become one, and ids that stand twice.
    (
        "Equal rows",
        "INSERT INTO arc VALUES (1, 1, 1, 2), (1, 1, 1, 2); INSERT INTO hits VALUES (1, 1, 1, 2, 3)",
        "arcs;a.py . 1 2 6;",
    ),
    (
        "Files of one path",
        "INSERT INTO file VALUES (2, 'a.py'); INSERT INTO arc VALUES (1, 1, 1, 2), (2, 1, 1, 2);
         INSERT INTO hits VALUES (1, 1, 1, 2, 3), (2, 1, 1, 2, 4)",
        "arcs;a.py . 1 2 7;",
    ),
    (
        "The greatest count",
        "INSERT INTO file VALUES (2, 'a.py'); INSERT INTO arc VALUES (1, 1, 1, 2), (2, 1, 1, 2);
         INSERT INTO hits VALUES (1, 1, 1, 2, 4294967295), (2, 1, 1, 2, 1)",
        "arcs;a.py . 1 2 4294967295;",
    ),
    (
        "Bits of one file",
        "INSERT INTO line_bits VALUES (1, 1, x'02'), (1, 1, x'06')",
        "lines;a.py . 1 1 2;a.py . 2 2 1;",
    ),
    (
        "Files of one id",
        "INSERT INTO file VALUES (1, 'b.py'); INSERT INTO arc VALUES (1, 1, 1, 2)",
        "arcs;a.py . 1 2 1;b.py . 1 2 1;",
    ),
    (
        "Files of one id are counted",
        "INSERT INTO file VALUES (1, 'b.py'); INSERT INTO arc VALUES (1, 1, 70000, 2), (1, 1, 1, 2)",
        "BadRow(2)",
    ),
    // Counts.
    (
        "Counts that are none",
        "INSERT INTO arc VALUES (1, 1, 1, 2), (1, 1, 1, 3), (1, 1, 1, 4), (1, 1, 1, 5), (1, 1, 1, 6),
           (1, 1, 1, 7);
         INSERT INTO hits VALUES (1, 1, 1, 2, 0), (1, 1, 1, 3, -1), (1, 1, 1, 4, 4294967296),
           (1, 1, 1, 5, '5'), (1, 1, 1, 6, 1.5), (1, 1, 1, 7, NULL)",
        "arcs;a.py . 1 2 1;a.py . 1 3 1;a.py . 1 4 1;a.py . 1 5 1;a.py . 1 6 1;a.py . 1 7 1;",
    ),
    (
        "Counts of no row, and two of one row",
        "INSERT INTO arc VALUES (1, 1, 1, 2), (1, 1, 2, 3);
         INSERT INTO hits VALUES (1, 1, 1, 2, 4), (1, 1, 1, 2, 4), (1, 2, 2, 3, 5), (2, 1, 2, 3, 5),
           (1, 1, 2, '3', 5), (1, 1, 2, 3, 6)",
        "arcs;a.py . 1 2 1;a.py . 2 3 6;",
    ),
];

#[test]
fn loose_files_are_read(rt: HostRuntime) -> Result<(), Fail> {
    let alloc = rt.alloc();
    for (title, text, wanted) in &READ_LOOSE {
        let found = held_by(alloc, &[LOOSE, *text])?;
        assert_eq!(rt; found.as_str(), *wanted, "{title}");
    }
    Ok(())
}

/// A table and the columns that are left of it; without any the table isn't there.
static MISSING: [(&str, &str); 23] = [
    ("coverage_schema", ""),
    ("coverage_schema", "number"),
    ("meta", ""),
    ("meta", "key"),
    ("meta", "value"),
    ("file", ""),
    ("file", "id"),
    ("file", "path"),
    ("context", ""),
    ("context", "id"),
    ("context", "context"),
    ("line_bits", ""),
    ("line_bits", "file_id, context_id"),
    ("line_bits", "file_id, numbits"),
    ("line_bits", "context_id, numbits"),
    ("arc", ""),
    ("arc", "file_id, context_id, fromno"),
    ("arc", "file_id, context_id, tono"),
    ("arc", "file_id, fromno, tono"),
    ("arc", "context_id, fromno, tono"),
    ("tracer", ""),
    ("tracer", "file_id"),
    ("tracer", "tracer"),
];

fn without(alloc: Global, table: &str, columns: &str) -> Result<String, AllocError> {
    if columns.is_empty() {
        return format!(in alloc; "DROP TABLE {table}");
    }
    format!(in alloc; "DROP TABLE {table}; CREATE TABLE {table} ({columns})")
}

#[test]
fn a_table_or_a_column_is_missing(rt: HostRuntime) -> Result<(), Fail> {
    let alloc = rt.alloc();
    for (table, columns) in &MISSING {
        let text = without(alloc, *table, *columns)?;
        let found = held_by(alloc, &[LOOSE, text.as_str()])?;
        assert_eq!(rt; found.as_str(), "NotSchema7", "{table} ({columns})");
    }
    Ok(())
}

/// The tables and rows of a file that coverage.py 6.5 wrote of two runs with `--branch`, the second
/// with the context `c`.
const COVERAGE_PY: &str = "CREATE TABLE coverage_schema (
    -- One row, to record the version of the schema in this db.
    version integer
);
CREATE TABLE meta (
    -- Key-value pairs, to record metadata about the data
    key text,
    value text,
    unique (key)
    -- Keys:
    --  'has_arcs' boolean      -- Is this data recording branches?
    --  'sys_argv' text         -- The coverage command line that recorded the data.
    --  'version' text          -- The version of coverage.py that made the file.
    --  'when' text             -- Datetime when the file was created.
);
CREATE TABLE file (
    -- A row per file measured.
    id integer primary key,
    path text,
    unique (path)
);
CREATE TABLE context (
    -- A row per context measured.
    id integer primary key,
    context text,
    unique (context)
);
CREATE TABLE line_bits (
    -- If recording lines, a row per context per file executed.
    -- All of the line numbers for that file/context are in one numbits.
    file_id integer,            -- foreign key to `file`.
    context_id integer,         -- foreign key to `context`.
    numbits blob,               -- see the numbits functions in coverage.numbits
    foreign key (file_id) references file (id),
    foreign key (context_id) references context (id),
    unique (file_id, context_id)
);
CREATE TABLE arc (
    -- If recording branches, a row per context per from/to line transition executed.
    file_id integer,            -- foreign key to `file`.
    context_id integer,         -- foreign key to `context`.
    fromno integer,             -- line number jumped from.
    tono integer,               -- line number jumped to.
    foreign key (file_id) references file (id),
    foreign key (context_id) references context (id),
    unique (file_id, context_id, fromno, tono)
);
CREATE TABLE tracer (
    -- A row per file indicating the tracer used for that file.
    file_id integer primary key,
    tracer text,
    foreign key (file_id) references file (id)
);
INSERT INTO coverage_schema VALUES (7);
INSERT INTO meta VALUES ('sys_argv', '[''x é.py'']'), ('version', '6.5.0'), ('has_arcs', '1'),
  ('when', '2026-11-29 00:06:01');
INSERT INTO file VALUES (1, 'x é.py'), (2, 'y z.py');
INSERT INTO context VALUES (1, ''), (2, 'c');
INSERT INTO arc VALUES (1, 1, -1, 1), (1, 1, 2, 6), (1, 1, -2, 3), (1, 1, 1, 2), (1, 1, 3, 5),
  (1, 1, 6, 7), (1, 1, 5, -2), (1, 1, 7, 6), (1, 1, 3, 4), (1, 1, 4, -2), (1, 1, 6, -1),
  (2, 2, -1, 1), (2, 2, 2, -1), (2, 2, 1, 2)";

#[test]
fn a_file_of_coverage_py_is_read(rt: HostRuntime) -> Result<(), Fail> {
    let found = held_by(rt.alloc(), &[COVERAGE_PY])?;
    assert_eq!(rt;
        found.as_str(),
        "arcs;x é.py . -2 3 1;x é.py . -1 1 1;x é.py . 1 2 1;x é.py . 2 6 1;x é.py . 3 4 1;\
         x é.py . 3 5 1;x é.py . 4 -2 1;x é.py . 5 -2 1;x é.py . 6 -1 1;x é.py . 6 7 1;\
         x é.py . 7 6 1;y z.py c -1 1 1;y z.py c 1 2 1;y z.py c 2 -1 1;"
    );
    Ok(())
}
