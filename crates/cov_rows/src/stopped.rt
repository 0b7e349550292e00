//! Commands over data, and calls of the objects that fail.

use crate::harness::{Failing, NONE, World, shelf_of};
use crate::sources::{FIRST_RUN, NUMBERS};
use cov_data::Data;
use cov_vault::Content;
use std::alloc::{AllocError, Global};
use std::test::Fail;

/// A command that a fault of its objects stops, what it has written, what is told, and the names
/// that are left.
struct Row {
    title: &'static str,
    words: &'static str,
    failing: Failing,
    out: &'static str,
    err: &'static str,
    names: &'static str,
}

const VAULT: &str = "coverage: data store failed\n";

const SHELF: &str = "coverage: files failed\n";

const OUT: &str = "coverage: writing output failed\n";

static ROWS: [Row; 10] = [
    Row {
        title: "The vault fails before the run",
        words: "run --branch a.py",
        failing: Failing {
            vault: &[0],
            ..NONE
        },
        out: "",
        err: VAULT,
        names: "c.1 c.2 d",
    },
    Row {
        title: "The vault fails at the save",
        words: "run --branch a.py",
        failing: Failing {
            vault: &[1],
            ..NONE
        },
        out: "1\n",
        err: VAULT,
        names: "c.1 c.2 d",
    },
    Row {
        title: "The output fails",
        words: "run --branch a.py",
        failing: Failing { out: &[0], ..NONE },
        out: "",
        err: OUT,
        names: "c.1 c.2 d",
    },
    Row {
        title: "The shelf fails at the settings",
        words: "run --branch a.py",
        failing: Failing {
            shelf: &[0],
            ..NONE
        },
        out: "",
        err: SHELF,
        names: "c.1 c.2 d",
    },
    Row {
        title: "The shelf fails at the settings of a report",
        words: "report --data-file=d",
        failing: Failing {
            shelf: &[0],
            ..NONE
        },
        out: "",
        err: SHELF,
        names: "c.1 c.2 d",
    },
    Row {
        title: "The vault fails at the data of a report",
        words: "report --data-file=d",
        failing: Failing {
            vault: &[0],
            ..NONE
        },
        out: "",
        err: VAULT,
        names: "c.1 c.2 d",
    },
    Row {
        title: "The shelf fails at a source of a report",
        words: "report --data-file=d",
        failing: Failing {
            shelf: &[1],
            ..NONE
        },
        out: "",
        err: SHELF,
        names: "c.1 c.2 d",
    },
    Row {
        title: "The output fails at a report",
        words: "report --data-file=d",
        failing: Failing { out: &[0], ..NONE },
        out: "",
        err: OUT,
        names: "c.1 c.2 d",
    },
    Row {
        title: "The shelf fails where a report is put",
        words: "json --data-file=d",
        failing: Failing {
            shelf: &[2],
            ..NONE
        },
        out: "",
        err: SHELF,
        names: "c.1 c.2 d",
    },
    Row {
        title: "The vault fails where data are joined",
        words: "combine --data-file=c",
        failing: Failing {
            vault: &[0],
            ..NONE
        },
        out: "",
        err: VAULT,
        names: "c.1 c.2 d",
    },
];

/// Line data of one path without a row, under three names.
fn contents(alloc: Global) -> Result<Vec<(String, Content)>, AllocError> {
    let mut pairs = Vec::new(alloc);
    for name in ["c.1", "c.2", "d"] {
        let name = String::from_str(alloc, name)?;
        let mut data = Data::new(alloc, false);
        data.add_path("b.py")?;
        pairs.push((name, Content::Good(data)))?;
    }
    Ok(pairs)
}

#[test]
fn stopped_commands(rt: HostRuntime) -> Result<(), Fail> {
    let alloc = rt.alloc();
    for row in &ROWS {
        let files = shelf_of(alloc, &[("a.py", FIRST_RUN), ("b.py", NUMBERS)])?;
        let mut world = World::new(alloc, files, contents(alloc)?, row.failing)?;
        let found = world.answer(alloc, row.words, "")?;
        assert_eq!(&rt; found.status, 74, "{}", row.title);
        assert_eq!(&rt; found.out.as_str(), row.out, "{}", row.title);
        assert_eq!(&rt; found.err.as_str(), row.err, "{}", row.title);
        let names = world.names(alloc)?;
        assert_eq!(&rt; names.as_str(), row.names, "{}", row.title);
    }
    Ok(())
}

/// The call of the vault that fails while two data are joined, counted from 0, and the names that
/// are left. The combined data may be saved by then, and some of those that are joined be gone.
static JOINS: [(&[u64], &str); 6] = [
    (&[1], "c.1 c.2 d"),
    (&[2], "c.1 c.2 d"),
    (&[3], "c.1 c.2 d"),
    (&[4], "c.1 c.2 d"),
    (&[5], "c c.1 c.2 d"),
    (&[6], "c c.2 d"),
];

#[test]
fn stopped_joins(rt: HostRuntime) -> Result<(), Fail> {
    let alloc = rt.alloc();
    for (vault, wanted) in &JOINS {
        let failing = Failing {
            vault: *vault,
            ..NONE
        };
        let mut world = World::new(alloc, Vec::new(alloc), contents(alloc)?, failing)?;
        let found = world.answer(alloc, "combine --data-file=c", "")?;
        assert_eq!(&rt; found.status, 74, "{wanted}");
        assert_eq!(&rt; found.err.as_str(), VAULT, "{wanted}");
        let names = world.names(alloc)?;
        assert_eq!(&rt; names.as_str(), *wanted, "{wanted}");
    }
    Ok(())
}
