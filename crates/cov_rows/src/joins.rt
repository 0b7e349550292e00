//! Data of several runs that are joined.

use crate::harness::{NONE, World, shelf_of};
use crate::sessions::{Session, assert_session};
use cov_data::{Data, Row};
use cov_vault::Content;
use std::alloc::{AllocError, Global};
use std::test::Fail;

const SETTINGS: &str = "\
[tool.coverage.paths]
source = [\"src\", \"c:\\\\proj\\\\src\", \"/home/*/src\"]
";

/// Arcs, each with its name and its path.
static THREE_PLACES: [(&str, &str, i32, i32); 5] = [
    (".coverage.1", "c:\\proj\\src\\a.py", -1, 1),
    (".coverage.1", "c:\\proj\\src\\a.py", 1, 2),
    (".coverage.2", "/home/u/src/a.py", -1, 1),
    (".coverage.2", "/home/u/src/a.py", 1, 3),
    (".coverage.3", "src/a.py", -1, 1),
];

/// The names that have arcs of three places.
static NAMES: [&str; 3] = [".coverage.1", ".coverage.2", ".coverage.3"];

/// The arcs of a name.
fn arcs_of(alloc: Global, wanted: &str) -> Result<Data, AllocError> {
    let mut data = Data::new(alloc, true);
    for (name, path, from, to) in &THREE_PLACES {
        if *name == wanted {
            let row = Row {
                path: String::from_str(alloc, *path)?,
                context: String::new(alloc),
                from: *from,
                to: *to,
                count: 1,
            };
            if data.accepts(&row) {
                data.add(row)?;
            }
        }
    }
    Ok(data)
}

/// The arcs of three places, line data without a row, and files of which none or a part is data.
fn contents(alloc: Global) -> Result<Vec<(String, Content)>, AllocError> {
    let mut pairs = Vec::new(alloc);
    for name in &NAMES {
        let key = String::from_str(alloc, *name)?;
        pairs.push((key, Content::Good(arcs_of(alloc, *name)?)))?;
    }
    let key = String::from_str(alloc, "lines")?;
    pairs.push((key, Content::Good(Data::new(alloc, false))))?;
    pairs.push((String::from_str(alloc, "none")?, Content::NotSchema7))?;
    pairs.push((String::from_str(alloc, "cut")?, Content::BadRow(0)))?;
    Ok(pairs)
}

/// A session over the arcs of three places, the rows that it leaves in the data file, and the
/// names that it leaves.
struct Joined {
    session: Session,
    rows: &'static str,
    names: &'static str,
}

const ALL_NAMES: &str = ".coverage .coverage.1 .coverage.2 .coverage.3 cut lines none";

static ROWS: [Joined; 7] = [
    Joined {
        session: Session {
            title: "All names of the data file",
            files: &[("pyproject.toml", SETTINGS)],
            commands: &[("combine --keep", 0, "", "")],
        },
        rows: ": src/a.py -1 1 3\n: src/a.py 1 2 1\n: src/a.py 1 3 1\n",
        names: ALL_NAMES,
    },
    Joined {
        session: Session {
            title: "Names in another order, one of them twice",
            files: &[("pyproject.toml", SETTINGS)],
            commands: &[(
                "combine --keep .coverage.3 .coverage.2 .coverage.1 .coverage.2",
                0,
                "",
                "",
            )],
        },
        rows: ": src/a.py -1 1 4\n: src/a.py 1 2 1\n: src/a.py 1 3 2\n",
        names: ALL_NAMES,
    },
    Joined {
        session: Session {
            title: "What is joined goes, and then there is nothing to join",
            files: &[("pyproject.toml", SETTINGS)],
            commands: &[
                ("combine", 0, "", ""),
                ("combine", 1, "", "coverage: no data .coverage\n"),
            ],
        },
        rows: ": src/a.py -1 1 3\n: src/a.py 1 2 1\n: src/a.py 1 3 1\n",
        names: ".coverage cut lines none",
    },
    Joined {
        session: Session {
            title: "A name that is given twice goes once, and the data file's own data stay",
            files: &[("pyproject.toml", SETTINGS)],
            commands: &[
                ("combine .coverage.2 ./.coverage.2", 0, "", ""),
                ("combine --append .coverage.3", 0, "", ""),
            ],
        },
        rows: ": src/a.py -1 1 3\n: src/a.py 1 3 2\n",
        names: ".coverage .coverage.1 cut lines none",
    },
    Joined {
        session: Session {
            title: "Settings without places",
            files: &[],
            commands: &[("combine --keep .coverage.1 .coverage.3", 0, "", "")],
        },
        rows: "\
: c:\\proj\\src\\a.py -1 1 1
: c:\\proj\\src\\a.py 1 2 1
: src/a.py -1 1 1
",
        names: ALL_NAMES,
    },
    Joined {
        session: Session {
            title: "Data that can't be joined",
            files: &[],
            commands: &[
                (
                    "combine lines .coverage.1",
                    1,
                    "",
                    "coverage: cannot join lines with arcs\n",
                ),
                (
                    "combine .coverage.1 gone",
                    1,
                    "",
                    "coverage: no data gone\n",
                ),
                (
                    "combine .coverage.1 none lines",
                    1,
                    "",
                    "coverage: bad data none: not schema 7\n",
                ),
                ("combine cut none", 1, "", "coverage: bad data cut: row 0\n"),
            ],
        },
        rows: "",
        names: ".coverage.1 .coverage.2 .coverage.3 cut lines none",
    },
    Joined {
        session: Session {
            title: "A target that is none",
            files: &[],
            commands: &[
                (
                    "combine --data-file=none gone",
                    1,
                    "",
                    "coverage: bad data none: not schema 7\n",
                ),
                (
                    "combine --data-file=gone",
                    1,
                    "",
                    "coverage: no data gone\n",
                ),
            ],
        },
        rows: "",
        names: ".coverage.1 .coverage.2 .coverage.3 cut lines none",
    },
];

#[test]
fn joins(rt: HostRuntime) -> Result<(), Fail> {
    let alloc = rt.alloc();
    for row in &ROWS {
        let files = shelf_of(alloc, row.session.files)?;
        let mut world = World::new(alloc, files, contents(alloc)?, NONE)?;
        assert_session(&rt, alloc, &mut world, &row.session)?;
        let rows = world.rows(alloc, ".coverage")?;
        assert_eq!(&rt; rows.as_str(), row.rows, "{}", row.session.title);
        let names = world.names(alloc)?;
        assert_eq!(&rt; names.as_str(), row.names, "{}", row.session.title);
    }
    Ok(())
}
