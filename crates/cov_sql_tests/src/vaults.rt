//! Data files in memory by name.
ghost use Rattle.std.specs.Prelude.{All};
ghost use Rattle.cov_sql.specs.Bases.{IsIdle};

use crate::bases::{START, run};
use crate::calls::{ARCS_TEXT, LINES_TEXT, assert_calls};
use cov_sql::SqlVault;
use sqlite::{Connection, MemStore};
use std::alloc::Global;
use std::test::Fail;

/// A call with a name, and its answer.
static CALLS: [(&str, &str, &str); 27] = [
    ("names", "", "b|d|é"),
    ("load", "d", "arcs;a.py . 1 2 1;"),
    ("load", "é", "NotSchema7"),
    ("load", "b", "BadRow(1)"),
    ("load", "a", "Absent"),
    ("remove", "a", "Absent"),
    ("save lines", "é", "NotSchema7"),
    ("load", "é", "NotSchema7"),
    ("save arcs", "b", "saved"),
    ("load", "b", ARCS_TEXT),
    ("save lines", "a", "saved"),
    ("load", "a", LINES_TEXT),
    ("save arcs", "a", "saved"),
    ("load", "a", ARCS_TEXT),
    ("load", "b", ARCS_TEXT),
    ("names", "", "a|b|d|é"),
    ("save lines", "d", "saved"),
    ("load", "d", LINES_TEXT),
    ("remove", "d", "removed"),
    ("load", "d", "Absent"),
    ("remove", "d", "Absent"),
    ("names", "", "a|b|é"),
    ("save arcs", "d", "saved"),
    ("load", "d", ARCS_TEXT),
    ("remove", "é", "removed"),
    ("load", "é", "Absent"),
    ("names", "", "a|b|d"),
];

/// Adds a base that these texts make.
fn add_base(
    alloc: Global,
    bases: &mut Vec<(String, Connection<MemStore>)>,
    name: &str,
    texts: &[&str],
) -> Result<(), Fail>
    requires { All IsIdle bases.old.items }
    ensures { All IsIdle bases.new.items }
{
    let name = String::from_str(alloc, name)?;
    let mut base = Connection::open_in_memory(alloc)?;
    run(&mut base, texts)?;
    if !base.is_autocommit() {
        return Ok(());
    }
    bases.push((name, base))?;
    Ok(())
}

/// Three names, one of them twice, of which the first counts.
#[test]
fn bases_keep_data_by_name(rt: HostRuntime) -> Result<(), Fail> {
    let alloc = rt.alloc();
    let mut bases = Vec::new(alloc);
    add_base(
        alloc,
        &mut bases,
        "d",
        &[START, "INSERT INTO arc VALUES (1, 1, 1, 2)"],
    )?;
    add_base(alloc, &mut bases, "é", &["CREATE TABLE arc (more text)"])?;
    add_base(
        alloc,
        &mut bases,
        "d",
        &[START, "INSERT INTO arc VALUES (1, 1, 3, 4)"],
    )?;
    add_base(
        alloc,
        &mut bases,
        "b",
        &[
            START,
            "INSERT INTO arc VALUES (1, 1, 1, 2), (1, 1, 1, 65536)",
        ],
    )?;
    let mut vault = SqlVault::new(bases);
    assert_calls(&rt, alloc, &mut vault, &CALLS)?;
    Ok(())
}
