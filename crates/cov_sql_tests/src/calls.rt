//! Calls of a vault as tables: a call, a name and the answer.

use crate::texts::{Given, data_of, shown};
use cov_vault::Vault;
use std::alloc::{AllocError, Global};
use std::process::Abort;

pub(crate) fn loaded<V: Vault>(
    alloc: Global,
    vault: &mut V,
    name: &str,
) -> Result<String, AllocError> {
    match vault.load(alloc, name) {
        Ok(data) => shown(alloc, &data),
        Err(error) => format!(in alloc; "{error:?}"),
    }
}

pub(crate) fn saved<V: Vault>(
    alloc: Global,
    vault: &mut V,
    name: &str,
    (arcs, rows): (bool, &[Given]),
) -> Result<String, AllocError> {
    let data = data_of(alloc, arcs, rows)?;
    match vault.save(alloc, name, &data) {
        Ok(()) => String::from_str(alloc, "saved"),
        Err(error) => format!(in alloc; "{error:?}"),
    }
}

pub(crate) fn removed<V: Vault>(
    alloc: Global,
    vault: &mut V,
    name: &str,
) -> Result<String, AllocError> {
    match vault.remove(alloc, name) {
        Ok(()) => String::from_str(alloc, "removed"),
        Err(error) => format!(in alloc; "{error:?}"),
    }
}

pub(crate) fn listed<V: Vault>(alloc: Global, vault: &mut V) -> Result<String, AllocError> {
    match vault.names(alloc) {
        Ok(names) => names.join(alloc, "|"),
        Err(error) => format!(in alloc; "{error:?}"),
    }
}

pub(crate) const ARCS: (bool, &[Given]) = (
    true,
    &[
        ("/src/b é.py", "", -1, 1, 1),
        ("/src/b é.py", "", 1, -1, 7),
        ("/src/a.py", "c x", 3, 4, 2),
        ("/src/a.py", "é", 3, 4, 4_294_967_295),
        ("/src/z.py", "", 0, 0, 0),
    ],
);

pub(crate) const ARCS_TEXT: &str = "arcs;/src/z.py;/src/a.py c x 3 4 2;/src/a.py é 3 4 4294967295;\
    /src/b é.py . -1 1 1;/src/b é.py . 1 -1 7;";

pub(crate) const LINES: (bool, &[Given]) = (
    false,
    &[
        ("/src/a.py", "", 9, 9, 1),
        ("/src/a.py", "", 8, 8, 3),
        ("/src/a.py", "c x", 1, 1, 1),
        ("/src/b é.py", "", 65_535, 65_535, 1),
    ],
);

pub(crate) const LINES_TEXT: &str = "lines;/src/a.py . 8 8 3;/src/a.py . 9 9 1;/src/a.py c x 1 1 1;\
    /src/b é.py . 65535 65535 1;";

/// The answer of a call as a text.
fn called<V: Vault>(
    alloc: Global,
    vault: &mut V,
    call: &str,
    name: &str,
) -> Result<String, AllocError> {
    match call {
        "names" => listed(alloc, vault),
        "load" => loaded(alloc, vault, name),
        "save arcs" => saved(alloc, vault, name, ARCS),
        "save lines" => saved(alloc, vault, name, LINES),
        _ => removed(alloc, vault, name),
    }
}

pub(crate) fn assert_calls<V: Vault>(
    rt: &impl Abort,
    alloc: Global,
    vault: &mut V,
    calls: &[(&str, &str, &str)],
) -> Result<(), AllocError> {
    for (call, name, wanted) in calls {
        let found = called(alloc, vault, *call, *name)?;
        assert_eq!(rt; found.as_str(), *wanted, "{call} {name}");
    }
    Ok(())
}
