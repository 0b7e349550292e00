//! Data files in a folder.

use crate::calls::{
    ARCS, ARCS_TEXT, LINES, LINES_TEXT, assert_calls, listed, loaded, removed, saved,
};
use crate::rowids::without_rowids;
use cov_sql::FolderVault;
use std::alloc::Global;
use std::path::PathBuf;
use std::test::Fail;
use std::{env, fs, io, process};

/// A new folder, named after the process of the test.
fn new_folder(rt: &HostRuntime, alloc: Global) -> io::Result<PathBuf> {
    let name = format!(in alloc; "data-files-{}", process::id(rt.process()))?;
    let folder = env::temp_dir(rt)?.join(alloc, name.as_str())?;
    // One that an earlier process left.
    let _ = fs::remove_dir_all(rt, folder.as_path());
    fs::create_dir_all(rt, folder.as_path())?;
    Ok(folder)
}

/// A call with a name, and its answer.
static CALLS: [(&str, &str, &str); 20] = [
    ("names", "", ""),
    ("load", "b", "Absent"),
    ("remove", "b", "Absent"),
    ("save arcs", "b", "saved"),
    ("load", "b", ARCS_TEXT),
    ("save lines", "a é.c", "saved"),
    ("save lines", "B", "saved"),
    ("names", "", "B|a é.c|b"),
    ("save lines", "b", "saved"),
    ("load", "b", LINES_TEXT),
    ("save arcs", "b", "saved"),
    ("load", "b", ARCS_TEXT),
    ("load", "a é.c", LINES_TEXT),
    ("remove", "b", "removed"),
    ("load", "b", "Absent"),
    ("remove", "b", "Absent"),
    ("names", "", "B|a é.c"),
    ("save lines", "b", "saved"),
    ("load", "b", LINES_TEXT),
    ("load", "a", "Absent"),
];

#[test]
fn a_folder_keeps_data_by_name(rt: HostRuntime) -> Result<(), Fail> {
    let alloc = rt.alloc();
    let folder = new_folder(&rt, alloc)?;
    let mut vault = FolderVault::new(alloc, &rt, folder.as_str())?;
    assert_calls(&rt, alloc, &mut vault, &CALLS)?;
    fs::remove_dir_all(&rt, folder.as_path())?;
    assert_eq!(rt; listed(alloc, &mut vault)?.as_str(), "Failed");
    assert_eq!(rt; saved(alloc, &mut vault, "b", ARCS)?.as_str(), "Failed");
    Ok(())
}

/// What is left of a data file, and the answers of calls: data are saved and their file is spoilt,
/// and then they are loaded, others are saved, these are loaded, and the name is removed.
static SPOILT: [(&str, &str); 6] = [
    ("half", "saved, Failed, Failed, Failed, removed"),
    ("all but a byte", "saved, Failed, Failed, Failed, removed"),
    ("a header", "saved, Failed, Failed, Failed, removed"),
    ("words", "saved, Failed, Failed, Failed, removed"),
    (
        "nothing",
        "saved, NotSchema7, NotSchema7, NotSchema7, removed",
    ),
    (
        "a table without rowids",
        "saved, NotSchema7, NotSchema7, NotSchema7, removed",
    ),
];

fn count_left(count: usize, what: &str) -> usize {
    match what {
        "half" => count / 2,
        "all but a byte" => count.saturating_sub(1),
        "a header" => 100,
        _ => 0,
    }
}

/// The bytes that are left of a file.
fn left<'a>(bytes: &'a [u8], what: &str) -> &'a [u8] {
    if what == "words" {
        return b"These bytes are no database.".as_slice();
    }
    let count = count_left(bytes.len(), what);
    if count < bytes.len() {
        &bytes[..count]
    } else {
        bytes
    }
}

fn spoil(rt: &HostRuntime, path: &PathBuf, what: &str) -> io::Result<()> {
    let bytes = fs::read(rt, path.as_path())?;
    if what == "a table without rowids" {
        let others = without_rowids(rt.alloc(), &bytes)?;
        return fs::write(rt, path.as_path(), &others);
    }
    fs::write(rt, path.as_path(), left(&bytes, what))
}

fn answers(
    rt: &HostRuntime,
    alloc: Global,
    vault: &mut FolderVault,
    path: &PathBuf,
    what: &str,
) -> Result<String, Fail> {
    let first = saved(alloc, vault, "a", ARCS)?;
    spoil(rt, path, what)?;
    let second = loaded(alloc, vault, "a")?;
    let third = saved(alloc, vault, "a", LINES)?;
    let fourth = loaded(alloc, vault, "a")?;
    let fifth = removed(alloc, vault, "a")?;
    Ok(format!(in alloc; "{first}, {second}, {third}, {fourth}, {fifth}")?)
}

#[test]
fn a_file_that_is_cut_short_is_a_fault(rt: HostRuntime) -> Result<(), Fail> {
    let alloc = rt.alloc();
    let folder = new_folder(&rt, alloc)?;
    let path = folder.join(alloc, "a")?;
    let mut vault = FolderVault::new(alloc, &rt, folder.as_str())?;
    for (what, wanted) in &SPOILT {
        let found = answers(&rt, alloc, &mut vault, &path, *what)?;
        assert_eq!(rt; found.as_str(), *wanted, "{what}");
    }
    fs::remove_dir_all(&rt, folder.as_path())?;
    Ok(())
}

/// The answers of calls, of which all but the first come while a folder stands in place of a file
/// that the database keeps beside `b`.
fn answers_beside_a_folder(
    rt: &HostRuntime,
    alloc: Global,
    vault: &mut FolderVault,
    companion: &PathBuf,
) -> Result<String, Fail> {
    let first = saved(alloc, vault, "b", ARCS)?;
    fs::create_dir_all(rt, companion.as_path())?;
    let second = removed(alloc, vault, "b")?;
    let third = loaded(alloc, vault, "b")?;
    let fourth = saved(alloc, vault, "b", ARCS)?;
    Ok(format!(in alloc; "{first}, {second}, {third}, {fourth}")?)
}

/// The answers of calls once a file is left there in its place.
fn answers_beside_a_file(
    rt: &HostRuntime,
    alloc: Global,
    vault: &mut FolderVault,
    companion: &PathBuf,
) -> Result<String, Fail> {
    fs::remove_dir_all(rt, companion.as_path())?;
    fs::write(rt, companion.as_path(), b"left".as_slice())?;
    let first = loaded(alloc, vault, "b")?;
    let second = saved(alloc, vault, "b", LINES)?;
    let third = loaded(alloc, vault, "b")?;
    let fourth = removed(alloc, vault, "b")?;
    Ok(format!(in alloc; "{first}, {second}, {third}, {fourth}")?)
}

#[test]
fn what_stays_beside_a_file_is_removed_by_the_next_save(rt: HostRuntime) -> Result<(), Fail> {
    let alloc = rt.alloc();
    let folder = new_folder(&rt, alloc)?;
    let mut vault = FolderVault::new(alloc, &rt, folder.as_str())?;
    let wanted = format!(in alloc; "Absent, saved, {LINES_TEXT}, removed")?;
    let companion = folder.join(alloc, "b-journal")?;
    let found = answers_beside_a_folder(&rt, alloc, &mut vault, &companion)?;
    assert_eq!(rt; found.as_str(), "saved, removed, Absent, Failed");
    assert!(rt; fs::exists(&rt, companion.as_path())?);
    let found = answers_beside_a_file(&rt, alloc, &mut vault, &companion)?;
    assert_eq!(rt; found.as_str(), wanted.as_str());
    fs::remove_dir_all(&rt, folder.as_path())?;
    Ok(())
}

static KEPT: [(&str, &str, &str); 4] = [
    ("save arcs", "arcs.coverage", "saved"),
    ("save lines", "lines.coverage", "saved"),
    ("load", "arcs.coverage", ARCS_TEXT),
    ("load", "lines.coverage", LINES_TEXT),
];

/// The folder that the environment names as `DATA_FOLDER`, whose files stay, or else a new one.
fn folder_for_others(rt: &HostRuntime, alloc: Global) -> Result<(String, bool), Fail> {
    match env::var(rt, "DATA_FOLDER") {
        Ok(folder) => Ok((folder, true)),
        Err(_) => {
            let folder = new_folder(rt, alloc)?;
            Ok((String::from_str(alloc, folder.as_str())?, false))
        }
    }
}

#[test]
fn files_for_other_programs(rt: HostRuntime) -> Result<(), Fail> {
    let alloc = rt.alloc();
    let (folder, stays) = folder_for_others(&rt, alloc)?;
    let mut vault = FolderVault::new(alloc, &rt, folder.as_str())?;
    assert_calls(&rt, alloc, &mut vault, &KEPT)?;
    if !stays {
        fs::remove_dir_all(&rt, folder.as_str())?;
    }
    Ok(())
}
