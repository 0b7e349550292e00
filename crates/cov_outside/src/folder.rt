// A folder of the file system.
ghost use Rattle.std.specs.Prelude.{◌≡◌, ◌≤◌, None, IfOk, OnErr, IsErrOf};
ghost use Rattle.cov_outside.specs.Counts.{greatest, Rose};

use crate::shelf::{Shelf, ShelfError};
use std::alloc::{AllocError, Global};
use std::fs::File;
use std::io::{ErrorKind, Read};
use std::path::{Path, PathBuf};
use std::{fs, io};

/// The files of a folder. A relative name is taken from the folder, an absolute name as it stands.
#[derive(Drop)]
pub struct FolderShelf {
    rt: HostRuntime,
    folder: String,
    faults: u64,
    ghost bounded: { faults ≤ greatest },
}

impl FolderShelf {
    ghost use Rattle.std.specs.Path.{path_buf_bytes, path_join};
    ghost use Rattle.cov_outside.specs.Real.{folder_of};

    pub fn new(alloc: Global, rt: &HostRuntime, folder: &str) -> Result<FolderShelf, AllocError>
        ensures folder { IfOk result (λ shelf. folder_of shelf ≡ folder.now) }
        ensures faults { IfOk result (λ shelf. ⟦<FolderShelf as Shelf>⟧.faults shelf ≡ 0) }
    {
        Ok(FolderShelf {
            rt: *rt,
            folder: String::from_str(alloc, folder)?,
            faults: 0,
        })
    }

    fn path_of(&self, alloc: Global, name: &str) -> Result<PathBuf, AllocError>
        ensures { IfOk result (λ path.
            path_buf_bytes path ≡ path_join (folder_of self.now) name.now) }
    {
        Path::new(self.folder.as_str()).join(alloc, name)
    }

    /// What an error means, which counts as a fault unless memory was missing.
    fn count(&mut self, error: io::Error) -> ShelfError
        ensures same { folder_of self.new ≡ folder_of self.old }
        ensures count { self.old.faults ≤ self.new.faults }
        ensures failed { result ≡ ShelfError.Failed → Rose self.old.faults self.new.faults }
        ensures not_absent { result ≡ ShelfError.Absent → ⊥ }
        ensures not_too_large { result ≡ ShelfError.TooLarge → ⊥ }
    {
        if error.kind() == ErrorKind::OutOfMemory {
            return ShelfError::NoMemory;
        }
        self.faults = self.faults.saturating_add(1);
        ShelfError::Failed
    }
}

impl Shelf for FolderShelf {
    ghost use Rattle.cov_outside.specs.Real.{ReadsFolder, PutsFolder};

    ghost tells = { ⊥ };

    ghost files = { λ _ _. None };

    ghost faults = { λ shelf. shelf.faults };

    ghost reads = { ReadsFolder };

    ghost puts = { PutsFolder };

    ghost truthful = { λ no. absurd no };

    ghost puts_whole = { λ no. absurd no };

    ghost bounded = { λ shelf. shelf.bounded };

    fn read(&mut self, alloc: Global, name: &str, most: usize) -> Result<Vec<u8>, ShelfError> {
        let path = self.path_of(alloc, name)?;
        match read_file(&self.rt, alloc, &path, most) {
            Ok(bytes) if bytes.len() <= most => Ok(bytes),
            Ok(_) => Err(ShelfError::TooLarge),
            Err(error) if is_absent(&error) => Err(ShelfError::Absent),
            Err(error) => Err(self.count(error)),
        }
    }

    fn put(&mut self, alloc: Global, name: &str, bytes: &[u8]) -> Result<(), ShelfError> {
        let path = self.path_of(alloc, name)?;
        match write_file(&self.rt, alloc, &path, bytes) {
            Ok(()) => Ok(()),
            Err(error) => Err(self.count(error)),
        }
    }
}

/// Whether there is no file of that name: nothing, a folder, or something below a file.
fn is_absent(error: &io::Error) -> bool {
    matches!(
        error.kind(),
        ErrorKind::NotFound | ErrorKind::NotADirectory | ErrorKind::IsADirectory
    )
}

/// The whole file, or its first `most` bytes and one more.
fn read_file(rt: &HostRuntime, alloc: Global, path: &PathBuf, most: usize) -> io::Result<Vec<u8>> {
    let mut bytes = Vec::new(alloc);
    let limit = (most as u64).saturating_add(1);
    File::open(rt, path.as_path())?
        .take(limit)
        .read_to_end(&mut bytes)?;
    Ok(bytes)
}

/// Writes a file beside the path and then gives it the path's name, so that no half of it ever has
/// that name. A link to a file stays, and its file is written so. What is no file and leads to none,
/// as a device, is written to as it is.
fn write_file(rt: &HostRuntime, alloc: Global, path: &PathBuf, bytes: &[u8]) -> io::Result<()> {
    match fs::symlink_metadata(rt, path.as_path()) {
        Err(_) => replace_file(rt, alloc, path, bytes),
        Ok(found) if found.is_file() => replace_file(rt, alloc, path, bytes),
        Ok(found) if found.is_symlink() => match fs::canonicalize(rt, path.as_path()) {
            Ok(file) => write_target(rt, alloc, path, &file, bytes),
            Err(error) if is_absent(&error) => fs::write(rt, path.as_path(), bytes),
            Err(error) => Err(error),
        },
        Ok(_) => fs::write(rt, path.as_path(), bytes),
    }
}

/// Writes the file that a link leads to, or through the link where that is no file.
fn write_target(
    rt: &HostRuntime,
    alloc: Global,
    link: &PathBuf,
    target: &PathBuf,
    bytes: &[u8],
) -> io::Result<()> {
    if fs::metadata(rt, target.as_path())?.is_file() {
        return replace_file(rt, alloc, target, bytes);
    }
    fs::write(rt, link.as_path(), bytes)
}

/// Writes a file under a name beside its own, which it then gets.
fn replace_file(rt: &HostRuntime, alloc: Global, path: &PathBuf, bytes: &[u8]) -> io::Result<()> {
    let draft = path.with_added_extension(alloc, "cov-part")?;
    let moved = write_and_rename(rt, &draft, path, bytes);
    if moved.is_err() {
        let _ = fs::remove_file(rt, draft.as_path());
    }
    moved
}

fn write_and_rename(
    rt: &HostRuntime,
    draft: &PathBuf,
    path: &PathBuf,
    bytes: &[u8],
) -> io::Result<()> {
    fs::write(rt, draft.as_path(), bytes)?;
    fs::rename(rt, draft.as_path(), path.as_path())
}
