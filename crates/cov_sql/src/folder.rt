//! Data files in a folder.
ghost use Rattle.std.specs.Prelude.{◌≡◌, ◌≤◌, ℕ, false, string_bytes, IfOk, IfErr, IsErrOf};
ghost use Rattle.std.specs.List.Sorted.{IsSorted};
ghost use Rattle.std.specs.FinMap.{empty};
ghost use Rattle.cov_outside.specs.Counts.{Rose};
ghost use Rattle.cov_data.specs.DataSet.{text_cmp};
ghost use Rattle.cov_sql.specs.Failures.{IsFailure};

use crate::counted::Counted;
use crate::errors::SqlError;
use crate::reading::read_data;
use crate::writing::write_data;
use cov_data::Data;
use cov_vault::{Vault, VaultError};
use sqlite::{Connection, Error, ErrorCode, File, FileStore};
use std::alloc::{AllocError, Global};
use std::io::ErrorKind;
use std::path::{Path, PathBuf};
use std::{fs, io};

/// The data files of a folder, each under its name. What the database keeps beside a data file, and
/// a part of a new one, have no name of their own.
#[derive(Drop)]
pub struct FolderVault {
    rt: HostRuntime,
    folder: String,
    by: Counted,
}

impl FolderVault {
    ghost use Rattle.cov_sql.specs.Vaults.{folder_of};

    pub fn new(alloc: Global, rt: &HostRuntime, folder: &str) -> Result<FolderVault, AllocError>
        ensures folder { IfOk result (λ vault. folder_of vault ≡ folder.now) }
        ensures faults { IfOk result (λ vault. ⟦<FolderVault as Vault>⟧.faults vault ≡ 0) }
    {
        Ok(FolderVault {
            rt: *rt,
            folder: String::from_str(alloc, folder)?,
            by: Counted::new(),
        })
    }

    fn path_of(&self, alloc: Global, name: &str) -> Result<PathBuf, AllocError> {
        Path::new(self.folder.as_str()).join(alloc, name)
    }

    /// A failure, which counts unless memory was missing.
    fn failure(&mut self, no_memory: bool) -> VaultError
        ensures same { folder_of self.new ≡ folder_of self.old }
        ensures count { self.old.by.refusals ≤ self.new.by.refusals }
        ensures failed { result ≡ VaultError.Failed
            → Rose self.old.by.refusals self.new.by.refusals }
        ensures kinds { IsFailure result }
    {
        if no_memory {
            return VaultError::NoMemory;
        }
        self.by.refuse();
        VaultError::Failed
    }

    fn is_there(&mut self, path: &PathBuf) -> Result<bool, VaultError>
        ensures same { folder_of self.new ≡ folder_of self.old }
        ensures count { self.old.by.refusals ≤ self.new.by.refusals }
        ensures failed { IsErrOf result VaultError.Failed
            → Rose self.old.by.refusals self.new.by.refusals }
        ensures kinds { IfErr result IsFailure }
    {
        match fs::exists(&self.rt, path.as_path()) {
            Ok(there) => Ok(there),
            Err(error) => Err(self.failure(is_no_memory(&error))),
        }
    }

    /// What it means how a base was closed.
    fn closed(&mut self, how: Result<(), Error>) -> Result<(), VaultError>
        ensures same { folder_of self.new ≡ folder_of self.old }
        ensures count { self.old.by.refusals ≤ self.new.by.refusals }
        ensures failed { IsErrOf result VaultError.Failed
            → Rose self.old.by.refusals self.new.by.refusals }
        ensures kinds { IfErr result IsFailure }
    {
        match how {
            Ok(()) => Ok(()),
            Err(Error::SqliteFailure(ErrorCode::OutOfMemory)) => Err(self.failure(true)),
            Err(error) => {
                drop(error);
                Err(self.failure(false))
            }
        }
    }

    /// Whether it is a file without bytes. An open would make a base of it.
    fn is_empty(&mut self, path: &PathBuf) -> Result<bool, VaultError>
        ensures same { folder_of self.new ≡ folder_of self.old }
        ensures count { self.old.by.refusals ≤ self.new.by.refusals }
        ensures failed { IsErrOf result VaultError.Failed
            → Rose self.old.by.refusals self.new.by.refusals }
        ensures kinds { IfErr result IsFailure }
    {
        match fs::metadata(&self.rt, path.as_path()) {
            Ok(found) => Ok(found.is_file() && found.len() == 0),
            Err(error) => Err(self.failure(is_no_memory(&error))),
        }
    }

    fn open(&mut self, path: &PathBuf) -> Result<Connection<FileStore<File>>, VaultError>
        ensures autocommit { IfOk result (λ base. base.in_transaction ≡ false) }
        ensures same { folder_of self.new ≡ folder_of self.old }
        ensures count { self.old.by.refusals ≤ self.new.by.refusals }
        ensures failed { IsErrOf result VaultError.Failed
            → Rose self.old.by.refusals self.new.by.refusals }
        ensures kinds { IfErr result IsFailure }
    {
        match Connection::open(&self.rt, path.as_path().as_str()) {
            Ok(base) => Ok(base),
            Err(Error::SqliteFailure(ErrorCode::OutOfMemory)) => Err(self.failure(true)),
            Err(_) => Err(self.failure(false)),
        }
    }
}

impl FolderVault {
    ghost use Rattle.cov_sql.specs.Vaults.{folder_of};

    /// Takes away what the database keeps beside a file.
    fn take_companions(&mut self, alloc: Global, path: &PathBuf) -> Result<(), VaultError>
        ensures same { folder_of self.new ≡ folder_of self.old }
        ensures count { self.old.by.refusals ≤ self.new.by.refusals }
        ensures failed { IsErrOf result VaultError.Failed
            → Rose self.old.by.refusals self.new.by.refusals }
        ensures kinds { IfErr result IsFailure }
    {
        match remove_companions(&self.rt, alloc, path) {
            Ok(()) => Ok(()),
            Err(error) => Err(self.failure(is_no_memory(&error))),
        }
    }

    /// Makes room for a new file and for its first part beside it.
    fn make_room(&mut self, alloc: Global, path: &PathBuf, part: &PathBuf) -> Result<(), VaultError>
        ensures same { folder_of self.new ≡ folder_of self.old }
        ensures count { self.old.by.refusals ≤ self.new.by.refusals }
        ensures failed { IsErrOf result VaultError.Failed
            → Rose self.old.by.refusals self.new.by.refusals }
        ensures kinds { IfErr result IsFailure }
    {
        match make_room(&self.rt, alloc, path, part) {
            Ok(()) => Ok(()),
            Err(error) => Err(self.failure(is_no_memory(&error))),
        }
    }

    /// Gives a whole file its name.
    fn name_file(&mut self, part: &PathBuf, path: &PathBuf) -> Result<(), VaultError>
        ensures same { folder_of self.new ≡ folder_of self.old }
        ensures count { self.old.by.refusals ≤ self.new.by.refusals }
        ensures failed { IsErrOf result VaultError.Failed
            → Rose self.old.by.refusals self.new.by.refusals }
        ensures kinds { IfErr result IsFailure }
    {
        match fs::rename(&self.rt, part.as_path(), path.as_path()) {
            Ok(()) => Ok(()),
            Err(error) => Err(self.failure(is_no_memory(&error))),
        }
    }

    fn read(&mut self, alloc: Global, path: &PathBuf) -> Result<Data, VaultError>
        ensures not_absent { IsErrOf result VaultError.Absent → ⊥ }
        ensures same { folder_of self.new ≡ folder_of self.old }
        ensures count { self.old.by.refusals ≤ self.new.by.refusals }
        ensures failed { IsErrOf result VaultError.Failed
            → Rose self.old.by.refusals self.new.by.refusals }
    {
        if self.is_empty(path)? {
            return Err(VaultError::NotSchema7);
        }
        let mut base = self.open(path)?;
        let loaded = read_data(alloc, &mut base, &mut self.by);
        // What stays beside the file is read by the next open.
        drop(base.close());
        match loaded {
            Ok(data) => Ok(data),
            Err(error) => Err(failure_of(error)),
        }
    }

    /// Writes to a file that is there.
    fn write(&mut self, alloc: Global, path: &PathBuf, content: &Data) -> Result<(), VaultError>
        ensures not_absent { IsErrOf result VaultError.Absent → ⊥ }
        ensures not_bad_row { (row : ℕ) → IsErrOf result (VaultError.BadRow row) → ⊥ }
        ensures same { folder_of self.new ≡ folder_of self.old }
        ensures count { self.old.by.refusals ≤ self.new.by.refusals }
        ensures failed { IsErrOf result VaultError.Failed
            → Rose self.old.by.refusals self.new.by.refusals }
    {
        if self.is_empty(path)? {
            return Err(VaultError::NotSchema7);
        }
        let mut base = self.open(path)?;
        let saved = write_data(alloc, &mut base, &mut self.by, content, false);
        // What stays beside the file is read by the next open.
        drop(base.close());
        match saved {
            Ok(()) => Ok(()),
            Err(error) => Err(failure_of(error)),
        }
    }

    /// Writes a whole new file: nothing of it stays beside it.
    fn write_part(
        &mut self,
        alloc: Global,
        part: &PathBuf,
        content: &Data,
    ) -> Result<(), VaultError>
        ensures not_absent { IsErrOf result VaultError.Absent → ⊥ }
        ensures not_bad_row { (row : ℕ) → IsErrOf result (VaultError.BadRow row) → ⊥ }
        ensures same { folder_of self.new ≡ folder_of self.old }
        ensures count { self.old.by.refusals ≤ self.new.by.refusals }
        ensures failed { IsErrOf result VaultError.Failed
            → Rose self.old.by.refusals self.new.by.refusals }
    {
        let mut base = self.open(part)?;
        let saved = write_data(alloc, &mut base, &mut self.by, content, true);
        let closed = base.close();
        match saved {
            Ok(()) => self.closed(closed),
            Err(error) => {
                drop(closed);
                Err(failure_of(error))
            }
        }
    }

    /// Writes a part and gives it its name.
    fn write_and_name(
        &mut self,
        alloc: Global,
        part: &PathBuf,
        path: &PathBuf,
        content: &Data,
    ) -> Result<(), VaultError>
        ensures not_absent { IsErrOf result VaultError.Absent → ⊥ }
        ensures not_bad_row { (row : ℕ) → IsErrOf result (VaultError.BadRow row) → ⊥ }
        ensures same { folder_of self.new ≡ folder_of self.old }
        ensures count { self.old.by.refusals ≤ self.new.by.refusals }
        ensures failed { IsErrOf result VaultError.Failed
            → Rose self.old.by.refusals self.new.by.refusals }
    {
        self.write_part(alloc, part, content)?;
        self.name_file(part, path)
    }
}

impl Vault for FolderVault {
    ghost use Rattle.cov_sql.specs.Vaults.{ListsFolder, LoadsFolder, SavesFolder, RemovesFolder};

    ghost tells = { λ _. ⊥ };

    ghost contents = { λ _. empty };

    ghost faults = { λ vault. vault.by.refusals };

    ghost lists = { ListsFolder };

    ghost loads = { LoadsFolder };

    ghost saves = { SavesFolder };

    ghost removes = { RemovesFolder };

    ghost lists_truly = { λ _ _ _ no. absurd no };

    ghost loads_truly = { λ _ _ _ _ no. absurd no };

    ghost saves_whole = { λ _ _ _ _ _ no. absurd no };

    ghost removes_whole = { λ _ _ _ _ no. absurd no };

    ghost bounded = { λ vault. vault.by.bounded };

    fn names(&mut self, alloc: Global) -> Result<Vec<String>, VaultError> {
        match names_in(&self.rt, alloc, self.folder.as_str()) {
            Ok(names) => Ok(names),
            Err(error) => Err(self.failure(is_no_memory(&error))),
        }
    }

    fn load(&mut self, alloc: Global, name: &str) -> Result<Data, VaultError> {
        let path = self.path_of(alloc, name)?;
        if !self.is_there(&path)? {
            return Err(VaultError::Absent);
        }
        self.read(alloc, &path)
    }

    fn save(&mut self, alloc: Global, name: &str, content: &Data) -> Result<(), VaultError> {
        let path = self.path_of(alloc, name)?;
        if self.is_there(&path)? {
            return self.write(alloc, &path, content);
        }
        // A new file gets its name when it is whole, so that a stop leaves none of this name.
        let part_name = format!(in alloc; "{}{}", name, PART)?;
        let part = self.path_of(alloc, part_name.as_str())?;
        self.make_room(alloc, &path, &part)?;
        let saved = self.write_and_name(alloc, &part, &path, content);
        // The next save of this name takes what stays.
        let _ = remove_part(&self.rt, alloc, &part);
        saved
    }

    fn remove(&mut self, alloc: Global, name: &str) -> Result<(), VaultError> {
        let path = self.path_of(alloc, name)?;
        if !self.is_there(&path)? {
            return Err(VaultError::Absent);
        }
        match fs::remove_file(&self.rt, path.as_path()) {
            Ok(()) => {
                // The name is gone. What stays beside it counts, and the next save of this name
                // takes it.
                let _ = self.take_companions(alloc, &path);
                Ok(())
            }
            Err(error) => Err(self.failure(is_no_memory(&error))),
        }
    }
}

fn is_no_memory(error: &io::Error) -> bool {
    error.kind() == ErrorKind::OutOfMemory
}

/// What a refused reading or writing means for a vault.
pub(crate) fn failure_of(error: SqlError) -> VaultError
    ensures failed { result ≡ VaultError.Failed → error ≡ SqlError.Refused }
    ensures bad_row { (row : ℕ) → result ≡ VaultError.BadRow row → error ≡ SqlError.BadRow row }
    ensures not_schema { result ≡ VaultError.NotSchema7 → error ≡ SqlError.NotSchema7 }
    ensures not_absent { result ≡ VaultError.Absent → ⊥ }
{
    match error {
        SqlError::NotSchema7 => VaultError::NotSchema7,
        SqlError::BadRow(row) => VaultError::BadRow(row),
        SqlError::Refused => VaultError::Failed,
        SqlError::NoMemory => VaultError::NoMemory,
    }
}

/// What the names end in of the files that the database keeps beside a data file.
const ENDINGS: [&str; 3] = ["-journal", "-wal", "-shm"];

/// What the name ends in of a new data file that isn't whole yet.
const PART: &str = "-cov-part";

/// The names of the files of a folder, in order. A name that is not UTF-8 is passed over.
fn names_in(rt: &HostRuntime, alloc: Global, folder: &str) -> io::Result<Vec<String>>
    ensures { IfOk result (λ names.
        IsSorted (λ a b. text_cmp (string_bytes a) (string_bytes b)) names.items) }
{
    let mut names = Vec::new(alloc);
    for entry in fs::read_dir(rt, folder)? {
        match entry {
            Ok(entry) => {
                if is_data_file(&entry)? {
                    names.push(String::from_str(alloc, entry.file_name())?)?;
                }
            }
            Err(error) if error.kind() == ErrorKind::InvalidFilename => {}
            Err(error) => return Err(error),
        }
    }
    names.sort()?;
    Ok(names)
}

fn is_data_file(entry: &fs::DirEntry) -> io::Result<bool> {
    if entry.file_name().ends_with(PART)
        || ENDINGS
            .iter()
            .any(|ending| entry.file_name().ends_with(*ending))
    {
        return Ok(false);
    }
    Ok(!entry.file_type()?.is_dir())
}

fn remove_companions(rt: &HostRuntime, alloc: Global, path: &PathBuf) -> io::Result<()> {
    for ending in ENDINGS {
        let companion = format!(in alloc; "{}{}", path.as_path().as_str(), ending)?;
        remove_if_there(rt, companion.as_str())?;
    }
    Ok(())
}

fn remove_if_there(rt: &HostRuntime, path: &str) -> io::Result<()> {
    match fs::remove_file(rt, path) {
        Ok(()) => Ok(()),
        Err(error) if error.kind() == ErrorKind::NotFound => Ok(()),
        Err(error) => Err(error),
    }
}

/// Takes away a part, and what the database keeps beside it.
fn remove_part(rt: &HostRuntime, alloc: Global, part: &PathBuf) -> io::Result<()> {
    remove_if_there(rt, part.as_path().as_str())?;
    remove_companions(rt, alloc, part)
}

/// Takes away what stands beside a file that isn't there, a part of an earlier save too. Where a
/// link to nothing has that name, it is refused.
fn make_room(rt: &HostRuntime, alloc: Global, path: &PathBuf, part: &PathBuf) -> io::Result<()> {
    if has_name(rt, path)? {
        return Err(ErrorKind::AlreadyExists.into());
    }
    remove_part(rt, alloc, part)?;
    remove_companions(rt, alloc, path)
}

/// Whether a file or a link has this name.
fn has_name(rt: &HostRuntime, path: &PathBuf) -> io::Result<bool> {
    match fs::symlink_metadata(rt, path.as_path()) {
        Ok(_) => Ok(true),
        Err(error) if error.kind() == ErrorKind::NotFound => Ok(false),
        Err(error) => Err(error),
    }
}
