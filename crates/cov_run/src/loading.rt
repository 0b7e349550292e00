//! Loads the script and, in order, the modules that the loaded ones import.

ghost use Rattle.std.specs.Prelude.{◌≡◌, ◌≢◌, ℕ, suc, List, [], ◌∷◌, ◌++◌, Option, ◌<◌, ◌≤◌, length, slice_get, Some, Ok, IfErr, IfOk, OnOk, IsErrOf};
ghost use Rattle.std.specs.Str.{chars};
ghost use Rattle.cov_outside.specs.Counts.{Rose};
ghost use Rattle.py_scope.specs.Faults.{IsWellFormed, functions_of};
ghost use Rattle.py_syntax.specs.Names.{add_names};
ghost use Rattle.py_syntax.specs.Tree.{Text as Name};
ghost use Rattle.py_syntax.specs.View.{plain_module};
ghost use Rattle.py_meaning.specs.Loading.{folder_of, imported, loaded};
ghost use Rattle.cov_why.specs.Answers.{AnsweredAs, RefusedAs};
ghost use Rattle.cov_why.specs.Answers as answer;
ghost use Rattle.cov_run.specs.Loading.{most_bytes, most_modules, most_total, program_of, told_by};
ghost use Rattle.cov_run.specs.Loads.{EndsFailed, EndsWith, IsUnread, Loads, LoadsTo};
ghost use Rattle.cov_run.specs.Progress.{HasCome};
ghost use Rattle.cov_run.specs.Refusals.{Refuses};
ghost use Rattle.cov_run.specs.State.{Adds, Finds, Grows, GrowsOrStays, Holds, IsSmall, IsSmallFound, nothing, state_of};
ghost use Rattle.cov_run.specs.View.{listed_sources, plain_sources};

use crate::imports::add_imported;
use crate::loaded::LoadedSource;
use crate::paths::{file_of, folder_of};
use crate::refusals::{no_such_file, refused};
use crate::source::{Source, read_source};
use cov_outside::{Shelf, ShelfError};
use cov_why::{LimitKind, Why};
use py_scope::NameSet;
use py_text::{NoMemory, Text};
use std::alloc::Global;

/// The most bytes of a file.
pub(crate) const MOST_BYTES: usize = 1_048_576;

/// The most bytes of all files of a program.
const MOST_TOTAL_BYTES: usize = 16_777_216;

/// The most modules of a program.
const MOST_MODULES: usize = 256;

/// Loads the script as the module `name`, and then in order the modules that the loaded ones
/// import, each once, where its file is there: it lies in the script's folder and is named as the
/// module, with `.py` after it. No file is read for `sys`. The first file that can't be loaded
/// refuses the program.
pub fn load_sources<H: Shelf>(
    alloc: Global,
    script: &str,
    name: &str,
    shelf: &mut H,
) -> Result<Vec<LoadedSource>, Why>
    ensures told { H.tells → AnsweredAs listed_sources result (LoadsTo
        (told_by (H.files shelf.old) (chars script.now)) (chars script.now) (chars name.now)) }
    // The meaning of the language loads the same modules from the trees of their files.
    ensures meant { H.tells → IfOk result (λ sources.
        loaded (program_of (chars script.now) (chars name.now) (plain_sources sources.items))
        ≡ plain_sources sources.items) }
    // What a shelf answers is passed on as it came.
    ensures loads { AnsweredAs listed_sources result (λ loading.
        Loads H.reads shelf.old (chars script.now) (chars name.now) loading shelf.new) }
    ensures failed { IsErrOf result Why.ShelfFault → EndsFailed H.reads shelf.old
        (chars script.now) (chars name.now) shelf.new }
    ensures fault { IsErrOf result Why.ShelfFault
        → Rose (H.faults shelf.old) (H.faults shelf.new) }
    ensures count { H.faults shelf.old ≤ H.faults shelf.new }
    ensures kept { H.tells → H.files shelf.new ≡ H.files shelf.old }
{
    let Ok(folder) = folder_of(alloc, script) else {
        return Err(Why::NoMemory);
    };
    let mut loading = begun(alloc, script, name, shelf)?;
    loading.import_all(alloc, &folder, shelf)?;
    Ok(loading.sources)
}

/// The script alone.
fn begun<H: Shelf>(alloc: Global, script: &str, name: &str, shelf: &mut H) -> Result<Loading, Why>
    ensures come { IfOk result (λ l. HasCome H.reads shelf.old (chars script.now)
        (chars name.now) (state_of l) 0 shelf.new) }
    ensures limits { IfOk result (λ l.
        (length l.sources.items ≤ most_modules) × (l.bytes ≤ most_total)) }
    ensures ends { IfErr result (λ w.
        EndsWith H.reads shelf.old (chars script.now) (chars name.now) w shelf.new) }
    ensures fault { IsErrOf result Why.ShelfFault
        → Rose (H.faults shelf.old) (H.faults shelf.new) }
    ensures count { H.faults shelf.old ≤ H.faults shelf.new }
{
    let Ok(path) = Text::from_str(alloc, script) else {
        return Err(Why::NoMemory);
    };
    let Ok(name) = Text::from_str(alloc, name) else {
        return Err(Why::NoMemory);
    };
    let mut loading = Loading::new(alloc);
    match find(alloc, &path, shelf)? {
        Some(file) => {
            loading.add(alloc, name, path, file)?;
            Ok(loading)
        }
        None => Err(no_such_file(alloc, path.as_str())),
    }
}

/// A file that is there: its bytes, or that they are too many.
#[derive(Drop)]
pub(crate) enum File {
    Bytes(Vec<u8>),
    TooLarge,
}

/// The file of this name, where there is one.
fn find<H: Shelf>(alloc: Global, path: &Text, shelf: &mut H) -> Result<Option<File>, Why>
    ensures found { Finds H.reads shelf.old path.now result shelf.new }
    ensures small { IfOk result (λ file. IsSmallFound file) }
    ensures refused { IfErr result (λ w. RefusedAs w IsUnread) }
    ensures fault { IsErrOf result Why.ShelfFault
        → Rose (H.faults shelf.old) (H.faults shelf.new) }
    ensures count { H.faults shelf.old ≤ H.faults shelf.new }
{
    match shelf.read(alloc, path.as_str(), MOST_BYTES) {
        Ok(bytes) => Ok(Some(File::Bytes(bytes))),
        Err(ShelfError::Absent) => Ok(None),
        Err(ShelfError::TooLarge) => Ok(Some(File::TooLarge)),
        Err(ShelfError::Failed) => Err(Why::ShelfFault),
        Err(ShelfError::NoMemory) => Err(Why::NoMemory),
    }
}

/// The modules so far, the names that they import, and how many bytes their files have in all.
#[derive(Drop)]
pub(crate) struct Loading {
    pub sources: Vec<LoadedSource>,
    pub names: NameSet,
    pub bytes: usize,
}

impl Loading {
    fn new(alloc: Global) -> Loading
        ensures { state_of result ≡ nothing }
    {
        Loading {
            sources: Vec::new(alloc),
            names: NameSet::new(alloc),
            bytes: 0,
        }
    }

    /// Loads what the modules import, and what that imports, until no more is wanted.
    fn import_all<H: Shelf>(
        &mut self,
        alloc: Global,
        folder: &Text,
        shelf: &mut H,
    ) -> Result<(), Why>
        requires few { length self.old.sources.items ≤ most_modules }
        requires light { self.old.bytes ≤ most_total }
        ensures loads { (start : H) (script called : Name)
            → HasCome H.reads start script called (state_of self.old) 0 shelf.old
            → folder.now ≡ folder_of script
            → OnOk result (Loads H.reads start script called
            (Ok (plain_sources self.new.sources.items)) shelf.new) }
        ensures ends { (start : H) (script called : Name)
            → HasCome H.reads start script called (state_of self.old) 0 shelf.old
            → folder.now ≡ folder_of script
            → IfErr result (λ w. EndsWith H.reads start script called w shelf.new) }
        ensures fault { IsErrOf result Why.ShelfFault
            → Rose (H.faults shelf.old) (H.faults shelf.new) }
        ensures count { H.faults shelf.old ≤ H.faults shelf.new }
    {
        let mut at = 0;
        let mut count = self.names.len();
        'names: while at < count {
            let Ok(name) = self.names.get(alloc, at) else {
                return Err(Why::NoMemory);
            };
            self.import(alloc, folder, name, shelf)?;
            at += 1;
            count = self.names.len();
        }
        Ok(())
    }

    /// Loads an imported module, where it has a file.
    fn import<H: Shelf>(
        &mut self,
        alloc: Global,
        folder: &Text,
        name: Text,
        shelf: &mut H,
    ) -> Result<(), Why>
        requires { self.old.bytes ≤ most_total }
        ensures come { (start : H) (script called : Name) (at : ℕ)
            → HasCome H.reads start script called (state_of self.old) at shelf.old
            → folder.now ≡ folder_of script → slice_get (state_of self.old).names at ≡ Some name
            → OnOk result (HasCome H.reads start script called (state_of self.new) (suc at)
            shelf.new) }
        ensures ends { (start : H) (script called : Name) (at : ℕ)
            → HasCome H.reads start script called (state_of self.old) at shelf.old
            → folder.now ≡ folder_of script → slice_get (state_of self.old).names at ≡ Some name
            → IfErr result (λ w. EndsWith H.reads start script called w shelf.new) }
        ensures grows { OnOk result (GrowsOrStays self.old self.new) }
        ensures fault { IsErrOf result Why.ShelfFault
            → Rose (H.faults shelf.old) (H.faults shelf.new) }
        ensures count { H.faults shelf.old ≤ H.faults shelf.new }
    {
        if name.as_str() == "sys" {
            return Ok(());
        }
        let Ok(path) = file_of(folder, &name) else {
            return Err(Why::NoMemory);
        };
        match find(alloc, &path, shelf)? {
            Some(file) => self.add(alloc, name, path, file),
            None => Ok(()),
        }
    }

    /// Adds the module of a file that is there.
    fn add(&mut self, alloc: Global, name: Text, path: Text, file: File) -> Result<(), Why>
        requires light { self.old.bytes ≤ most_total }
        requires small { IsSmall file }
        ensures added { (content : Option (List ℕ)) → Holds content file
            → OnOk result (Adds content name path (state_of self.old) (state_of self.new)) }
        ensures grows { OnOk result (Grows self.old self.new) }
        ensures refused { (content : Option (List ℕ)) → Holds content file
            → IfErr result (λ w. RefusedAs w (λ r. r ≢ answer.no_memory
            → Refuses (length self.old.sources.items) self.old.bytes path content r)) }
        ensures no_fault { IsErrOf result Why.ShelfFault → ⊥ }
    {
        if self.sources.len() >= MOST_MODULES {
            return Err(Why::Limit(LimitKind::Modules, 257));
        }
        match file {
            File::Bytes(bytes) => self.add_bytes(alloc, name, path, &bytes),
            File::TooLarge => Err(Why::Limit(LimitKind::FileBytes, 1_048_577)),
        }
    }

    /// Adds the module of a file of these bytes.
    fn add_bytes(&mut self, alloc: Global, name: Text, path: Text, bytes: &[u8]) -> Result<(), Why>
        requires few { length self.old.sources.items < most_modules }
        requires light { self.old.bytes ≤ most_total }
        requires small { length bytes.now ≤ most_bytes }
        ensures added { OnOk result (Adds (Some bytes.now) name path (state_of self.old)
            (state_of self.new)) }
        ensures grows { OnOk result (Grows self.old self.new) }
        ensures refused { IfErr result (λ w. RefusedAs w (λ r. r ≢ answer.no_memory
            → Refuses (length self.old.sources.items) self.old.bytes path (Some bytes.now) r)) }
        ensures no_fault { IsErrOf result Why.ShelfFault → ⊥ }
    {
        let total = self.bytes + bytes.len();
        if total > MOST_TOTAL_BYTES {
            return Err(Why::Limit(LimitKind::TotalBytes, total as u64));
        }
        match read_source(alloc, bytes) {
            Ok(source) => match self.push(alloc, name, path, source) {
                Ok(()) => {
                    self.bytes = total;
                    Ok(())
                }
                Err(_) => Err(Why::NoMemory),
            },
            Err(error) => Err(refused(alloc, path.as_str(), &error)),
        }
    }

    /// Adds a module that was read, and the names that it imports.
    fn push(
        &mut self,
        alloc: Global,
        name: Text,
        path: Text,
        source: Source,
    ) -> Result<(), NoMemory>
        requires well_formed { IsWellFormed (plain_module source.module) }
        requires names { source.scopes ≡ functions_of (plain_module source.module) }
        ensures modules { OnOk result (plain_sources self.new.sources.items
            ≡ plain_sources self.old.sources.items
            ++ record { name = name; path = path; body = plain_module source.module } ∷ []) }
        ensures names { OnOk result (self.new.names
            ≡ add_names self.old.names (imported (plain_module source.module))) }
        ensures bytes { self.new.bytes ≡ self.old.bytes }
    {
        add_imported(alloc, &mut self.names, &source.module.body)?;
        let Source { module, scopes } = source;
        self.sources.push(LoadedSource {
            name,
            path,
            module,
            scopes,
        })?;
        Ok(())
    }
}
