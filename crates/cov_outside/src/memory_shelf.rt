// Shelves in memory.
ghost use Rattle.std.specs.Prelude.{◌≡◌, ℕ, ◌<◌, ◌≤◌, ◌↔◌, List, length, Some, None, IfOk, OnOk, OnErr, IsErrOf, string_bytes, position};
ghost use Rattle.std.specs.Str.{bytes_eq};
ghost use Rattle.std.proofs.Common.{lit≤};
ghost use Rattle.cov_outside.specs.Files.{files_of, with_file};
ghost use Rattle.cov_outside.specs.Pairs.{plain_pairs};

use crate::failing::Failing;
use crate::shelf::{Shelf, ShelfError};
use std::alloc::{AllocError, Global};

/// Names with their bytes. Of two pairs with one name the first counts.
#[derive(Drop)]
struct Entries {
    pairs: Vec<(String, Vec<u8>)>,
}

impl Entries {
    /// The place of the first pair of this name.
    fn find(&self, name: &str) -> Option<usize>
        ensures { result ≡ position (λ pair.
            bytes_eq (string_bytes pair.0) name.now) self.now.pairs.items }
    {
        self.pairs.iter().position(|pair| pair.0.as_str() == name)
    }

    fn read(&self, alloc: Global, name: &str, most: usize) -> Result<Vec<u8>, ShelfError>
        ensures found { IfOk result (λ bytes.
            files_of (plain_pairs self.now.pairs.items) name.now ≡ Some bytes.items) }
        ensures fits { IfOk result (λ bytes. length bytes.items ≤ most) }
        ensures absent { IsErrOf result ShelfError.Absent
            → files_of (plain_pairs self.now.pairs.items) name.now ≡ None }
        ensures too_large { IsErrOf result ShelfError.TooLarge
            → (bytes : List ℕ) × (files_of (plain_pairs self.now.pairs.items) name.now ≡ Some bytes)
            × (most < length bytes) }
        ensures not_failed { IsErrOf result ShelfError.Failed → ⊥ }
    {
        let Some(at) = self.find(name) else {
            return Err(ShelfError::Absent);
        };
        let bytes = self.pairs[at].1.as_slice();
        if bytes.len() > most {
            return Err(ShelfError::TooLarge);
        }
        Ok(Vec::from_slice(alloc, bytes)?)
    }

    fn put(&mut self, alloc: Global, name: &str, bytes: &[u8]) -> Result<(), AllocError>
        ensures ok { OnOk result (files_of (plain_pairs self.new.pairs.items)
            ≡ with_file name.now bytes.now (files_of (plain_pairs self.old.pairs.items))) }
        ensures err { OnErr result (self.new.pairs.items ≡ self.old.pairs.items) }
    {
        let bytes = Vec::from_slice(alloc, bytes)?;
        if let Some(at) = self.find(name) {
            self.pairs[at].1 = bytes;
            return Ok(());
        }
        let name = String::from_str(alloc, name)?;
        self.pairs.push((name, bytes))?;
        Ok(())
    }
}

/// A shelf in memory whose calls of the given numbers fail.
#[derive(Drop)]
pub struct MemShelf {
    entries: Entries,
    failing: Failing,
}

impl MemShelf {
    ghost use Rattle.cov_outside.specs.Memory.{shelf_files, shelf_calls, shelf_faults};

    /// Of two pairs with one name the first counts. Calls, of either kind, are counted from 0. A
    /// failing call leaves the files as they were.
    pub fn new(_alloc: Global, contents: Vec<(String, Vec<u8>)>, failing: Vec<u64>) -> MemShelf
        ensures files { shelf_files result ≡ files_of (plain_pairs contents.items) }
        ensures calls { shelf_calls result ≡ record { failing = failing.items; count = 0 } }
        ensures faults { shelf_faults result ≡ 0 }
    {
        MemShelf {
            entries: Entries { pairs: contents },
            failing: Failing::new(failing),
        }
    }
}

impl Shelf for MemShelf {
    ghost use Rattle.cov_outside.specs.Calls.{FailsNext, after_call};
    ghost use Rattle.cov_outside.specs.Counts.{Rose};
    ghost use Rattle.cov_outside.specs.Memory.{shelf_files, shelf_calls, shelf_faults, ReadsMemory, PutsMemory};
    ghost use Rattle.cov_outside.specs.Reads.{bytes_read, refusal_of};

    ghost tells = { Unit {0} };

    ghost files = { shelf_files };

    ghost faults = { shelf_faults };

    ghost reads = { ReadsMemory };

    ghost puts = { PutsMemory };

    ghost truthful = { λ _ _ _ _ _ _ moved. (moved.told, moved.kept) };

    ghost puts_whole = { λ _ _ _ _ _ _ moved. moved.put };

    ghost bounded = { λ shelf. shelf.failing.bounded };

    fn read(&mut self, alloc: Global, name: &str, most: usize) -> Result<Vec<u8>, ShelfError>
        ensures moved { ReadsMemory self.old name.now most (bytes_read result) self.new }

        // Exactly the calls fail that the list names.
        ensures fails { IsErrOf result ShelfError.Failed ↔ FailsNext (shelf_calls self.old) }
        ensures calls { shelf_calls self.new ≡ after_call (shelf_calls self.old) }
        ensures stays { (FailsNext (shelf_calls self.old) → ⊥)
            → shelf_faults self.new ≡ shelf_faults self.old }

        ensures found { IfOk result (λ bytes. shelf_files self.old name.now ≡ Some bytes.items) }
        ensures fits { IfOk result (λ bytes. length bytes.items ≤ most) }
        ensures absent { IsErrOf result ShelfError.Absent → shelf_files self.old name.now ≡ None }
        ensures too_large { IsErrOf result ShelfError.TooLarge
            → (bytes : List ℕ) × (shelf_files self.old name.now ≡ Some bytes)
            × (most < length bytes) }
        ensures kept { shelf_files self.new ≡ shelf_files self.old }

        ensures count { shelf_faults self.old ≤ shelf_faults self.new }
        ensures failed { IsErrOf result ShelfError.Failed
            → Rose (shelf_faults self.old) (shelf_faults self.new) }
    {
        if self.failing.fails() {
            return Err(ShelfError::Failed);
        }
        self.entries.read(alloc, name, most)
    }

    fn put(&mut self, alloc: Global, name: &str, bytes: &[u8]) -> Result<(), ShelfError>
        ensures moved { PutsMemory self.old name.now bytes.now (refusal_of result) self.new }

        // Exactly the calls fail that the list names.
        ensures fails { IsErrOf result ShelfError.Failed ↔ FailsNext (shelf_calls self.old) }
        ensures calls { shelf_calls self.new ≡ after_call (shelf_calls self.old) }
        ensures stays { (FailsNext (shelf_calls self.old) → ⊥)
            → shelf_faults self.new ≡ shelf_faults self.old }

        ensures ok { OnOk result (shelf_files self.new
            ≡ with_file name.now bytes.now (shelf_files self.old)) }
        ensures err { OnErr result (shelf_files self.new ≡ shelf_files self.old) }
        ensures not_absent { IsErrOf result ShelfError.Absent → ⊥ }
        ensures not_too_large { IsErrOf result ShelfError.TooLarge → ⊥ }

        ensures count { shelf_faults self.old ≤ shelf_faults self.new }
        ensures failed { IsErrOf result ShelfError.Failed
            → Rose (shelf_faults self.old) (shelf_faults self.new) }
    {
        if self.failing.fails() {
            return Err(ShelfError::Failed);
        }
        match self.entries.put(alloc, name, bytes) {
            Ok(()) => Ok(()),
            Err(_) => Err(ShelfError::NoMemory),
        }
    }
}

/// A shelf in memory that never fails.
#[derive(Drop)]
pub struct SureShelf {
    entries: Entries,
}

impl SureShelf {
    /// Of two pairs with one name the first counts.
    pub fn new(_alloc: Global, contents: Vec<(String, Vec<u8>)>) -> SureShelf
        ensures { ⟦<SureShelf as Shelf>⟧.files result ≡ files_of (plain_pairs contents.items) }
    {
        SureShelf {
            entries: Entries { pairs: contents },
        }
    }
}

impl Shelf for SureShelf {
    ghost use Rattle.cov_outside.specs.Memory.{sure_files, ReadsSure, PutsSure};

    ghost tells = { Unit {0} };

    ghost files = { sure_files };

    ghost faults = { λ _. 0 };

    ghost reads = { ReadsSure };

    ghost puts = { PutsSure };

    ghost truthful = { λ _ _ _ _ _ _ moved. (moved.told, moved.kept) };

    ghost puts_whole = { λ _ _ _ _ _ _ moved. moved.put };

    ghost bounded = { λ _. lit≤ tt };

    fn read(&mut self, alloc: Global, name: &str, most: usize) -> Result<Vec<u8>, ShelfError> {
        self.entries.read(alloc, name, most)
    }

    fn put(&mut self, alloc: Global, name: &str, bytes: &[u8]) -> Result<(), ShelfError> {
        self.entries.put(alloc, name, bytes)?;
        Ok(())
    }
}
