//! A vault in memory that fails at chosen calls.
ghost use Rattle.std.specs.Prelude.{◌≡◌, ◌≢◌, ℕ, ◌≤◌, ◌↔◌, Some, None, IfOk, OnOk, OnErr, IsErrOf, map, string_bytes};
ghost use Rattle.std.specs.FinMap as finite;
ghost use Rattle.cov_vault.specs.Contents.{contents_of};

use crate::entries::Entries;
use crate::vault::{Content, Vault, VaultError};
use cov_data::Data;
use cov_outside::Failing;
use std::alloc::Global;

/// A vault in memory whose calls of the given numbers fail.
#[derive(Drop)]
pub struct MemVault {
    entries: Entries,
    failing: Failing,
}

impl MemVault {
    ghost use Rattle.cov_vault.specs.Memory.{vault_contents, vault_calls, vault_faults};

    /// Of two pairs with one name the first counts. Calls, of any kind, are counted from 0. A
    /// failing call leaves the contents as they were.
    pub fn new(_alloc: Global, contents: Vec<(String, Content)>, failing: Vec<u64>) -> MemVault
        ensures contents { vault_contents result ≡ contents_of contents.items }
        ensures calls { vault_calls result ≡ record { failing = failing.items; count = 0 } }
        ensures faults { vault_faults result ≡ 0 }
    {
        MemVault {
            entries: Entries { pairs: contents },
            failing: Failing::new(failing),
        }
    }
}

impl Vault for MemVault {
    ghost use Rattle.cov_outside.specs.Calls.{FailsNext, after_call};
    ghost use Rattle.cov_outside.specs.Counts.{Rose};
    ghost use Rattle.cov_vault.specs.Answers.{names_listed, refusal_of};
    ghost use Rattle.cov_vault.specs.Memory.{vault_contents, vault_calls, vault_faults, ListsMemory, LoadsMemory, SavesMemory, RemovesMemory};

    ghost tells = { λ _. Unit {0} };

    ghost contents = { vault_contents };

    ghost faults = { vault_faults };

    ghost lists = { ListsMemory };

    ghost loads = { LoadsMemory };

    ghost saves = { SavesMemory };

    ghost removes = { RemovesMemory };

    ghost lists_truly = { λ _ _ _ _ moved. (tt, moved.told, moved.kept) };

    ghost loads_truly = { λ _ _ _ _ _ moved. (tt, moved.told, moved.kept) };

    ghost saves_whole = { λ _ _ _ _ _ _ moved. (tt, moved.saved) };

    ghost removes_whole = { λ _ _ _ _ _ moved. (tt, moved.removed) };

    ghost bounded = { λ vault. vault.failing.bounded };

    fn names(&mut self, alloc: Global) -> Result<Vec<String>, VaultError>
        ensures moved { ListsMemory self.old (names_listed result) self.new }

        // Exactly the calls fail that the list names.
        ensures fails { IsErrOf result VaultError.Failed ↔ FailsNext (vault_calls self.old) }
        ensures calls { vault_calls self.new ≡ after_call (vault_calls self.old) }
        ensures stays { (FailsNext (vault_calls self.old) → ⊥)
            → vault_faults self.new ≡ vault_faults self.old }

        ensures names { IfOk result (λ names.
            map string_bytes names.items ≡ finite.keys (vault_contents self.old)) }
        ensures kept { vault_contents self.new ≡ vault_contents self.old }
        ensures not_absent { IsErrOf result VaultError.Absent → ⊥ }
        ensures not_schema { IsErrOf result VaultError.NotSchema7 → ⊥ }
        ensures not_bad_row { (row : ℕ) → IsErrOf result (VaultError.BadRow row) → ⊥ }

        ensures count { vault_faults self.old ≤ vault_faults self.new }
        ensures failed { IsErrOf result VaultError.Failed
            → Rose (vault_faults self.old) (vault_faults self.new) }
    {
        if self.failing.fails() {
            return Err(VaultError::Failed);
        }
        Ok(self.entries.names(alloc)?)
    }

    fn load(&mut self, alloc: Global, name: &str) -> Result<Data, VaultError>
        ensures moved { LoadsMemory self.old name.now result self.new }

        // Exactly the calls fail that the list names.
        ensures fails { IsErrOf result VaultError.Failed ↔ FailsNext (vault_calls self.old) }
        ensures calls { vault_calls self.new ≡ after_call (vault_calls self.old) }
        ensures stays { (FailsNext (vault_calls self.old) → ⊥)
            → vault_faults self.new ≡ vault_faults self.old }

        ensures found { IfOk result (λ loaded.
            finite.get (vault_contents self.old) name.now ≡ Some (Content.Good loaded)) }
        ensures absent { IsErrOf result VaultError.Absent
            → finite.get (vault_contents self.old) name.now ≡ None }
        ensures not_schema { IsErrOf result VaultError.NotSchema7
            → finite.get (vault_contents self.old) name.now ≡ Some Content.NotSchema7 }
        ensures bad_row { (row : ℕ) → IsErrOf result (VaultError.BadRow row)
            → finite.get (vault_contents self.old) name.now ≡ Some (Content.BadRow row) }
        ensures kept { vault_contents self.new ≡ vault_contents self.old }

        ensures count { vault_faults self.old ≤ vault_faults self.new }
        ensures failed { IsErrOf result VaultError.Failed
            → Rose (vault_faults self.old) (vault_faults self.new) }
    {
        if self.failing.fails() {
            return Err(VaultError::Failed);
        }
        self.entries.load(alloc, name)
    }

    fn save(&mut self, alloc: Global, name: &str, content: &Data) -> Result<(), VaultError>
        ensures moved { SavesMemory self.old name.now content.now (refusal_of result) self.new }

        // Exactly the calls fail that the list names.
        ensures fails { IsErrOf result VaultError.Failed ↔ FailsNext (vault_calls self.old) }
        ensures calls { vault_calls self.new ≡ after_call (vault_calls self.old) }
        ensures stays { (FailsNext (vault_calls self.old) → ⊥)
            → vault_faults self.new ≡ vault_faults self.old }

        ensures ok { OnOk result (vault_contents self.new
            ≡ finite.insert (vault_contents self.old) name.now (Content.Good content.now)) }
        ensures replaces { OnOk result
            (finite.get (vault_contents self.old) name.now ≢ Some Content.NotSchema7) }
        ensures not_schema { IsErrOf result VaultError.NotSchema7
            → finite.get (vault_contents self.old) name.now ≡ Some Content.NotSchema7 }
        ensures err { OnErr result (vault_contents self.new ≡ vault_contents self.old) }
        ensures not_absent { IsErrOf result VaultError.Absent → ⊥ }
        ensures not_bad_row { (row : ℕ) → IsErrOf result (VaultError.BadRow row) → ⊥ }

        ensures count { vault_faults self.old ≤ vault_faults self.new }
        ensures failed { IsErrOf result VaultError.Failed
            → Rose (vault_faults self.old) (vault_faults self.new) }
    {
        if self.failing.fails() {
            return Err(VaultError::Failed);
        }
        self.entries.save(alloc, name, content)
    }

    fn remove(&mut self, _alloc: Global, name: &str) -> Result<(), VaultError>
        ensures moved { RemovesMemory self.old name.now (refusal_of result) self.new }

        // Exactly the calls fail that the list names.
        ensures fails { IsErrOf result VaultError.Failed ↔ FailsNext (vault_calls self.old) }
        ensures calls { vault_calls self.new ≡ after_call (vault_calls self.old) }
        ensures stays { (FailsNext (vault_calls self.old) → ⊥)
            → vault_faults self.new ≡ vault_faults self.old }

        ensures ok { OnOk result (vault_contents self.new
            ≡ finite.remove (vault_contents self.old) name.now) }
        ensures removes { OnOk result (finite.get (vault_contents self.old) name.now ≢ None) }
        ensures absent { IsErrOf result VaultError.Absent
            → finite.get (vault_contents self.old) name.now ≡ None }
        ensures err { OnErr result (vault_contents self.new ≡ vault_contents self.old) }
        ensures not_schema { IsErrOf result VaultError.NotSchema7 → ⊥ }
        ensures not_bad_row { (row : ℕ) → IsErrOf result (VaultError.BadRow row) → ⊥ }

        ensures count { vault_faults self.old ≤ vault_faults self.new }
        ensures failed { IsErrOf result VaultError.Failed
            → Rose (vault_faults self.old) (vault_faults self.new) }
    {
        if self.failing.fails() {
            return Err(VaultError::Failed);
        }
        self.entries.remove(name)
    }
}
