//! A vault in memory that never fails.
ghost use Rattle.std.specs.Prelude.{◌≡◌};
ghost use Rattle.std.proofs.Common.{lit≤};
ghost use Rattle.cov_vault.specs.Contents.{contents_of};

use crate::entries::Entries;
use crate::vault::{Content, Vault, VaultError};
use cov_data::Data;
use std::alloc::Global;

/// A vault in memory that never fails.
#[derive(Drop)]
pub struct SureVault {
    entries: Entries,
}

impl SureVault {
    /// Of two pairs with one name the first counts.
    pub fn new(_alloc: Global, contents: Vec<(String, Content)>) -> SureVault
        ensures { ⟦<SureVault as Vault>⟧.contents result ≡ contents_of contents.items }
    {
        SureVault {
            entries: Entries { pairs: contents },
        }
    }
}

impl Vault for SureVault {
    ghost use Rattle.cov_vault.specs.Memory.{sure_contents, ListsSure, LoadsSure, SavesSure, RemovesSure};

    ghost tells = { λ _. Unit {0} };

    ghost contents = { sure_contents };

    ghost faults = { λ _. 0 };

    ghost lists = { ListsSure };

    ghost loads = { LoadsSure };

    ghost saves = { SavesSure };

    ghost removes = { RemovesSure };

    ghost lists_truly = { λ _ _ _ _ moved. (tt, moved.told, moved.kept) };

    ghost loads_truly = { λ _ _ _ _ _ moved. (tt, moved.told, moved.kept) };

    ghost saves_whole = { λ _ _ _ _ _ _ moved. (tt, moved.saved) };

    ghost removes_whole = { λ _ _ _ _ _ moved. (tt, moved.removed) };

    ghost bounded = { λ _. lit≤ tt };

    fn names(&mut self, alloc: Global) -> Result<Vec<String>, VaultError> {
        Ok(self.entries.names(alloc)?)
    }

    fn load(&mut self, alloc: Global, name: &str) -> Result<Data, VaultError> {
        self.entries.load(alloc, name)
    }

    fn save(&mut self, alloc: Global, name: &str, content: &Data) -> Result<(), VaultError> {
        self.entries.save(alloc, name, content)
    }

    fn remove(&mut self, _alloc: Global, name: &str) -> Result<(), VaultError> {
        self.entries.remove(name)
    }
}
