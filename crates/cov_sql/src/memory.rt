//! Data files in memory.
ghost use Rattle.std.specs.Prelude.{◌≡◌, ◌≤◌, ℕ, false, None, [], ◌∷◌, ◌++◌, All, OnOk, OnErr, IsErrOf, position, string_bytes};
ghost use Rattle.std.specs.Str.{bytes_eq};
ghost use Rattle.std.specs.FinMap.{insert};
ghost use Rattle.cov_outside.specs.Counts.{Rose};
ghost use Rattle.cov_vault.specs.declared.vault.Content.TheVariants.{Good};
ghost use Rattle.cov_sql.specs.Bases.{IsIdle, kept_in, IsAsDeclared, AreAsDeclared, bases_contents, Loads, IsSavable, SavesIn};

use crate::counted::Counted;
use crate::folder::failure_of;
use crate::reading::read_data;
use crate::writing::write_data;
use cov_data::Data;
use cov_vault::{Vault, VaultError, first_named, names_of};
use sqlite::{Connection, MemStore};
use std::alloc::{AllocError, Global};

/// Data files over bases in memory, each under its name. Of two bases with one name the first
/// counts.
#[derive(Drop)]
pub struct SqlVault {
    bases: Vec<(String, Connection<MemStore>)>,
    by: Counted,
    ghost idle: { All IsIdle bases.items },
}

impl SqlVault {
    /// No base has an open transaction.
    pub fn new(bases: Vec<(String, Connection<MemStore>)>) -> SqlVault
        requires { All IsIdle bases.items }
        ensures contents { ⟦<SqlVault as Vault>⟧.contents result ≡ bases_contents bases.items }
        ensures tells { AreAsDeclared bases.items → ⟦<SqlVault as Vault>⟧.tells result }
        ensures faults { ⟦<SqlVault as Vault>⟧.faults result ≡ 0 }
    {
        SqlVault {
            bases,
            by: Counted::new(),
        }
    }

    fn add(&mut self, name: String, base: Connection<MemStore>) -> Result<(), AllocError>
        requires { base.in_transaction ≡ false }
        ensures ok { OnOk result
            (self.new.bases.items ≡ self.old.bases.items ++ (name, base) ∷ []) }
        ensures err { OnErr result (self.new.bases.items ≡ self.old.bases.items) }
        ensures count { self.new.by.refusals ≡ self.old.by.refusals }
    {
        self.bases.push((name, base))?;
        Ok(())
    }

    /// Saves data under a name that isn't there.
    fn save_new(&mut self, alloc: Global, name: &str, content: &Data) -> Result<(), VaultError>
        requires { position (λ base.
            bytes_eq (string_bytes base.0) name.now) self.old.bases.items ≡ None }
        ensures ok { OnOk result (bases_contents self.new.bases.items
            ≡ insert (bases_contents self.old.bases.items) name.now (Good content.now)) }
        ensures tells { AreAsDeclared self.old.bases.items → AreAsDeclared self.new.bases.items }
        ensures err { OnErr result (self.new.bases.items ≡ self.old.bases.items) }
        ensures not_schema { IsErrOf result VaultError.NotSchema7 → ⊥ }
        ensures not_absent { IsErrOf result VaultError.Absent → ⊥ }
        ensures not_bad_row { (row : ℕ) → IsErrOf result (VaultError.BadRow row) → ⊥ }
        ensures count { self.old.by.refusals ≤ self.new.by.refusals }
        ensures failed { IsErrOf result VaultError.Failed
            → Rose self.old.by.refusals self.new.by.refusals }
    {
        let name = String::from_str(alloc, name)?;
        let mut base = Connection::open_in_memory(alloc)?;
        write_base(alloc, &mut base, &mut self.by, content, true)?;
        Ok(self.add(name, base)?)
    }
}

impl Vault for SqlVault {
    ghost use Rattle.cov_sql.specs.Vaults.{TellsBases, told_in, ListsBases, LoadsBases, SavesBases, RemovesBases};

    // Where its bases have the tables of data files as they are declared.
    ghost tells = { TellsBases };

    ghost contents = { told_in };

    ghost faults = { λ vault. vault.by.refusals };

    ghost lists = { ListsBases };

    ghost loads = { LoadsBases };

    ghost saves = { SavesBases };

    ghost removes = { RemovesBases };

    ghost lists_truly = { λ _ _ _ all moved. (moved.tells all, moved.told, moved.kept) };

    ghost loads_truly = { λ _ _ _ _ all moved. (moved.tells all, moved.told all, moved.kept all) };

    ghost saves_whole = { λ _ _ _ _ _ all moved. (moved.tells all, moved.saved all) };

    ghost removes_whole = { λ _ _ _ _ all moved. (moved.tells all, moved.removed) };

    ghost bounded = { λ vault. vault.by.bounded };

    fn names(&mut self, alloc: Global) -> Result<Vec<String>, VaultError> {
        Ok(names_of(alloc, &self.bases)?)
    }

    fn load(&mut self, alloc: Global, name: &str) -> Result<Data, VaultError> {
        let Some(place) = first_named(&self.bases, name) else {
            return Err(VaultError::Absent);
        };
        read_base(alloc, &mut self.bases[place].1, &mut self.by)
    }

    fn save(&mut self, alloc: Global, name: &str, content: &Data) -> Result<(), VaultError> {
        let Some(at) = first_named(&self.bases, name) else {
            return self.save_new(alloc, name, content);
        };
        write_base(alloc, &mut self.bases[at].1, &mut self.by, content, false)
    }

    fn remove(&mut self, _alloc: Global, name: &str) -> Result<(), VaultError> {
        let Some(_first) = first_named(&self.bases, name) else {
            return Err(VaultError::Absent);
        };
        self.bases.retain(|base| base.0.as_str() != name);
        Ok(())
    }
}

fn read_base(
    alloc: Global,
    base: &mut Connection<MemStore>,
    by: &mut Counted,
) -> Result<Data, VaultError>
    requires { base.old.in_transaction ≡ false }
    ensures loads { IsAsDeclared (kept_in base.old)
        → Loads (kept_in base.old) (kept_in base.new) result }
    ensures idle { base.new.in_transaction ≡ false }
    ensures not_absent { IsErrOf result VaultError.Absent → ⊥ }
    ensures count { by.old.refusals ≤ by.new.refusals }
    ensures failed { IsErrOf result VaultError.Failed → Rose by.old.refusals by.new.refusals }
{
    // Outside of a transaction a base shows what was committed.
    prove!(base.is_autocommit());
    match read_data(alloc, base, by) {
        Ok(loaded) => Ok(loaded),
        Err(error) => Err(failure_of(error)),
    }
}

fn write_base(
    alloc: Global,
    base: &mut Connection<MemStore>,
    by: &mut Counted,
    content: &Data,
    fresh: bool,
) -> Result<(), VaultError>
    requires { base.old.in_transaction ≡ false }
    ensures saves { IsSavable fresh (kept_in base.old)
        → SavesIn fresh content.now (kept_in base.old) (kept_in base.new) result }
    ensures idle { base.new.in_transaction ≡ false }
    ensures not_absent { IsErrOf result VaultError.Absent → ⊥ }
    ensures not_bad_row { (row : ℕ) → IsErrOf result (VaultError.BadRow row) → ⊥ }
    ensures count { by.old.refusals ≤ by.new.refusals }
    ensures failed { IsErrOf result VaultError.Failed → Rose by.old.refusals by.new.refusals }
{
    // Outside of a transaction a base shows what was committed.
    prove!(base.is_autocommit());
    let _sound = content.is_arcs();
    match write_data(alloc, base, by, content, fresh) {
        Ok(()) => Ok(()),
        Err(error) => Err(failure_of(error)),
    }
}
