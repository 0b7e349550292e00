//! Where data are kept between runs.
ghost use Rattle.std.specs.Prelude.{◌≡◌, ◌≢◌, ℕ, ◌≤◌, List, Option, Result, Some, None, IfOk, OnOk, OnErr, IsErrOf, map, string_bytes};
ghost use Rattle.std.specs.FinMap as finite;
ghost use Rattle.cov_outside.specs.Counts.{greatest, Rose};
ghost use Rattle.cov_data.specs.DataSet.{DataSet};
ghost use Rattle.cov_vault.specs.declared.vault.VaultError.{VaultError as Error};
ghost use Rattle.cov_vault.specs.declared.vault.VaultError.TheVariants.{NoMemory};
ghost use Rattle.cov_vault.specs.Contents.{Contents};
ghost use Rattle.cov_vault.specs.Answers.{names_listed, refusal_of, IsListed, IsLoaded, IsSaved, IsRemoved};

use cov_data::Data;
use std::alloc::{AllocError, Global};
use thiserror::Error;

/// What a name holds.
#[derive(Drop)]
pub enum Content {
    Good(Data),
    /// No data file of schema 7, the one that coverage.py 7 writes.
    NotSchema7,
    /// A data file whose row of this number, from 0, is the first that is none.
    BadRow(u64),
}

/// Why a vault refused a call.
#[derive(Clone, Copy, Debug, PartialEq, Eq, Error)]
pub enum VaultError {
    #[error("no data of this name")]
    Absent,
    #[error("no data file of schema 7")]
    NotSchema7,
    #[error("row {0} of the data file is none")]
    BadRow(u64),
    #[error("keeping data failed")]
    Failed,
    #[error("no memory")]
    NoMemory,
}

impl From<AllocError> for VaultError {
    ghost from_gives = { λ _ e. e ≡ NoMemory };

    fn from(_error: AllocError) -> VaultError {
        VaultError::NoMemory
    }
}

/// Data by name.
pub trait Vault {
    // Whether the vault tells its contents.
    ghost tells: { Self → Type 0 };

    // What its names hold, where that is told.
    ghost contents: { Self → Contents };

    // How often a call has failed.
    ghost faults: { Self → ℕ };

    // A list of names, or a refusal to give one, leads from one state to another.
    ghost lists: { Self → Result (List (List ℕ)) Error → Self → Type 0 };

    // So does a load of a name with its answer.
    ghost loads: { Self → List ℕ → Result DataSet Error → Self → Type 0 };

    // So do a save of data under a name, and a removal, each with its refusal, where it was refused.
    ghost saves: { Self → List ℕ → DataSet → Option Error → Self → Type 0 };

    ghost removes: { Self → List ℕ → Option Error → Self → Type 0 };

    // A vault that tells its contents answers by them, and goes on to tell them.
    ghost lists_truly: { (old : Self) (answer : Result (List (List ℕ)) Error) (new : Self)
        → tells old → lists old answer new
        → tells new × IsListed (contents old) answer × (contents new ≡ contents old) };

    ghost loads_truly: { (old : Self) (name : List ℕ) (answer : Result DataSet Error) (new : Self)
        → tells old → loads old name answer new
        → tells new × IsLoaded (finite.get (contents old) name) answer
        × (contents new ≡ contents old) };

    // It takes a save and a removal as a whole, or not at all.
    ghost saves_whole: { (old : Self) (name : List ℕ) (content : DataSet)
        (refusal : Option Error) (new : Self)
        → tells old → saves old name content refusal new
        → tells new × IsSaved (contents old) name content refusal (contents new) };

    ghost removes_whole: { (old : Self) (name : List ℕ) (refusal : Option Error) (new : Self)
        → tells old → removes old name refusal new
        → tells new × IsRemoved (contents old) name refusal (contents new) };

    /// The names in byte order.
    fn names(&mut self, alloc: Global) -> Result<Vec<String>, VaultError>
        ensures moved { lists self.old (names_listed result) self.new }

        ensures names { tells self.old
            → IfOk result (λ names.
            map string_bytes names.items ≡ finite.keys (contents self.old)) }
        ensures kept { tells self.old → contents self.new ≡ contents self.old }
        ensures not_absent { IsErrOf result VaultError.Absent → ⊥ }
        ensures not_schema { IsErrOf result VaultError.NotSchema7 → ⊥ }
        ensures not_bad_row { (row : ℕ) → IsErrOf result (VaultError.BadRow row) → ⊥ }

        ensures tells { tells self.old → tells self.new }
        ensures count { faults self.old ≤ faults self.new }
        ensures failed { IsErrOf result VaultError.Failed
            → Rose (faults self.old) (faults self.new) };

    /// The data that a name holds.
    fn load(&mut self, alloc: Global, name: &str) -> Result<Data, VaultError>
        ensures moved { loads self.old name.now result self.new }

        ensures found { tells self.old
            → IfOk result (λ loaded.
            finite.get (contents self.old) name.now ≡ Some (Content.Good loaded)) }
        ensures absent { tells self.old → IsErrOf result VaultError.Absent
            → finite.get (contents self.old) name.now ≡ None }
        ensures not_schema { tells self.old → IsErrOf result VaultError.NotSchema7
            → finite.get (contents self.old) name.now ≡ Some Content.NotSchema7 }
        ensures bad_row { tells self.old → (row : ℕ) → IsErrOf result (VaultError.BadRow row)
            → finite.get (contents self.old) name.now ≡ Some (Content.BadRow row) }
        ensures kept { tells self.old → contents self.new ≡ contents self.old }

        ensures tells { tells self.old → tells self.new }
        ensures count { faults self.old ≤ faults self.new }
        ensures failed { IsErrOf result VaultError.Failed
            → Rose (faults self.old) (faults self.new) };

    /// Sets what a name holds, unless that is no data file of schema 7. A refused call keeps the
    /// contents.
    fn save(&mut self, alloc: Global, name: &str, content: &Data) -> Result<(), VaultError>
        ensures moved { saves self.old name.now content.now (refusal_of result) self.new }

        ensures ok { tells self.old
            → OnOk result (contents self.new
            ≡ finite.insert (contents self.old) name.now (Content.Good content.now)) }
        ensures replaces { tells self.old
            → OnOk result (finite.get (contents self.old) name.now ≢ Some Content.NotSchema7) }
        ensures not_schema { tells self.old → IsErrOf result VaultError.NotSchema7
            → finite.get (contents self.old) name.now ≡ Some Content.NotSchema7 }
        ensures err { tells self.old → OnErr result (contents self.new ≡ contents self.old) }
        ensures not_absent { IsErrOf result VaultError.Absent → ⊥ }
        ensures not_bad_row { (row : ℕ) → IsErrOf result (VaultError.BadRow row) → ⊥ }

        ensures tells { tells self.old → tells self.new }
        ensures count { faults self.old ≤ faults self.new }
        ensures failed { IsErrOf result VaultError.Failed
            → Rose (faults self.old) (faults self.new) };

    /// Removes a name and what it holds. A refused call keeps the contents.
    fn remove(&mut self, alloc: Global, name: &str) -> Result<(), VaultError>
        ensures moved { removes self.old name.now (refusal_of result) self.new }

        ensures ok { tells self.old
            → OnOk result (contents self.new ≡ finite.remove (contents self.old) name.now) }
        ensures removes { tells self.old
            → OnOk result (finite.get (contents self.old) name.now ≢ None) }
        ensures absent { tells self.old → IsErrOf result VaultError.Absent
            → finite.get (contents self.old) name.now ≡ None }
        ensures err { tells self.old → OnErr result (contents self.new ≡ contents self.old) }
        ensures not_schema { IsErrOf result VaultError.NotSchema7 → ⊥ }
        ensures not_bad_row { (row : ℕ) → IsErrOf result (VaultError.BadRow row) → ⊥ }

        ensures tells { tells self.old → tells self.new }
        ensures count { faults self.old ≤ faults self.new }
        ensures failed { IsErrOf result VaultError.Failed
            → Rose (faults self.old) (faults self.new) };

    // The count stands still at the greatest number of 64 bits.
    ghost bounded: { (vault : Self) → faults vault ≤ greatest };
}
