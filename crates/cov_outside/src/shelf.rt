// Where a program's files lie.
ghost use Rattle.std.specs.Prelude.{◌≡◌, ℕ, ◌<◌, ◌≤◌, List, length, Option, Some, None, Result, IfOk, OnOk, OnErr, IsErrOf};
ghost use Rattle.cov_outside.specs.declared.shelf.ShelfError.{ShelfError as Error};
ghost use Rattle.cov_outside.specs.declared.shelf.ShelfError.TheVariants.{NoMemory};
ghost use Rattle.cov_outside.specs.Counts.{greatest, Rose};
ghost use Rattle.cov_outside.specs.Files.{Files, with_file};
ghost use Rattle.cov_outside.specs.Reads.{IsTold, IsPut, bytes_read, refusal_of};

use std::alloc::{AllocError, Global};
use thiserror::Error;

/// Why a file wasn't read or put.
#[derive(Clone, Copy, Debug, PartialEq, Eq, Error)]
pub enum ShelfError {
    #[error("no file of this name")]
    Absent,
    #[error("the file is too large")]
    TooLarge,
    #[error("reading or writing the file failed")]
    Failed,
    #[error("no memory")]
    NoMemory,
}

impl From<AllocError> for ShelfError {
    ghost from_gives = { λ _ e. e ≡ NoMemory };

    fn from(_error: AllocError) -> ShelfError {
        ShelfError::NoMemory
    }
}

/// Files by name.
pub trait Shelf {
    // Whether the shelf tells its files.
    ghost tells: { Type 0 };

    // Its files by the bytes of their names, where they are told.
    ghost files: { Self → Files };

    // How often a call has failed.
    ghost faults: { Self → ℕ };

    // A read of a name with at most so many bytes, and its answer, lead from one state to another.
    ghost reads: { Self → List ℕ → ℕ → Result (List ℕ) Error → Self → Type 0 };

    // So does a put of bytes under a name, and its refusal, where it was refused.
    ghost puts: { Self → List ℕ → List ℕ → Option Error → Self → Type 0 };

    // A shelf that tells its files answers by them, and reading leaves them as they are.
    ghost truthful: { tells → (old : Self) (name : List ℕ) (most : ℕ)
        (answer : Result (List ℕ) Error) (new : Self) → reads old name most answer new
        → IsTold (files old name) most answer × (files new ≡ files old) };

    // It takes a put as a whole, or not at all.
    ghost puts_whole: { tells → (old : Self) (name bytes : List ℕ) (refusal : Option Error)
        (new : Self) → puts old name bytes refusal new
        → IsPut (files old) name bytes refusal (files new) };

    /// The whole file, where it has at most `most` bytes.
    fn read(&mut self, alloc: Global, name: &str, most: usize) -> Result<Vec<u8>, ShelfError>
        ensures moved { reads self.old name.now most (bytes_read result) self.new }

        ensures found { tells → IfOk result (λ bytes. files self.old name.now ≡ Some bytes.items) }
        ensures fits { IfOk result (λ bytes. length bytes.items ≤ most) }
        ensures absent { tells → IsErrOf result ShelfError.Absent → files self.old name.now ≡ None }
        ensures too_large { tells → IsErrOf result ShelfError.TooLarge
            → (bytes : List ℕ) × (files self.old name.now ≡ Some bytes) × (most < length bytes) }
        ensures kept { tells → files self.new ≡ files self.old }

        ensures count { faults self.old ≤ faults self.new }
        ensures failed { IsErrOf result ShelfError.Failed
            → Rose (faults self.old) (faults self.new) };

    /// Sets the file of this name as a whole, whether there was one or not. After a refusal the
    /// files are as before.
    fn put(&mut self, alloc: Global, name: &str, bytes: &[u8]) -> Result<(), ShelfError>
        ensures moved { puts self.old name.now bytes.now (refusal_of result) self.new }

        ensures ok { tells
            → OnOk result (files self.new ≡ with_file name.now bytes.now (files self.old)) }
        ensures err { tells → OnErr result (files self.new ≡ files self.old) }
        ensures not_absent { IsErrOf result ShelfError.Absent → ⊥ }
        ensures not_too_large { IsErrOf result ShelfError.TooLarge → ⊥ }

        ensures count { faults self.old ≤ faults self.new }
        ensures failed { IsErrOf result ShelfError.Failed
            → Rose (faults self.old) (faults self.new) };

    // The count stands still at the greatest number of 64 bits.
    ghost bounded: { (shelf : Self) → faults shelf ≤ greatest };
}
