//! Why a data file gives no data.
use crate::statements::StatementError;
use std::alloc::AllocError;
use thiserror::Error;

/// Why a data file was not read or not written.
#[derive(Clone, Copy, Debug, PartialEq, Eq, Error)]
pub enum SqlError {
    #[error("no data file of schema 7")]
    NotSchema7,
    /// The number of the first row, from 0, that can't be read.
    #[error("row {0} of the data file is none")]
    BadRow(u64),
    #[error("the database refused a statement")]
    Refused,
    #[error("no memory")]
    NoMemory,
}

impl From<AllocError> for SqlError {
    ghost use Rattle.std.specs.Prelude.{◌≡◌};
    ghost use Rattle.cov_sql.specs.declared.errors.SqlError.TheVariants.{NoMemory};

    ghost from_gives = { λ _ e. e ≡ NoMemory };

    fn from(_error: AllocError) -> SqlError {
        SqlError::NoMemory
    }
}

/// A file that lacks a table is none of schema 7.
impl From<StatementError> for SqlError {
    ghost use Rattle.std.specs.Prelude.{◌≡◌};
    ghost use Rattle.cov_sql.specs.Refusals.{refusal};

    ghost from_gives = { λ s e. e ≡ refusal s };

    fn from(error: StatementError) -> SqlError {
        match error {
            StatementError::Missing => SqlError::NotSchema7,
            StatementError::Refused => SqlError::Refused,
            StatementError::NoMemory => SqlError::NoMemory,
        }
    }
}
