//! Why a file gave no table.
use std::alloc::{AllocError, AllocFailed};
use thiserror::Error;

/// Why a file gave no table.
#[derive(Clone, Copy, Debug, Drop, Eq, Error, PartialEq)]
pub enum LoadError {
    /// There was no memory.
    #[error("memory")]
    Memory,
    /// A record has more or fewer cells than the header.
    #[error("csv")]
    Csv,
    /// There is no header, or a cell of it isn't a `NAME:TYPE`.
    #[error("header")]
    Header,
    /// Two columns have one name.
    #[error("duplicate-name")]
    DuplicateName,
    /// This cell is not of its column's type, or not within its range. It is in the record of this
    /// number, the header being 1, and in the column of this number, from 1.
    #[error("cell {0} {1}")]
    Cell(u64, u64),
    /// There are too many bytes or columns.
    #[error("too-large")]
    TooLarge,
}

impl From<AllocError> for LoadError {
    ghost use Rattle.std.specs.Prelude.{◌≡◌};
    ghost use Rattle.lq_load.specs.declared.load_error.LoadError.TheVariants.{Memory};

    ghost from_gives = { λ _ e. e ≡ Memory };

    fn from(_e: AllocError) -> LoadError {
        LoadError::Memory
    }
}

impl<T: Drop> From<AllocFailed<T>> for LoadError {
    ghost use Rattle.std.specs.Prelude.{◌≡◌};
    ghost use Rattle.lq_load.specs.declared.load_error.LoadError.TheVariants.{Memory};

    ghost from_gives = { λ _ e. e ≡ Memory };

    fn from(_e: AllocFailed<T>) -> LoadError {
        LoadError::Memory
    }
}
