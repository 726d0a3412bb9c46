//! What a table or a store refuses.
use thiserror::Error;

/// Why a table or a store didn't take what it was given. It is then as it was.
#[derive(Clone, Copy, Debug, Drop, Eq, Error, PartialEq)]
pub enum StoreError {
    /// There was no memory.
    #[error("memory")]
    Memory,
    /// There was no table of this number.
    #[error("unknown-table")]
    UnknownTable,
    /// There were more or fewer cells than columns.
    #[error("arity")]
    Arity,
    /// A cell was not of its column's type.
    #[error("cell-type")]
    CellType,
    /// A cell was outside of its column's range.
    #[error("cell-range")]
    CellRange,
    /// The last row number was given already.
    #[error("full")]
    Full,
    /// A table of this name was there.
    #[error("duplicate-table")]
    DuplicateTable,
    /// There were as many tables as a store holds.
    #[error("too-many")]
    TooMany,
}
