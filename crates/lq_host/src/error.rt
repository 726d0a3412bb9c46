//! What host predicates refuse.
use thiserror::Error;

/// Why a predicate wasn't made, added or asked. What the call was made on is then as it was.
#[derive(Clone, Copy, Debug, Drop, Eq, Error, PartialEq)]
pub enum HostError {
    /// There was no memory.
    #[error("memory")]
    Memory,
    /// A cell was outside of the predicate's range.
    #[error("range")]
    Range,
    /// A predicate of this name was there.
    #[error("duplicate-name")]
    DuplicateName,
    /// A range had no number in it.
    #[error("empty-range")]
    EmptyRange,
    /// There were as many predicates as a set holds.
    #[error("too-many")]
    TooMany,
}
