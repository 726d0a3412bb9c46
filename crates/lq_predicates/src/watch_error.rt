//! Why there is no list of numbers.
use std::alloc::{AllocError, AllocFailed};
use thiserror::Error;

/// Why there is no list of numbers.
#[derive(Clone, Copy, Debug, Drop, Eq, Error, PartialEq)]
pub enum WatchError {
    /// There was no memory.
    #[error("memory")]
    Memory,
    /// The text is no list of numbers.
    #[error("watch")]
    Watch,
}

impl From<AllocError> for WatchError {
    ghost use Rattle.std.specs.Prelude.{◌≡◌};
    ghost use Rattle.lq_predicates.specs.declared.watch_error.WatchError.TheVariants.{Memory};

    ghost from_gives = { λ _ e. e ≡ Memory };

    fn from(_e: AllocError) -> WatchError {
        WatchError::Memory
    }
}

impl<T: Drop> From<AllocFailed<T>> for WatchError {
    ghost use Rattle.std.specs.Prelude.{◌≡◌};
    ghost use Rattle.lq_predicates.specs.declared.watch_error.WatchError.TheVariants.{Memory};

    ghost from_gives = { λ _ e. e ≡ Memory };

    fn from(_e: AllocFailed<T>) -> WatchError {
        WatchError::Memory
    }
}
