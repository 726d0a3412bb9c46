//! Why an expression is bound to no tree.
ghost use Rattle.std.specs.Prelude.{◌≡◌};

use std::alloc::AllocError;
use thiserror::Error;

/// Why there is no tree.
#[derive(Clone, Copy, Debug, Drop, Eq, Error, PartialEq)]
pub enum BindError {
    /// There was no memory.
    #[error("memory")]
    Memory,
    /// The expression has no type (ECMA-334, expressions).
    #[error("type")]
    IllTyped,
    /// The statement is past the limits of size or rank, once the named queries in it are opened.
    #[error("too-deep")]
    TooDeep,
}

/// Why a term has no tree in a statement that is within its limits.
#[derive(Clone, Copy, Drop)]
pub(crate) enum TermError {
    /// There was no memory.
    Memory,
    /// The term has no type.
    IllTyped,
}

impl From<AllocError> for TermError {
    ghost use Rattle.lq_bind.specs.declared.error.TermError.TheVariants.{Memory};

    ghost from_gives = { λ _ e. e ≡ Memory };

    fn from(_: AllocError) -> TermError {
        TermError::Memory
    }
}

impl From<TermError> for BindError {
    ghost use Rattle.lq_bind.specs.Outcomes.{bind_error};

    ghost from_gives = { λ error e. e ≡ bind_error error };

    fn from(error: TermError) -> BindError {
        match error {
            TermError::Memory => BindError::Memory,
            TermError::IllTyped => BindError::IllTyped,
        }
    }
}
