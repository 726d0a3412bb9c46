//! Why a text has no tokens.
ghost use Rattle.std.specs.Prelude.{◌≡◌};

use std::alloc::{AllocError, AllocFailed};

/// Why a text has no tokens.
#[derive(Debug, Drop, thiserror::Error)]
pub enum LexError {
    /// Memory was refused, so that nothing is known of the text but that it is not too long.
    #[error("memory")]
    Memory,
    /// Something in the text begins no token.
    #[error("lexical")]
    Lexical,
    /// The text has more bytes than a line may have.
    #[error("too long")]
    TooLong,
}

impl From<AllocError> for LexError {
    ghost use Rattle.lq_lex.specs.declared.error.LexError.TheVariants.{Memory};

    ghost from_gives = { λ _ e. e ≡ Memory };

    fn from(_: AllocError) -> LexError {
        LexError::Memory
    }
}

impl<T: Drop> From<AllocFailed<T>> for LexError {
    ghost use Rattle.lq_lex.specs.declared.error.LexError.TheVariants.{Memory};

    ghost from_gives = { λ _ e. e ≡ Memory };

    fn from(_: AllocFailed<T>) -> LexError {
        LexError::Memory
    }
}
