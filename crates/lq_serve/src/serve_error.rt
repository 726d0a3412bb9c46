//! What may go wrong between the script's bytes and the replies' bytes.
use std::alloc::AllocError;
use thiserror::Error;

/// The reader failed: a read answered an error.
#[derive(Debug, Drop, Error)]
#[error("read")]
pub struct ReadFailed;

/// The writer failed: a write or a flush answered an error, or a write took none of some bytes.
#[derive(Debug, Drop, Error)]
#[error("write")]
pub struct WriteFailed;

/// Why a script was not served to its end.
#[derive(Debug, Drop, Error)]
pub enum ServeError {
    /// The reader failed. Nothing was stepped and nothing written.
    #[error("read")]
    Read,
    /// The writer failed. The first lines were stepped, and a front of their output was written.
    #[error("write")]
    Write,
    /// The script has more than 1,048,576 bytes, or a line of more than 65,536 bytes. Nothing was stepped.
    #[error("too-long")]
    TooLong,
    /// The script is within the limits of size, and not UTF-8. Nothing was stepped.
    #[error("utf8")]
    Utf8,
    /// There was no memory for the script. Nothing was stepped.
    #[error("memory")]
    Memory,
}

impl From<ReadFailed> for ServeError {
    ghost use Rattle.std.specs.Prelude.{◌≡◌};
    ghost use Rattle.lq_serve.specs.declared.serve_error.ServeError.TheVariants.{Read};

    ghost from_gives = { λ _ e. e ≡ Read };

    fn from(_: ReadFailed) -> ServeError {
        ServeError::Read
    }
}

impl From<WriteFailed> for ServeError {
    ghost use Rattle.std.specs.Prelude.{◌≡◌};
    ghost use Rattle.lq_serve.specs.declared.serve_error.ServeError.TheVariants.{Write};

    ghost from_gives = { λ _ e. e ≡ Write };

    fn from(_: WriteFailed) -> ServeError {
        ServeError::Write
    }
}

impl From<AllocError> for ServeError {
    ghost use Rattle.std.specs.Prelude.{◌≡◌};
    ghost use Rattle.lq_serve.specs.declared.serve_error.ServeError.TheVariants.{Memory};

    ghost from_gives = { λ _ e. e ≡ Memory };

    fn from(_: AllocError) -> ServeError {
        ServeError::Memory
    }
}
