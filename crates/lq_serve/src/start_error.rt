//! Why the program has no session, and the line that reports it.
ghost use Rattle.lq_serve.specs.Loading.{TellsOf};

use crate::file_fault::{FileFault, fault_line};
use lq_value::Txt;
use std::alloc::{AllocError, Global};
use thiserror::Error;

/// Why there is no session.
#[derive(Debug, Drop, Error)]
pub enum StartError {
    /// There was no memory.
    #[error("memory")]
    Memory,
    /// A table, the policies or the role was refused. Holds the line for standard error, without its
    /// line feed.
    #[error("{line}", line = .0.as_str())]
    Refused(Txt),
}

impl From<AllocError> for StartError {
    ghost use Rattle.std.specs.Prelude.{◌≡◌};
    ghost use Rattle.lq_serve.specs.declared.start_error.StartError.TheVariants.{Memory};

    ghost from_gives = { λ _ error. error ≡ Memory };

    fn from(_: AllocError) -> StartError {
        StartError::Memory
    }
}

// The error that reports a fault of what this word of the command line names.
pub(crate) fn refusal(alloc: Global, word: &str, fault: FileFault) -> StartError
    ensures { TellsOf word.now fault result }
{
    if matches!(fault, FileFault::Memory) {
        return StartError::Memory;
    }
    match fault_line(alloc, word, fault) {
        Ok(line) => StartError::Refused(Txt::from_string(line)),
        Err(AllocError) => StartError::Memory,
    }
}
