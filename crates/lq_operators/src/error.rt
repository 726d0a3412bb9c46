//! What an operator may end in besides a value.
ghost use Rattle.std.specs.Prelude.{◌≡◌};

use lq_value::Fault;
use std::alloc::AllocError;
use thiserror::Error;

/// Why there is no value.
#[derive(Clone, Copy, Debug, Drop, Eq, Error, PartialEq)]
pub enum RunError {
    /// Memory was refused, so that nothing is known of the value.
    #[error("memory")]
    Memory,
    /// The operator means this fault.
    #[error("fault")]
    Fault(Fault),
}

impl From<AllocError> for RunError {
    ghost use Rattle.lq_operators.specs.declared.error.RunError.TheVariants.{Memory};

    ghost from_gives = { λ _ e. e ≡ Memory };

    fn from(_: AllocError) -> RunError {
        RunError::Memory
    }
}

impl From<Fault> for RunError {
    ghost use Rattle.lq_operators.specs.declared.error.RunError.TheVariants as error;

    ghost from_gives = { λ fault e. e ≡ error.Fault fault };

    fn from(fault: Fault) -> RunError {
        RunError::Fault(fault)
    }
}
