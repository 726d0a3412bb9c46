//! What an evaluation may end in besides a value.
ghost use Rattle.std.specs.Prelude.{◌≡◌};

use lq_value::Fault;
use std::alloc::AllocError;
use thiserror::Error;

/// Why there is no value.
#[derive(Clone, Copy, Debug, Drop, Eq, Error, PartialEq)]
pub enum ScalarError {
    /// Memory was refused, so that nothing is known of the value.
    #[error("memory")]
    Memory,
    /// The expression means this fault.
    #[error("fault")]
    Fault(Fault),
}

impl From<AllocError> for ScalarError {
    ghost use Rattle.lq_scalar.specs.declared.error.ScalarError.TheVariants.{Memory};

    ghost from_gives = { λ _ e. e ≡ Memory };

    fn from(_: AllocError) -> ScalarError {
        ScalarError::Memory
    }
}

impl From<Fault> for ScalarError {
    ghost use Rattle.lq_scalar.specs.declared.error.ScalarError.TheVariants as error;

    ghost from_gives = { λ fault e. e ≡ error.Fault fault };

    fn from(fault: Fault) -> ScalarError {
        ScalarError::Fault(fault)
    }
}
