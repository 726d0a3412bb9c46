//! Why a policy file is refused.
ghost use Rattle.std.specs.Prelude.{◌≡◌};

use std::alloc::{AllocError, AllocFailed};
use thiserror::Error;

/// Why a policy file gave no policies.
#[derive(Clone, Copy, Debug, Drop, Eq, Error, PartialEq)]
pub enum PolicyFileError {
    /// There was no memory, so that nothing is known of the file.
    #[error("memory")]
    Memory,
    /// The bytes aren't UTF-8, or aren't TOML.
    #[error("toml")]
    Toml,
    /// The file is too long; or a key is unknown, is missing, or has a value of another kind.
    #[error("shape")]
    Shape,
    /// A table, a column, a host predicate or a role isn't there.
    #[error("unknown-name")]
    UnknownName,
    /// Two roles, two tables, or two of the policies, grants and withholds have one name.
    #[error("duplicate")]
    Duplicate,
    /// A rule isn't a truth value, or uses a name other than `row` and `user`.
    #[error("rule-type")]
    RuleType,
    /// A rule has a form that may fault.
    #[error("rule-not-total")]
    RuleNotTotal,
}

/// Why a value of a TOML tree was not read.
#[derive(Clone, Copy, Debug, Drop)]
pub(crate) enum ShapeError {
    /// There was no memory, so that nothing is known of the value.
    Memory,
    /// The value has another shape.
    Shape,
}

impl From<AllocError> for ShapeError {
    ghost use Rattle.std.specs.Prelude.{◌≡◌};
    ghost use Rattle.lq_policyfile.specs.declared.error.ShapeError.TheVariants.{Memory};

    ghost from_gives = { λ _ e. e ≡ Memory };

    fn from(_: AllocError) -> ShapeError {
        ShapeError::Memory
    }
}

impl<T: Drop> From<AllocFailed<T>> for ShapeError {
    ghost use Rattle.std.specs.Prelude.{◌≡◌};
    ghost use Rattle.lq_policyfile.specs.declared.error.ShapeError.TheVariants.{Memory};

    ghost from_gives = { λ _ e. e ≡ Memory };

    fn from(_: AllocFailed<T>) -> ShapeError {
        ShapeError::Memory
    }
}

impl From<ShapeError> for PolicyFileError {
    ghost use Rattle.std.specs.Prelude.{◌≡◌};
    ghost use Rattle.lq_policyfile.specs.Outcome.{file_error};

    ghost from_gives = { λ stopped e. e ≡ file_error stopped };

    fn from(error: ShapeError) -> PolicyFileError {
        match error {
            ShapeError::Memory => PolicyFileError::Memory,
            ShapeError::Shape => PolicyFileError::Shape,
        }
    }
}

impl From<AllocError> for PolicyFileError {
    ghost use Rattle.std.specs.Prelude.{◌≡◌};
    ghost use Rattle.lq_policyfile.specs.declared.error.PolicyFileError.TheVariants.{Memory};

    ghost from_gives = { λ _ e. e ≡ Memory };

    fn from(_: AllocError) -> PolicyFileError {
        PolicyFileError::Memory
    }
}
