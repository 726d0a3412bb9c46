//! Why policies were not built.
use thiserror::Error;

/// Why policies were not built.
#[derive(Clone, Copy, Debug, Drop, Eq, Error, PartialEq)]
pub enum PolicyError {
    /// There was no memory.
    #[error("memory")]
    Memory,
}
