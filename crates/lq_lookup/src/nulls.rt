//! What a lookup does with null.

/// Whether a lookup finds null.
#[derive(Clone, Copy, Eq, PartialEq)]
pub enum Nulls {
    /// Null has no match, as in a join.
    Skip,
    /// Null matches null, as in a comparison.
    Keep,
}
