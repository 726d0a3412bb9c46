//! Answers to whoever asks about a row.
use lq_policy::Explanation;

/// The answer to whoever asks about a row.
#[derive(Drop)]
pub enum Why {
    /// Why the present role may or may not do something with the row.
    Explained(Explanation),
    /// The row is hidden, or there is none of its number: which of the two is not disclosed.
    Secret,
}
