//! What is left to do after an answer.

/// What is left to do where an input was answered.
#[derive(Drop)]
pub enum Next {
    /// The next input is answered.
    Line,
    /// The lines of the file of this name are answered.
    Script(String),
    /// Nothing: the desk ends.
    Nothing,
}
