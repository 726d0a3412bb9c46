//! What a cell of a table holds.
use crate::txt::Txt;

/// A scalar: null, an int, a truth value or a text. Cells of rows are scalars.
#[derive(Drop)]
pub enum Scalar {
    /// The value of an absent `int?` or `string`.
    Null,
    /// A 32-bit signed number, C#'s `int`.
    Int(i32),
    /// A truth value, C#'s `bool`.
    Bool(bool),
    /// A text, C#'s `string`, held in UTF-8.
    Text(Txt),
}
