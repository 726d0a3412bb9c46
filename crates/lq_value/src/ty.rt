//! The types of expressions.
use crate::held::Held;
use crate::list::List;
use crate::numbers::TableNumber;
use crate::txt::Txt;

/// The type of an expression. Types are compared as they are written: a record type by its
/// members' names and types in order.
#[derive(Drop)]
pub enum Ty {
    /// C#'s `int`.
    Int,
    /// C#'s `int?`.
    IntN,
    /// C#'s `bool`.
    Bool,
    /// C#'s `string`.
    Str,
    /// The type of the literal `null` alone.
    Null,
    /// A row of the table with this number.
    Row(TableNumber),
    /// A record, with its members as written.
    Rec(List<(Txt, Ty)>),
    /// A sequence of such items.
    Seq(Held<Ty>),
    /// A group: the type of its key and that of its elements.
    Group(Held<Ty>, Held<Ty>),
}
