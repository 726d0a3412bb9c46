//! The values that expressions mean.
use crate::held::Held;
use crate::list::List;
use crate::scalar::Scalar;
use crate::txt::Txt;

/// A fault that ends an evaluation, named as the .NET exception it represents.
#[derive(Clone, Copy, Debug, Eq, PartialEq)]
pub enum Fault {
    /// An integer division or remainder by zero.
    DivideByZero,
    /// A checked result outside of `int`.
    Overflow,
    /// A member of null, or a text call on or with null.
    NullReference,
    /// An element that a sequence doesn't have, or the value of a null `int?`.
    InvalidOperation,
    /// A place outside of a sequence, or a number outside of a predicate's range.
    ArgumentOutOfRange,
}

/// How a stream ends, after its last item.
#[derive(Clone, Copy, Debug, Eq, PartialEq)]
pub enum End {
    /// All items were given.
    Done,
    /// This fault ended it.
    Fault(Fault),
}

/// A reference to a row of a table, by which a value represents the row without a copy of it.
pub trait RowRef: Drop {
    ghost use Rattle.std.specs.Prelude.{List, ◌≡◌};
    ghost use Rattle.lq_value.specs.declared.scalar.Scalar.{Scalar};

    ghost shown: { Self → List Scalar };

    /// The row's cells, in the order of its table's columns.
    fn cells(&self) -> &[Scalar]
        ensures { result.now ≡ shown self.now };

    /// Another reference to the same row.
    fn again(&self) -> Self
        ensures { result ≡ self.now };
}

/// A value: a scalar, a row, a record, a group or a sequence. A null row or record is
/// `Scalar(Scalar::Null)`.
#[derive(Drop)]
pub enum Value<R> {
    /// A scalar.
    Scalar(Scalar),
    /// A row.
    Row(R),
    /// A record, with its members as written.
    Rec(List<(Txt, Value<R>)>),
    /// A group: its key and its elements.
    Group(Held<Value<R>>, List<Value<R>>),
    /// A sequence: its items and how it ends.
    Seq(List<Value<R>>, End),
}
