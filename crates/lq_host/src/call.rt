//! Host calls, and the entries that they leave in a log.
use lq_value::{ColumnNumber, TableNumber};

/// A host predicate, by its number in its set: the predicates that were added before it.
pub type PredicateNumber = u16;

/// Columns of a table by their numbers: as many as a predicate has arguments.
#[derive(Clone, Copy, Debug, Eq, PartialEq)]
pub enum Pick {
    /// The column of one argument.
    One(ColumnNumber),
    /// The columns of two arguments.
    Two(ColumnNumber, ColumnNumber),
}

/// The arguments of a predicate.
#[derive(Clone, Copy, Debug, Eq, PartialEq)]
pub enum Pick2 {
    /// One number.
    One(i32),
    /// Two numbers.
    Two(i32, i32),
}

/// What is asked: a predicate, of numbers from a row.
#[derive(Clone, Copy, Debug, Eq, PartialEq)]
pub struct Question {
    /// The number of the predicate.
    pub predicate: PredicateNumber,
    /// The number of the row's table.
    pub table: TableNumber,
    /// The number of the row.
    pub row: u64,
    /// The columns of the arguments.
    pub columns: Pick,
    /// The arguments.
    pub arguments: Pick2,
}

/// An entry of a log: what a predicate was asked, and what it answered.
#[derive(Clone, Copy, Debug, Eq, PartialEq)]
pub struct Call {
    /// The number of the predicate.
    pub predicate: PredicateNumber,
    /// The number of the row's table.
    pub table: TableNumber,
    /// The number of the row.
    pub row: u64,
    /// The columns of the arguments.
    pub columns: Pick,
    /// The arguments, which are the row's cells in these columns.
    pub arguments: Pick2,
    /// The predicate's answer.
    pub answer: bool,
}

impl Question {
    ghost use Rattle.std.specs.Prelude.{◌≡◌};
    ghost use Rattle.lq_host.specs.Calls.{entry_of};

    /// The entry of a call that was answered so.
    pub(crate) fn call_with(self, answer: bool) -> Call
        ensures { result ≡ entry_of self answer }
    {
        Call {
            predicate: self.predicate,
            table: self.table,
            row: self.row,
            columns: self.columns,
            arguments: self.arguments,
            answer,
        }
    }
}
