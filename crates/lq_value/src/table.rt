//! Schemas and rows as plain data.
use crate::list::List;
use crate::scalar::Scalar;
use crate::txt::Txt;

/// The type of a column.
#[derive(Clone, Copy, Eq, PartialEq)]
pub enum ColumnType {
    /// `int`.
    Int,
    /// `int?`.
    IntN,
    /// `bool`.
    Bool,
    /// `string`.
    Str,
}

/// A column of a table.
#[derive(Drop)]
pub struct Column {
    /// Its name, unlike those of the table's other columns.
    pub name: Txt,
    /// The type of its cells.
    pub ty: ColumnType,
    /// For an `int` column the least and the greatest number that a cell may hold.
    pub range: Option<(i32, i32)>,
}

/// What a table is called and what its rows hold.
#[derive(Drop)]
pub struct Schema {
    /// The table's name.
    pub name: Txt,
    /// Its columns, in the order of a row's cells.
    pub columns: List<Column>,
}

/// A row of a table.
#[derive(Drop)]
pub struct Row {
    /// Its number, from 1; no other row of the table has or had it.
    pub number: u64,
    /// Its cells, one for each column.
    pub cells: List<Scalar>,
}
