//! The numbers by which tables and columns are named.

/// A table, by its number in the store: the tables that were added before it.
pub type TableNumber = u16;

/// A column, by its number in its table: the columns before it in the schema.
pub type ColumnNumber = u16;
