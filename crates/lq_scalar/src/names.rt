//! What the names of an expression refer to, and the types of what it holds.
ghost use Rattle.std.specs.Prelude.{◌≡◌};
ghost use Rattle.lq_language.specs.Names.{type_of_column};
ghost use Rattle.lq_language.specs.OperandTypes.{is_scalar};
ghost use Rattle.lq_scalar.specs.Referents.{layer_of, shown_type};

use crate::scalar_ref::ScalarRef;
use lq_value::{ColumnType, Scalar, TableNumber};

/// The type of an expression that is evaluated to a row or a scalar, or of a table (ECMA-334, types).
#[derive(Clone, Copy, Drop, Eq, PartialEq)]
pub enum ExprType {
    /// `int`
    Int,
    /// `int?`
    IntN,
    /// `bool`
    Bool,
    /// `string`
    Str,
    /// That of `null` alone.
    Null,
    /// A row of the table with this number.
    Row(TableNumber),
    /// The sequence of the rows of the table with this number.
    Rows(TableNumber),
}

impl ExprType {
    /// The type of a column's cells.
    pub fn of_column(column: ColumnType) -> ExprType
        ensures { shown_type result ≡ type_of_column column }
    {
        match column {
            ColumnType::Int => ExprType::Int,
            ColumnType::IntN => ExprType::IntN,
            ColumnType::Bool => ExprType::Bool,
            ColumnType::Str => ExprType::Str,
        }
    }

    /// Whether a cell may hold values of the type.
    pub fn is_scalar(self) -> bool
        ensures { result ≡ is_scalar (layer_of self) }
    {
        matches!(
            self,
            ExprType::Int | ExprType::IntN | ExprType::Bool | ExprType::Str
        )
    }
}

/// What a name refers to where an expression is evaluated.
#[derive(Clone, Copy, Drop)]
pub enum Referent<'a> {
    /// A row.
    Row,
    /// A scalar.
    Scalar(ScalarRef<'a>),
}

/// The names of a place: the types that they have, the scalars and rows that they refer to, and
/// the cells of these rows.
pub trait Names {
    ghost use Rattle.std.specs.Prelude.{◌≡◌, option_map};
    ghost use Rattle.std.specs.Option.{option_copied};
    ghost use Rattle.lq_language.specs.Worlds.{Scope, World, binding_of, names_at};
    ghost use Rattle.lq_language.specs.Names.{column_type, local_type};
    ghost use Rattle.lq_language.specs.RuleTyping.{name_type};
    ghost use Rattle.lq_scalar.specs.Referents.{cell_in, row_at, shape_at, shown_referent, shown_type};

    /// A row as it is meant.
    ghost Row: { Type 0 };

    /// The tables, and the cells of rows.
    ghost world: { Self → World Row };

    /// The local names with their types and values.
    ghost scope: { Self → Scope Row };

    /// The type of a name: that of the local name, else of the table.
    fn name_type(&self, name: &str) -> Option<ExprType>
        ensures { option_map shown_type result
            ≡ name_type (names_at (world self.now) (scope self.now)) name.now
            (local_type name.now (names_at (world self.now) (scope self.now)).locals) };

    /// The type of a column of the table with this number.
    fn column_type(&self, table: TableNumber, column: &str) -> Option<ExprType>
        ensures { option_map shown_type result
            ≡ column_type (world self.now).schemas table column.now };

    /// The row or scalar that a local name refers to.
    fn named(&self, name: &str) -> Option<Referent<'_>>
        ensures { shown_referent (row_at (binding_of name.now (scope self.now))) result
            ≡ shape_at (binding_of name.now (scope self.now)) };

    /// The cell of the row that a local name refers to, under the column of this name.
    fn cell(&self, row: &str, column: &str) -> Option<&Scalar>
        ensures { option_copied result ≡ cell_in (world self.now) column.now
            (row_at (binding_of row.now (scope self.now))) };
}
