//! Rows whose cells predicates are asked of.
ghost use Rattle.std.specs.Prelude.{◌≡◌};
ghost use Rattle.lq_host.specs.Calls.{arguments_at, number_at};

use crate::call::{Pick, Pick2};
use lq_value::{ColumnNumber, Scalar};

/// A row of a table that may be shown to a host: its number, and its cells by their columns.
pub trait SeenRow {
    ghost use Rattle.std.specs.Prelude.{◌≡◌, List, ℕ, slice_get};
    ghost use Rattle.std.specs.Option.{option_copied};
    ghost use Rattle.lq_value.specs.declared.scalar.Scalar.{Scalar};

    ghost number_of: { Self → ℕ };

    ghost cells_of: { Self → List Scalar };

    /// The row's number, which no other row of its table has.
    fn number(&self) -> u64
        ensures { result ≡ number_of self.now };

    /// The cell in a column; none where the row has no such column.
    fn cell(&self, column: ColumnNumber) -> Option<&Scalar>
        ensures { option_copied result ≡ slice_get (cells_of self.now) column };
}

/// The arguments that a row has in these columns; none where one of its cells there is missing or isn't an integer.
pub fn arguments_of<R: SeenRow>(row: &R, columns: Pick) -> Option<Pick2>
    ensures { result ≡ arguments_at (R.cells_of row.now) columns }
{
    match columns {
        Pick::One(column) => Some(Pick2::One(number_in(row, column)?)),
        Pick::Two(first, second) => Some(Pick2::Two(
            number_in(row, first)?,
            number_in(row, second)?,
        )),
    }
}

/// The integer that a row has in a column; none where there is none.
fn number_in<R: SeenRow>(row: &R, column: ColumnNumber) -> Option<i32>
    ensures { result ≡ number_at (R.cells_of row.now) column }
{
    match row.cell(column) {
        Some(Scalar::Int(number)) => Some(*number),
        _ => None,
    }
}
