//! The cell of a row under the name of a column.
ghost use Rattle.std.specs.Prelude.{◌≡◌, map};
ghost use Rattle.std.specs.Option.{option_copied};
ghost use Rattle.lq_language.specs.TableRows.{cell_named};

use lq_value::{Column, Scalar, Txt};

/// What gives a column's name: the name itself, or the column.
pub trait ColumnName {
    ghost use Rattle.std.specs.Prelude.{◌≡◌, List, ℕ};

    /// The name's bytes.
    ghost name_of: { Self → List ℕ };

    /// The column's name.
    fn column_name(&self) -> &str
        ensures { result.now ≡ name_of self.now };
}

impl ColumnName for Txt {
    ghost name_of = { λ name. name };

    fn column_name(&self) -> &str {
        self.as_str()
    }
}

impl ColumnName for Column {
    ghost name_of = { λ column. column.name };

    fn column_name(&self) -> &str {
        self.name.as_str()
    }
}

/// The cell of a row under the first column of this name; none where no column has it.
pub fn cell_named<'a, C: ColumnName>(
    columns: &[C],
    cells: &'a [Scalar],
    name: &str,
) -> Option<&'a Scalar>
    ensures { option_copied result ≡ cell_named (map C.name_of columns.now) cells.now name.now }
{
    let mut columns_left = columns;
    let mut cells_left = cells;
    while let [column, other_columns @ ..] = columns_left {
        let [cell, other_cells @ ..] = cells_left else {
            return None;
        };
        if column.column_name() == name {
            return Some(cell);
        }
        columns_left = other_columns;
        cells_left = other_cells;
    }
    None
}
