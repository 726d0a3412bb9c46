//! Rows with which policies let a role do something.
ghost use Rattle.std.specs.Prelude.{◌≡◌, true};
ghost use Rattle.lq_guard.specs.Accesses.{is_visible_to};

use crate::access::Access;
use lq_host::SeenRow;
use lq_value::{ColumnNumber, Row, RowRef, Scalar, TableNumber};
use std::marker::Model;

/// A row of a table with which policies let a role do something, where it stands. Scans alone hand it out. Contracts see the machine's row:
/// its table's number, and the row itself.
#[derive(Drop)]
pub struct VisibleRow<'a> {
    access: Access<'a>,
    row: &'a Row,
}

impl<'a> Model for VisibleRow<'a> {
    ghost use Rattle.lq_language.specs.TableRows.{TableRow};
    ghost use Rattle.std.specs.Prelude.{◌≡◌, true};
    ghost use Rattle.lq_guard.specs.Accesses.{is_visible_to};

    ghost Value = { TableRow };

    ghost view = { λ v. record { table = v.access.table; row = v.row.now } };

    ghost invariant = { λ v. is_visible_to v.access v.row.now.cells ≡ true };
}

impl<'a> VisibleRow<'a> {
    ghost use Rattle.std.specs.Prelude.{◌≡◌, true};
    ghost use Rattle.lq_guard.specs.Accesses.{is_visible_to};

    /// This row, which is visible.
    #[inline(always)]
    pub(crate) fn new(access: Access<'a>, row: &'a Row) -> VisibleRow<'a>
        requires { is_visible_to access row.now.cells ≡ true }
        ensures { result ≡ record { table = access.entry.table; row = row.now } }
    {
        VisibleRow { access, row }
    }

    /// The number of the row's table.
    pub fn table(&self) -> TableNumber
        ensures { result ≡ self.now.table }
    {
        self.access.table
    }
}

impl RowRef for VisibleRow<'_> {
    ghost use Rattle.std.specs.Prelude.{◌≡◌};
    ghost use Rattle.lq_guard.specs.SeenRows.{cells_of};

    ghost shown = { cells_of };

    fn cells(&self) -> &[Scalar] {
        self.row.cells.as_slice()
    }

    fn again(&self) -> Self {
        VisibleRow {
            access: self.access,
            row: self.row,
        }
    }
}

impl SeenRow for VisibleRow<'_> {
    ghost use Rattle.std.specs.Prelude.{◌≡◌};
    ghost use Rattle.lq_guard.specs.SeenRows as seen;

    ghost number_of = { seen.number_of_row };

    ghost cells_of = { seen.cells_of };

    fn number(&self) -> u64 {
        self.row.number
    }

    fn cell(&self, column: ColumnNumber) -> Option<&Scalar> {
        self.row.cells.as_slice().get(column as usize)
    }
}
