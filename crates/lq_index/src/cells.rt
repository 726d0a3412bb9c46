//! Cells that are compared with a scalar.
ghost use Rattle.std.specs.Prelude.{◌≡◌, slice_get};
ghost use Rattle.lq_index.specs.Entries.{cell_of, cells_of};
ghost use Rattle.lq_index.specs.Slots.{same_at};
ghost use Rattle.lq_value.specs.SameAndOrder.{same_scalars};

use lq_value::{Row, Scalar};

// Whether the row at this place has a cell that is the same as `key`.
#[inline(always)]
pub(crate) fn is_cell_at(rows: &[Row], column: usize, place: usize, key: &Scalar) -> bool
    ensures { result ≡ same_at key.now (slice_get (cells_of column rows.now) place) }
{
    match rows.get(place) {
        Some(row) => is_cell(row, column, key),
        None => false,
    }
}

// Whether the cell of a row is the same as `key`. Where the row is shorter its cell is null.
#[inline(always)]
fn is_cell(row: &Row, column: usize, key: &Scalar) -> bool
    ensures { result ≡ same_scalars key.now (cell_of column row.now) }
{
    match row.cells.as_slice().get(column) {
        Some(cell) => are_same(key, cell),
        None => are_same(key, &Scalar::Null),
    }
}

#[inline(always)]
fn are_same(left: &Scalar, right: &Scalar) -> bool
    ensures { result ≡ same_scalars left.now right.now }
{
    match (left, right) {
        (Scalar::Int(left), Scalar::Int(right)) => left == right,
        (Scalar::Null, Scalar::Null) => true,
        (Scalar::Bool(left), Scalar::Bool(right)) => left == right,
        (Scalar::Text(left), Scalar::Text(right)) => left.as_str() == right.as_str(),
        _ => false,
    }
}
