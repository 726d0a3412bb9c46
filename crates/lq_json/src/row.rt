//! Rows, written as JSON by the prepared names of their columns.
ghost use Rattle.std.specs.Prelude.{◌≡◌, ◌++◌, slice_get, OnOk};
ghost use Rattle.serde_json.specs.Data.{object};
ghost use Rattle.serde_json.specs.Written.{compact_text};
ghost use Rattle.lq_json.specs.Shapes.{cell_data, cells_in};

use crate::name::Name;
use crate::scalar::write_scalar;
use crate::text::Text;
use lq_value::Scalar;
use std::alloc::AllocError;

/// A cell of a row; null where it has none there.
#[inline(always)]
fn write_cell(cells: &[Scalar], place: usize, out: &mut Text) -> Result<(), AllocError>
    ensures { OnOk result (out.new
        ≡ out.old ++ compact_text (cell_data (slice_get cells.now place))) }
{
    match cells.get(place) {
        Some(cell) => write_scalar(cell, out),
        None => out.put(b"null"),
    }
}

/// A row with these columns.
pub(crate) fn write_row(
    columns: &[(Name, usize)],
    cells: &[Scalar],
    out: &mut Text,
) -> Result<(), AllocError>
    ensures { OnOk result (out.new
        ≡ out.old ++ compact_text (object (cells_in columns.now cells.now))) }
{
    out.put_byte(b'{')?;
    let mut later = false;
    for (name, place) in columns {
        name.write_front(later, out)?;
        write_cell(cells, *place, out)?;
        later = true;
    }
    out.put_byte(b'}')
}
