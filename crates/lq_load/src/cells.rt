//! The cells of a record as those of a row.
ghost use Rattle.std.specs.Prelude.{◌≡◌, [], length};
ghost use Rattle.csv.specs.Records.{fields_of};
ghost use Rattle.lq_load.specs.TableFile.{LoadsAs, cells_from};

use crate::cell::cell_of;
use crate::load_error::LoadError;
use csv::ByteRecord;
use lq_store::Column;
use lq_value::{List, Scalar};
use std::alloc::Global;

/// The row that the cells of the record with the number `place` mean, each by its column.
/// Refuses with the first cell that its column can't hold.
pub(crate) fn cells_of(
    alloc: Global,
    columns: &[Column],
    row: &ByteRecord,
    place: u64,
) -> Result<List<Scalar>, LoadError>
    requires { length columns.now ≡ length (fields_of row.now) }
    ensures { LoadsAs (cells_from place columns.now (fields_of row.now) []) result }
{
    // Room for these cells and no more: a file may have millions of records.
    let mut cells = List::from_vec(Vec::with_capacity(alloc, row.len())?);
    for column in columns {
        let Some(text) = row.get(cells.len()) else {
            unreachable!()
        };
        match cell_of(alloc, column, text)? {
            Some(cell) => cells.push(cell)?,
            None => return Err(LoadError::Cell(place, cells.len() as u64 + 1)),
        }
    }
    Ok(cells)
}
