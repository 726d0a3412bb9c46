//! The checks of cells against columns.
ghost use Rattle.std.specs.Prelude.{◌≡◌, ◌==◌, length, true};
ghost use Rattle.std.specs.List.{list_all};
ghost use Rattle.lq_value.specs.declared.scalar.Scalar.TheVariants as cell;
ghost use Rattle.lq_store.specs.Rules.{is_of_32_bits, is_of_type, is_in_range, have_types, are_in_ranges};

use lq_value::{Column, ColumnType, Scalar};

/// A number is one of 32 bits, as each is that comes in one.
#[inline(always)]
fn number_fits(number: i32)
    ensures { is_of_32_bits (cell.Int number) ≡ true }
{
    let _ = number;
}

/// And so is the number of a cell, where it has one.
#[inline(always)]
fn cell_fits(held: &Scalar)
    ensures { is_of_32_bits held.now ≡ true }
{
    match held {
        Scalar::Int(number) => number_fits(*number),
        _ => {}
    }
}

/// The numbers of cells are of 32 bits, since they come in such. Contracts need to hear it; compiled, it is nothing.
pub(crate) fn cells_fit(cells: &[Scalar])
    ensures { list_all is_of_32_bits cells.now ≡ true }
{
    for held in cells {
        cell_fits(held);
    }
}

/// Whether a column of type `ty` may hold `cell`.
fn is_of_type(ty: ColumnType, cell: &Scalar) -> bool
    ensures { result ≡ is_of_type ty cell.now }
{
    match (ty, cell) {
        (ColumnType::Int, Scalar::Int(_)) => true,
        (ColumnType::IntN, Scalar::Int(_) | Scalar::Null) => true,
        (ColumnType::Bool, Scalar::Bool(_)) => true,
        (ColumnType::Str, Scalar::Text(_) | Scalar::Null) => true,
        _ => false,
    }
}

/// Whether the number of `cell` is within `range`, where there are both.
fn is_in_range(range: Option<(i32, i32)>, cell: &Scalar) -> bool
    ensures { result ≡ is_in_range range cell.now }
{
    match (range, cell) {
        (Some((low, high)), Scalar::Int(number)) => low <= *number && *number <= high,
        _ => true,
    }
}

/// Whether each of `cells` is of the type of its column.
pub(crate) fn are_of_types(columns: &[Column], cells: &[Scalar]) -> bool
    ensures { result ≡ have_types columns.now cells.now }
{
    columns
        .iter()
        .zip(cells)
        .all(|(column, cell)| is_of_type(column.ty, cell))
}

/// Whether each of `cells` is in the range of its column.
pub(crate) fn are_in_ranges(columns: &[Column], cells: &[Scalar]) -> bool
    ensures { result ≡ are_in_ranges columns.now cells.now }
{
    columns
        .iter()
        .zip(cells)
        .all(|(column, cell)| is_in_range(column.range, cell))
}
