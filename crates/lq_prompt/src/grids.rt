//! Texts, and the cells and headers of tables that people read.
ghost use Rattle.std.specs.Prelude.{◌≡◌, [], IfOk, decimal, map, string_bytes};
ghost use Rattle.lq_render.specs.Grids.{grid};
ghost use Rattle.lq_prompt.specs.Grids.{count, joined, word, yes};

use lq_render::{Cell, escaped_text, grid_text};
use lq_value::{List, Txt};
use std::alloc::{AllocError, Global};

/// Texts one after another.
pub(crate) fn joined(alloc: Global, parts: &[&str]) -> Result<String, AllocError>
    ensures { IfOk result (λ text. string_bytes text ≡ joined (map (λ part. part.now) parts.now)) }
{
    let mut text = String::new(alloc);
    for part in parts {
        text.push_str(part)?;
    }
    Ok(text)
}

/// A number in decimal digits.
pub(crate) fn number_text(alloc: Global, number: u64) -> Result<String, AllocError>
    ensures { IfOk result (λ text. string_bytes text ≡ decimal number) }
{
    format!(in alloc; "{number}")
}

/// A cell with a word, whose control characters are escaped.
pub(crate) fn word(alloc: Global, text: &str) -> Result<Cell, AllocError>
    ensures { IfOk result (λ cell. cell ≡ word text.now) }
{
    Ok(Cell {
        text: escaped_text(alloc, text)?,
        is_number: false,
    })
}

/// A cell with a number.
pub(crate) fn count(alloc: Global, number: u64) -> Result<Cell, AllocError>
    ensures { IfOk result (λ cell. cell ≡ count number) }
{
    Ok(Cell {
        text: Txt::from_string(number_text(alloc, number)?),
        is_number: true,
    })
}

/// A cell that says yes or no.
pub(crate) fn yes(alloc: Global, is_so: bool) -> Result<Cell, AllocError>
    ensures { IfOk result (λ cell. cell ≡ yes is_so) }
{
    word(alloc, if is_so { "yes" } else { "no" })
}

/// The names of columns.
fn header(alloc: Global, names: &[&str]) -> Result<Vec<Txt>, AllocError>
    ensures { IfOk result (λ header. header.items ≡ map (λ name. name.now) names.now) }
{
    let mut header = Vec::new(alloc);
    for name in names {
        header.push(Txt::from_str(alloc, name)?)?;
    }
    Ok(header)
}

/// The row of these cells.
pub(crate) fn row<const N: usize>(alloc: Global, cells: [Cell; N]) -> Result<List<Cell>, AllocError>
    ensures { IfOk result (λ row. row ≡ cells.entry) }
{
    Ok(List::from_vec(Vec::from_array(alloc, cells)?))
}

/// A table with these names of columns.
pub(crate) fn table_text(
    alloc: Global,
    names: &[&str],
    rows: &List<List<Cell>>,
) -> Result<String, AllocError>
    ensures { IfOk result (λ text. string_bytes text
        ≡ grid [] (map (λ name. name.now) names.now) rows.now) }
{
    let header = header(alloc, names)?;
    grid_text(alloc, &header, rows.as_slice())
}
