//! Tables as lines of text, with each column as wide as the widest text in it.
ghost use Rattle.std.specs.Prelude.{◌≡◌, ◌++◌, [], OnOk, IfOk, map, codes, flat_map, slice_get, string_bytes};
ghost use Rattle.std.specs.List.{repeat};
ghost use Rattle.lq_render.specs.Cells.{text_cell, width};
ghost use Rattle.lq_render.specs.Grids.{cell_width, cells_text, column_width, dashes, filled_cell, first_width, grid, line, other_widths, placed_cell, widths};

use lq_value::{List, Txt};
use std::alloc::{AllocError, Global};
use unicode_width::UnicodeWidthStr;

/// A cell of a table.
#[derive(Drop)]
pub struct Cell {
    /// What it shows. A line feed in it would break the table's lines.
    pub text: Txt,
    /// Whether it is aligned to the right in its column, as numbers are.
    pub is_number: bool,
}

impl Cell {
    /// The cell of a text that is no number.
    pub(crate) fn from_text(text: Txt) -> Cell
        ensures { result ≡ text_cell text }
    {
        Cell {
            text,
            is_number: false,
        }
    }
}

/// The columns of a terminal that a text takes.
pub(crate) fn width_of(text: &str) -> usize
    ensures { result ≡ width text.now }
{
    text.width()
}

/// Puts a text at the end so many times.
fn push_repeated(out: &mut String, text: &str, count: usize) -> Result<(), AllocError>
    ensures { OnOk result (string_bytes out.new ≡ string_bytes out.old ++ repeat count text.now) }
{
    let mut left = count;
    while left > 0 {
        out.push_str(text)?;
        left -= 1;
    }
    Ok(())
}

/// Puts a cell at the end, filled up to a width.
fn push_filled(out: &mut String, cell: &Cell, width: usize) -> Result<(), AllocError>
    ensures { OnOk result (string_bytes out.new
        ≡ string_bytes out.old ++ filled_cell width cell.now) }
{
    let gap = width.saturating_sub(width_of(cell.text.as_str()));
    if cell.is_number {
        push_repeated(out, " ", gap)?;
        return out.push_str(cell.text.as_str());
    }
    out.push_str(cell.text.as_str())?;
    push_repeated(out, " ", gap)
}

/// Puts a cell of a line at the end.
fn push_placed(out: &mut String, cell: &Cell, width: usize, is_last: bool) -> Result<(), AllocError>
    ensures { OnOk result (string_bytes out.new
        ≡ string_bytes out.old ++ placed_cell width cell.now is_last) }
{
    if !is_last {
        push_filled(out, cell, width)?;
        return out.push_str("  ");
    }
    if cell.is_number {
        return push_filled(out, cell, width);
    }
    out.push_str(cell.text.as_str())
}

/// The first width, or 0 where there is none, and the others.
fn split_widths(widths: &[usize]) -> (usize, &[usize])
    ensures first { result.0 ≡ first_width widths.now }
    ensures others { result.1.now ≡ other_widths widths.now }
{
    match widths {
        [] => (0, widths),
        [first, others @ ..] => (*first, others),
    }
}

/// Puts the cells of a line at the end, each filled up to the width of its column.
fn push_cells(out: &mut String, widths: &[usize], cells: &[Cell]) -> Result<(), AllocError>
    ensures { OnOk result (string_bytes out.new
        ≡ string_bytes out.old ++ cells_text widths.now cells.now) }
{
    let mut widths_left = widths;
    let mut left = cells;
    while let [cell, others @ ..] = left {
        let (width, other_widths) = split_widths(widths_left);
        push_placed(out, cell, width, others.is_empty())?;
        widths_left = other_widths;
        left = others;
    }
    Ok(())
}

/// Puts a line of a table at the end.
fn push_line(
    out: &mut String,
    indent: &str,
    widths: &[usize],
    cells: &[Cell],
) -> Result<(), AllocError>
    ensures { OnOk result (string_bytes out.new
        ≡ string_bytes out.old ++ line indent.now widths.now cells.now) }
{
    out.push_str(indent)?;
    push_cells(out, widths, cells)?;
    out.push_str("\n")
}

/// The width of the cell at a place; 0 where the row has none there.
fn cell_width(row: &List<Cell>, place: usize) -> usize
    ensures { result ≡ cell_width (slice_get row.now place) }
{
    match row.as_slice().get(place) {
        Some(cell) => width_of(cell.text.as_str()),
        None => 0,
    }
}

/// The greatest width of a column's heading and its cells.
fn column_width(rows: &[List<Cell>], place: usize, heading: &str) -> usize
    ensures { result ≡ column_width rows.now (place, heading.now) }
{
    rows.iter().fold(width_of(heading), |widest, row| {
        widest.max(cell_width(row, place))
    })
}

/// The widths of the columns.
fn widths_of(alloc: Global, header: &[Txt], rows: &[List<Cell>]) -> Result<Vec<usize>, AllocError>
    ensures { IfOk result (λ found. found.items ≡ widths header.now rows.now) }
{
    header
        .iter()
        .enumerate()
        .map(|(place, heading)| column_width(rows, place, heading.as_str()))
        .collect(alloc)
}

/// The cells of a header.
fn header_cells(alloc: Global, header: &[Txt]) -> Result<Vec<Cell>, AllocError>
    ensures { IfOk result (λ cells. cells.items ≡ map text_cell header.now) }
{
    let mut cells = Vec::new(alloc);
    for heading in header {
        cells.push(Cell::from_text(Txt::from_str(alloc, heading.as_str())?))?;
    }
    Ok(cells)
}

/// The cell of dashes under a heading.
fn dashes(alloc: Global, width: usize) -> Result<Cell, AllocError>
    ensures { IfOk result (λ cell. cell ≡ dashes width) }
{
    let mut text = String::new(alloc);
    push_repeated(&mut text, "-", width)?;
    Ok(Cell::from_text(Txt::from_string(text)))
}

/// The cells of dashes under a header.
fn dash_cells(alloc: Global, widths: &[usize]) -> Result<Vec<Cell>, AllocError>
    ensures { IfOk result (λ cells. cells.items ≡ map dashes widths.now) }
{
    let mut cells = Vec::new(alloc);
    for width in widths {
        cells.push(dashes(alloc, *width)?)?;
    }
    Ok(cells)
}

/// Puts a line a row at the end.
fn push_rows(
    out: &mut String,
    indent: &str,
    widths: &[usize],
    rows: &[List<Cell>],
) -> Result<(), AllocError>
    ensures { OnOk result (string_bytes out.new
        ≡ string_bytes out.old ++ flat_map (line indent.now widths.now) rows.now) }
{
    for row in rows {
        push_line(out, indent, widths, row.as_slice())?;
    }
    Ok(())
}

/// Puts a table at the end, each line of it after this indentation.
pub(crate) fn push_grid(
    alloc: Global,
    out: &mut String,
    indent: &str,
    header: &[Txt],
    rows: &[List<Cell>],
) -> Result<(), AllocError>
    ensures { OnOk result (string_bytes out.new
        ≡ string_bytes out.old ++ grid indent.now header.now rows.now) }
{
    let widths = widths_of(alloc, header, rows)?;
    let headings = header_cells(alloc, header)?;
    let dashes = dash_cells(alloc, widths.as_slice())?;
    push_line(out, indent, widths.as_slice(), headings.as_slice())?;
    push_line(out, indent, widths.as_slice(), dashes.as_slice())?;
    push_rows(out, indent, widths.as_slice(), rows)
}

/// A table as text: the header, a line of dashes, and a line a row. Each column is as wide as the widest text
/// in it, with two spaces between columns; numbers are aligned to the right, everything else to the left. A row may
/// have fewer cells than there are headings; cells past the last heading follow one another unaligned.
/// Refuses for want of memory alone.
pub fn grid_text(alloc: Global, header: &[Txt], rows: &[List<Cell>]) -> Result<String, AllocError>
    ensures { IfOk result (λ text. string_bytes text ≡ grid [] header.now rows.now) }
{
    let mut text = String::new(alloc);
    push_grid(alloc, &mut text, "", header, rows)?;
    Ok(text)
}
