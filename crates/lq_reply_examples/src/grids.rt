//! Tables of any texts.
use lq_render::{Cell, grid_text};
use lq_value::{List, Txt};
use std::alloc::{AllocError, Global};
use std::test::Fail;

type Cells<'a> = &'a [(&'a str, bool)];

/// The header of a table, its rows, each cell with whether it is a number, and the table's text.
const GRIDS: [(&[&str], &[Cells<'static>], &str); 3] = [
    (&["table", "rows"], &[], "table  rows\n-----  ----\n"),
    (
        &["table", "rows"],
        &[
            &[("employees", false), ("12", true)],
            &[("d", false)],
            &[("e", false), ("7", true), ("more", false), ("8", true)],
        ],
        "table      rows\n---------  ----\nemployees    12\nd\ne             7  more  8\n",
    ),
    (&[], &[], "\n\n"),
];

fn row(alloc: Global, cells: Cells<'_>) -> Result<List<Cell>, AllocError> {
    let mut row = List::new(alloc);
    for (text, is_number) in cells {
        row.push(Cell {
            text: Txt::from_str(alloc, text)?,
            is_number: *is_number,
        })?;
    }
    Ok(row)
}

fn rows(alloc: Global, rows: &[Cells<'_>]) -> Result<Vec<List<Cell>>, AllocError> {
    let mut lists = Vec::new(alloc);
    for cells in rows {
        lists.push(row(alloc, cells)?)?;
    }
    Ok(lists)
}

fn header(alloc: Global, names: &[&str]) -> Result<Vec<Txt>, AllocError> {
    let mut header = Vec::new(alloc);
    for name in names {
        header.push(Txt::from_str(alloc, name)?)?;
    }
    Ok(header)
}

// Whether a table of these rows has this text.
fn is_grid(
    alloc: Global,
    header: &[Txt],
    cells: &[Cells<'_>],
    expected: &str,
) -> Result<bool, AllocError> {
    let rows = rows(alloc, cells)?;
    Ok(grid_text(alloc, header, &rows)?.as_str() == expected)
}

fn has_grid(
    alloc: Global,
    names: &[&str],
    cells: &[Cells<'_>],
    expected: &str,
) -> Result<bool, AllocError> {
    let header = header(alloc, names)?;
    is_grid(alloc, &header, cells, expected)
}

#[test]
fn grids(rt: HostRuntime) -> Result<(), Fail> {
    for (names, cells, expected) in &GRIDS {
        assert!(rt; has_grid(rt.alloc(), names, cells, expected)?, "{expected}");
    }
    Ok(())
}
