//! A store of employees, and the types of what is served of it.
ghost use Rattle.std.specs.Prelude.{◌≡◌, true, IfOk, None};
ghost use Rattle.lq_store.specs.Rules.{keeps_rules};

use lq_render::{Layout, reply_text};
use lq_store::{Column, ColumnType, Schema, Store, Table};
use lq_value::{Held, List, Txt, Ty};
use std::alloc::{AllocError, Global};
use std::process::Abort;

/// The type of what a line serves.
#[derive(Clone, Copy, Debug)]
pub(crate) enum LineType {
    /// Not known.
    Unknown,
    /// Rows of the employees.
    Rows,
    /// A row of the employees.
    Row,
    /// Records `{title: string, n: int}`.
    Records,
    /// Numbers.
    Numbers,
    /// Names of employees in groups by a number that may be null.
    Groups,
    /// Employees in one group.
    Group,
}

fn column(alloc: Global, name: &str, ty: ColumnType) -> Result<Column, AllocError>
    ensures { IfOk result (λ column. (column.name ≡ name.now) × (column.range ≡ None)) }
{
    Ok(Column {
        name: Txt::from_str(alloc, name)?,
        ty,
        range: None,
    })
}

fn employees(alloc: Global) -> Result<Schema, AllocError>
    ensures { IfOk result (λ schema. keeps_rules schema ≡ true) }
{
    let mut columns = List::new(alloc);
    columns.push(column(alloc, "name", ColumnType::Str)?)?;
    columns.push(column(alloc, "boss", ColumnType::IntN)?)?;
    columns.push(column(alloc, "id", ColumnType::Int)?)?;
    Ok(Schema {
        name: Txt::from_str(alloc, "employees")?,
        columns,
    })
}

/// A store of the employees alone, without rows.
pub(crate) fn store(rt: &impl Abort, alloc: Global) -> Result<Store, AllocError> {
    let table = Table::new(alloc, employees(alloc)?, 1);
    let mut store = Store::new(alloc);
    assert!(rt; store.add(table).is_ok());
    Ok(store)
}

/// The type of a sequence of such items.
pub(crate) fn sequence(alloc: Global, item: Ty) -> Result<Ty, AllocError> {
    Ok(Ty::Seq(Held::new(alloc, item)?))
}

/// The type of a group of such elements.
pub(crate) fn group(alloc: Global, key: Ty, element: Ty) -> Result<Ty, AllocError> {
    Ok(Ty::Group(Held::new(alloc, key)?, Held::new(alloc, element)?))
}

fn record(alloc: Global) -> Result<Ty, AllocError> {
    let mut members = List::new(alloc);
    members.push((Txt::from_str(alloc, "title")?, Ty::Str))?;
    members.push((Txt::from_str(alloc, "n")?, Ty::Int))?;
    Ok(Ty::Rec(members))
}

/// The type of what is served.
pub(crate) fn ty(alloc: Global, served: LineType) -> Result<Option<Ty>, AllocError> {
    let ty = match served {
        LineType::Unknown => return Ok(None),
        LineType::Rows => sequence(alloc, Ty::Row(0))?,
        LineType::Row => Ty::Row(0),
        LineType::Records => sequence(alloc, record(alloc)?)?,
        LineType::Numbers => sequence(alloc, Ty::IntN)?,
        LineType::Groups => sequence(alloc, group(alloc, Ty::IntN, Ty::Str)?)?,
        LineType::Group => group(alloc, Ty::Str, Ty::Row(0))?,
    };
    Ok(Some(ty))
}

// What is read of a line by its type. The functions that own a store or a type are apart: what costs most to prove of a test is that it
// frees these wherever it can end.
fn text_of<'a>(
    alloc: Global,
    store: &'a Store,
    ty: Option<&'a Ty>,
    most_rows: usize,
    line: &[u8],
) -> Result<String, AllocError> {
    let layout = Layout {
        ty,
        store,
        most_rows,
    };
    reply_text(alloc, line, &layout)
}

fn shown(
    alloc: Global,
    store: &Store,
    served: LineType,
    most_rows: usize,
    line: &[u8],
) -> Result<String, AllocError> {
    let ty = ty(alloc, served)?;
    text_of(alloc, store, ty.as_ref(), most_rows, line)
}

/// This is to be read of a line.
pub(crate) fn assert_shown(
    rt: &impl Abort,
    alloc: Global,
    served: LineType,
    most_rows: usize,
    line: &[u8],
    expected: &str,
) -> Result<(), AllocError> {
    let store = store(rt, alloc)?;
    let text = shown(alloc, &store, served, most_rows, line)?;
    assert!(rt; text.as_str() == expected, "{text}and not\n{expected}");
    Ok(())
}
