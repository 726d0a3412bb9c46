//! What tables and stores refuse, and hand back then, and how rows are numbered and removed.
ghost use Rattle.std.specs.Prelude.{◌≡◌, ◌≤◌, ◌<◌, length, true, IfOk};
ghost use Rattle.lq_store.specs.Rules.{keeps_rules};

use lq_scalar::ScalarRef;
use lq_store::{Column, ColumnType, Row, Schema, Store, StoreError, Table};
use lq_value::{List, Scalar, TableNumber, Txt};
use std::alloc::{AllocError, Global};
use std::process::Abort;
use std::test::Fail;

// The schema of a table with one column, c, of numbers from 1 to 9.
fn schema(alloc: Global, name: &str) -> Result<Schema, AllocError>
    ensures { IfOk result (λ s. keeps_rules s ≡ true) }
{
    let mut columns = List::new(alloc);
    columns.push(Column {
        name: Txt::from_str(alloc, "c")?,
        ty: ColumnType::Int,
        range: Some((1, 9)),
    })?;
    Ok(Schema {
        name: Txt::from_str(alloc, name)?,
        columns,
    })
}

// A table of that schema.
fn table(alloc: Global, name: &str, next: u64) -> Result<Table, AllocError>
    requires { 1 ≤ next }
{
    Ok(Table::new(alloc, schema(alloc, name)?, next))
}

pub(crate) fn cells(alloc: Global, scalars: &[ScalarRef<'_>]) -> Result<Vec<Scalar>, AllocError> {
    let mut cells = Vec::new(alloc);
    for scalar in scalars {
        cells.push(scalar.to_scalar(alloc)?)?;
    }
    Ok(cells)
}

// What is answered to a row: its number, or the refusal and how many cells are handed back.
type Answer = Result<u64, (StoreError, usize)>;

fn answer(outcome: Result<u64, (StoreError, Vec<Scalar>)>) -> Answer {
    match outcome {
        Ok(number) => Ok(number),
        Err((error, back)) => Err((error, back.len())),
    }
}

// What a table answers to the last of some rows.
fn last_answer(alloc: Global, table: &mut Table, rows: &[RowOf<'_>]) -> Result<Answer, AllocError> {
    let mut last = Ok(0);
    for row in rows {
        last = answer(table.push(cells(alloc, row)?));
    }
    Ok(last)
}

// What a table of no rows answers to the last of some, the first of which is to have the number `next`. A function of its own, like those
// below that take a table or a store: what costs most to prove of a test is that it frees these wherever it can end.
fn last_answer_from(alloc: Global, next: u64, rows: &[RowOf<'_>]) -> Result<Answer, AllocError>
    requires { 1 ≤ next }
{
    let mut table = table(alloc, "t", next)?;
    last_answer(alloc, &mut table, rows)
}

// The cells of a row.
type RowOf<'a> = &'a [ScalarRef<'a>];

const NOTHING: RowOf<'static> = &[];

const ONE: RowOf<'static> = &[ScalarRef::Int(1)];

const NINE: RowOf<'static> = &[ScalarRef::Int(9)];

const TEN: RowOf<'static> = &[ScalarRef::Int(10)];

const TRUE: RowOf<'static> = &[ScalarRef::Bool(true)];

// The number that a table gives to its next row, the rows that it is to take, and its answer to the last of them.
const ROWS: [(u64, &[RowOf<'static>], Answer); 6] = [
    (1, &[NOTHING], Err((StoreError::Arity, 0))),
    (1, &[TRUE], Err((StoreError::CellType, 1))),
    (1, &[TEN], Err((StoreError::CellRange, 1))),
    (1, &[NOTHING, TRUE, TEN, NINE], Ok(1)),
    (u64::MAX, &[ONE], Ok(u64::MAX)),
    (u64::MAX, &[ONE, ONE], Err((StoreError::Full, 1))),
];

#[test]
fn cells_are_checked_in_order(rt: HostRuntime) -> Result<(), Fail> {
    for (number, (next, rows, expected)) in ROWS.iter().enumerate() {
        assert!(rt;
            last_answer_from(rt.alloc(), (*next).max(1), rows)? == *expected,
            "rows {number}"
        );
    }
    Ok(())
}

// The number that a store gives to a table, or the refusal, if that table is handed back.
fn added(
    alloc: Global,
    store: &mut Store,
    name: &str,
    next: u64,
) -> Result<Result<TableNumber, StoreError>, Fail>
    requires { 1 ≤ next }
{
    match store.add(table(alloc, name, next)?) {
        Ok(number) => Ok(Ok(number)),
        Err((error, back)) if back.schema().name.as_str() == name => Ok(Err(error)),
        Err(_) => Err(Fail::from("another table is handed back")),
    }
}

// Puts a table into a store, whose first row is to have the number `next`.
pub(crate) fn add(alloc: Global, store: &mut Store, name: &str, next: u64) -> Result<(), Fail>
    requires { 1 ≤ next }
{
    match added(alloc, store, name, next)? {
        Ok(_) => Ok(()),
        Err(_) => Err(Fail::from("a table is refused")),
    }
}

// Whether a store takes a table as the one of this number, and then no other of the first one's name.
fn is_last_taken(alloc: Global, store: &mut Store, number: TableNumber) -> Result<bool, Fail> {
    let name = format!(in alloc; "t{number}")?;
    Ok(
        added(alloc, store, &name, 1)? == Ok(number)
            && added(alloc, store, "t0", 1)? == Err(StoreError::DuplicateTable),
    )
}

// Whether an empty store takes 64 tables and no more.
fn are_all_taken(alloc: Global, store: &mut Store) -> Result<bool, Fail> {
    for number in 0..64 {
        if !is_last_taken(alloc, store, number)? {
            return Ok(false);
        }
    }
    Ok(added(alloc, store, "u", 1)? == Err(StoreError::TooMany))
}

#[test]
fn a_refused_table_is_handed_back(rt: HostRuntime) -> Result<(), Fail> {
    let mut store = Store::new(rt.alloc());
    assert!(rt; store.is_empty());
    assert!(rt; are_all_taken(rt.alloc(), &mut store)?);
    assert!(rt; store.len() == 64 && store.find("t1") == Some(1) && store.find("u") == None);
    Ok(())
}

// What a store answers to a row.
fn put(
    alloc: Global,
    store: &mut Store,
    table: TableNumber,
    row: RowOf<'_>,
) -> Result<Answer, AllocError> {
    Ok(answer(store.insert(table, cells(alloc, row)?)))
}

// The tables t and u, u with the last number next, and three rows in t.
fn fill(alloc: Global, store: &mut Store) -> Result<(), Fail> {
    add(alloc, store, "t", 1)?;
    add(alloc, store, "u", u64::MAX)?;
    for _ in 0..3 {
        if put(alloc, store, 0, ONE)?.is_err() {
            return Err(Fail::from("a row is refused"));
        }
    }
    Ok(())
}

fn two_tables(alloc: Global) -> Result<Store, Fail> {
    let mut store = Store::new(alloc);
    fill(alloc, &mut store)?;
    Ok(store)
}

// The rows of a table that a store has.
pub(crate) fn rows_of<'s>(rt: &impl Abort, store: &'s Store, t: TableNumber) -> &'s [Row] {
    assert!(rt; (t as usize) < store.len());
    store.rows(t)
}

// To whom a row is put in turn, its cells, and what is answered.
const INSERTS: [(TableNumber, RowOf<'static>, Answer); 6] = [
    (2, ONE, Err((StoreError::UnknownTable, 1))),
    (0, NOTHING, Err((StoreError::Arity, 0))),
    (0, TRUE, Err((StoreError::CellType, 1))),
    (0, TEN, Err((StoreError::CellRange, 1))),
    (1, ONE, Ok(u64::MAX)),
    (1, ONE, Err((StoreError::Full, 1))),
];

fn assert_answers(rt: &impl Abort, alloc: Global, store: &mut Store) -> Result<(), AllocError> {
    for (number, (table, row, expected)) in INSERTS.iter().enumerate() {
        assert!(rt;
            put(alloc, store, *table, row)? == *expected,
            "row {number}"
        );
    }
    Ok(())
}

#[test]
fn rows_are_put_into_a_table_of_a_store(rt: HostRuntime) -> Result<(), Fail> {
    let mut store = two_tables(rt.alloc())?;
    assert_answers(&rt, rt.alloc(), &mut store)?;
    assert!(rt; rows_of(&rt, &store, 0).len() == 3);
    assert!(rt; rows_of(&rt, &store, 1).len() == 1);
    Ok(())
}

// Whether the rows have these numbers.
pub(crate) fn has_numbers(rows: &[Row], numbers: &[u64]) -> bool {
    let mut left = numbers;
    for row in rows {
        match left {
            [first, others @ ..] if *first == row.number => left = others,
            _ => return false,
        }
    }
    left.is_empty()
}

// Numbers of rows that are to be removed, how many there are, and the numbers of those left.
const REMOVALS: [(&[u64], u64, &[u64]); 5] = [
    (&[1, 3], 2, &[2]),
    (&[3, 1, 1], 2, &[2]),
    (&[2], 1, &[1, 3]),
    (&[0, 4, 9], 0, &[1, 2, 3]),
    (&[], 0, &[1, 2, 3]),
];

// Whether so many rows are removed from the first table of a store and these are left.
fn are_removed_alone(
    rt: &impl Abort,
    store: &mut Store,
    numbers: &[u64],
    gone: u64,
    left: &[u64],
) -> bool {
    assert!(rt; 0 < store.len());
    store.delete_rows(0, numbers) == gone && has_numbers(rows_of(rt, store, 0), left)
}

// Whether that is so of two tables, and no number is used again.
fn are_removed(
    rt: &impl Abort,
    alloc: Global,
    numbers: &[u64],
    gone: u64,
    left: &[u64],
) -> Result<bool, Fail> {
    let mut store = two_tables(alloc)?;
    Ok(
        are_removed_alone(rt, &mut store, numbers, gone, left)
            && put(alloc, &mut store, 0, ONE)? == Ok(4),
    )
}

#[test]
fn rows_of_some_numbers_are_removed(rt: HostRuntime) -> Result<(), Fail> {
    for (numbers, gone, left) in &REMOVALS {
        assert!(rt;
            are_removed(&rt, rt.alloc(), numbers, *gone, left)?,
            "{numbers:?}"
        );
    }
    Ok(())
}
