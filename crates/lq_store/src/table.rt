//! A table of numbered rows.
ghost use Rattle.std.specs.Prelude.{◌≡◌, ◌==◌, ◌≤◌, ◌+◌, ◌^◌, [], filter, length, nat_eq, not, true};
ghost use Rattle.std.specs.List.Sorted.{IsNonDecreasing};
ghost use Rattle.lq_store.specs.Rules.{keeps_rules};
ghost use Rattle.lq_store.specs.Calls.{is_listed, refusal_of};
ghost use Rattle.lq_store.specs.Numbers.{Rise, from_number, is_first};

use crate::checks::{are_in_ranges, are_of_types, cells_fit};
use crate::error::StoreError;
use lq_value::{List, Row, Scalar, Schema};
use std::alloc::Global;
use std::marker::Model;

/// A table: its schema and its rows, each of which has a number that no other row of the
/// table has or had. Every row has one cell a column, of its type and in its range.
#[derive(Drop)]
pub struct Table {
    schema: Schema,
    rows: Vec<Row>,
    // The number given last, or the one before the first: the next number may be 2^64.
    last: u64,
}

impl Model for Table {
    ghost use Rattle.std.specs.Prelude.{◌+◌};
    ghost use Rattle.lq_value.specs.Tables.{Table};
    ghost use Rattle.lq_store.specs.Rules.{IsTable};

    ghost Value = { Table };

    ghost view = { λ t. record { schema = t.schema; rows = t.rows.items; next = t.last + 1 } };

    ghost invariant = { λ t. IsTable (record {
      schema = t.schema;
      rows = t.rows.items;
      next = t.last + 1;
    }) };
}

impl Table {
    ghost use Rattle.std.specs.Prelude.{◌≡◌, ◌==◌, ◌≤◌, [], true};
    ghost use Rattle.lq_store.specs.Rules.{keeps_rules, IsTable};
    ghost use Rattle.lq_store.specs.Calls.{refusal_of, Pushes, count_listed, shown_pushed, without_rows};

    /// A table with no rows, whose first row will have the number `next`. Takes no memory.
    pub fn new(alloc: Global, schema: Schema, next: u64) -> Table
        requires rules { keeps_rules schema ≡ true }
        requires positive { 1 ≤ next }
        ensures { result ≡ record { schema = schema; rows = []; next = next } }
    {
        Table {
            schema,
            rows: Vec::new(alloc),
            last: next - 1,
        }
    }

    /// The table's name and columns.
    pub fn schema(&self) -> &Schema
        ensures value { result.now ≡ self.now.schema }
        ensures table { IsTable self.now }
    {
        &self.schema
    }

    /// The rows, in the order of their numbers.
    pub fn rows(&self) -> &[Row]
        ensures value { result.now ≡ self.now.rows }
        ensures table { IsTable self.now }
    {
        self.rows.as_slice()
    }

    /// Puts a row of `cells` after the last one and answers its number, the next after the
    /// last one given. Refuses with `Arity`, `CellType`, `CellRange`, `Full` or `Memory`,
    /// checked in this order; the table is then as it was, and the cells are handed back.
    pub fn push(&mut self, cells: Vec<Scalar>) -> Result<u64, (StoreError, Vec<Scalar>)>
        ensures { Pushes self.old cells.items (shown_pushed result) self.new }
    {
        if let Some(error) = self.refusal(cells.as_slice()) {
            return Err((error, cells));
        }
        cells_fit(cells.as_slice());
        let number = self.last + 1;
        match self.rows.push(row_of(number, cells)) {
            Ok(()) => {
                self.last = number;
                Ok(number)
            }
            Err(back) => Err((StoreError::Memory, cells_of(back.value))),
        }
    }

    /// Removes the rows of these numbers, in any order, and answers how many they were. Takes no
    /// memory. Numbers that rise are passed through once, beside the rows; a row is compared with
    /// all of them in another order.
    pub fn delete_rows(&mut self, numbers: &[u64]) -> u64
        ensures count { result ≡ count_listed self.old numbers.now }
        ensures rows { self.new ≡ without_rows self.old numbers.now }
    {
        let before = self.rows.len();
        retain_unlisted(&mut self.rows, numbers);
        (before - self.rows.len()) as u64
    }

    /// Why a row of `cells` would be refused, memory aside.
    pub(crate) fn refusal(&self, cells: &[Scalar]) -> Option<StoreError>
        ensures { result ≡ refusal_of self.now cells.now }
    {
        let columns = self.schema.columns.as_slice();
        if columns.len() != cells.len() {
            Some(StoreError::Arity)
        } else if !are_of_types(columns, cells) {
            Some(StoreError::CellType)
        } else if !are_in_ranges(columns, cells) {
            Some(StoreError::CellRange)
        } else if self.last == u64::MAX {
            Some(StoreError::Full)
        } else {
            None
        }
    }
}

/// Removes the rows of these numbers, in any order. Rows are in the order of their numbers.
fn retain_unlisted(rows: &mut Vec<Row>, numbers: &[u64])
    requires { Rise rows.old.items }
    ensures { rows.new.items ≡ filter (λ row. not (is_listed numbers.now row.number))
        rows.old.items }
{
    if numbers.is_sorted() {
        retain_behind(rows, numbers);
    } else {
        rows.retain(|row| !numbers.contains(&row.number));
    }
}

/// Removes the rows of these numbers, none of which is below the one before it.
fn retain_behind(rows: &mut Vec<Row>, numbers: &[u64])
    requires rows { Rise rows.old.items }
    requires numbers { IsNonDecreasing numbers.now }
    ensures { rows.new.items ≡ filter (λ row. not (is_listed numbers.now row.number))
        rows.old.items }
{
    let mut left = numbers;
    rows.retain(|row| {
        left = from_number(left, row.number);
        !is_first(left, row.number)
    });
}

/// These numbers without those at their head that are below `number`.
fn from_number(numbers: &[u64], number: u64) -> &[u64]
    ensures { result.now ≡ from_number numbers.now number }
{
    let mut left = numbers;
    while let [first, behind @ ..] = left {
        if *first >= number {
            return left;
        }
        left = behind;
    }
    left
}

/// Whether `number` is the first of these.
fn is_first(numbers: &[u64], number: u64) -> bool
    ensures { result ≡ is_first numbers.now number }
{
    match numbers {
        [first, ..] => *first == number,
        [] => false,
    }
}

/// The row of this number and these cells.
fn row_of(number: u64, cells: Vec<Scalar>) -> Row
    ensures { result ≡ record { number = number; cells = cells.items } }
{
    Row {
        number,
        cells: List::from_vec(cells),
    }
}

/// The cells of a row.
fn cells_of(row: Row) -> Vec<Scalar>
    ensures { result.items ≡ row.cells }
{
    let Row { number: _, cells } = row;
    cells.into_vec()
}
