//! The tables that a session works on.
ghost use Rattle.std.specs.Prelude.{◌≡◌};

use crate::error::StoreError;
use crate::table::Table;
use lq_value::{Row, Scalar, Schema, TableNumber};
use std::alloc::Global;
use std::marker::Model;

/// The most tables that a store holds.
const MOST_TABLES: usize = 64;

/// Tables of different names, at most 64. A table's number is its place, from 0.
#[derive(Drop)]
pub struct Store {
    tables: Vec<Table>,
}

impl Model for Store {
    ghost use Rattle.std.specs.Prelude.{List};
    ghost use Rattle.lq_value.specs.Tables.{Table};
    ghost use Rattle.lq_store.specs.Rules.{IsStore};

    ghost Value = { List Table };

    ghost view = { λ s. s.tables.items };

    ghost invariant = { λ s. IsStore s.tables.items };
}

impl Store {
    ghost use Rattle.std.specs.Prelude.{◌≡◌, ◌==◌, ◌<◌, [], length, option_map, IfSome, set, slice_get};
    ghost use Rattle.lq_value.specs.Tables.{first_named};
    ghost use Rattle.lq_store.specs.Rules.{IsStore, IsTable, name_of};
    ghost use Rattle.lq_store.specs.Calls.{Adds, Inserts, count_listed, insertion_refusal_of, shown_pushed, without_rows};

    /// A store of no tables. Takes no memory.
    pub fn new(alloc: Global) -> Store
        ensures { result ≡ [] }
    {
        Store {
            tables: Vec::new(alloc),
        }
    }

    /// How many tables there are.
    pub fn len(&self) -> usize
        ensures value { result ≡ length self.now }
        ensures store { IsStore self.now }
    {
        self.tables.len()
    }

    /// Whether there is no table.
    pub fn is_empty(&self) -> bool
        ensures { result ≡ (length self.now == 0) }
    {
        self.tables.is_empty()
    }

    /// The number of the table of this name.
    pub fn find(&self, name: &str) -> Option<TableNumber>
        ensures value { result ≡ first_named name_of name.now self.now }
        ensures bound { IfSome result (λ t. t < length self.now) }
    {
        for (number, table) in self.tables.iter().enumerate() {
            if table.schema().name.as_str() == name {
                return Some(number as TableNumber);
            }
        }
        None
    }

    /// The name and the columns of table `t`.
    pub fn schema(&self, t: TableNumber) -> &Schema
        requires { t < length self.now }
        ensures value { option_map (λ table. table.schema) (slice_get self.now t)
            ≡ Some result.now }
        ensures table { IfSome (slice_get self.now t) IsTable }
    {
        self.tables[t as usize].schema()
    }

    /// The rows of table `t`, in the order of their numbers.
    pub fn rows(&self, t: TableNumber) -> &[Row]
        requires { t < length self.now }
        ensures value { option_map (λ table. table.rows) (slice_get self.now t) ≡ Some result.now }
        ensures table { IfSome (slice_get self.now t) IsTable }
    {
        self.tables[t as usize].rows()
    }

    /// Puts `table` after the others and answers its number. Refuses with `DuplicateTable`,
    /// `TooMany` (there are 64) or `Memory`, checked in this order; the store is then as it
    /// was, and the table is handed back.
    pub fn add(&mut self, table: Table) -> Result<TableNumber, (StoreError, Table)>
        ensures { Adds self.old table result self.new }
    {
        if self.find(table.schema().name.as_str()).is_some() {
            return Err((StoreError::DuplicateTable, table));
        }
        let number = self.len();
        if number >= MOST_TABLES {
            return Err((StoreError::TooMany, table));
        }
        match self.tables.push(table) {
            Ok(()) => Ok(number as TableNumber),
            Err(back) => Err((StoreError::Memory, back.value)),
        }
    }

    /// Puts a row of `cells` after the last one of table `t` and answers its number, the next after
    /// the last one given there. Refuses with `UnknownTable`, `Arity`, `CellType`, `CellRange`,
    /// `Full` or `Memory`, checked in this order; the store is then as it was, and the cells are
    /// handed back.
    pub fn insert(
        &mut self,
        t: TableNumber,
        cells: Vec<Scalar>,
    ) -> Result<u64, (StoreError, Vec<Scalar>)>
        ensures { Inserts self.old t cells.items (shown_pushed result) self.new }
    {
        let place = t as usize;
        if place >= self.len() {
            return Err((StoreError::UnknownTable, cells));
        }
        self.tables[place].push(cells)
    }

    /// Why table `t` would not take a row of `cells`, memory aside: `UnknownTable`, `Arity`, `CellType`,
    /// `CellRange` or `Full`, the first of them in this order. Takes no memory.
    pub fn refusal(&self, t: TableNumber, cells: &[Scalar]) -> Option<StoreError>
        ensures { result ≡ insertion_refusal_of self.now t cells.now }
    {
        match self.tables.as_slice().get(t as usize) {
            Some(table) => table.refusal(cells),
            None => Some(StoreError::UnknownTable),
        }
    }

    /// Removes the rows of table `t` that have these numbers, in any order, and answers how many they
    /// were. Takes no memory. Numbers that rise are passed through once, beside the rows; each row is
    /// compared with each one where they don't.
    pub fn delete_rows(&mut self, t: TableNumber, numbers: &[u64]) -> u64
        requires { t < length self.old }
        ensures { IfSome (slice_get self.old t)
            (λ table. (result ≡ count_listed table numbers.now)
            × (self.new ≡ set self.old t (without_rows table numbers.now))) }
    {
        self.tables[t as usize].delete_rows(numbers)
    }
}
