//! Tables of numbered rows, and the store that holds them.
//!
//! A store is a list of tables of different names, and a table a list of rows that fit its schema, in
//! order of their numbers. Each call gives the whole new list, or the named refusal exactly where it
//! comes, and hands back what it was given; no row number is used again.
#![tactic(auto)]

mod checks;
mod error;
mod store;
mod table;

pub use error::StoreError;
pub use lq_value::{Column, ColumnType, Row, Schema};
pub use store::Store;
pub use table::Table;
