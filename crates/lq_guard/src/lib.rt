//! Guarded trees, and the rows that their leaves hand out.
//!
//! A `VisibleRow` is a row with which policies let a role do something, and is proved to be one. `scan` hands out exactly those rows of a
//! table, in order, and gathers none of them; where the role reads, they are the table as seen. `guard` says for which action each leaf
//! of a tree is scanned.
#![tactic(auto)]

mod access;
mod finding;
pub mod guard_laws;
mod guarded_trees;
mod row_tests;
mod scanning;
mod scans;
mod visible_rows;

pub use guarded_trees::{GuardedTree, guard};
pub use row_tests::RowTest;
pub use scanning::{scan, scan_by};
pub use scans::Scan;
pub use visible_rows::VisibleRow;
