//! Tables from files of comma-separated values: what a file's header, records and cells mean, or the first fault among
//! them. The records are those of the crate `csv`.
//!
//! `table_from_csv` gives exactly the table that the bytes mean, or the first fault of the file.
#![tactic(auto)]

mod cell;
mod cells;
mod header;
mod kind;
mod load_error;
mod number;
mod reading;
mod table_file;
pub mod table_laws;

pub use load_error::LoadError;
pub use number::int_of;
pub use table_file::{MOST_BYTES, table_from_csv};
