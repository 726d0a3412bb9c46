//! Scalars, types and values, and the plain data that schemas and rows are made of.
//!
//! It promises that a copy equals its source (`copy`), that `same` and `order` are the definitions of
//! sameness and order, and that two values of one key type have equal keys (`key_of`) exactly where
//! they are the same. Lists, boxes and texts are plain data in contracts (`List`, `Held`, `Txt`).
#![tactic(auto)]

mod copies;
mod held;
mod key;
pub mod key_laws;
mod list;
mod numbers;
mod ordering;
mod sameness;
mod scalar;
mod table;
mod txt;
mod ty;
mod value;

pub use copies::{copy, copy_scalar};
pub use held::Held;
pub use key::{Atom, Key, copy_key, key_of};
pub use list::List;
pub use numbers::{ColumnNumber, TableNumber};
pub use ordering::order;
pub use sameness::same;
pub use scalar::Scalar;
pub use table::{Column, ColumnType, Row, Schema};
pub use txt::Txt;
pub use ty::Ty;
pub use value::{End, Fault, RowRef, Value};
