//! The binding of terms: each is given its typed tree, or refused where it has no type.
//!
//! `bind`, `bind_term` and `bind_condition` give exactly the tree that the definition of binding
//! names among the tables and the names of a session. They refuse a term as ill-typed exactly where
//! it has no type; before that, `bind` refuses it as too deep exactly where the statement opens more
//! than it may.
#![tactic(auto)]

mod binder;
mod bindings;
mod columns;
mod error;
mod fields;
mod frames;
mod globals;
mod hosts;
mod members;
mod method_names;
mod method_trees;
mod methods;
mod names;
mod operations;
mod pairs;
mod pipelines;
mod queries;
mod records;
mod signs;
mod trees;
mod type_checks;
mod variables;

pub use bindings::{MOST_RANK, MOST_TOKENS, Scope, bind, bind_condition, bind_term};
pub use error::BindError;
