//! Policy files in TOML: roles, tables with row security, row policies (PostgreSQL, CREATE POLICY),
//! and rules that grant and withhold rights.
//!
//! `policies_from_toml` gives exactly the policies that a file means for the tables of a store and a
//! set of host predicates, over the tree that `toml` defines, or the least refusal that applies
//! anywhere in the file (`specs/`).
#![tactic(auto)]

mod duplicates;
mod entry;
mod entry_name;
mod error;
mod file;
pub mod file_laws;
mod name_set;
mod names;
mod parts;
mod refusals;
mod right_uses;
mod rights;
mod rule_checks;
mod rule_names;
mod shape;

pub use error::PolicyFileError;
pub use file::{MOST_BYTES, policies_from_toml};
