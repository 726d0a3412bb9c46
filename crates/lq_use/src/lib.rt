//! Uses and denials: which tables, columns and host predicates a statement uses, and the first of them to which its role has no right.
//!
//! `uses` lists exactly what a tree uses, in the order of its text, and `decide` answers the first use
//! that is denied, with the name of the rule that denies it.
#![tactic(auto)]

mod decisions;
mod shown;
mod trees;

pub use decisions::{Denied, decide};
pub use lq_policy::Use;
pub use trees::uses;
