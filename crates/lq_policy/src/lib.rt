//! Policies: which roles there are, what each may do with the rows of each table (PostgreSQL, CREATE
//! POLICY), and what it has a right to use.
//!
//! `visible`, `check` and `right` decide exactly as the definitions do, without taking memory, and
//! `check` and `right` name the rule that refuses. `explain` reports why: each policy that applies, in
//! the order of the file, whether its rule is true on the row, and the outcome.
#![tactic(auto)]

mod access;
mod admission;
mod error;
mod explaining;
mod guard;
mod policies;
mod rights;
mod role_rights;
mod role_set;
mod roles;
mod row_and_user;
mod row_rules;
mod totality;
mod use_set;

pub use access::RoleId;
pub use error::PolicyError;
pub use explaining::{ExplainedPolicy, Explanation};
pub use lq_language::Use;
pub use lq_security::Action;
pub use policies::Policies;
pub use row_rules::RowRules;
pub use totality::are_rules_total;
