//! Chapter three of what every answer means: row policies (PostgreSQL, CREATE POLICY), the rules in them,
//! and rights.
//!
//! `policy_laws`, `totality_laws` and `right_laws` promise that the functions decide exactly on the rows
//! and uses that a role has by the relations in CREATE POLICY's words, and that a rule which is total
//! and typed holds on a row exactly where the language gives it the meaning true.
#![tactic(auto)]

mod policy;
pub mod policy_laws;
pub mod right_laws;
pub mod totality_laws;

pub use policy::{Action, Policy, PolicyParts, Role, TablePart};
