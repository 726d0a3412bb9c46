//! Queries as the operator calls that they are translated to (ECMA-334, query expression translation).
//!
//! `translate` gives exactly the calls that the definition of the translation names. By the laws of
//! `translation_laws` these calls have the query's type, use the same tables and columns in the same
//! order, and mean under nested pairs what the query's clauses mean under names, faults included.
#![tactic(auto)]

mod calls;
mod expressions;
pub mod translation_laws;

pub use calls::{TellsName, call_of_query};
pub use expressions::{translate, translate_expression};
