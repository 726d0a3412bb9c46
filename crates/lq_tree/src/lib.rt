//! Typed trees: expressions in which every name is resolved, every operator knows the types that it
//! needs, and nothing is left to look up by a text when the tree is run.
//!
//! By its laws a term is bound to a tree exactly where it has a type, and the tree has that type, means
//! what the term means, and uses what it uses (`types_of_trees`, `meanings_of_trees`, `uses_of_trees`).
//! Host calls that ask the tree's own predicates about rows that a role sees are those that a statement
//! may make (`own_calls_are_allowed`).
#![tactic(auto)]

mod binding_laws;
pub mod row_laws;
pub mod session_laws;
mod tree;
pub mod typed_form_laws;
pub mod watch_laws;

pub use binding_laws::{meanings_of_trees, trees_of_expressions, types_of_trees, uses_of_trees};
pub use tree::{Form, Joined, Tree, ty};
