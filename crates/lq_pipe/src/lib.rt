//! The running of typed trees: the value or the stream of each, over the rows and the host predicates that
//! it is given.
//!
//! `value` and `run` give exactly what the tree means over these, faults and endings included, `drain` gives the
//! items to a sink one by one, and `numbers_where` gives the numbers of the rows on which a condition is true,
//! up to its first fault. `next_item` gives the next item of a pipe to whoever keeps its base.
#![tactic(auto)]

mod adding;
mod cells;
mod clauses;
mod conditions;
mod draining;
mod gathering;
mod group_records;
mod joining;
mod leading;
mod methods;
mod operations;
mod pulling;
mod pulls;
mod rows;
mod running;
mod steps;
mod tallies;
mod trees;

pub use draining::drain;
pub use lq_plan::{Base, Gathered, Pipe, Plan, Reads, Rows, RunError, TableRow, TableRows};
pub use pulls::next_item;
pub use rows::numbers_where;
pub use trees::{form_value, run, value};
