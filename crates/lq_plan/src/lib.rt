//! What the running of a typed tree stands on: everything that evaluates no form.
//!
//! `Sources` are the tables and the host predicates that forms are run over, and `Slots` the values that
//! lambdas take, borrowed where they stand. A `Base` holds items that are pulled one by one; a `Plan` is what is found out once
//! about the rows of a table, for the conditions and the lambda above it; and a `Pipe` is what is pulled
//! by one.
//!
//! What a plan says of a row is what its conditions and lambda mean there, or nothing. `Base::pull` gives the
//! next item in order, without the rows that a plan leaves out. The modules give what operators, methods
//! and clauses mean on values that are there, or their fault; `leading` adds items, by keys that are cells, to
//! the first ones of an order.
#![tactic(auto)]

pub mod aggregates;
pub mod arrangements;
mod bases;
pub mod counts;
mod hosts;
mod lambdas;
pub mod leading;
pub mod parts;
mod pipes;
mod places;
mod planning;
mod plans;
mod rows;
pub mod scalars;
pub mod sequences;
mod slots;
mod sources;
mod stages;
mod tables;

pub use bases::{Base, Pulled};
pub use lambdas::Lambda;
pub use lq_operators::RunError;
pub use pipes::Pipe;
pub use places::items_ref;
pub use plans::Plan;
pub use rows::{Gathered, Reads, Rows};
pub use slots::Slots;
pub use sources::{Sources, part_ref};
pub use stages::{Outcome, Stage, has_no_stage, stage_of};
pub use tables::{TableRow, TableRows};
