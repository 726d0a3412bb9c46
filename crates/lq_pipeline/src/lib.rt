//! The running of guarded trees over the tables that a role sees, with a set of host predicates: whole, or item by item.
//!
//! `value` and `run` give what a tree means over these tables. A `Pipe` gives its items one by one, to whoever keeps it, and counts the rows that its
//! leaf has handed out; `drain` gives them to a sink.
#![tactic(auto)]

mod chains;
mod context;
mod draining;
mod firsts;
mod giving;
pub mod laziness_laws;
mod pipes;
mod predicates;
mod pulling;
mod reading;
mod runs;
mod steps;

pub use context::Ctx;
pub use draining::drain;
pub use pipes::Pipe;
pub use predicates::HostPredicates;
pub use runs::{run, value};
pub use steps::Step;
