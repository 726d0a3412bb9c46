//! What takes the items of a stream, one by one and in order, until it stops.
//!
//! A `Sink` says what it takes and when it takes no more. `Drains` says what a stream comes to that is given to one.
#![tactic(auto)]

mod sinks;

pub use sinks::{Flow, Sink};
