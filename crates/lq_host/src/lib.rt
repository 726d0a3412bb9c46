//! Host predicates: boxed closures that test numbers in their range, and the log of their calls.
//!
//! A predicate answers by its accepted set, a finite set of numbers or of pairs of numbers in its range, which its maker proves of its
//! closure. A closure is called by `Asks::ask` alone: on arguments in the range, with room for the call's entry in the log, which is
//! then written. Each call gives exactly what the definitions say, or the named refusal exactly where it comes.
//!
//! No call can be left out of the log. Contracts alone don't say so: they bound the log that there is, and a function that asked with a
//! log of its own, and dropped it, would meet them. So the types see to it. Hosts of a type `H` are asked with a `Log<H>`, and nobody
//! outside of this crate can make one. The log and the predicates of a `HostSet` are lent together or not at all: by `HostSet::work`, to
//! work that is written for hosts of any type. It isn't told which these are, so the log beside them is the only one that they take.
#![tactic(auto)]

mod asks;
mod call;
mod error;
mod hosts;
mod log;
mod one;
mod predicate;
mod predicates;
mod ranges;
mod seen_row;
mod two;
mod work;

pub use asks::Asks;
pub use call::{Call, Pick, Pick2, PredicateNumber, Question};
pub use error::HostError;
pub use hosts::HostSet;
pub use log::Log;
pub use predicate::HostPredicate;
pub use predicates::Predicates;
pub use seen_row::{SeenRow, arguments_of};
pub use work::Work;
