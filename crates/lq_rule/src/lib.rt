//! Rules of row policies, prepared: asked on each row of a scan, with columns by their places.
//!
//! A prepared rule is true on a row exactly where the rule is by the definitions
//! (`PreparedRule::prepare`, `holds`); asking it takes no memory. What most rules compare, the number
//! in a cell, is found out without reading the tree of the rule (`verdict`).
#![tactic(auto)]

mod conditions;
mod literals;
mod prepare;
mod prepared;
mod ranges;
mod rule;

pub use rule::PreparedRule;
