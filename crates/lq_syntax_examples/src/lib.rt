//! Tests of tokens, trees, total rules, values, operators and the calls that queries stand for, by the public calls that give them. They are
//! here and not in the crates that they test: a crate without tests is proved once.
#![tactic(auto)]

#[cfg(test)]
mod evaluations;
#[cfg(test)]
mod queries;
#[cfg(test)]
mod rules;
#[cfg(test)]
mod tokens;
#[cfg(test)]
mod trees;
#[cfg(test)]
mod values;
