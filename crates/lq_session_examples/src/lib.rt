//! Tests of tables, policies, guarded trees and sessions, by public calls, where the built program can't show it. They are here
//! and not in the crates that they test: a crate without tests is proved once.
#![tactic(auto)]

#[cfg(test)]
mod guarded;
#[cfg(test)]
mod policies;
#[cfg(test)]
mod sessions;
#[cfg(test)]
mod tables;
