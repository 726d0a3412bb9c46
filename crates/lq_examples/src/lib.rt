//! Tests of the server by public calls, over devices and files that fail. They are here and not in the crates that they test: a crate
//! without tests is proved once.
#![tactic(auto)]

#[cfg(test)]
mod devices;
#[cfg(test)]
mod loads;
