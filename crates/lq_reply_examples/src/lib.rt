//! Tests of replies, by public calls: of the lines that no script of the built program gets, and of what people read of lines. They are
//! here and not in the crates that they test: a crate without tests is proved once.
#![tactic(auto)]

#[cfg(test)]
mod building;
#[cfg(test)]
mod grids;
#[cfg(test)]
mod items;
#[cfg(test)]
mod pushing;
#[cfg(test)]
mod replies;
#[cfg(test)]
mod sentences;
#[cfg(test)]
mod tables;
#[cfg(test)]
mod types;
