//! Tests of keys, lookups, groups, distinct keys and arrangements, by public calls: random lists of keys with a fixed seed. What is found
//! is compared with a plain search over the list, and in an arrangement each place has to come before the next. Worked rows are shown by
//! the built program (tests/cli).
#![tactic(auto)]

#[cfg(test)]
mod keys;
#[cfg(test)]
mod orders;
#[cfg(test)]
mod searched;
