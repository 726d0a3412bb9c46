//! The host predicates of the programs `lq` and `desk`: `LeapYear` and `Under`, and `Watched` where there is a list of numbers for it.
//!
//! A program puts tests in boxes itself, and hands them over. What each test has to compute is a function here, and a predicate is made
//! only of a box that computes it: `host_set` makes the set of the first two, and `add_watched` puts the third after them. `watch_list`
//! reads the list of numbers.
#![tactic(auto)]

mod answers;
mod lists;
mod predicates;
mod sets;
mod watch_error;

pub use answers::{is_among, is_leap_year, is_under};
pub use lists::watch_list;
pub use predicates::add_watched;
pub use sets::host_set;
pub use watch_error::WatchError;
