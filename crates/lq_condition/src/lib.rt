//! Prepared conditions: what is found out about a condition once, to be asked of the cells of many rows.
//!
//! A `Condition` says of the cells of a row whether it is true, or it says nothing; `verdict` gives
//! what it says. It takes no memory and has no fault: where a comparison meets one, it says nothing, and
//! whoever asked evaluates that row in the general way, which is where faults and their order come
//! from.
#![tactic(auto)]

mod condition;
mod verdicts;

pub use condition::Condition;
pub use verdicts::{compare_numbers, turned_sign};
