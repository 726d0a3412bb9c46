//! The running of typed trees over the tables that a role sees under policies.
//!
//! `value_seen` and `items_seen` give exactly what a tree means over the tables as the role sees them, `drain_seen` gives its items to a
//! sink one by one, and `removable_numbers` gives the rows on which a condition is true among those that the role may remove. Each row
//! comes from a scan of `lq_guard`, when it is asked for. `with_scans` makes the tables as the role sees them for those who pull rows
//! themselves.
#![tactic(auto)]

mod preparing;
mod readers;
mod removing;
mod tables;
mod views;
mod whole;

pub use readers::Reader;
pub use removing::removable_numbers;
pub use tables::with_scans;
pub use views::View;
pub use whole::{drain_seen, items_seen, value_seen};
