//! Questions about rows.
use lq_policy::Action;

/// What is asked about a row: its table's name and its number, the role, and what the role does with the row.
#[derive(Clone, Copy, Drop)]
pub(crate) struct Question<'a> {
    pub(crate) role: &'a str,
    pub(crate) table: &'a str,
    pub(crate) number: u64,
    pub(crate) action: Action,
}
