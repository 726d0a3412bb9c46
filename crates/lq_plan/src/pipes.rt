//! Pipes: what is pulled item by item, with what is planned for it.
use crate::plans::Plan;
use crate::stages::Stage;
use lq_tree::Form;

/// A flat pipe: a source, the items of which come from its base through the stages above it; one stage
/// more after it; and what is found out once about the rows of the table below.
#[derive(Drop)]
pub struct Pipe<'f> {
    /// What the items of the source go through last.
    pub stage: Stage<'f>,
    /// The form whose items they are.
    pub source: &'f Form,
    /// What is found out once about the rows of the table below the source.
    pub plan: Plan,
}
