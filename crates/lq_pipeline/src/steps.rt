//! What pulls answer, and where a pipe stands between them.

use lq_guard::VisibleRow;
use lq_pipe::Base;
use lq_pull::Reader;
use lq_tree::Form;
use lq_value::{End, Fault, List, Value};

/// What a pull answers.
#[derive(Drop)]
pub enum Step<R> {
    /// The next item.
    Item(Value<R>),
    /// There is none, and there will be none.
    Done,
    /// This fault ended the items.
    Fault(Fault),
}

/// What is left of a pipe.
#[derive(Drop)]
pub(crate) enum Standing<'a> {
    /// All: nothing was pulled.
    New,
    /// What comes of the rows that are left through the conditions and lambdas of this form, up to so many items where there is a limit.
    Rows(&'a Form, Option<usize>),
    /// Items that were made, the next of which stands last, and how they end.
    Items(Vec<Value<VisibleRow<'a>>>, End),
    /// Nothing: so the items ended.
    Over(End),
    /// Nothing that is known: a growth was refused.
    Lost,
}

/// A pipe without its tree: the rows of its table, once it is opened, and what is left of it.
#[derive(Drop)]
pub(crate) struct Opened<'a> {
    pub(crate) leaf: Option<Base<VisibleRow<'a>, Reader<'a, 'a>>>,
    pub(crate) standing: Standing<'a>,
}
