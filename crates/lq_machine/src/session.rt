//! What `var` statements define, as plain data.
use lq_grammar::Expr;
use lq_value::{Scalar, Txt, Ty};

/// What a statement opens. A named query keeps that of its `var` statement.
#[derive(Clone, Copy, Drop)]
pub struct Opened {
    /// The number of the statement's tokens, and of those that each named query opened there has, in its
    /// turn.
    pub size: u64,
    /// How many named queries are nested in one another at most: 0 where none is opened.
    pub rank: u32,
}

/// What a name of the session refers to.
#[derive(Drop)]
pub enum Defined {
    /// A variable: its type, which is that of a scalar, and its value.
    Variable(Ty, Scalar),
    /// A named query: its expression, and what its statement opens.
    Query(Expr, Opened),
}

/// A name that a `var` statement defined.
#[derive(Drop)]
pub struct Definition {
    /// The name, unlike that of any table and of any other definition.
    pub name: Txt,
    /// What it refers to.
    pub defined: Defined,
}
