//! The operator calls that a query is translated to (ECMA-334, query expression translation). They are
//! generic in the expressions that they hold, like the clauses that they come from. No lambda
//! keeps its parameter: that follows from the operators before it.
use lq_grammar::{Join, Node, SortKey};
use lq_value::{Held, List, Txt};

/// What a call that pairs items makes of each pair.
#[derive(Drop)]
pub enum Paired<X> {
    /// A transparent identifier, under which both are known by their names.
    Pair,
    /// The value of the `select` clause that follows at once.
    Value(X),
}

/// A call on what comes before it.
#[derive(Drop)]
pub enum Operator<X> {
    /// `Where` with its condition.
    Where(X),
    /// `Select` with its value.
    Select(X),
    /// `Select` with a transparent identifier of what was there and one more name, by `let`.
    Let(Txt, X),
    /// `SelectMany` with the name of an item of the inner sequence, and that sequence.
    SelectMany(Txt, X, Paired<X>),
    /// `Join`; or, where the clause has `into`, `GroupJoin`.
    Join(Join<X>, Paired<X>),
    /// `OrderBy` with its keys, the first of which counts most: what follows by `ThenBy` too.
    OrderBy(List<SortKey<X>>),
    /// `GroupBy` with its key, and its element where that is not the item itself.
    GroupBy(X, Option<X>),
}

/// The calls of a body that follows by `into`, on what the calls before it give.
#[derive(Drop)]
pub struct Part<X> {
    /// The range variable.
    pub name: Txt,
    /// The calls, in order.
    pub operators: List<Operator<X>>,
}

/// The calls that a query is translated to.
#[derive(Drop)]
pub struct Call<X> {
    /// The range variable.
    pub name: Txt,
    /// The sequence that the first call is on.
    pub source: X,
    /// The calls, in order.
    pub operators: List<Operator<X>>,
    /// What follows by `into`.
    pub rest: List<Part<X>>,
}

/// An expression in which each query is the calls that it is translated to.
#[derive(Drop)]
pub enum Term {
    /// An expression other than a query.
    Node(Node<Term>),
    /// The calls of a query.
    Call(Held<Call<Term>>),
}
