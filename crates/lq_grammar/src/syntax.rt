//! Syntax trees. Clauses, queries and the other parts of expressions are generic in the expressions
//! that they hold: only `Expr` reaches itself, so that a meaning is one fold with one step a form.
use lq_value::{Held, List, Scalar, Txt};

/// An operator with one operand (ECMA-334, unary operators).
#[derive(Clone, Copy, Drop, Eq, PartialEq)]
pub enum Unary {
    /// `!`
    Not,
    /// `-`
    Minus,
}

/// An operator that evaluates both of its operands (ECMA-334, arithmetic, relational and equality
/// operators).
#[derive(Clone, Copy, Drop, Eq, PartialEq)]
pub enum Binary {
    /// `*`
    Multiply,
    /// `/`
    Divide,
    /// `%`
    Remainder,
    /// `+`
    Add,
    /// `-`
    Subtract,
    /// `<`
    Less,
    /// `>`
    Greater,
    /// `<=`
    LessOrEqual,
    /// `>=`
    GreaterOrEqual,
    /// `==`
    Equal,
    /// `!=`
    NotEqual,
}

/// An operator between two operands, as the grammar groups them.
#[derive(Clone, Copy, Drop, Eq, PartialEq)]
pub enum Infix {
    /// An operator that evaluates both.
    Binary(Binary),
    /// `&&`
    And,
    /// `||`
    Or,
}

/// A line of the grammar that a line of expressions leads back to.
#[derive(Clone, Copy, Drop, Eq, PartialEq)]
pub enum Level {
    /// A query or a conditional expression.
    Top,
    /// A conditional expression.
    Conditional,
    /// A null coalescing expression.
    Coalescing,
    /// A unary expression.
    Unary,
    /// A primary expression.
    Primary,
}

/// A member of a record that `new` makes.
#[derive(Drop)]
pub struct Field<X> {
    /// Its name.
    pub name: Txt,
    /// Its value.
    pub value: X,
}

/// The columns that a host predicate is asked of, by their names.
#[derive(Drop)]
pub enum Picked {
    /// The column of one argument.
    One(Txt),
    /// The columns of two arguments.
    Two(Txt, Txt),
}

/// An argument of a method.
#[derive(Drop)]
pub enum Argument<X> {
    /// An expression.
    Value(X),
    /// A lambda expression with one parameter, and its body.
    Lambda(Txt, X),
}

/// An expression other than a query, over the expressions that it holds (ECMA-334, expressions).
#[derive(Drop)]
pub enum Node<X> {
    /// An integer literal. The least `int`, which a minus sign and 2147483648 spell, is one too.
    Integer(i32),
    /// A text literal, by its content.
    Text(Txt),
    /// `true` or `false`.
    Bool(bool),
    /// `null`.
    Null,
    /// A simple name.
    Name(Txt),
    /// Member access.
    Member(Held<X>, Txt),
    /// An operator with one operand.
    Unary(Unary, Held<X>),
    /// An operator with two operands, both of which are evaluated.
    Binary(Binary, Held<X>, Held<X>),
    /// `&&`
    And(Held<X>, Held<X>),
    /// `||`
    Or(Held<X>, Held<X>),
    /// `??`
    Coalesce(Held<X>, Held<X>),
    /// `? :`, with its condition first.
    Conditional(Held<X>, Held<X>, Held<X>),
    /// A host predicate's name, with the row that it is asked about, and the columns of it.
    Host(Txt, Held<X>, Held<Picked>),
    /// A host predicate's name, with arguments that are not columns of one row.
    HostOther(Txt, List<X>),
    /// An anonymous object: `new` with its members.
    New(List<Field<X>>),
    /// A method of what comes before the dot, with its arguments.
    Method(Held<X>, Txt, List<Argument<X>>),
}

/// An expression (ECMA-334, expressions).
#[derive(Drop)]
pub enum Expr {
    /// An expression other than a query.
    Node(Node<Expr>),
    /// A query expression.
    Query(Held<Query<Expr>>),
}

/// A key that `orderby` sorts by.
#[derive(Drop)]
pub struct SortKey<X> {
    /// The key of an item.
    pub value: X,
    /// Whether the greatest comes first.
    pub descending: bool,
}

/// A `join` clause.
#[derive(Drop)]
pub struct Join<X> {
    /// The range variable of the inner sequence.
    pub name: Txt,
    /// The inner sequence.
    pub source: X,
    /// The key of what comes before the clause.
    pub outer_key: X,
    /// The key of an item of the inner sequence.
    pub inner_key: X,
    /// The name of an item's matches, where the clause has `into`.
    pub into: Option<Txt>,
}

/// A clause of a query's body (ECMA-334, query expressions).
#[derive(Drop)]
pub enum Clause<X> {
    /// `from` with its range variable and its sequence.
    From(Txt, X),
    /// `let` with its range variable and its value.
    Let(Txt, X),
    /// `where` with its condition.
    Where(X),
    /// `join`
    Join(Join<X>),
    /// `orderby` with its keys, the first of which counts most.
    OrderBy(List<SortKey<X>>),
}

/// What ends a query's body.
#[derive(Drop)]
pub enum Last<X> {
    /// `select` with its value.
    Select(X),
    /// `group` with its element, and `by` with its key.
    Group(X, X),
}

/// The body of a query: its clauses in order, and what ends it.
#[derive(Drop)]
pub struct Body<X> {
    /// The clauses, in order.
    pub clauses: List<Clause<X>>,
    /// The end.
    pub last: Last<X>,
}

/// `into` with its range variable, and the body that goes on with it.
#[derive(Drop)]
pub struct Continuation<X> {
    /// The range variable.
    pub name: Txt,
    /// The body.
    pub body: Body<X>,
}

/// A query expression: `from name in source`, its body, and the continuations after it, in order.
#[derive(Drop)]
pub struct Query<X> {
    /// The range variable.
    pub name: Txt,
    /// The sequence that it ranges over.
    pub source: X,
    /// The body.
    pub body: Body<X>,
    /// What follows by `into`.
    pub rest: List<Continuation<X>>,
}

/// A statement of a script.
#[derive(Drop)]
pub enum Statement {
    /// `run` with the expression that it serves.
    Run(Expr),
    /// `var` with the name that it defines and its value.
    Define(Txt, Expr),
    /// A variable's name, and the value that it is given.
    Assign(Txt, Expr),
    /// `as` with the name of the role from now on.
    As(Txt),
    /// `insert` with a table's name and the cells of the row.
    Insert(Txt, List<Scalar>),
    /// `delete` with a table's name, the name of a row, and the condition on it.
    Delete(Txt, Txt, Expr),
}
