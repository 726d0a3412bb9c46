//! Operators and members by what they do to scalars: those that evaluate all their operands.

/// An operator, or a member of `int?` or `string`, that evaluates all its operands (ECMA-334,
/// arithmetic, relational, equality and logical negation operators; .NET, `Nullable<int>` and
/// `String`). `+` is two of them: its operands' types decide which.
#[derive(Clone, Copy, Drop, Eq, PartialEq)]
pub enum Op {
    /// `!` of a truth value.
    Not,
    /// `-` of one number.
    Minus,
    /// `*` of two numbers.
    Multiply,
    /// `/` of two numbers.
    Divide,
    /// `%` of two numbers.
    Remainder,
    /// `+` of two numbers.
    Add,
    /// `-` of two numbers.
    Subtract,
    /// `+` of two texts.
    Concat,
    /// `<` of two numbers.
    Less,
    /// `>` of two numbers.
    Greater,
    /// `<=` of two numbers.
    LessOrEqual,
    /// `>=` of two numbers.
    GreaterOrEqual,
    /// `==` of two scalars of one kind, or null.
    Equal,
    /// `!=` of two scalars of one kind, or null.
    NotEqual,
    /// `HasValue` of an `int?`.
    HasValue,
    /// `Value` of an `int?`.
    Value,
    /// `Length` of a text.
    Length,
    /// `StartsWith` of a text and the text that is looked for.
    StartsWith,
    /// `EndsWith` of a text and the text that is looked for.
    EndsWith,
    /// `Contains` of a text and the text that is looked for.
    Contains,
}
