//! Methods of sequences, by what they take (.NET, Enumerable).

/// A method without an argument.
#[derive(Clone, Copy, Drop, Eq, PartialEq)]
pub enum Simple {
    /// Each item at its first appearance.
    Distinct,
    /// The items from the last to the first.
    Reverse,
    /// The items, or where there is none a default one.
    DefaultIfEmpty,
    /// Whether there is an item.
    Any,
    /// How many items there are.
    Count,
    /// The first item.
    First,
    /// The first item, or a default one.
    FirstOrDefault,
    /// The last item.
    Last,
    /// The only item.
    Single,
    /// The only item, or a default one where there is none.
    SingleOrDefault,
    /// The sum of the numbers.
    Sum,
    /// The least of the numbers.
    Min,
    /// The greatest of the numbers.
    Max,
}

/// A method with a second sequence, with a number of items, or with a value.
#[derive(Clone, Copy, Drop, Eq, PartialEq)]
pub enum Given {
    /// Both sequences, one after the other.
    Concat,
    /// The distinct items of both.
    Union,
    /// The distinct items that are in the second too.
    Intersect,
    /// The distinct items that are not in the second.
    Except,
    /// What comes after so many items.
    Skip,
    /// So many items.
    Take,
    /// The item after so many.
    ElementAt,
    /// Whether an item is the same as the value.
    Contains,
}

/// A method with a lambda.
#[derive(Clone, Copy, Drop, Eq, PartialEq)]
pub enum Through {
    /// The items on which the lambda is true.
    Where,
    /// What the lambda makes of each item.
    Select,
    /// Whether the lambda is true on every item.
    All,
    /// The method without an argument, on those items on which the lambda is true.
    Those(Simple),
    /// And on what the lambda makes of the items.
    Values(Simple),
}
