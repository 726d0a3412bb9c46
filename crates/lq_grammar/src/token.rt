//! Tokens of a line.

/// What a token is. Reserved words and signs have a kind of their own.
#[derive(Clone, Copy, Debug, Drop, Eq, PartialEq)]
pub enum Kind {
    /// A name: not a reserved word.
    Name,
    /// Decimal digits.
    Integer,
    /// A text between double quotes.
    Text,
    /// `from`
    From,
    /// `where`
    Where,
    /// `select`
    Select,
    /// `group`
    Group,
    /// `into`
    Into,
    /// `orderby`
    OrderBy,
    /// `join`
    Join,
    /// `let`
    Let,
    /// `in`
    In,
    /// `on`
    On,
    /// `equals`
    Equals,
    /// `by`
    By,
    /// `ascending`
    Ascending,
    /// `descending`
    Descending,
    /// `var`
    Var,
    /// `run`
    Run,
    /// `as`
    As,
    /// `insert`
    Insert,
    /// `delete`
    Delete,
    /// `update`
    Update,
    /// `set`
    Set,
    /// `new`
    New,
    /// `true`
    True,
    /// `false`
    False,
    /// `null`
    Null,
    /// `Host`
    Host,
    /// `(`
    LeftParenthesis,
    /// `)`
    RightParenthesis,
    /// `{`
    LeftBrace,
    /// `}`
    RightBrace,
    /// `.`
    Dot,
    /// `,`
    Comma,
    /// `;`
    Semicolon,
    /// `:`
    Colon,
    /// `=`
    Assign,
    /// `=>`
    Arrow,
    /// `?`
    Question,
    /// `??`
    Coalesce,
    /// `!`
    Not,
    /// `-`
    Minus,
    /// `+`
    Plus,
    /// `*`
    Star,
    /// `/`
    Slash,
    /// `%`
    Percent,
    /// `<`
    Less,
    /// `>`
    Greater,
    /// `<=`
    LessOrEqual,
    /// `>=`
    GreaterOrEqual,
    /// `==`
    Equal,
    /// `!=`
    NotEqual,
    /// `&&`
    And,
    /// `||`
    Or,
}

/// A token: what it is, and where it is in its line.
#[derive(Clone, Copy, Drop)]
pub struct Token {
    /// What it is.
    pub kind: Kind,
    /// The place of its first byte in the line.
    pub start: usize,
    /// The place after its last byte.
    pub end: usize,
}
