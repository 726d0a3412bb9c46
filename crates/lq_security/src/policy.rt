//! Roles and row policies as plain data (PostgreSQL, CREATE POLICY and role membership).
use lq_grammar::Expr;
use lq_language::{HostName, RightRule};
use lq_value::{List, TableNumber, Txt};

/// A role that statements run under.
#[derive(Drop)]
pub struct Role {
    /// Its name, unlike that of any other role; never `public`.
    pub name: Txt,
    /// The roles that it is a member of, by their numbers, each of which comes before it.
    pub member_of: List<usize>,
    /// Whether row policies don't bear on it. Members of the role don't have this from it.
    pub bypass: bool,
}

/// What policies know of a table.
#[derive(Drop)]
pub struct TablePart {
    /// The names of its columns, in the order of a row's cells.
    pub columns: List<Txt>,
    /// Whether its row security is on. Where it is off, every row is visible.
    pub secured: bool,
}

/// What a role does with a row.
#[derive(Clone, Copy, Drop, Eq, PartialEq)]
pub enum Action {
    /// It reads the row.
    Select,
    /// It puts the row into a table.
    Insert,
    /// It removes the row.
    Delete,
}

/// A row policy.
#[derive(Drop)]
pub struct Policy {
    /// Its name.
    pub name: Txt,
    /// The number of the table that it guards.
    pub table: TableNumber,
    /// Whether it is restrictive; else it is permissive.
    pub restrictive: bool,
    /// Whether it is for every action.
    pub for_all: bool,
    /// The action that it is for, where it isn't for every one.
    pub action: Action,
    /// The names of the roles that it applies to, and to whose members; `public` means all.
    pub to: List<Txt>,
    /// Its rule for rows that are there, over `row`, and `user`, the role's name.
    pub using: Option<Expr>,
    /// Its rule for rows that are put in. Where it has none, `using` is.
    pub check: Option<Expr>,
}

/// Roles, tables by their number in the store, host predicates by their number in the set, and policies, grants and withholds, each in
/// file order.
#[derive(Drop)]
pub struct PolicyParts {
    /// The roles.
    pub roles: List<Role>,
    /// The tables.
    pub tables: List<TablePart>,
    /// The host predicates, which rights name by their numbers.
    pub predicates: List<HostName>,
    /// The policies.
    pub policies: List<Policy>,
    /// The rules that grant rights.
    pub grants: List<RightRule>,
    /// The rules that withhold them.
    pub withholds: List<RightRule>,
}
