//! The entries of a policy file as plain data, before names are looked up.
use lq_grammar::Expr;
use lq_security::Action;
use lq_value::{List, Txt};

/// A role.
#[derive(Drop)]
pub(crate) struct RoleEntry {
    /// Its name.
    pub name: Txt,
    /// The names of the roles that it is a member of.
    pub member_of: List<Txt>,
    /// Whether row policies don't bear on it.
    pub bypass: bool,
}

/// What is said of a table.
#[derive(Drop)]
pub(crate) struct TableEntry {
    /// Its name.
    pub name: Txt,
    /// Whether its row security is on.
    pub row_security: bool,
}

/// Which actions a policy is for.
#[derive(Clone, Copy, Drop)]
pub(crate) enum Actions {
    /// Every action.
    All,
    /// This action alone.
    Only(Action),
}

/// How a policy bears on what others say.
#[derive(Clone, Copy, Drop)]
pub(crate) enum Kind {
    /// It lets rows through.
    Permissive,
    /// It keeps rows back.
    Restrictive,
}

/// The rules of a policy, and what they are for.
#[derive(Drop)]
pub(crate) struct Rules {
    /// The actions.
    pub actions: Actions,
    /// The rule for rows that are there.
    pub using: Option<Expr>,
    /// The rule for rows that are put in.
    pub check: Option<Expr>,
}

/// A row policy.
#[derive(Drop)]
pub(crate) struct PolicyEntry {
    /// Its name.
    pub name: Txt,
    /// The name of the table that it guards.
    pub table: Txt,
    /// Whether it lets rows through or keeps them back.
    pub kind: Kind,
    /// The names of the roles that it applies to, and to whose members; `public` means all.
    pub to: List<Txt>,
    /// Its rules.
    pub rules: Rules,
}

/// What the text of a right says.
#[derive(Drop)]
pub(crate) enum RightForm {
    /// A column: the name of its table, and its own.
    Column(Txt, Txt),
    /// All columns of the table of this name.
    AllColumns(Txt),
    /// New rows of the table of this name.
    Insert(Txt),
    /// The removal of rows of the table of this name.
    Delete(Txt),
    /// The host predicate of this name.
    Host(Txt),
}

/// A rule that grants rights, or one that withholds them.
#[derive(Drop)]
pub(crate) struct RightEntry {
    /// Its name.
    pub name: Txt,
    /// The names of the roles that it applies to, and to whose members; `public` means all.
    pub to: List<Txt>,
    /// The rights that it covers.
    pub rights: List<RightForm>,
}

/// The entries of a file, each array in its order.
#[derive(Drop)]
pub(crate) struct FileEntries {
    /// The roles.
    pub roles: List<RoleEntry>,
    /// The tables.
    pub tables: List<TableEntry>,
    /// The policies.
    pub policies: List<PolicyEntry>,
    /// The rules that grant rights.
    pub grants: List<RightEntry>,
    /// The rules that withhold them.
    pub withholds: List<RightEntry>,
}
