//! Rights as plain data: what a statement uses, and the rules that grant or withhold it.
use lq_host::PredicateNumber;
use lq_value::{ColumnNumber, List, TableNumber, Txt};

/// What a statement uses of the tables and of the host, and what a right is for.
#[derive(Clone, Copy, Drop, Eq, Hash, PartialEq)]
pub enum Use {
    /// The table with this number.
    Table(TableNumber),
    /// A column, by the numbers of its table and of its place there.
    Column(TableNumber, ColumnNumber),
    /// A new row of the table with this number.
    Insert(TableNumber),
    /// The removal of rows of the table with this number.
    Delete(TableNumber),
    /// The host predicate with this number.
    Host(PredicateNumber),
}

/// A rule that grants rights, or one that withholds them.
#[derive(Drop)]
pub struct RightRule {
    /// Its name.
    pub name: Txt,
    /// The names of the roles that it applies to, and to whose members; `public` means all.
    pub to: List<Txt>,
    /// The rights that it covers: columns, the putting in and removal of rows, and host predicates.
    pub rights: List<Use>,
}
