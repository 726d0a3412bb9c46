//! The binding of whole expressions, queries and conditions.
ghost use Rattle.std.specs.Prelude.{◌≡◌, false};
ghost use Rattle.lq_bind.specs.Outcomes.{IsBound, is_past};
ghost use Rattle.lq_bind.specs.Statements.{condition_among, query_among, tree_among};

use crate::binder::Binder;
use crate::error::BindError;
use crate::frames::Frame;
use lq_language::{Call, HostName, Term};
use lq_machine::Definition;
use lq_store::Store;
use lq_tree::Tree;
use lq_value::{TableNumber, Txt, Ty};
use std::alloc::Global;

/// The most tokens that a statement may have, with those of all named queries that it opens.
pub const MOST_TOKENS: u64 = 65_536;

/// The most levels of named queries, each opened by the one above it, that a statement may open.
pub const MOST_RANK: u32 = 8;

/// What a statement is bound in.
#[derive(Clone, Copy)]
pub struct Scope<'a> {
    /// The tables, whose names are known wherever no local name hides them.
    pub store: &'a Store,
    /// The host predicates, by number.
    pub hosts: &'a [HostName],
    /// The names of the session, the oldest first. Each is known wherever neither a local name nor
    /// a table hides it, and in the named queries that come after it.
    pub definitions: &'a [Definition],
    /// How many tokens the statement has, with those of all named queries that it opens; at most
    /// [`MOST_TOKENS`], which are 65,536.
    pub size: u64,
    /// How many levels of named queries it opens; at most [`MOST_RANK`], which are 8.
    pub rank: u32,
}

impl Scope<'_> {
    /// What binds the terms of the statement.
    fn binder(&self, alloc: Global) -> Binder<'_>
        ensures tables { result.store.now ≡ self.now.store.now }
        ensures predicates { result.hosts.now ≡ self.now.hosts.now }
        ensures names { result.definitions.now ≡ self.now.definitions.now }
    {
        Binder {
            alloc,
            store: self.store,
            hosts: self.hosts,
            definitions: self.definitions,
        }
    }

    /// Whether the statement is past the limits of opening.
    fn is_past(&self) -> bool
        ensures { result ≡ is_past self.now.size self.now.rank }
    {
        self.size > MOST_TOKENS || self.rank > MOST_RANK
    }
}

/// The typed tree of the calls of a query: a variable of the session stands as the literal of its
/// value, and a named query as the tree of its expression, bound anew where the name is opened with
/// the names that were defined before it. Refuses with `TooDeep` where the statement is past the
/// limits of opening, with `IllTyped` where the query has no type, in this order, and with
/// `Memory`.
#[tactic(auto, using(crate::proofs::FrameLemmas::chains))]
pub fn bind(alloc: Global, call: &Call<Term>, scope: &Scope<'_>) -> Result<Tree, BindError>
    ensures { IsBound (is_past scope.now.size scope.now.rank)
        (query_among scope.now call.now) result }
{
    if scope.is_past() {
        return Err(BindError::TooDeep);
    }
    Ok(scope.binder(alloc).call(call, &Frame::Top(0))?)
}

/// The typed tree of a term in a statement that is within the limits of opening: refuses with
/// `IllTyped` where the term has no type, and with `Memory`.
#[tactic(auto, using(crate::proofs::FrameLemmas::chains))]
pub fn bind_term(alloc: Global, term: &Term, scope: &Scope<'_>) -> Result<Tree, BindError>
    requires { is_past scope.now.size scope.now.rank ≡ false }
    ensures { IsBound false (tree_among scope.now term.now) result }
{
    Ok(scope.binder(alloc).term(term, &Frame::Top(0))?)
}

/// The typed tree of a term in which `row` is a local name: that of a row of the table of this
/// number, which stands in the first slot. The tree may be of any type, so that it is a condition
/// on rows where its type is `bool`. The statement is within the limits, and the refusals are the
/// same.
#[tactic(auto, using(crate::proofs::FrameLemmas::chains))]
pub fn bind_condition(
    alloc: Global,
    term: &Term,
    row: &Txt,
    table: TableNumber,
    scope: &Scope<'_>,
) -> Result<Tree, BindError>
    requires { is_past scope.now.size scope.now.rank ≡ false }
    ensures { IsBound false (condition_among scope.now row.now table term.now) result }
{
    let ty = Ty::Row(table);
    let outside = Frame::Top(0);
    let frame = outside.with_name(row, &ty);
    Ok(scope.binder(alloc).term(term, &frame)?)
}
