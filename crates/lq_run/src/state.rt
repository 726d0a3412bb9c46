//! What a session is between two statements.
use crate::definitions::{place_of, renew};
use lq_language::HostName;
use lq_machine::{Defined, Definition};
use lq_policy::{Policies, RoleId};
use lq_pull::View;
use lq_store::{Store, StoreError};
use lq_value::{Scalar, TableNumber, Txt};
use std::alloc::{AllocError, Global};
use std::marker::Model;

/// The tables of a session, the policies for them, which have the names of the host predicates, the role that it runs under, and what
/// its `var` statements defined, the oldest first. No two definitions have one name, and none has a table's; each variable has a
/// value of its type, and each named query the type of a sequence under the names that were defined before it.
///
/// The predicates themselves aren't in it: whatever evaluates a statement is given them beside it.
#[derive(Drop)]
pub struct State {
    store: Store,
    policies: Policies,
    role: RoleId,
    definitions: Vec<Definition>,
}

impl Model for State {
    ghost use Rattle.lq_machine.specs.DefinitionLaws.{AreDefined};
    ghost use Rattle.lq_machine.specs.States.{schemas_of};
    ghost use Rattle.lq_run.specs.States.{SessionState};
    ghost use Rattle.lq_grammar.specs.contracts.syntax.Expr as expr;
    ghost use Rattle.lq_value.specs.contracts.ty.Ty as ty;
    ghost use Rattle.lq_policy.specs.Roles.{number_of};
    ghost use Rattle.std.specs.Coded.{codes};

    ghost Value = { SessionState };

    ghost coded = { Prim.hlevel (codes, expr.the_row.coded, ty.the_row.coded) };

    ghost view = { λ s. record {
      tables = s.store;
      policies = s.policies;
      role = number_of s.role;
      definitions = s.definitions.items;
    } };

    ghost invariant = { λ s. AreDefined (schemas_of s.store) s.policies.predicates
        s.definitions.items };
}

impl State {
    ghost use Rattle.std.specs.Prelude.{◌≡◌, ◌<◌, [], IfSome, IfErr, OnOk, length, set, slice_get};
    ghost use Rattle.lq_machine.specs.DefinitionLaws.{AreDefined, IsDefined, IsNew};
    ghost use Rattle.lq_machine.specs.Definitions.{known_names};
    ghost use Rattle.lq_machine.specs.States.{schemas_of};
    ghost use Rattle.lq_policy.specs.Roles.{number_of};
    ghost use Rattle.lq_pull.specs.Views.{sight_of};
    ghost use Rattle.lq_run.specs.States.{Assigns, IsValueFor, sight, with_definition};
    ghost use Rattle.lq_store.specs.Calls.{Inserts, count_listed, shown_pushed, without_rows};

    /// The first state of a session: no name is defined. Takes no memory.
    pub fn new(alloc: Global, store: Store, policies: Policies, role: RoleId) -> State
        ensures { result ≡ record {
          tables = store;
          policies = policies;
          role = number_of role;
          definitions = [];
        } }
    {
        State {
            store,
            policies,
            role,
            definitions: Vec::new(alloc),
        }
    }

    /// The tables.
    pub fn store(&self) -> &Store
        ensures value { result.now ≡ self.now.tables }
        ensures defined { AreDefined (schemas_of self.now.tables) self.now.policies.predicates
            self.now.definitions }
    {
        &self.store
    }

    /// The policies for them.
    pub fn policies(&self) -> &Policies
        ensures { result.now ≡ self.now.policies }
    {
        &self.policies
    }

    /// What the session's role reads of the tables.
    pub(crate) fn view(&self) -> View<'_>
        ensures value { sight_of result ≡ sight self.now }
        ensures defined { AreDefined (schemas_of self.now.tables) self.now.policies.predicates
            self.now.definitions }
    {
        View {
            store: &self.store,
            policies: &self.policies,
            role: self.role,
        }
    }

    /// The names of the host predicates that the policies know, by their numbers.
    pub fn hosts(&self) -> &[HostName]
        ensures { result.now ≡ self.now.policies.predicates }
    {
        self.policies.predicates()
    }

    /// The role that the session runs under.
    pub fn role(&self) -> RoleId
        ensures { number_of result ≡ self.now.role }
    {
        self.role
    }

    /// What is defined, the oldest first.
    pub fn definitions(&self) -> &[Definition]
        ensures value { result.now ≡ self.now.definitions }
        ensures defined { AreDefined (schemas_of self.now.tables) self.now.policies.predicates
            self.now.definitions }
    {
        self.definitions.as_slice()
    }

    /// Defines a name that neither a table nor another definition has, after the others. Where memory is refused the state stays.
    pub fn define(&mut self, name: Txt, defined: Defined) -> Result<(), AllocError>
        requires new { IsNew (schemas_of self.old.tables)
            (known_names (schemas_of self.old.tables) self.old.policies.predicates
            self.old.definitions) name }
        requires typed { IsDefined (schemas_of self.old.tables) self.old.policies.predicates
            (known_names (schemas_of self.old.tables) self.old.policies.predicates
            self.old.definitions) defined }
        ensures ok { OnOk result (self.new ≡ with_definition self.old name defined) }
        ensures err { IfErr result (λ _. self.new ≡ self.old) }
    {
        self.definitions.push(Definition { name, defined })?;
        Ok(())
    }

    /// Gives the variable of this name a new value, which is one of its type. Takes no memory.
    pub fn assign(&mut self, name: &str, value: Scalar)
        requires { IsValueFor self.old.definitions name.now value }
        ensures { Assigns self.old name.now value self.new }
    {
        if let Some(place) = place_of(self.definitions.as_slice(), name) {
            renew(&mut self.definitions[place], value);
        }
    }

    /// Takes a role from now on, and prepares the policies for it. Where memory is refused the state stays.
    pub fn take_role(&mut self, alloc: Global, role: RoleId) -> Result<(), AllocError>
        ensures ok { OnOk result (self.new ≡ record self.old { role = number_of role }) }
        ensures err { IfErr result (λ _. self.new ≡ self.old) }
    {
        self.policies.prepare(alloc, role)?;
        self.role = role;
        Ok(())
    }

    /// Puts a row into a table, as `Store::insert` does, with its refusals.
    pub fn insert(
        &mut self,
        table: TableNumber,
        cells: Vec<Scalar>,
    ) -> Result<u64, (StoreError, Vec<Scalar>)>
        ensures tables { Inserts self.old.tables table cells.items (shown_pushed result)
            self.new.tables }
        ensures rest { self.new ≡ record self.old { tables = self.new.tables } }
    {
        self.store.insert(table, cells)
    }

    /// Removes the rows of a table that have these numbers, and answers how many they were. Takes no memory.
    pub fn delete_rows(&mut self, table: TableNumber, numbers: &[u64]) -> u64
        requires { table < length self.old.tables }
        ensures { IfSome (slice_get self.old.tables table)
            (λ t. (result ≡ count_listed t numbers.now)
            × (self.new ≡ record self.old {
              tables = set self.old.tables table (without_rows t numbers.now);
            })) }
    {
        self.store.delete_rows(table, numbers)
    }
}
