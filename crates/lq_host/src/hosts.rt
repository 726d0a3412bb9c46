//! The set of host predicates, with the log of their calls.
use crate::asks::Asks;
use crate::call::{Call, Pick, PredicateNumber, Question};
use crate::error::HostError;
use crate::log::Log;
use crate::predicate::HostPredicate;
use crate::predicates::Predicates;
use crate::seen_row::{SeenRow, arguments_of};
use crate::work::Work;
use lq_value::TableNumber;
use std::alloc::Global;

/// Host predicates, and the log of their calls. Predicates are asked with their log, so both are private: whoever had the predicates of
/// one set and the log of another could ask without an entry in the log of the first. `work` lends both together.
#[derive(Drop)]
pub struct HostSet {
    predicates: Predicates,
    log: Log<Predicates>,
}

impl HostSet {
    ghost use Rattle.std.specs.Prelude.{◌≡◌, ◌<◌, [], Some, IfSome, IsSome, length, slice_get};
    ghost use Rattle.std.specs.Option.{option_map};
    ghost use Rattle.lq_value.specs.Tables.{first_named};
    ghost use Rattle.lq_host.specs.Predicates.{answer_in, arity_of, predicate_of, ranges_of};
    ghost use Rattle.lq_host.specs.Calls.{LogsCall, arguments_at, count_of, question_of};
    ghost use Rattle.lq_host.specs.Hosts.{Adds, hosts_of, name_of, predicates_of, shown_added};

    /// A set of no predicates, of which no call was made. Takes no memory.
    pub fn new(alloc: Global) -> HostSet
        ensures { hosts_of result ≡ record { predicates = []; calls = [] } }
    {
        HostSet {
            predicates: Predicates::new(alloc),
            log: Log::new(alloc),
        }
    }

    /// The predicates, by their numbers: to look at, since they are asked with the log alone.
    pub fn predicates(&self) -> &Predicates
        ensures { predicates_of result.now ≡ (hosts_of self.now).predicates }
    {
        &self.predicates
    }

    /// The number of the predicate of this name.
    pub fn find(&self, name: &str) -> Option<PredicateNumber>
        ensures value { result ≡ first_named name_of name.now (hosts_of self.now).predicates }
        ensures bound { IfSome result (λ id. id < length (hosts_of self.now).predicates) }
    {
        self.predicates.find(name)
    }

    /// The name of a predicate.
    pub fn name(&self, id: PredicateNumber) -> &str
        requires { id < length (hosts_of self.now).predicates }
        ensures { option_map name_of (slice_get (hosts_of self.now).predicates id)
            ≡ Some result.now }
    {
        self.predicates.name(id)
    }

    /// The range of a predicate's first argument, and that of the second where it has two.
    pub fn range(&self, id: PredicateNumber) -> ((i32, i32), Option<(i32, i32)>)
        requires { id < length (hosts_of self.now).predicates }
        ensures { option_map (λ p. ranges_of p.domain) (slice_get (hosts_of self.now).predicates id)
            ≡ Some result }
    {
        self.predicates.range(id)
    }

    /// The calls that were made, in their order.
    pub fn calls(&self) -> &[Call]
        ensures { result.now ≡ (hosts_of self.now).calls }
    {
        self.log.calls()
    }

    /// Puts `predicate` after the others and answers its number. Refuses with `DuplicateName`, `TooMany` (there are 64) or `Memory`,
    /// checked in this order; the predicates are then as they were, and the new one is handed back. The log stays in any case.
    pub fn add(
        &mut self,
        predicate: HostPredicate,
    ) -> Result<PredicateNumber, (HostError, HostPredicate)>
        ensures predicates { Adds (hosts_of self.old).predicates (predicate_of predicate)
            (shown_added result) (hosts_of self.new).predicates }
        ensures calls { (hosts_of self.new).calls ≡ (hosts_of self.old).calls }
    {
        self.predicates.add(predicate)
    }

    /// Asks predicate `id` of the cells that `row`, of table `t`, has in `columns`: as many columns as the predicate has arguments, with an
    /// integer in each. Answers by the predicate's accepted set, and puts the call after the others in the log. Refuses with `Range`
    /// where the cells are out of the predicate's range, and else with `Memory` where there is no room for the entry; in both no call was
    /// made, and the log is as it was.
    pub fn ask<R: SeenRow>(
        &mut self,
        id: PredicateNumber,
        t: TableNumber,
        row: &R,
        columns: Pick,
    ) -> Result<bool, HostError>
        requires columns { option_map (λ p. arity_of p.domain)
            (slice_get (hosts_of self.old).predicates id)
            ≡ Some (count_of columns) }
        requires integers { IsSome (arguments_at (R.cells_of row.now) columns) }
        ensures asked { IfSome (arguments_at (R.cells_of row.now) columns) (λ xs.
            LogsCall (answer_in (hosts_of self.old).predicates id xs)
            (question_of id t (R.number_of row.now) columns xs)
            (hosts_of self.old).calls result (hosts_of self.new).calls) }
        ensures predicates { (hosts_of self.new).predicates ≡ (hosts_of self.old).predicates }
    {
        let arguments = match arguments_of(row, columns) {
            Some(arguments) => arguments,
            None => unreachable!(),
        };
        let question = Question {
            predicate: id,
            table: t,
            row: row.number(),
            columns,
            arguments,
        };
        self.predicates.ask(question, &mut self.log)
    }

    /// Does work that may ask the predicates, which stay; each call comes into the log.
    pub fn work<W: Work>(&mut self, work: W, state: &mut W::State) -> W::Outcome
        requires { W.may work (hosts_of self.old).predicates state.old }
        ensures does { W.does work (hosts_of self.old).predicates state.old
            (hosts_of self.old).calls result state.new (hosts_of self.new).calls }
        ensures predicates { (hosts_of self.new).predicates ≡ (hosts_of self.old).predicates }
    {
        work.work(state, &self.predicates, &mut self.log)
    }
}
