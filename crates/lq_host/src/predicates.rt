//! The predicates of a host.
ghost use Rattle.std.specs.Prelude.{◌≤◌, vec_len};

use crate::asks::Asks;
use crate::call::{PredicateNumber, Question};
use crate::error::HostError;
use crate::log::{Log, append, make_room};
use crate::predicate::HostPredicate;
use std::alloc::Global;

/// The most predicates that there may be.
const MOST_PREDICATES: usize = 64;

/// Predicates of different names, at most 64. A predicate's number is its place, from 0.
///
/// Their closures are called by `ask` alone, which leaves an entry of each call in the log of their set.
#[derive(Drop)]
pub struct Predicates {
    pub(crate) items: Vec<HostPredicate>,
    pub(crate) ghost few: { vec_len items ≤ 64 },
}

impl Predicates {
    ghost use Rattle.std.specs.Prelude.{◌≡◌, ◌<◌, ◌≤◌, [], Some, IfSome, length, slice_get};
    ghost use Rattle.std.specs.Option.{option_map};
    ghost use Rattle.lq_value.specs.Tables.{first_named};
    ghost use Rattle.lq_host.specs.Predicates.{arity_of, predicate_of, ranges_of};
    ghost use Rattle.lq_host.specs.Hosts.{Adds, name_of, predicates_of, shown_added};

    /// No predicates. Takes no memory.
    pub(crate) fn new(alloc: Global) -> Predicates
        ensures { predicates_of result ≡ [] }
    {
        Predicates {
            items: Vec::new(alloc),
        }
    }

    /// How many predicates there are: 64 at most.
    pub fn len(&self) -> usize
        ensures value { result ≡ length (predicates_of self.now) }
        ensures bound { result ≤ 64 }
    {
        self.items.len()
    }

    /// The number of the predicate of this name.
    pub fn find(&self, name: &str) -> Option<PredicateNumber>
        ensures value { result ≡ first_named name_of name.now (predicates_of self.now) }
        ensures bound { IfSome result (λ id. id < length (predicates_of self.now)) }
    {
        for (number, predicate) in self.items.iter().enumerate() {
            if predicate.name.as_str() == name {
                return Some(number as PredicateNumber);
            }
        }
        None
    }

    /// The name of a predicate.
    pub fn name(&self, id: PredicateNumber) -> &str
        requires { id < length (predicates_of self.now) }
        ensures { option_map name_of (slice_get (predicates_of self.now) id) ≡ Some result.now }
    {
        self.at(id).name.as_str()
    }

    /// The range of a predicate's first argument, and that of the second where it has two.
    pub fn range(&self, id: PredicateNumber) -> ((i32, i32), Option<(i32, i32)>)
        requires { id < length (predicates_of self.now) }
        ensures { option_map (λ p. ranges_of p.domain) (slice_get (predicates_of self.now) id)
            ≡ Some result }
    {
        self.at(id).test.ranges()
    }

    /// How many arguments a predicate takes: one or two.
    pub fn arity(&self, id: PredicateNumber) -> u16
        requires { id < length (predicates_of self.now) }
        ensures { option_map (λ p. arity_of p.domain) (slice_get (predicates_of self.now) id)
            ≡ Some result }
    {
        self.at(id).test.arity()
    }

    /// Puts `predicate` after the others and answers its number. Refuses with `DuplicateName`, `TooMany` (there are 64) or `Memory`,
    /// checked in this order; the predicates are then as they were, and the new one is handed back.
    pub(crate) fn add(
        &mut self,
        predicate: HostPredicate,
    ) -> Result<PredicateNumber, (HostError, HostPredicate)>
        ensures { Adds (predicates_of self.old) (predicate_of predicate)
            (shown_added result) (predicates_of self.new) }
    {
        if self.find(predicate.name.as_str()).is_some() {
            return Err((HostError::DuplicateName, predicate));
        }
        let number = self.items.len();
        if number >= MOST_PREDICATES {
            return Err((HostError::TooMany, predicate));
        }
        match self.items.push(predicate) {
            Ok(()) => Ok(number as PredicateNumber),
            Err(back) => Err((HostError::Memory, back.value)),
        }
    }

    /// The predicate of a number.
    fn at(&self, id: PredicateNumber) -> &HostPredicate
        requires { id < length (predicates_of self.now) }
        ensures { slice_get (predicates_of self.now) id ≡ Some (predicate_of result.now) }
    {
        &self.items[id as usize]
    }
}

impl Asks for Predicates {
    ghost use Rattle.lq_host.specs.Hosts.{predicates_of};

    ghost known = { predicates_of };

    fn ask(&self, question: Question, log: &mut Log<Predicates>) -> Result<bool, HostError> {
        let predicate = match self.items.get(question.predicate as usize) {
            Some(predicate) => predicate,
            None => return Err(HostError::Range),
        };
        if !predicate.test.is_within(question.arguments) {
            return Err(HostError::Range);
        }
        if !make_room(&mut log.calls) {
            return Err(HostError::Memory);
        }
        let answer = predicate.test.answer(question.arguments);
        append(&mut log.calls, question.call_with(answer));
        Ok(answer)
    }
}
