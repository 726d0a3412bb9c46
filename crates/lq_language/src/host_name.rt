//! Host predicates as queries name them.
ghost use Rattle.std.specs.Prelude.{◌≡◌, IfOk, slice_get};
ghost use Rattle.lq_value.specs.Tables.{first_named};
ghost use Rattle.lq_host.specs.Hosts.{predicates_of};
ghost use Rattle.lq_language.specs.HostNames.{count_of, predicate_number, takes};
ghost use Rattle.lq_language.specs.Worlds.{known_predicates};

use lq_grammar::Picked;
use lq_host::{PredicateNumber, Predicates};
use lq_value::{List, Txt};
use std::alloc::{AllocError, Global};

/// A host predicate, by what a query has to know of it.
#[derive(Drop)]
pub struct HostName {
    /// Its name.
    pub name: Txt,
    /// How many arguments it takes: one or two.
    pub arguments: u16,
}

/// What a query has to know of a host's predicates, by their numbers. Refused where no memory was left.
#[tactic(auto, using(crate::proofs::HostNameLemmas::all_named))]
pub fn host_names(alloc: Global, hosts: &Predicates) -> Result<List<HostName>, AllocError>
    ensures { IfOk result (λ names. names ≡ known_predicates (predicates_of hosts.now)) }
{
    let mut names = List::new(alloc);
    for number in 0..hosts.len() {
        let name = Txt::from_str(alloc, hosts.name(number as PredicateNumber))?;
        let arguments = hosts.arity(number as PredicateNumber);
        names.push(HostName { name, arguments })?;
    }
    Ok(names)
}

/// The place of the predicate of this name.
fn place_of(known: &[HostName], name: &str) -> Option<usize>
    ensures { result ≡ first_named (λ host. host.name) name.now known.now }
{
    known.iter().position(|host| host.name.as_str() == name)
}

/// How many columns there are.
fn count_of(columns: &Picked) -> u16
    ensures { result ≡ count_of columns.now }
{
    match columns {
        Picked::One(_) => 1,
        Picked::Two(_, _) => 2,
    }
}

/// Whether there is a predicate at this place, which takes so many arguments.
fn has_arity(known: &[HostName], place: usize, count: u16) -> bool
    ensures { result ≡ takes count (slice_get known.now place) }
{
    match known.get(place) {
        Some(host) => host.arguments == count,
        None => false,
    }
}

/// The number of the predicate of this name, if it takes as many arguments as there are columns.
pub fn predicate_number(known: &[HostName], name: &str, columns: &Picked) -> Option<usize>
    ensures { result ≡ predicate_number known.now name.now columns.now }
{
    let place = place_of(known, name)?;
    has_arity(known, place, count_of(columns)).then_some(place)
}
