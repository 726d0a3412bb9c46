//! The predicates, each put into a set by a box that has its test.
ghost use Rattle.std.specs.Prelude.{◌≡◌, ◌∷◌, ◌++◌, [], ℤ, true, false, int_lt, None, OnOk};
ghost use Rattle.std.specs.Ordering.{int_cmp};
ghost use Rattle.lq_host.specs.AcceptedSets.{Accepted, AnswersBy, Numbers, is_within, is_within_both};
ghost use Rattle.lq_host.specs.Hosts.{addition_refusal_of, hosts_of};
ghost use Rattle.lq_host.specs.Predicates.{Domain, OfOne, predicate_of};
ghost use Rattle.lq_predicates.specs.ProgramPredicates.{Computes, every_int, is_leap_year, is_listed, is_under, leap_year, thousands, under, watched, years};

use lq_host::{HostPredicate, HostSet};
use std::alloc::{AllocError, Global};

/// The years that predicates take.
const YEARS: (i32, i32) = (1, 9999);

/// The numbers that `Under` takes first.
const THOUSANDS: (i32, i32) = (-1000, 1000);

/// Puts the predicate `LeapYear` of a year from 1 to 9999 after the others, by a test that says whether it is a leap year.
pub(crate) fn add_leap_year(
    alloc: Global,
    hosts: &mut HostSet,
    test: Box<dyn Fn(i32) -> bool>,
) -> Result<(), AllocError>
    requires new { addition_refusal_of (hosts_of hosts.old).predicates leap_year ≡ None }
    requires callable { (x : ℤ) → is_within years x ≡ true → pre test x }
    requires computes { Computes (is_within years) is_leap_year (λ x answer. post test x answer) }
    ensures added { OnOk result ((hosts_of hosts.new).predicates
        ≡ (hosts_of hosts.old).predicates ++ leap_year ∷ []) }
    ensures calls { (hosts_of hosts.new).calls ≡ (hosts_of hosts.old).calls }
{
    add_one(alloc, hosts, "LeapYear", YEARS, test)
}

/// Puts the predicate `Watched` of any number after the others, by a test that says whether it is among the numbers of a list, as
/// `watch_list` reads it.
pub fn add_watched(
    alloc: Global,
    hosts: &mut HostSet,
    list: &str,
    test: Box<dyn Fn(i32) -> bool>,
) -> Result<(), AllocError>
    requires new { addition_refusal_of (hosts_of hosts.old).predicates (watched list.now) ≡ None }
    requires callable { (x : ℤ) → is_within every_int x ≡ true → pre test x }
    requires computes { Computes (is_within every_int) (is_listed list.now)
        (λ x answer. post test x answer) }
    ensures added { OnOk result ((hosts_of hosts.new).predicates
        ≡ (hosts_of hosts.old).predicates ++ watched list.now ∷ []) }
    ensures calls { (hosts_of hosts.new).calls ≡ (hosts_of hosts.old).calls }
{
    add_one(alloc, hosts, "Watched", (i32::MIN, i32::MAX), test)
}

/// Puts the predicate `Under` of a number from -1000 to 1000 and one from 1 to 9999 after the others, by a test that says whether the
/// first is less.
pub(crate) fn add_under(
    alloc: Global,
    hosts: &mut HostSet,
    test: Box<dyn Fn(i32, i32) -> bool>,
) -> Result<(), AllocError>
    requires new { addition_refusal_of (hosts_of hosts.old).predicates under ≡ None }
    requires callable { (x y : ℤ) → is_within_both (thousands, years) (x, y) ≡ true → pre test x y }
    requires computes { Computes (is_within_both (thousands, years)) is_under
        (λ p answer. post test p.0 p.1 answer) }
    ensures added { OnOk result ((hosts_of hosts.new).predicates
        ≡ (hosts_of hosts.old).predicates ++ under ∷ []) }
    ensures calls { (hosts_of hosts.new).calls ≡ (hosts_of hosts.old).calls }
{
    let name = String::from_str(alloc, "Under")?;
    match HostPredicate::new2(name, THOUSANDS, YEARS, test) {
        Ok(of_pairs) => add(hosts, of_pairs),
        Err(_empty) => Err(AllocError),
    }
}

/// Puts a predicate of one argument, whose range has a number, after the others.
fn add_one(
    alloc: Global,
    hosts: &mut HostSet,
    name: &str,
    range: (i32, i32),
    test: Box<dyn Fn(i32) -> bool>,
) -> Result<(), AllocError>
    requires new { (domain : Domain) → addition_refusal_of (hosts_of hosts.old).predicates
        (record { name = name.now; domain = domain }) ≡ None }
    requires some { int_lt range.1 range.0 ≡ false }
    requires callable { (x : ℤ) → is_within range x ≡ true → pre test x }
    requires accepted { Accepted int_cmp (is_within range) (λ x answer. post test x answer) }
    ensures added { (set : Numbers)
        → AnswersBy (is_within range) (λ x answer. post test x answer) set
        → OnOk result ((hosts_of hosts.new).predicates ≡ (hosts_of hosts.old).predicates
        ++ record { name = name.now; domain = OfOne range set } ∷ []) }
    ensures calls { (hosts_of hosts.new).calls ≡ (hosts_of hosts.old).calls }
{
    let name = String::from_str(alloc, name)?;
    match HostPredicate::new(name, range.0, range.1, test) {
        Ok(of_numbers) => add(hosts, of_numbers),
        Err(_empty) => Err(AllocError),
    }
}

/// Puts a predicate after the others, none of which has its name.
fn add(hosts: &mut HostSet, predicate: HostPredicate) -> Result<(), AllocError>
    requires { addition_refusal_of (hosts_of hosts.old).predicates (predicate_of predicate)
        ≡ None }
    ensures added { OnOk result ((hosts_of hosts.new).predicates
        ≡ (hosts_of hosts.old).predicates ++ predicate_of predicate ∷ []) }
    ensures calls { (hosts_of hosts.new).calls ≡ (hosts_of hosts.old).calls }
{
    match hosts.add(predicate) {
        Ok(_number) => Ok(()),
        Err(_back) => Err(AllocError),
    }
}
