//! The set of the predicates.
ghost use Rattle.std.specs.Prelude.{◌≡◌, ◌∷◌, [], ℤ, true, IfOk};
ghost use Rattle.lq_host.specs.AcceptedSets.{is_within, is_within_both};
ghost use Rattle.lq_host.specs.Hosts.{hosts_of};
ghost use Rattle.lq_predicates.specs.ProgramPredicates.{Computes, is_leap_year, is_under, leap_year, thousands, under, years};

use crate::predicates::{add_leap_year, add_under};
use lq_host::HostSet;
use std::alloc::{AllocError, Global};

/// A test of a number.
type NumberTest = Box<dyn Fn(i32) -> bool>;

/// A test of two numbers.
type PairTest = Box<dyn Fn(i32, i32) -> bool>;

/// The set of the predicates that a program always has, `LeapYear` and `Under`, by a test that says whether a year is a leap year and
/// one that says whether a number is less than another. No call was made yet.
pub fn host_set(
    alloc: Global,
    of_years: NumberTest,
    of_pairs: PairTest,
) -> Result<HostSet, AllocError>
    requires years_callable { (x : ℤ) → is_within years x ≡ true → NumberTest.pre of_years x }
    requires years_computes { Computes (is_within years) is_leap_year
        (λ x answer. NumberTest.post of_years x answer) }
    requires pairs_callable { (x y : ℤ) → is_within_both (thousands, years) (x, y) ≡ true
        → PairTest.pre of_pairs x y }
    requires pairs_computes { Computes (is_within_both (thousands, years)) is_under
        (λ p answer. PairTest.post of_pairs p.0 p.1 answer) }
    ensures { IfOk result (λ hosts. hosts_of hosts
        ≡ record { predicates = leap_year ∷ under ∷ []; calls = [] }) }
{
    let mut hosts = HostSet::new(alloc);
    add_leap_year(alloc, &mut hosts, of_years)?;
    add_under(alloc, &mut hosts, of_pairs)?;
    Ok(hosts)
}
