//! Calls of a predicate in its range and outside of it.
ghost use Rattle.std.specs.Prelude.{◌≡◌, ◌∷◌, [], ℤ, true};
ghost use Rattle.lq_value.specs.declared.scalar.Scalar.{Scalar};
ghost use Rattle.lq_host.specs.Hosts.{hosts_of};
ghost use Rattle.lq_predicates.specs.ProgramPredicates.{is_leap_year, is_under, leap_year, under};

use lq_host::{HostSet, Pick, SeenRow};
use lq_predicates::{host_set, is_leap_year, is_under};
use lq_value::{ColumnNumber, Scalar};
use std::io;

/// Row 5 of a table with one column.
#[derive(Drop)]
struct Year {
    year: Scalar,
}

impl SeenRow for Year {
    ghost number_of = { λ row. 5 };

    ghost cells_of = { λ row. row.year ∷ [] };

    fn number(&self) -> u64 {
        5
    }

    fn cell(&self, column: ColumnNumber) -> Option<&Scalar> {
        match column {
            0 => Some(&self.year),
            _ => None,
        }
    }
}

/// Prints what `LeapYear` answers to a year, and how many calls the log has then.
fn print_answer(rt: &HostRuntime, hosts: &mut HostSet, year: i32) -> io::Result<()>
    requires { (hosts_of hosts.old).predicates ≡ leap_year ∷ under ∷ [] }
    ensures { (hosts_of hosts.new).predicates ≡ leap_year ∷ under ∷ [] }
{
    let row = Year {
        year: Scalar::Int(year),
    };
    let answer = hosts.ask(0, 7, &row, Pick::One(0));
    let calls = hosts.calls().len();
    match answer {
        Ok(answer) => println!(rt; "LeapYear of {year}: {answer}, calls: {calls}"),
        Err(error) => println!(rt; "LeapYear of {year}: {error}, calls: {calls}"),
    }
}

/// Prints the log: each call's predicate, table, row, columns and arguments, and its answer.
fn print_log(rt: &HostRuntime, hosts: &HostSet) -> io::Result<()> {
    for call in hosts.calls() {
        println!(rt; "{call:?}")?;
    }
    Ok(())
}

/// Prints what a predicate answers to some years, and its log.
pub(crate) fn print_calls(rt: &HostRuntime) -> io::Result<()> {
    let alloc = rt.alloc();
    let of_years = |year: i32| -> bool
        ensures { result ≡ is_leap_year year }
    { is_leap_year(year) };
    let of_pairs = |first: i32, second: i32| -> bool
        ensures { result ≡ is_under (first, second) }
    { is_under(first, second) };
    let mut hosts = host_set(
        alloc,
        Box::new(alloc, of_years)?,
        Box::new(alloc, of_pairs)?,
    )?;
    print_answer(rt, &mut hosts, 0)?;
    print_answer(rt, &mut hosts, 10000)?;
    print_answer(rt, &mut hosts, 1900)?;
    print_answer(rt, &mut hosts, 2000)?;
    print_answer(rt, &mut hosts, i32::MIN)?;
    print_log(rt, &hosts)
}
