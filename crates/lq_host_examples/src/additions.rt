//! Additions to a set of host predicates.
ghost use Rattle.std.specs.Prelude.{◌≡◌, ℤ, true};
ghost use Rattle.std.specs.Ordering.{int_cmp};
ghost use Rattle.lq_host.specs.AcceptedSets.{Accepted, is_within};

use lq_host::{HostError, HostPredicate, HostSet};
use std::alloc::{AllocError, Global};
use std::io;

/// The names of predicates are the first letters of this.
const LETTERS: &str = "aaaaaaaaaaaaaaaaaaaaaaaaaaaaaaaaaaaaaaaaaaaaaaaaaaaaaaaaaaaaaaaaaaaaaa";

/// The additions to a set, one after another: how many letters the name has, and the range.
fn addition(step: usize) -> (usize, (i32, i32)) {
    match step {
        0 => (1, (5, 4)),
        1..=64 => (step, (5, 5)),
        65 => (64, (1, 9)),
        _ => (65, (1, 9)),
    }
}

/// Whether a set of no other predicates takes one, and finds it by this name.
fn has_name(alloc: Global, predicate: HostPredicate, name: &str) -> bool {
    let mut hosts = HostSet::new(alloc);
    hosts.add(predicate).is_ok() && hosts.find(name) == Some(0)
}

/// What adding a predicate of a name answers, and where it is handed back, whether it has its name.
fn add_predicate(
    alloc: Global,
    hosts: &mut HostSet,
    name: &str,
    range: (i32, i32),
    test: Box<dyn Fn(i32) -> bool>,
) -> Result<Result<u16, (HostError, bool)>, AllocError>
    requires callable { (x : ℤ) → is_within range x ≡ true → pre test x }
    requires accepted { Accepted int_cmp (is_within range) (λ x answer. post test x answer) }
{
    let of_name = String::from_str(alloc, name)?;
    let predicate = match HostPredicate::new(of_name, range.0, range.1, test) {
        Ok(predicate) => predicate,
        Err(error) => return Ok(Err((error, false))),
    };
    match hosts.add(predicate) {
        Ok(number) => Ok(Ok(number)),
        Err((error, back)) => Ok(Err((error, has_name(alloc, back, name)))),
    }
}

/// Prints what each addition to a set answers.
pub(crate) fn print_additions(rt: &HostRuntime) -> io::Result<()> {
    let mut hosts = HostSet::new(rt.alloc());
    for step in 0..67 {
        let (letters, range) = addition(step);
        let name = LETTERS.get(..letters).unwrap_or("");
        let any = |_number: i32| -> bool
            ensures { result ≡ true }
        { true };
        let test = Box::new(rt.alloc(), any)?;
        match add_predicate(rt.alloc(), &mut hosts, name, range, test)? {
            Ok(number) => println!(rt; "{name}: number {number}")?,
            Err((error, true)) => println!(rt; "{name}: {error}, and handed back")?,
            Err((error, false)) => println!(rt; "{name}: {error}")?,
        }
    }
    Ok(())
}
