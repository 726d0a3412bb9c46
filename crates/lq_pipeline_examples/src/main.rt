//! A program over pipes: what they give, how many rows they hand out, and which host predicates they ask. It does what each line of standard input
//! says (`lines`), and prints the line with what came of it; the file `stdout` has what it must print. It ends with 0 where all that it judges itself
//! is right, and with 1 where something isn't.
//!
//! Where its first word is `growths`, it prints nothing, and judges what a refused growth of memory leaves (`sweeps`): it ends with 3 where an act on a
//! pipe was refused one, with 5 where something else was, with 0 where none was, and with 1 where something is wrong.
#![tactic(auto)]

mod acts;
mod answers;
mod company;
mod laziness;
mod lines;
mod queries;
mod runs;
mod staffs;
mod sweeps;
mod traces;

ghost use Rattle.std.specs.Prelude.{◌≡◌};
ghost use Rattle.lq_predicates.specs.ProgramPredicates.{is_leap_year, is_under};

use crate::answers::print_answers;
use crate::sweeps::{Outcome, sweep};
use lq_host::HostSet;
use lq_predicates::{host_set, is_leap_year, is_under};
use std::process::ExitCode;
use std::{env, io};

/// Whether the first word is `growths`.
fn is_sweep(rt: &HostRuntime) -> io::Result<bool> {
    let mut words = env::args(rt)?;
    let _program = words.next();
    match words.next() {
        Some(word) => Ok(word.as_str() == "growths"),
        None => Ok(false),
    }
}

/// The status where memory was refused for something other than an act on a pipe.
const UNMADE: u8 = 5;

fn status_of_answers(answers: Option<bool>) -> u8 {
    match answers {
        Some(true) => 0,
        Some(false) => 1,
        None => UNMADE,
    }
}

fn status_of_sweep(outcome: Outcome) -> u8 {
    match outcome {
        Outcome::Whole => 0,
        Outcome::Wrong => 1,
        Outcome::Refused => 3,
        Outcome::Unmade => UNMADE,
    }
}

/// The status of what a text says, once there are host predicates.
fn status_of_text(rt: &HostRuntime, hosts: &mut HostSet, is_sweep: bool, text: &str) -> u8 {
    if is_sweep {
        status_of_sweep(sweep(rt.alloc(), hosts, text))
    } else {
        status_of_answers(print_answers(rt, hosts, text))
    }
}

/// The status, once there are host predicates.
fn status_with(rt: &HostRuntime, hosts: &mut HostSet) -> io::Result<u8> {
    let is_sweep = is_sweep(rt)?;
    let text = io::read_to_string(rt.alloc(), rt.stdin())?;
    Ok(status_of_text(rt, hosts, is_sweep, text.as_str()))
}

/// The boxes of the predicates are made here, as no function may hand out a box that it made of a closure.
fn status(rt: &HostRuntime) -> io::Result<u8> {
    let alloc = rt.alloc();
    let leaps = |year: i32| -> bool
        ensures { result ≡ is_leap_year year }
    { is_leap_year(year) };
    let less = |first: i32, second: i32| -> bool
        ensures { result ≡ is_under (first, second) }
    { is_under(first, second) };
    let mut hosts = host_set(alloc, Box::new(alloc, leaps)?, Box::new(alloc, less)?)?;
    status_with(rt, &mut hosts)
}

fn main(rt: HostRuntime) -> ExitCode {
    match status(&rt) {
        Ok(status) => ExitCode::from(status),
        Err(_) => ExitCode::from(UNMADE),
    }
}
