//! A program that calls sets of host predicates, and prints what they answer: to additions, of which some are refused, and to numbers in
//! the range of a predicate and outside of it. No command line of `lq` shows these calls. The file `stdout` has what they answer.
#![tactic(auto)]

mod additions;
mod calls;

use additions::print_additions;
use calls::print_calls;
use std::io;
use std::process::ExitCode;

fn print_all(rt: &HostRuntime) -> io::Result<()> {
    print_additions(rt)?;
    print_calls(rt)
}

fn main(rt: HostRuntime) -> ExitCode {
    match print_all(&rt) {
        Ok(()) => ExitCode::SUCCESS,
        Err(_) => ExitCode::FAILURE,
    }
}
