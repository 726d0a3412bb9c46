//! The program `desk`: tables and policies from the files that its words name, lines from standard input, each answered at once
//! on standard output; the prompt and hints go to standard error. It has the host predicates of `lq_predicates`.
#![tactic(auto)]

ghost use Rattle.std.specs.Prelude.{◌≡◌};
ghost use Rattle.lq_predicates.specs.ProgramPredicates.{is_among, is_leap_year, is_under};

mod terminal;

use lq_options::{Options, desk_options};
use lq_platform::{Disk, report_memory, report_options, report_watch, report_words, words};
use lq_predicates::{
    WatchError, add_watched, host_set, is_among, is_leap_year, is_under, watch_list,
};
use lq_prompt::Desk;
use lq_serve::{Device, load, refuse};
use std::process::ExitCode;
use std::{env, mem};
use terminal::converse_at_terminal;

/// Makes the host predicates, loads the tables and the policies, and answers lines. The desk isn't taken apart after that: the program
/// ends, and the system takes its memory back at once.
///
/// The boxes of the predicates are made here, as no function may hand out a box that it made of a closure.
fn serve_with_hosts(rt: &HostRuntime, options: &Options) -> Result<u8, WatchError> {
    let alloc = rt.alloc();
    let leaps = |year: i32| -> bool
        ensures { result ≡ is_leap_year year }
    { is_leap_year(year) };
    let less = |first: i32, second: i32| -> bool
        ensures { result ≡ is_under (first, second) }
    { is_under(first, second) };
    let mut hosts = host_set(alloc, Box::new(alloc, leaps)?, Box::new(alloc, less)?)?;
    if let Some(list) = options.watch.as_deref() {
        let numbers = watch_list(alloc, list)?;
        let listed = move |number: i32| -> bool
            ensures { result ≡ is_among numbers.items number }
        { is_among(&numbers, number) };
        add_watched(alloc, &mut hosts, list, Box::new(alloc, listed)?)?;
    }
    match load(alloc, options, hosts, &mut Disk::new(rt)) {
        Ok(session) => {
            let mut desk = Desk::new(alloc, session);
            let status = converse_at_terminal(rt, &mut desk);
            mem::forget(desk.into_session().forget());
            Ok(status)
        }
        Err(error) => Ok(refuse(&error, &mut Device::new(rt.stderr()))),
    }
}

fn serve_options(rt: &HostRuntime, options: &Options) -> u8 {
    match serve_with_hosts(rt, options) {
        Ok(status) => status,
        Err(WatchError::Watch) => report_watch(rt),
        Err(WatchError::Memory) => report_memory(rt),
    }
}

fn status(rt: &HostRuntime) -> u8 {
    let args = match env::args(rt) {
        Ok(args) => args,
        Err(error) => return report_words(rt, &error),
    };
    let Ok(words) = words(rt.alloc(), args) else {
        return report_memory(rt);
    };
    match desk_options(rt.alloc(), &words) {
        Ok(options) => serve_options(rt, &Options::from(options)),
        Err(error) => report_options(rt, &error),
    }
}

fn main(rt: HostRuntime) -> ExitCode {
    ExitCode::from(status(&rt))
}
