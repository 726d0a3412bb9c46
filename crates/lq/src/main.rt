//! The program `lq`: tables and policies from the files that its words name, a script from a file or from standard
//! input, and a reply line for each statement to standard output. It has the host predicates of `lq_predicates`.
#![tactic(auto)]

ghost use Rattle.std.specs.Prelude.{◌≡◌};
ghost use Rattle.lq_predicates.specs.ProgramPredicates.{is_among, is_leap_year, is_under};

use lq_options::{Options, options};
use lq_platform::{Disk, NoFile, report_memory, report_options, report_watch, report_words, words};
use lq_predicates::{
    WatchError, add_watched, host_set, is_among, is_leap_year, is_under, watch_list,
};
use lq_serve::{Device, finish, load, refuse};
use lq_session::Session;
use std::fs::File;
use std::io::Read;
use std::process::ExitCode;
use std::{env, mem};

/// Serves the script from where the options say it is.
fn serve_script(rt: &HostRuntime, options: &Options, session: &mut Session) -> u8 {
    let Some(path) = options.script.as_deref() else {
        return serve_from(rt, options.audit, rt.stdin(), session);
    };
    match File::open(rt, path) {
        Ok(file) => serve_from(rt, options.audit, file, session),
        Err(_) => serve_from(rt, options.audit, NoFile, session),
    }
}

/// Serves the script that a reader has, and prints an audit if one is asked for.
fn serve_from<R: Read + Drop>(
    rt: &HostRuntime,
    audit: bool,
    script: R,
    session: &mut Session,
) -> u8 {
    let mut reader = Device::new(script);
    let mut writer = Device::new(rt.stdout());
    let mut errors = Device::new(rt.stderr());
    finish(
        rt.alloc(),
        audit,
        &mut reader,
        &mut writer,
        &mut errors,
        session,
    )
}

/// Makes the host predicates, loads the tables and the policies, and serves the script. The session isn't taken apart afterwards: the
/// program ends, and the system takes its memory back at once.
///
/// The boxes of the predicates are made here, as no function may hand out a box that it made of a closure.
fn serve_with_hosts(rt: &HostRuntime, options: &Options) -> Result<u8, WatchError> {
    let alloc = rt.alloc();
    let leaps = |year: i32| -> bool
        ensures { result ≡ is_leap_year year }
    { is_leap_year(year) };
    let less = |first: i32, second: i32| -> bool
        ensures { result ≡ is_under (first, second) }
    { is_under(first, second) };
    let mut hosts = host_set(alloc, Box::new(alloc, leaps)?, Box::new(alloc, less)?)?;
    if let Some(list) = options.watch.as_deref() {
        let numbers = watch_list(alloc, list)?;
        let listed = move |number: i32| -> bool
            ensures { result ≡ is_among numbers.items number }
        { is_among(&numbers, number) };
        add_watched(alloc, &mut hosts, list, Box::new(alloc, listed)?)?;
    }
    match load(alloc, options, hosts, &mut Disk::new(rt)) {
        Ok(mut session) => {
            let status = serve_script(rt, options, &mut session);
            mem::forget(session.forget());
            Ok(status)
        }
        Err(error) => Ok(refuse(&error, &mut Device::new(rt.stderr()))),
    }
}

fn serve_options(rt: &HostRuntime, options: &Options) -> u8 {
    match serve_with_hosts(rt, options) {
        Ok(status) => status,
        Err(WatchError::Watch) => report_watch(rt),
        Err(WatchError::Memory) => report_memory(rt),
    }
}

fn status(rt: &HostRuntime) -> u8 {
    let args = match env::args(rt) {
        Ok(args) => args,
        Err(error) => return report_words(rt, &error),
    };
    let Ok(words) = words(rt.alloc(), args) else {
        return report_memory(rt);
    };
    match options(rt.alloc(), &words) {
        Ok(options) => serve_options(rt, &options),
        Err(error) => report_options(rt, &error),
    }
}

fn main(rt: HostRuntime) -> ExitCode {
    ExitCode::from(status(&rt))
}
