//! Each line of standard input, printed with what it comes to.
use crate::company::{Company, make_company, make_staff};
use crate::lines::{Desk, answer, is_for_readers};
use crate::queries::Place;
use crate::staffs::staffs;
use crate::traces::Trace;
use lq_host::HostSet;
use std::{io, mem};

fn print_trace(rt: &HostRuntime, line: &str, trace: &Trace) -> io::Result<()> {
    let answer = trace.as_str();
    if trace.is_right() {
        println!(rt; "{line} => {answer}")
    } else {
        println!(rt; "{line} => {answer}, which is wrong")
    }
}

/// Prints a line with its answer, and says whether that is right.
fn print_answer(rt: &HostRuntime, desk: Desk<'_>, hosts: &mut HostSet, line: &str) -> bool {
    match answer(desk, hosts, line) {
        Some(trace) => print_trace(rt, line, &trace).is_ok() && trace.is_right(),
        None => {
            let _ = println!(rt; "{line} => nothing, which is wrong");
            false
        }
    }
}

fn print_line(rt: &HostRuntime, desk: Desk<'_>, hosts: &mut HostSet, line: &str) -> bool {
    if is_for_readers(line) {
        println!(rt; "{line}").is_ok()
    } else {
        print_answer(rt, desk, hosts, line)
    }
}

fn print_each(rt: &HostRuntime, desk: Desk<'_>, hosts: &mut HostSet, text: &str) -> bool {
    let mut is_right = true;
    for line in text.lines() {
        if !print_line(rt, desk, hosts, line) {
            is_right = false;
        }
    }
    is_right
}

fn print_at(
    rt: &HostRuntime,
    hosts: &mut HostSet,
    places: [Place<'_>; 2],
    text: &str,
) -> Option<bool> {
    let [company, staff] = places;
    let staffs = staffs(rt.alloc())?;
    let desk = Desk {
        company,
        staff,
        staffs: staffs.as_slice(),
    };
    let is_right = print_each(rt, desk, hosts, text);
    mem::forget(staffs);
    Some(is_right)
}

fn print_over(
    rt: &HostRuntime,
    hosts: &mut HostSet,
    company: &Company,
    staff: &Company,
    text: &str,
) -> Option<bool> {
    let places = [company.place(rt.alloc())?, staff.place(rt.alloc())?];
    print_at(rt, hosts, places, text)
}

fn print_with(
    rt: &HostRuntime,
    hosts: &mut HostSet,
    company: &Company,
    text: &str,
) -> Option<bool> {
    let staff = make_staff(rt.alloc(), hosts)?;
    let answers = print_over(rt, hosts, company, &staff, text);
    mem::forget(staff);
    answers
}

/// Prints what each line of a text comes to, and says whether all is right; none where memory was refused before that. The tables aren't taken apart
/// afterwards: the program ends, and the system takes its memory back at once.
pub(crate) fn print_answers(rt: &HostRuntime, hosts: &mut HostSet, text: &str) -> Option<bool> {
    let company = make_company(rt.alloc(), hosts)?;
    let answers = print_with(rt, hosts, &company, text);
    mem::forget(company);
    answers
}
