//! What a refused growth of memory leaves. Each line is done twice: where one of the two is refused a growth, it has to be a front of the other, in what it
//! gives and in its calls, and each later act has to be refused too and to change nothing.
use crate::company::make_company;
use crate::lines::{Desk, answer, is_for_readers};
use crate::queries::Place;
use crate::traces::Trace;
use lq_host::{Call, HostSet};
use std::alloc::Global;
use std::mem;

/// What two runs of a line show.
#[derive(Clone, Copy, PartialEq)]
pub(crate) enum Outcome {
    /// No growth was refused, and both came to the same.
    Whole,
    /// An act was refused a growth, and so was each later one.
    Refused,
    /// A growth was refused that was for no act: for tables, policies, a query, or a text.
    Unmade,
    /// Something that may not be.
    Wrong,
}

/// Whether this is a front of another trace with its calls, and all of it where nothing was refused.
fn is_front((front, fewer): (&Trace, &[Call]), (whole, calls): (&Trace, &[Call])) -> bool {
    let is_all = fewer.len() == calls.len();
    front.is_front_of(whole) && calls.starts_with(fewer) && (is_all || front.refused() > 0)
}

fn outcome_of(first: (&Trace, &[Call]), second: (&Trace, &[Call])) -> Outcome {
    if first.0.is_cut() || second.0.is_cut() {
        return Outcome::Unmade;
    }
    let are_right = first.0.is_right() && second.0.is_right();
    if first.0.refused() > 0 {
        Outcome::of(are_right && is_front(first, second), true)
    } else {
        Outcome::of(are_right && is_front(second, first), second.0.refused() > 0)
    }
}

impl Outcome {
    fn of(is_right: bool, is_refused: bool) -> Outcome {
        if !is_right {
            Outcome::Wrong
        } else if is_refused {
            Outcome::Refused
        } else {
            Outcome::Whole
        }
    }

    /// What two lines come to, one after the other.
    fn and(self, next: Outcome) -> Outcome {
        if self == Outcome::Whole || next == Outcome::Wrong {
            next
        } else {
            self
        }
    }
}

/// The outcome of a line that was done twice, where the log had so many calls before, and so many between.
fn compared(
    first: &Trace,
    second: &Trace,
    calls: &[Call],
    (before, between): (usize, usize),
) -> Outcome {
    match (calls.get(before..between), calls.get(between..)) {
        (Some(early), Some(late)) => outcome_of((first, early), (second, late)),
        _ => Outcome::Wrong,
    }
}

fn outcome_of_line(desk: Desk<'_>, hosts: &mut HostSet, line: &str) -> Outcome {
    let before = hosts.calls().len();
    let first = answer(desk, hosts, line);
    let between = hosts.calls().len();
    let second = answer(desk, hosts, line);
    match (&first, &second) {
        (Some(first), Some(second)) => compared(first, second, hosts.calls(), (before, between)),
        _ => Outcome::Unmade,
    }
}

fn outcome_of_all(desk: Desk<'_>, hosts: &mut HostSet, text: &str) -> Outcome {
    let mut all = Outcome::Whole;
    for line in text.lines() {
        if !is_for_readers(line) {
            all = all.and(outcome_of_line(desk, hosts, line));
        }
    }
    all
}

fn outcome_at(place: Option<Place<'_>>, hosts: &mut HostSet, text: &str) -> Outcome {
    match place {
        Some(place) => {
            let desk = Desk {
                company: place,
                staff: place,
                staffs: &[],
            };
            outcome_of_all(desk, hosts, text)
        }
        None => Outcome::Unmade,
    }
}

/// What all lines of a text come to, which are queries of the company.
pub(crate) fn sweep(alloc: Global, hosts: &mut HostSet, text: &str) -> Outcome {
    match make_company(alloc, hosts) {
        Some(company) => {
            let all = outcome_at(company.place(alloc), hosts, text);
            mem::forget(company);
            all
        }
        None => Outcome::Unmade,
    }
}
