//! How many rows each straight query hands out, over tables of up to six rows of which any are hidden, against a count by plain search.
use crate::acts::write_acts;
use crate::queries::{Place, guarded};
use crate::staffs::Staff;
use crate::traces::Trace;
use lq_guard::GuardedTree;
use lq_host::HostSet;
use std::alloc::Global;

/// What a query stops at, where it has a number.
#[derive(Clone, Copy)]
enum Stop {
    /// The first item.
    First,
    /// The row of the number.
    Same,
    /// The item at the place that is the number.
    Place,
    /// So many items.
    Many,
    /// The first row above the number.
    Above,
    /// The second by whose number, less this one, 10 has a quotient above 0; or the row of the number itself, which is a fault.
    Quotients,
}

impl Stop {
    fn of(word: &str) -> Option<Stop> {
        match word {
            "first" => Some(Stop::First),
            "same" => Some(Stop::Same),
            "place" => Some(Stop::Place),
            "many" => Some(Stop::Many),
            "above" => Some(Stop::Above),
            "quotients" => Some(Stop::Quotients),
            _ => None,
        }
    }

    /// How many steps a row goes towards the end of the query.
    fn steps(self, number: i32, id: i32) -> i32 {
        match self {
            Stop::First | Stop::Place | Stop::Many => 1,
            Stop::Same => (id == number) as i32,
            Stop::Above => (id > number) as i32,
            Stop::Quotients => match 10i32.checked_div(id.saturating_sub(number)) {
                Some(quotient) => (quotient > 0) as i32,
                None => 2,
            },
        }
    }

    /// How many steps there are.
    fn distance(self, number: i32) -> i32 {
        match self {
            Stop::First | Stop::Same | Stop::Above => 1,
            Stop::Place => number.saturating_add(1),
            Stop::Many => number,
            Stop::Quotients => 2,
        }
    }

    /// How many of these rows a query with this number hands out.
    fn needed(self, number: i32, visible: &[i32]) -> u64 {
        let mut handed: u64 = 0;
        let mut gone: i32 = 0;
        for id in visible {
            if gone >= self.distance(number) {
                break;
            }
            handed = handed.saturating_add(1);
            gone = gone.saturating_add(self.steps(number, *id));
        }
        handed
    }
}

/// What was found of pipes: how many there were, and how many rows they handed out.
#[derive(Clone, Copy)]
struct Tally {
    pipes: u64,
    rows: u64,
    is_right: bool,
}

impl Tally {
    /// One pipe more, which handed out so many rows, if it did what it should.
    fn add(&mut self, rows: u64, is_right: bool) {
        self.pipes = self.pipes.saturating_add(1);
        self.rows = self.rows.saturating_add(rows);
        self.is_right &= is_right;
    }
}

/// Whether a pipe over a tree hands out so many rows up to its end, and no more behind it.
fn is_lazy(place: Place<'_>, tree: &GuardedTree, hosts: &mut HostSet, needed: u64) -> bool {
    let mut trace = Trace::new(place.alloc, false, Some(needed));
    write_acts(place, tree, hosts, &mut trace, b"ap");
    trace.is_right() && trace.refused() == 0
}

/// A query over each of the tables, for which the policies are all the same.
fn tally_tree(
    place: Place<'_>,
    hosts: &mut HostSet,
    staffs: &[Staff],
    tree: &GuardedTree,
    (stop, number): (Stop, i32),
    tally: &mut Tally,
) {
    for Staff { store, visible } in staffs {
        let needed = stop.needed(number, visible.as_slice());
        let place = Place { store, ..place };
        tally.add(needed, is_lazy(place, tree, hosts, needed));
    }
}

/// The text of a query of this source, with the number in it.
fn text_of(alloc: Global, source: &str, shape: &str, number: i32) -> Option<String> {
    match shape.split_once('#') {
        Some((before, behind)) => format!(in alloc; "{source}{before}{number}{behind}").ok(),
        None => format!(in alloc; "{source}{shape}").ok(),
    }
}

fn tree_of(place: Place<'_>, source: &str, shape: &str, number: i32) -> Option<GuardedTree> {
    let text = text_of(place.alloc, source, shape, number)?;
    guarded(place, text.as_str())
}

fn write_tally(trace: &mut Trace, source: &str, tally: &Tally) {
    trace.write_word(source);
    trace.write(" ");
    trace.write_number(tally.rows);
    trace.write("/");
    trace.write_number(tally.pipes);
    trace.judge(tally.is_right);
}

/// Pipes over queries of this source with each number, over each of the tables.
fn tally_shape(
    place: Place<'_>,
    hosts: &mut HostSet,
    staffs: &[Staff],
    source: &str,
    shape: (Stop, &str),
) -> Option<Tally> {
    let mut tally = Tally {
        pipes: 0,
        rows: 0,
        is_right: true,
    };
    for number in -1..=7i32 {
        let tree = tree_of(place, source, shape.1, number)?;
        tally_tree(place, hosts, staffs, &tree, (shape.0, number), &mut tally);
    }
    Some(tally)
}

/// Writes how many rows the pipes handed out, and how many pipes there were: over the table, and over the query `some`, which is all of the table.
pub(crate) fn write_lazy(
    place: Place<'_>,
    hosts: &mut HostSet,
    staffs: &[Staff],
    trace: &mut Trace,
    (word, shape): (&str, &str),
) -> Option<()> {
    let stop = Stop::of(word)?;
    for source in &["employees", "some"] {
        let tally = tally_shape(place, hosts, staffs, source, (stop, shape))?;
        write_tally(trace, source, &tally);
    }
    Some(())
}
