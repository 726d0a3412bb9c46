//! What the lines of standard input say. Empty lines and those that begin with a # are for readers; each other has a command, a word for it, and a query:
//!
//! - `rows ACTS QUERY` does acts (`acts`) on a pipe over the query, and writes behind each how many rows the pipe has handed out by then; `turns ACTS
//!   QUERY` does each act on two pipes in turn, which share a log; and `acts ACTS QUERY` does what `rows` does, and doesn't write how many rows;
//! - `run ACTS QUERY` runs the query whole, and does acts on a pipe, which have to come to the same; `value ACTS QUERY` does so with its value;
//! - `lazy STOP SHAPE` pulls each query of a shape over each table of numbered employees (`laziness`).
//!
//! Behind what an act or a run comes to are the calls that it made.
ghost use Rattle.std.specs.Prelude.{◌≡◌};
ghost use Rattle.lq_security.specs.declared.policy.Action.TheVariants as action;

use crate::acts::{write_acts, write_turns};
use crate::laziness::write_lazy;
use crate::queries::{Place, guarded};
use crate::runs::{write_run, write_whole};
use crate::staffs::Staff;
use crate::traces::Trace;
use lq_guard::GuardedTree;
use lq_host::HostSet;

/// What is there to be queried.
#[derive(Clone, Copy)]
pub(crate) struct Desk<'a> {
    /// The company.
    pub(crate) company: Place<'a>,
    /// A table of no employees, with the columns and the policies of those of numbered employees.
    pub(crate) staff: Place<'a>,
    /// The tables of numbered employees.
    pub(crate) staffs: &'a [Staff],
}

/// A line, in its parts.
#[derive(Clone, Copy)]
struct Line<'l> {
    command: &'l str,
    word: &'l str,
    query: &'l str,
}

/// Whether a line says nothing.
pub(crate) fn is_for_readers(line: &str) -> bool {
    line.is_empty() || line.starts_with('#')
}

fn line_of(text: &str) -> Option<Line<'_>> {
    let (command, rest) = text.split_once(' ')?;
    let (word, query) = rest.split_once(' ')?;
    Some(Line {
        command,
        word,
        query,
    })
}

/// The acts of a line on pipes over its tree.
fn acts_on(place: Place<'_>, hosts: &mut HostSet, line: Line<'_>, tree: &GuardedTree) -> Trace {
    let shows_rows = line.command == "rows" || line.command == "turns";
    let mut trace = Trace::new(place.alloc, shows_rows, None);
    let signs = line.word.as_bytes();
    if line.command == "turns" {
        write_turns(place, tree, hosts, &mut trace, signs);
    } else {
        write_acts(place, tree, hosts, &mut trace, signs);
    }
    trace
}

fn acts_done(place: Place<'_>, hosts: &mut HostSet, line: Line<'_>) -> Option<Trace> {
    let tree = guarded(place, line.query)?;
    Some(acts_on(place, hosts, line, &tree))
}

/// The items of a tree that is run whole, or its value, and the calls that were made.
fn run_of(place: Place<'_>, hosts: &mut HostSet, is_value: bool, tree: &GuardedTree) -> Trace
    requires { tree.now.action ≡ action.Select }
{
    let mut trace = Trace::new(place.alloc, false, None);
    let before = hosts.calls().len();
    if is_value {
        write_whole(place, tree, hosts, &mut trace);
    } else {
        write_run(place, tree, hosts, &mut trace);
    }
    trace.write_calls(hosts.calls(), before);
    trace
}

fn whole(place: Place<'_>, hosts: &mut HostSet, line: Line<'_>) -> Option<Trace> {
    let tree = guarded(place, line.query)?;
    Some(run_of(place, hosts, line.command == "value", &tree))
}

/// What is run whole, which has to be what the acts come to.
fn both(place: Place<'_>, hosts: &mut HostSet, line: Line<'_>) -> Option<Trace> {
    let mut whole = whole(place, hosts, line)?;
    let pulled = acts_done(place, hosts, line)?;
    whole.judge(pulled.is_right() && pulled.as_str() == whole.as_str());
    Some(whole)
}

fn lazy(desk: Desk<'_>, hosts: &mut HostSet, line: Line<'_>) -> Option<Trace> {
    let mut trace = Trace::new(desk.staff.alloc, false, None);
    let shape = (line.word, line.query);
    write_lazy(desk.staff, hosts, desk.staffs, &mut trace, shape)?;
    Some(trace)
}

/// What a line comes to; none where it says nothing that is known, or memory was refused before anything was pulled.
pub(crate) fn answer(desk: Desk<'_>, hosts: &mut HostSet, text: &str) -> Option<Trace> {
    let line = line_of(text)?;
    match line.command {
        "rows" | "acts" | "turns" => acts_done(desk.company, hosts, line),
        "run" | "value" => both(desk.company, hosts, line),
        "lazy" => lazy(desk, hosts, line),
        _ => None,
    }
}
