//! What is done with pipes: pulls, and drains into what stops at an item or takes all.
ghost use Rattle.lq_pipeline.specs.Pipes.{IsPipe};

use crate::queries::Place;
use crate::traces::{Count, Trace};
use lq_guard::GuardedTree;
use lq_host::HostSet;
use lq_pipeline::{Ctx, Pipe, drain};

/// After how many pulls a pipe of these tests has ended.
const PULLS: u8 = 40;

/// Pulls once, and says whether an item came.
fn pull(pipe: &mut Pipe<'_>, hosts: &mut HostSet, trace: &mut Trace) -> bool
    requires { IsPipe pipe.old }
    ensures { IsPipe pipe.new }
{
    match pipe.next(hosts) {
        Ok(step) => trace.write_step(&step),
        Err(_) => {
            trace.write_refusal();
            false
        }
    }
}

/// Pulls until no item comes, and says whether that was soon enough.
fn pull_often(pipe: &mut Pipe<'_>, hosts: &mut HostSet, trace: &mut Trace) -> bool
    requires { IsPipe pipe.old }
    ensures { IsPipe pipe.new }
{
    for _pull in 0..PULLS {
        if !pull(pipe, hosts, trace) {
            return true;
        }
    }
    false
}

fn pull_all(pipe: &mut Pipe<'_>, hosts: &mut HostSet, trace: &mut Trace)
    requires { IsPipe pipe.old }
    ensures { IsPipe pipe.new }
{
    trace.begin_items(0);
    let has_ended = pull_often(pipe, hosts, trace);
    trace.judge(has_ended);
    trace.end(")");
}

fn drain_some(pipe: &mut Pipe<'_>, hosts: &mut HostSet, trace: &mut Trace, most: usize)
    requires { IsPipe pipe.old }
    ensures { IsPipe pipe.new }
{
    trace.begin_items(most);
    match drain(pipe, hosts, trace) {
        Ok(end) => trace.write_end(end),
        Err(_) => trace.write_refusal(),
    }
    trace.end(")");
}

/// An act on a pipe: a digit drains it into what stops at so many items, a star into what takes all; a p pulls once, and an a pulls to the end. Any other
/// sign does nothing.
fn act(pipe: &mut Pipe<'_>, hosts: &mut HostSet, trace: &mut Trace, sign: u8)
    requires { IsPipe pipe.old }
    ensures { IsPipe pipe.new }
{
    match sign {
        b'1'..=b'9' => drain_some(pipe, hosts, trace, sign.wrapping_sub(b'0') as usize),
        b'*' => drain_some(pipe, hosts, trace, usize::MAX),
        b'a' => pull_all(pipe, hosts, trace),
        b'p' => {
            let _is_item = pull(pipe, hosts, trace);
        }
        _ => {}
    }
}

fn count(pipe: &Pipe<'_>, hosts: &HostSet, trace: &Trace) -> Count {
    Count {
        given: trace.given(),
        refused: trace.refused(),
        handed: pipe.handed(),
        calls: hosts.calls().len(),
    }
}

/// Does an act, judges what it did, and writes how many rows were handed out by then, where that is to be written, and the calls that it made.
fn judged_act(pipe: &mut Pipe<'_>, hosts: &mut HostSet, trace: &mut Trace, sign: u8)
    requires { IsPipe pipe.old }
    ensures { IsPipe pipe.new }
{
    let before = count(pipe, hosts, trace);
    act(pipe, hosts, trace, sign);
    let after = count(pipe, hosts, trace);
    trace.write_count(before, after);
    trace.write_calls(hosts.calls(), before.calls);
}

fn acts(pipe: &mut Pipe<'_>, hosts: &mut HostSet, trace: &mut Trace, signs: &[u8])
    requires { IsPipe pipe.old }
    ensures { IsPipe pipe.new }
{
    for sign in signs {
        judged_act(pipe, hosts, trace, *sign);
    }
}

/// Does acts on a pipe over a tree, one after the other.
pub(crate) fn write_acts(
    place: Place<'_>,
    tree: &GuardedTree,
    hosts: &mut HostSet,
    trace: &mut Trace,
    signs: &[u8],
) {
    let context = Ctx {
        store: place.store,
        policies: place.policies,
        role: place.role,
        hosts,
    };
    let mut pipe = Pipe::open(place.alloc, tree, &context);
    acts(&mut pipe, context.hosts, trace, signs);
}

fn turns(
    first: &mut Pipe<'_>,
    second: &mut Pipe<'_>,
    hosts: &mut HostSet,
    trace: &mut Trace,
    signs: &[u8],
)
    requires first { IsPipe first.old }
    requires second { IsPipe second.old }
{
    for sign in signs {
        judged_act(first, hosts, trace, *sign);
        judged_act(second, hosts, trace, *sign);
    }
}

/// Does each act on two pipes over a tree in turn, which share the log.
pub(crate) fn write_turns(
    place: Place<'_>,
    tree: &GuardedTree,
    hosts: &mut HostSet,
    trace: &mut Trace,
    signs: &[u8],
) {
    let context = Ctx {
        store: place.store,
        policies: place.policies,
        role: place.role,
        hosts,
    };
    let mut first = Pipe::open(place.alloc, tree, &context);
    let mut second = Pipe::open(place.alloc, tree, &context);
    turns(&mut first, &mut second, context.hosts, trace, signs);
}
