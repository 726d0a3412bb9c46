//! What is run whole, as a text in the form of what is pulled or drained.
ghost use Rattle.std.specs.Prelude.{◌≡◌};
ghost use Rattle.lq_security.specs.declared.policy.Action.TheVariants as action;

use crate::queries::Place;
use crate::traces::Trace;
use lq_guard::{GuardedTree, VisibleRow};
use lq_host::HostSet;
use lq_pipeline::{Ctx, run, value};
use lq_value::{End, Value};

fn write_items(trace: &mut Trace, items: &[Value<VisibleRow<'_>>], end: End) {
    trace.begin_items(0);
    for item in items {
        trace.write_item(item);
    }
    trace.write_end(end);
    trace.end(")");
}

fn write_value(trace: &mut Trace, value: &Value<VisibleRow<'_>>) {
    trace.begin_items(0);
    trace.write_item(value);
    trace.write_end(End::Done);
    trace.end(")");
}

/// Writes the items of a tree that is run whole, and how they end.
pub(crate) fn write_run(
    place: Place<'_>,
    tree: &GuardedTree,
    hosts: &mut HostSet,
    trace: &mut Trace,
)
    requires { tree.now.action ≡ action.Select }
{
    let mut context = Ctx {
        store: place.store,
        policies: place.policies,
        role: tree.role,
        hosts,
    };
    match run(place.alloc, tree, &mut context) {
        Ok((items, end)) => write_items(trace, items.as_slice(), end),
        Err(_) => trace.write_refusal(),
    }
}

/// Writes the value of a tree that is run whole as its only item, or its fault.
pub(crate) fn write_whole(
    place: Place<'_>,
    tree: &GuardedTree,
    hosts: &mut HostSet,
    trace: &mut Trace,
)
    requires { tree.now.action ≡ action.Select }
{
    let mut context = Ctx {
        store: place.store,
        policies: place.policies,
        role: tree.role,
        hosts,
    };
    match value(place.alloc, tree, &mut context) {
        Ok(Ok(value)) => write_value(trace, &value),
        Ok(Err(fault)) => write_items(trace, &[], End::Fault(fault)),
        Err(_) => trace.write_refusal(),
    }
}
