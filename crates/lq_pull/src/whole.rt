//! What typed trees mean over the tables that a role sees, run to their ends.
ghost use Rattle.std.specs.Prelude.{◌≡◌, [], IfOk};
ghost use Rattle.lq_language.specs.OperandMeaning.{stream_of};
ghost use Rattle.lq_language.specs.ValuesOfTypes.{Every};
ghost use Rattle.lq_store.specs.Rules.{IsTable};
ghost use Rattle.lq_tree.specs.AllowedCalls.{AddsOwnCalls};
ghost use Rattle.lq_tree.specs.FormMeaning.{form_meaning};
ghost use Rattle.lq_sink.specs.Draining.{Drains};
ghost use Rattle.lq_pull.specs.Evaluations.{Finds};
ghost use Rattle.lq_pull.specs.Views.{row_facts, sight_of, world_seen};

use crate::preparing::prepare_for;
use crate::readers::Reader;
use crate::tables::with_rows;
use crate::views::View;
use lq_guard::VisibleRow;
use lq_host::{Asks, Log};
use lq_pipe::{RunError, drain, run, value};
use lq_policy::Use;
use lq_sink::Sink;
use lq_tree::Tree;
use lq_value::{End, Fault, List, Value};
use std::alloc::{AllocError, Global};

/// A value or its fault, apart from a refusal of memory.
fn found<R>(answer: Result<Value<R>, RunError>) -> Result<Result<Value<R>, Fault>, AllocError>
    ensures { Finds answer result }
{
    match answer {
        Ok(value) => Ok(Ok(value)),
        Err(RunError::Fault(fault)) => Ok(Err(fault)),
        Err(RunError::Memory) => Err(AllocError),
    }
}

/// The value of a typed tree over the tables as a role sees them and by what these host predicates answer, or its first fault (ECMA-334,
/// expressions; .NET, `Enumerable`). What the tree uses says which tables are read: any list is right, and one that names each table as
/// often as the tree does is fast. Refused where no memory was left.
pub fn value_seen<'a, H: Asks>(
    alloc: Global,
    tree: &Tree,
    used: &[Use],
    view: &View<'a>,
    hosts: &H,
    log: &mut Log<H>,
) -> Result<Result<Value<VisibleRow<'a>>, Fault>, AllocError>
    ensures calls { AddsOwnCalls (world_seen (sight_of view.now) (H.known hosts.now)) row_facts
        tree.now.form [] log.old log.new }
    ensures meant { IfOk result (λ found. found
        ≡ form_meaning (world_seen (sight_of view.now) (H.known hosts.now)) tree.now.form []) }
    ensures rules { IfOk result (λ found. Every IsTable view.now.store.now) }
{
    let prepared = prepare_for(alloc, view, tree, used)?;
    let tables = with_rows(alloc, view, prepared.as_slice())?;
    found(value::<VisibleRow<'_>, Reader<'_, '_>, H>(alloc, tree, tables.as_slice(), hosts, log))
}

/// The items of a typed tree over the tables as a role sees them and by what these host predicates answer, and how they end: a fault that
/// is met in making them is their ending. What the tree uses says which tables are read, as for `value_seen`. Refused where no memory was
/// left.
pub fn items_seen<'a, H: Asks>(
    alloc: Global,
    tree: &Tree,
    used: &[Use],
    view: &View<'a>,
    hosts: &H,
    log: &mut Log<H>,
) -> Result<(List<Value<VisibleRow<'a>>>, End), AllocError>
    ensures calls { AddsOwnCalls (world_seen (sight_of view.now) (H.known hosts.now)) row_facts
        tree.now.form [] log.old log.new }
    ensures meant { IfOk result (λ found. found
        ≡ stream_of (world_seen (sight_of view.now) (H.known hosts.now))
        (form_meaning (world_seen (sight_of view.now) (H.known hosts.now)) tree.now.form [])) }
    ensures rules { IfOk result (λ found. Every IsTable view.now.store.now) }
{
    let prepared = prepare_for(alloc, view, tree, used)?;
    let tables = with_rows(alloc, view, prepared.as_slice())?;
    run::<VisibleRow<'_>, Reader<'_, '_>, H>(alloc, tree, tables.as_slice(), hosts, log)
}

/// Gives the items of a typed tree over the tables as a role sees them, and by what these host predicates answer, to a sink, one by one and in
/// order, until the sink stops, as `lq_pipe::drain` does. Returns how the items end, as for `items_seen`; after a stop they are done. Refused
/// where no memory was left.
pub fn drain_seen<'a, H: Asks, K: Sink<VisibleRow<'a>>>(
    alloc: Global,
    tree: &Tree,
    used: &[Use],
    view: &View<'a>,
    hosts: &H,
    log: &mut Log<H>,
    sink: &mut K,
) -> Result<End, AllocError>
    ensures calls { AddsOwnCalls (world_seen (sight_of view.now) (H.known hosts.now)) row_facts
        tree.now.form [] log.old log.new }
    ensures meant { IfOk result (λ end. Drains K.takes
        (stream_of (world_seen (sight_of view.now) (H.known hosts.now))
        (form_meaning (world_seen (sight_of view.now) (H.known hosts.now)) tree.now.form [])).0
        (stream_of (world_seen (sight_of view.now) (H.known hosts.now))
        (form_meaning (world_seen (sight_of view.now) (H.known hosts.now)) tree.now.form [])).1
        sink.old end sink.new) }
    ensures rules { IfOk result (λ end. Every IsTable view.now.store.now) }
{
    let prepared = prepare_for(alloc, view, tree, used)?;
    let tables = with_rows(alloc, view, prepared.as_slice())?;
    drain::<VisibleRow<'_>, Reader<'_, '_>, H, K>(alloc, tree, tables.as_slice(), hosts, log, sink)
}
