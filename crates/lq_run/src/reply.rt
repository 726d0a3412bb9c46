//! The line of a tree's reply.
ghost use Rattle.std.specs.Prelude.{◌≡◌, [], IfOk, true};
ghost use Rattle.lq_value.specs.declared.ty.Ty.{out-Ty};
ghost use Rattle.lq_language.specs.OperandMeaning.{stream_of};
ghost use Rattle.lq_language.specs.Types.{has_place};
ghost use Rattle.lq_language.specs.ValuesOfTypes.{Every};
ghost use Rattle.lq_store.specs.Rules.{IsTable};
ghost use Rattle.lq_machine.specs.States.{cells_of, schemas_of};
ghost use Rattle.lq_machine.specs.Served.{line_of, stream_data, value_data};
ghost use Rattle.lq_tree.specs.AllowedCalls.{AddsOwnCalls};
ghost use Rattle.lq_tree.specs.FormMeaning.{form_meaning};
ghost use Rattle.lq_pull.specs.Views.{row_facts, sight_of, world_seen};
ghost use Rattle.lq_run.specs.TreeReply.{tree_data};

use lq_guard::VisibleRow;
use lq_host::{Asks, Log};
use lq_json::{Items, Line, Reply, reply_line};
use lq_pull::{View, drain_seen, value_seen};
use lq_tree::{Tree, ty};
use lq_use::Use;
use lq_value::Ty;
use std::alloc::{AllocError, Global};

/// The line of a sequence, whose items are of this type.
// Each is written as it is pulled, since a list of all of them would take more memory than the line.
fn items_line<H: Asks>(
    alloc: Global,
    item: &Ty,
    tree: &Tree,
    used: &[Use],
    view: &View<'_>,
    hosts: &H,
    log: &mut Log<H>,
) -> Result<Line, AllocError>
    ensures calls { AddsOwnCalls (world_seen (sight_of view.now) (H.known hosts.now)) row_facts
        tree.now.form [] log.old log.new }
    ensures line { IfOk result (λ line. line
        ≡ line_of (stream_data (schemas_of view.now.store.now) cells_of item.now
        (stream_of (world_seen (sight_of view.now) (H.known hosts.now))
        (form_meaning (world_seen (sight_of view.now) (H.known hosts.now)) tree.now.form [])))) }
    ensures rules { IfOk result (λ line. Every IsTable view.now.store.now) }
{
    let mut items = Items::new(alloc, item, view.store);
    let end = drain_seen::<H, Items<'_>>(alloc, tree, used, view, hosts, log, &mut items)?;
    let line = items.finish(end)?;
    Ok(line)
}

/// The line of a value that isn't a sequence.
fn value_line<H: Asks>(
    alloc: Global,
    tree: &Tree,
    used: &[Use],
    view: &View<'_>,
    hosts: &H,
    log: &mut Log<H>,
) -> Result<Line, AllocError>
    ensures calls { AddsOwnCalls (world_seen (sight_of view.now) (H.known hosts.now)) row_facts
        tree.now.form [] log.old log.new }
    ensures line { IfOk result (λ line. line
        ≡ line_of (value_data (schemas_of view.now.store.now) cells_of tree.now.ty
        (form_meaning (world_seen (sight_of view.now) (H.known hosts.now)) tree.now.form []))) }
    ensures rules { IfOk result (λ line. Every IsTable view.now.store.now) }
{
    match value_seen(alloc, tree, used, view, hosts, log)? {
        Ok(value) => {
            let reply = Reply::Value {
                store: view.store,
                ty: ty(tree),
                value: &value,
            };
            reply_line(alloc, &reply)
        }
        Err(fault) => {
            let reply: Reply<'_, VisibleRow<'_>> = Reply::Fault(fault);
            reply_line(alloc, &reply)
        }
    }
}

/// The line of the reply of a tree that uses this and that isn't null by its type, over the tables as a role sees them and by what these
/// host predicates answer.
pub(crate) fn tree_line<H: Asks>(
    alloc: Global,
    tree: &Tree,
    used: &[Use],
    view: &View<'_>,
    hosts: &H,
    log: &mut Log<H>,
) -> Result<Line, AllocError>
    requires { has_place (out-Ty tree.now.ty) ≡ true }
    ensures calls { AddsOwnCalls (world_seen (sight_of view.now) (H.known hosts.now)) row_facts
        tree.now.form [] log.old log.new }
    ensures line { IfOk result (λ line. line
        ≡ line_of (tree_data cells_of (schemas_of view.now.store.now)
        (world_seen (sight_of view.now) (H.known hosts.now)) tree.now)) }
    ensures rules { IfOk result (λ line. Every IsTable view.now.store.now) }
{
    match ty(tree) {
        Ty::Null => unreachable!(),
        Ty::Seq(item) => items_line(alloc, item.get(), tree, used, view, hosts, log),
        _ => value_line(alloc, tree, used, view, hosts, log),
    }
}
