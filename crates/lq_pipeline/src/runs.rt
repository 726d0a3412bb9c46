//! The value and the items of a guarded tree: what is pulled of it.
//!
//! A pipe gives a value that is no sequence as its only item, so it can't tell one from a sequence of one item. The form of a tree says which of the
//! two it means; where it doesn't, as for the first of sequences, the tree is run as a whole.
ghost use Rattle.std.specs.Prelude.{◌≡◌, IfOk, true};
ghost use Rattle.lq_language.specs.OperandMeaning.{stream_of};
ghost use Rattle.lq_tree.specs.declared.tree.Form.{out-Form};
ghost use Rattle.lq_pipeline.specs.Answers.{gives_scalar, gives_truth, is_scalar_form, is_sequence_form};
ghost use Rattle.lq_pipeline.specs.Contexts.{IsGuardedForSelect, guarded_value, hosts_in, sight_in};
ghost use Rattle.lq_pipeline.specs.Evaluations.{AddsCallsSeen};
ghost use Rattle.lq_pull.specs.Views.{world_seen};

use crate::context::{Ctx, whole_items, whole_value};
use crate::draining::drain;
use crate::pipes::Pipe;
use crate::steps::Step;
use lq_guard::{GuardedTree, VisibleRow};
use lq_language::{Given, Simple};
use lq_sink::{Flow, Sink};
use lq_tree::Form;
use lq_value::{End, Fault, List, Value};
use std::alloc::{AllocError, Global};

/// Whether a form is one that means a sequence, or a fault.
fn is_sequence(form: &Form) -> bool
    ensures { result ≡ is_sequence_form (out-Form form.now) }
{
    match form {
        Form::Table(_) | Form::Sequence(_) => true,
        Form::Where(_, _) | Form::Select(_, _) | Form::SelectMany(_, _, _) => true,
        Form::Join(_, _) | Form::OrderBy(_, _) | Form::GroupBy(_, _, _) => true,
        _ => false,
    }
}

/// Whether a method gives a number or a truth value.
fn gives_scalar(method: Simple) -> bool
    ensures { result ≡ gives_scalar method }
{
    match method {
        Simple::Any | Simple::Count | Simple::Sum | Simple::Min | Simple::Max => true,
        Simple::Distinct | Simple::Reverse | Simple::DefaultIfEmpty => false,
        Simple::First | Simple::FirstOrDefault | Simple::Last => false,
        Simple::Single | Simple::SingleOrDefault => false,
    }
}

/// Whether a method with an argument gives a truth value.
fn gives_truth(method: Given) -> bool
    ensures { result ≡ gives_truth method }
{
    match method {
        Given::Contains => true,
        Given::Concat | Given::Union | Given::Intersect | Given::Except => false,
        Given::Skip | Given::Take | Given::ElementAt => false,
    }
}

/// Whether a form is one that means one value, or a fault.
fn is_scalar(form: &Form) -> bool
    ensures { result ≡ is_scalar_form (out-Form form.now) }
{
    match form {
        Form::Simple(method, _, _) => gives_scalar(*method),
        Form::Given(method, _, _) => gives_truth(*method),
        Form::All(_, _) => true,
        _ => false,
    }
}

/// Keeps the items that it takes. It stops where a growth is refused.
#[derive(Drop)]
struct Keeper<'a> {
    items: List<Value<VisibleRow<'a>>>,
    is_refused: bool,
}

impl<'a> Sink<VisibleRow<'a>> for Keeper<'a> {
    ghost use Rattle.lq_pipeline.specs.Keeping.{Keeps};

    ghost takes = { λ old x said new. Keeps old x said new };

    fn take(&mut self, item: Value<VisibleRow<'a>>) -> Flow
        ensures { Keeps self.old item.entry result self.new }
    {
        match self.items.push(item) {
            Ok(()) => Flow::Go,
            Err(_) => {
                self.is_refused = true;
                Flow::Stop
            }
        }
    }
}

/// The items of a tree whose form says that it means a sequence: what a drain of its pipe gives.
fn drained_items<'a>(
    alloc: Global,
    tree: &'a GuardedTree,
    context: &mut Ctx<'a>,
) -> Result<(List<Value<VisibleRow<'a>>>, End), AllocError>
    requires guarded { IsGuardedForSelect (sight_in context.old) tree.now }
    requires sequence { is_sequence_form (out-Form tree.now.tree.form) ≡ true }
    ensures meant { IfOk result (λ found. found
        ≡ stream_of (world_seen (sight_in context.old) (hosts_in context.old).predicates)
        (guarded_value (sight_in context.old) (hosts_in context.old) tree.now)) }
    ensures calls { AddsCallsSeen (sight_in context.old) tree.now.tree.form
        (hosts_in context.old).predicates
        (hosts_in context.old).calls (hosts_in context.new).calls }
    ensures predicates { (hosts_in context.new).predicates ≡ (hosts_in context.old).predicates }
    ensures place { sight_in context.new ≡ sight_in context.old }
    ensures same_set { context.new.hosts.ghost_name ≡ context.old.hosts.ghost_name }
{
    let mut pipe = Pipe::open(alloc, tree, context);
    let mut keeper = Keeper {
        items: List::new(alloc),
        is_refused: false,
    };
    let end = drain(&mut pipe, &mut *context.hosts, &mut keeper)?;
    if keeper.is_refused {
        Err(AllocError)
    } else {
        Ok((keeper.items, end))
    }
}

/// The value of a tree whose form says that it means one: what the first pull gives.
fn pulled_value<'a>(
    alloc: Global,
    tree: &'a GuardedTree,
    context: &mut Ctx<'a>,
) -> Result<Result<Value<VisibleRow<'a>>, Fault>, AllocError>
    requires guarded { IsGuardedForSelect (sight_in context.old) tree.now }
    requires scalar { is_scalar_form (out-Form tree.now.tree.form) ≡ true }
    ensures meant { IfOk result (λ found. found
        ≡ guarded_value (sight_in context.old) (hosts_in context.old) tree.now) }
    ensures calls { AddsCallsSeen (sight_in context.old) tree.now.tree.form
        (hosts_in context.old).predicates
        (hosts_in context.old).calls (hosts_in context.new).calls }
    ensures predicates { (hosts_in context.new).predicates ≡ (hosts_in context.old).predicates }
    ensures place { sight_in context.new ≡ sight_in context.old }
    ensures same_set { context.new.hosts.ghost_name ≡ context.old.hosts.ghost_name }
{
    let mut pipe = Pipe::open(alloc, tree, context);
    match pipe.next(&mut *context.hosts) {
        Ok(Step::Item(value)) => Ok(Ok(value)),
        Ok(Step::Fault(fault)) => Ok(Err(fault)),
        Ok(Step::Done) => unreachable!(),
        Err(error) => Err(error),
    }
}

/// The value of a tree that is guarded for select, over these tables, policies and host predicates, or its first fault (ECMA-334,
/// expressions; .NET, `Enumerable`): each leaf of the tree means the rows of its table that the role sees. Refused where no memory was
/// left.
pub fn value<'a>(
    alloc: Global,
    tree: &'a GuardedTree,
    context: &mut Ctx<'a>,
) -> Result<Result<Value<VisibleRow<'a>>, Fault>, AllocError>
    requires { IsGuardedForSelect (sight_in context.old) tree.now }
    ensures meant { IfOk result (λ found. found
        ≡ guarded_value (sight_in context.old) (hosts_in context.old) tree.now) }
    ensures calls { AddsCallsSeen (sight_in context.old) tree.now.tree.form
        (hosts_in context.old).predicates
        (hosts_in context.old).calls (hosts_in context.new).calls }
    ensures predicates { (hosts_in context.new).predicates ≡ (hosts_in context.old).predicates }
    ensures place { sight_in context.new ≡ sight_in context.old }
    ensures same_set { context.new.hosts.ghost_name ≡ context.old.hosts.ghost_name }
{
    if is_scalar(tree.tree.form.get()) {
        pulled_value(alloc, tree, context)
    } else {
        whole_value(alloc, tree, context)
    }
}

/// The items of a tree that is guarded for select, and how they end, as `value` finds them: a fault that is met in making them is their
/// ending. Refused where no memory was left.
pub fn run<'a>(
    alloc: Global,
    tree: &'a GuardedTree,
    context: &mut Ctx<'a>,
) -> Result<(List<Value<VisibleRow<'a>>>, End), AllocError>
    requires { IsGuardedForSelect (sight_in context.old) tree.now }
    ensures meant { IfOk result (λ found. found
        ≡ stream_of (world_seen (sight_in context.old) (hosts_in context.old).predicates)
        (guarded_value (sight_in context.old) (hosts_in context.old) tree.now)) }
    ensures calls { AddsCallsSeen (sight_in context.old) tree.now.tree.form
        (hosts_in context.old).predicates
        (hosts_in context.old).calls (hosts_in context.new).calls }
    ensures predicates { (hosts_in context.new).predicates ≡ (hosts_in context.old).predicates }
    ensures place { sight_in context.new ≡ sight_in context.old }
    ensures same_set { context.new.hosts.ghost_name ≡ context.old.hosts.ghost_name }
{
    if is_sequence(tree.tree.form.get()) {
        drained_items(alloc, tree, context)
    } else {
        whole_items(alloc, tree, context)
    }
}
