//! What guarded trees are run over, and the running of one as a whole.
ghost use Rattle.std.specs.Prelude.{◌≡◌, IfOk};
ghost use Rattle.lq_host.specs.Hosts.{hosts_of};
ghost use Rattle.lq_language.specs.OperandMeaning.{stream_of};
ghost use Rattle.lq_pipeline.specs.Contexts.{IsGuardedForSelect, guarded_value, hosts_in, sight_in};
ghost use Rattle.lq_pipeline.specs.Evaluations.{AddsCallsSeen};
ghost use Rattle.lq_pull.specs.Views.{world_seen};

use lq_guard::{GuardedTree, VisibleRow};
use lq_host::{Asks, HostSet, Log, Work};
use lq_policy::{Policies, RoleId};
use lq_pull::{View, items_seen, value_seen};
use lq_store::Store;
use lq_tree::Tree;
use lq_use::uses;
use lq_value::{End, Fault, List, Value};
use std::alloc::{AllocError, Global};

/// What a guarded tree is run over. A tree has the values of the session's variables in it, so these aren't needed beside it.
#[derive(Drop)]
pub struct Ctx<'a> {
    /// The tables.
    pub store: &'a Store,
    /// The policies for them.
    pub policies: &'a Policies,
    /// The role that the tree is guarded for.
    pub role: RoleId,
    /// The host predicates, with the log of their calls.
    pub hosts: &'a mut HostSet,
}

/// A tree that is run over the tables that a role sees.
struct Evaluation<'t, 'a> {
    alloc: Global,
    tree: &'t Tree,
    view: View<'a>,
}

/// The value of the tree.
struct Whole<'t, 'a>(Evaluation<'t, 'a>);

/// The items of the tree.
struct Items<'t, 'a>(Evaluation<'t, 'a>);

impl<'a> Work for Whole<'_, 'a> {
    ghost use Rattle.lq_pipeline.specs.Evaluations.{Evaluates};
    ghost use Rattle.lq_pull.specs.Views.{sight_of};

    type State = ();

    type Outcome = Result<Result<Value<VisibleRow<'a>>, Fault>, AllocError>;

    ghost may = { λ work predicates state. Unit {0} };

    ghost does = { λ work predicates before old outcome after new.
        Evaluates (sight_of work.0.view) work.0.tree.now.form predicates old outcome new };

    fn work<H: Asks>(self, _state: &mut (), hosts: &H, log: &mut Log<H>) -> Self::Outcome {
        let Whole(Evaluation { alloc, tree, view }) = self;
        let used = uses(alloc, tree, view.store, false)?;
        value_seen(alloc, tree, used.as_slice(), &view, hosts, log)
    }
}

impl<'a> Work for Items<'_, 'a> {
    ghost use Rattle.lq_pipeline.specs.Evaluations.{Enumerates};
    ghost use Rattle.lq_pull.specs.Views.{sight_of};

    type State = ();

    type Outcome = Result<(List<Value<VisibleRow<'a>>>, End), AllocError>;

    ghost may = { λ work predicates state. Unit {0} };

    ghost does = { λ work predicates before old outcome after new.
        Enumerates (sight_of work.0.view) work.0.tree.now.form predicates old outcome new };

    fn work<H: Asks>(self, _state: &mut (), hosts: &H, log: &mut Log<H>) -> Self::Outcome {
        let Items(Evaluation { alloc, tree, view }) = self;
        let used = uses(alloc, tree, view.store, false)?;
        items_seen(alloc, tree, used.as_slice(), &view, hosts, log)
    }
}

impl<'a> Ctx<'a> {
    ghost use Rattle.std.specs.Prelude.{◌≡◌};
    ghost use Rattle.lq_pipeline.specs.Contexts.{sight_in};
    ghost use Rattle.lq_pull.specs.Views.{sight_of};

    /// The tree over the tables that the role sees.
    fn evaluation<'t>(&self, alloc: Global, tree: &'t Tree) -> Evaluation<'t, 'a>
        ensures view { sight_of result.view ≡ sight_in self.now }
        ensures tree { result.tree.now ≡ tree.now }
    {
        let view = View {
            store: self.store,
            policies: self.policies,
            role: self.role,
        };
        Evaluation { alloc, tree, view }
    }
}

/// The value of a tree that is guarded for select, or its first fault, as one run of the tree.
pub(crate) fn whole_value<'a>(
    alloc: Global,
    tree: &GuardedTree,
    context: &mut Ctx<'a>,
) -> Result<Result<Value<VisibleRow<'a>>, Fault>, AllocError>
    requires { IsGuardedForSelect (sight_in context.old) tree.now }
    ensures meant { IfOk result (λ found. found
        ≡ guarded_value (sight_in context.old) (hosts_in context.old) tree.now) }
    ensures calls { AddsCallsSeen (sight_in context.old) tree.now.tree.form
        (hosts_in context.old).predicates
        (hosts_in context.old).calls (hosts_in context.new).calls }
    ensures predicates { (hosts_in context.new).predicates ≡ (hosts_in context.old).predicates }
    ensures place { sight_in context.new ≡ sight_in context.old }
    ensures same_set { context.new.hosts.ghost_name ≡ context.old.hosts.ghost_name }
{
    let task = Whole(context.evaluation(alloc, &tree.tree));
    context.hosts.work(task, &mut ())
}

/// The items of such a tree, and how they end, as one run of the tree.
pub(crate) fn whole_items<'a>(
    alloc: Global,
    tree: &GuardedTree,
    context: &mut Ctx<'a>,
) -> Result<(List<Value<VisibleRow<'a>>>, End), AllocError>
    requires { IsGuardedForSelect (sight_in context.old) tree.now }
    ensures meant { IfOk result (λ found. found
        ≡ stream_of (world_seen (sight_in context.old) (hosts_in context.old).predicates)
        (guarded_value (sight_in context.old) (hosts_in context.old) tree.now)) }
    ensures calls { AddsCallsSeen (sight_in context.old) tree.now.tree.form
        (hosts_in context.old).predicates
        (hosts_in context.old).calls (hosts_in context.new).calls }
    ensures predicates { (hosts_in context.new).predicates ≡ (hosts_in context.old).predicates }
    ensures place { sight_in context.new ≡ sight_in context.old }
    ensures same_set { context.new.hosts.ghost_name ≡ context.old.hosts.ghost_name }
{
    let task = Items(context.evaluation(alloc, &tree.tree));
    context.hosts.work(task, &mut ())
}
