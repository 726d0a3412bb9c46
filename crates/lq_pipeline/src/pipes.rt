//! Pipes: guarded trees whose items are pulled one by one, by whoever keeps the pipe.
use crate::chains::{Straight, straight_of};
use crate::context::Ctx;
use crate::firsts::first;
use crate::predicates::HostPredicates;
use crate::pulling::next_row;
use crate::steps::{Opened, Standing, Step};
use lq_guard::{GuardedTree, VisibleRow};
use lq_host::{Asks, Log, Work};
use lq_plan::Sources;
use lq_pull::{View, value_seen, with_scans};
use lq_tree::{Form, Tree};
use lq_use::uses;
use lq_value::{Fault, Value};
use std::alloc::{AllocError, Global};
use std::mem;

/// A pull of a pipe over a tree.
#[derive(Drop)]
struct Pull<'a> {
    alloc: Global,
    view: View<'a>,
    tree: &'a Tree,
}

impl<'a> Pull<'a> {
    ghost use Rattle.std.specs.Prelude.{◌≡◌, [], IfOk, None, Some};
    ghost use Rattle.lq_tree.specs.AllowedCalls.{AddsOwnCalls};
    ghost use Rattle.lq_tree.specs.FormMeaning.{form_meaning};
    ghost use Rattle.lq_tree.specs.declared.tree.Form.{Form};
    ghost use Rattle.lq_pull.specs.Views.{row_facts, sight_of, world_seen};
    ghost use Rattle.lq_pipeline.specs.Chains.{leaf_of};
    ghost use Rattle.lq_pipeline.specs.Heads.{AreItemsOf, IsHeadOver, leaf_below};
    ghost use Rattle.lq_pipeline.specs.Reading.{covers_chain};
    ghost use Rattle.lq_pipeline.specs.Standings.{IsBegun, IsOfRows, IsOver, Pulled, PullsFirst, handed_by, place_of, rows_place};
    ghost use Rattle.lq_pipeline.specs.declared.steps.Standing.TheVariants as stands;

    /// The value of the tree, which is run whole.
    fn run_whole<H: Asks>(
        &self,
        hosts: &H,
        log: &mut Log<H>,
    ) -> Result<Result<Value<VisibleRow<'a>>, Fault>, AllocError>
        ensures calls { AddsOwnCalls (world_seen (sight_of self.now.view) (H.known hosts.now))
            row_facts self.now.tree.now.form [] log.old log.new }
        ensures meant { IfOk result (λ found. found ≡ form_meaning
            (world_seen (sight_of self.now.view) (H.known hosts.now)) self.now.tree.now.form []) }
    {
        let used = uses(self.alloc, self.tree, self.view.store, false)?;
        value_seen(
            self.alloc,
            self.tree,
            used.as_slice(),
            &self.view,
            hosts,
            log,
        )
    }

    /// The first item of a tree that isn't a head above a chain.
    fn begin_whole<H: Asks>(
        &self,
        state: &mut Opened<'a>,
        hosts: &H,
        log: &mut Log<H>,
    ) -> Result<Step<VisibleRow<'a>>, AllocError>
        requires lost { state.old.standing ≡ stands.Lost }
        requires none { state.old.leaf ≡ None }
        requires whole { leaf_below self.now.tree.now.form ≡ None }
        ensures pulls { PullsFirst (world_seen (sight_of self.now.view) (H.known hosts.now))
            self.now.tree.now.form log.old result state.new log.new }
        ensures begun { IsBegun self.now.tree.now.form state.new }
    {
        match self.run_whole(hosts, log) {
            Ok(found) => Ok(state.answer(found)),
            Err(error) => Err(error),
        }
    }

    /// The first item of a tree that is a head above a chain.
    fn begin_rows<H: Asks>(
        &self,
        straight: &Straight<'a>,
        state: &mut Opened<'a>,
        hosts: &H,
        log: &mut Log<H>,
    ) -> Result<Step<VisibleRow<'a>>, AllocError>
        requires lost { state.old.standing ≡ stands.Lost }
        requires none { state.old.leaf ≡ None }
        requires head { IsHeadOver self.now.tree.now.form straight.now.head straight.now.chain.now }
        requires leaf { leaf_of straight.now.chain.now ≡ Some straight.now.table }
        requires items { AreItemsOf straight.now.chain.now straight.now.table }
        ensures pulls { PullsFirst (world_seen (sight_of self.now.view) (H.known hosts.now))
            self.now.tree.now.form log.old result state.new log.new }
        ensures begun { IsBegun self.now.tree.now.form state.new }
    {
        match with_scans(self.alloc, &self.view) {
            Ok(tables) => {
                let sources = Sources::new(self.alloc, tables.as_slice(), hosts);
                first(&sources, straight, state, log)
            }
            Err(error) => Err(error),
        }
    }

    /// The first item of a tree.
    fn begin<H: Asks>(
        &self,
        state: &mut Opened<'a>,
        hosts: &H,
        log: &mut Log<H>,
    ) -> Result<Step<VisibleRow<'a>>, AllocError>
        requires lost { state.old.standing ≡ stands.Lost }
        requires none { state.old.leaf ≡ None }
        ensures pulls { PullsFirst (world_seen (sight_of self.now.view) (H.known hosts.now))
            self.now.tree.now.form log.old result state.new log.new }
        ensures begun { IsBegun self.now.tree.now.form state.new }
    {
        match straight_of(self.tree.form.get()) {
            Some(straight) => self.begin_rows(&straight, state, hosts, log),
            None => self.begin_whole(state, hosts, log),
        }
    }

    /// The next item of a chain, up to a limit.
    fn go_on<H: Asks>(
        &self,
        chain: &'a Form,
        limit: Option<usize>,
        state: &mut Opened<'a>,
        hosts: &H,
        log: &mut Log<H>,
    ) -> Result<Step<VisibleRow<'a>>, AllocError>
        requires lost { state.old.standing ≡ stands.Lost }
        requires rows { IsOfRows state.old.leaf }
        ensures pulled { (f : Form) → Pulled
            (world_seen (sight_of self.now.view) (H.known hosts.now)) row_facts
            (covers_chain (world_seen (sight_of self.now.view) (H.known hosts.now)) chain.now)
            (rows_place (world_seen (sight_of self.now.view) (H.known hosts.now)) chain.now limit
            state.old.leaf) (handed_by state.old.leaf) log.old result
            (place_of (world_seen (sight_of self.now.view) (H.known hosts.now)) f state.new)
            (handed_by state.new.leaf) log.new }
        ensures begun { (f : Form) → IsOver f chain.now → IsBegun f state.new }
    {
        match with_scans(self.alloc, &self.view) {
            Ok(tables) => {
                let sources = Sources::new(self.alloc, tables.as_slice(), hosts);
                next_row(&sources, chain, limit, state, log)
            }
            Err(error) => Err(error),
        }
    }
}

impl<'a> Work for Pull<'a> {
    ghost use Rattle.lq_pull.specs.Views.{sight_of, world_seen};
    ghost use Rattle.lq_pipeline.specs.Standings.{IsState, PullsState};

    type State = Opened<'a>;

    type Outcome = Result<Step<VisibleRow<'a>>, AllocError>;

    ghost may = { λ work predicates state. IsState work.tree.now.form state };

    ghost does = { λ work predicates before old outcome after new.
        PullsState (world_seen (sight_of work.view) predicates) work.tree.now.form
        before old outcome after new };

    fn work<H: Asks>(self, state: &mut Opened<'a>, hosts: &H, log: &mut Log<H>) -> Self::Outcome {
        match mem::replace(&mut state.standing, Standing::Lost) {
            Standing::New => self.begin(state, hosts, log),
            Standing::Rows(chain, limit) => self.go_on(chain, limit, state, hosts, log),
            Standing::Items(items, end) => Ok(state.give(items, end)),
            Standing::Over(end) => Ok(state.end(end)),
            Standing::Lost => Err(AllocError),
        }
    }
}

/// A guarded tree whose items are pulled one by one. It borrows the tree, the tables and the policies, and no host predicate.
#[derive(Drop)]
pub struct Pipe<'a> {
    alloc: Global,
    view: View<'a>,
    tree: &'a Tree,
    opened: Opened<'a>,
}

impl<'a> Pipe<'a> {
    ghost use Rattle.std.specs.Prelude.{◌≡◌, IfSome, List, Some};
    ghost use Rattle.lq_host.specs.Hosts.{Hosts};
    ghost use Rattle.lq_host.specs.Predicates.{Predicate};
    ghost use Rattle.lq_pull.specs.Views.{row_facts, world_seen};
    ghost use Rattle.lq_pipeline.specs.Chains.{items_of_result};
    ghost use Rattle.lq_pipeline.specs.Contexts.{IsGuardedForSelect, guarded_value, sight_in};
    ghost use Rattle.lq_pipeline.specs.Pipes.{IsPipe, form_of_pipe, handed_of, place_in, sight_of_pipe};
    ghost use Rattle.lq_pipeline.specs.Places.{Pulls, start_of};

    /// A pipe over a tree that is guarded for select, of which nothing was pulled. It takes no memory, and asks nobody.
    pub fn open(alloc: Global, tree: &'a GuardedTree, context: &Ctx<'a>) -> Pipe<'a>
        ensures starts { (predicates : List Predicate) → place_in predicates result
            ≡ Some (start_of (world_seen (sight_in context.now) predicates) tree.now.tree.form) }
        ensures meant { (hosts : Hosts) → IsGuardedForSelect (sight_in context.now) tree.now
            → IfSome (place_in hosts.predicates result) (λ place. place.left
            ≡ items_of_result (guarded_value (sight_in context.now) hosts tree.now)) }
        ensures sight { sight_of_pipe result ≡ sight_in context.now }
        ensures form { form_of_pipe result ≡ tree.now.tree.form }
        ensures none { handed_of result ≡ 0 }
        ensures ready { IsPipe result }
    {
        let view = View {
            store: context.store,
            policies: context.policies,
            role: context.role,
        };
        let opened = Opened {
            leaf: None,
            standing: Standing::New,
        };
        Pipe {
            alloc,
            view,
            tree: &tree.tree,
            opened,
        }
    }

    /// The next item, or how the items ended, and that again from then on. Where a growth is refused, each pull is from then on. The set has the
    /// host predicates that the context had.
    pub fn next<H: HostPredicates>(
        &mut self,
        hosts: &mut H,
    ) -> Result<Step<VisibleRow<'a>>, AllocError>
        requires { IsPipe self.old }
        ensures pulls { Pulls (world_seen (sight_of_pipe self.old) (H.hosts hosts.old).predicates)
            row_facts (form_of_pipe self.old) (place_in (H.hosts hosts.old).predicates self.old)
            (handed_of self.old) (H.hosts hosts.old).calls result
            (place_in (H.hosts hosts.old).predicates self.new) (handed_of self.new)
            (H.hosts hosts.new).calls }
        ensures sight { sight_of_pipe self.new ≡ sight_of_pipe self.old }
        ensures form { form_of_pipe self.new ≡ form_of_pipe self.old }
        ensures predicates { (H.hosts hosts.new).predicates ≡ (H.hosts hosts.old).predicates }
        ensures ready { IsPipe self.new }
    {
        let task = Pull {
            alloc: self.alloc,
            view: self.view,
            tree: self.tree,
        };
        hosts.work(task, &mut self.opened)
    }

    /// How many visible rows the leaf of the pipe has handed out; it stays at the largest number of 64 bits.
    pub fn handed(&self) -> u64
        ensures { result ≡ handed_of self.now }
    {
        match &self.opened.leaf {
            Some(leaf) => leaf.handed(),
            None => 0,
        }
    }
}
