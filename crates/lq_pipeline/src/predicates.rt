//! Sets of host predicates over which pulls are done.
use lq_host::{HostSet, Work};

/// A set of host predicates, with the log of their calls. It stands for a `HostSet`.
// A function that names rows in a bound can't take a `HostSet` itself: no contract can be stated of it today.
pub trait HostPredicates {
    ghost use Rattle.std.specs.Prelude.{◌≡◌};
    ghost use Rattle.lq_host.specs.Hosts.{Hosts};

    // The predicates, and the calls that were made.
    ghost hosts: { Self → Hosts };

    /// Does work that may ask the predicates, which stay; each call comes into the log.
    fn work<W: Work>(&mut self, work: W, state: &mut W::State) -> W::Outcome
        requires { W.may work (hosts self.old).predicates state.old }
        ensures does { W.does work (hosts self.old).predicates state.old
            (hosts self.old).calls result state.new (hosts self.new).calls }
        ensures predicates { (hosts self.new).predicates ≡ (hosts self.old).predicates };
}

impl HostPredicates for HostSet {
    ghost use Rattle.lq_host.specs.Hosts.{hosts_of};

    ghost hosts = { λ set. hosts_of set };

    fn work<W: Work>(&mut self, work: W, state: &mut W::State) -> W::Outcome {
        HostSet::work(self, work, state)
    }
}
