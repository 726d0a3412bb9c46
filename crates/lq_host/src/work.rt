//! Work that asks hosts.
use crate::asks::Asks;
use crate::log::Log;

/// Work that may ask the predicates of a set. `HostSet::work` does it.
///
/// It is written for hosts of any type, and isn't told which these are. So it can ask them with one log alone, the one that it is lent
/// beside them, and can keep neither.
pub trait Work: Sized {
    ghost use Rattle.std.specs.Prelude.{List};
    ghost use Rattle.lq_host.specs.Predicates.{Predicate};
    ghost use Rattle.lq_host.specs.declared.call.Call.{Call};

    /// What it works on, beside the hosts.
    type State;

    /// What comes of it.
    type Outcome;

    // Whether it may be done over these predicates, in this state.
    ghost may: { Self → List Predicate → Self.State → Type 0 };

    // What it does over these predicates: what holds of the state and the calls before it, its outcome, and the state and the calls
    // after it.
    ghost does: { Self → List Predicate → Self.State → List Call
        → Self.Outcome → Self.State → List Call → Type 0 };

    /// Does it, with these hosts to ask, and their log.
    fn work<H: Asks>(self, state: &mut Self::State, hosts: &H, log: &mut Log<H>) -> Self::Outcome
        requires { may self (H.known hosts.now) state.old }
        ensures { does self (H.known hosts.now) state.old log.old result state.new log.new };
}
