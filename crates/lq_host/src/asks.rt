//! Whoever asks hosts.
use crate::call::Question;
use crate::error::HostError;
use crate::log::Log;

/// Hosts that are asked, each call with its entry in their log. What runs a query takes any such hosts by a type parameter: a boxed
/// closure isn't allowed in a signature of a cycle of calls, and hosts whose type isn't known take no log but the one that comes with
/// them.
pub trait Asks: Sized {
    ghost use Rattle.std.specs.Prelude.{List};
    ghost use Rattle.lq_host.specs.Calls.{LogsCall};
    ghost use Rattle.lq_host.specs.Predicates.{Predicate, answer_in};

    // The predicates, by their numbers.
    ghost known: { Self → List Predicate };

    /// Asks a predicate, and appends the call to `log`, which is of hosts of this type. Refuses with `Range` exactly where there is no
    /// answer, since the arguments are out of the predicate's range or there is no such predicate, and with `Memory` where there is no
    /// room for the entry; in both no call was made, and the log is as it was.
    fn ask(&self, question: Question, log: &mut Log<Self>) -> Result<bool, HostError>
        ensures { LogsCall (answer_in (known self.now) question.predicate question.arguments)
            question log.old result log.new };
}
