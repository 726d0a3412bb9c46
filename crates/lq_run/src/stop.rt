//! Why a statement stops before its end, and the lines that it is then answered.
ghost use Rattle.std.specs.Prelude.{◌≡◌};
ghost use Rattle.lq_machine.specs.States.{cells_of, schemas_of};
ghost use Rattle.lq_machine.specs.Served.{denied_data, error_data, fault_data};
ghost use Rattle.lq_json.specs.Replies.{reply_data};
ghost use Rattle.lq_run.specs.Stops.{StopsWith};

use lq_guard::VisibleRow;
use lq_json::{Line, Reply, reply_line};
use lq_language::HostName;
use lq_policy::Use;
use lq_store::Store;
use lq_value::Fault;
use std::alloc::{AllocError, AllocFailed, Global};

/// Why a statement stops before its end. It has changed nothing then.
#[derive(Drop)]
pub enum Stop {
    /// It is answered by this line.
    Answer(Line),
    /// Memory was refused.
    Memory,
}

impl From<AllocError> for Stop {
    ghost use Rattle.lq_run.specs.declared.stop.Stop.TheVariants.{Memory};

    ghost from_gives = { λ _ e. e ≡ Memory };

    fn from(_: AllocError) -> Stop {
        Stop::Memory
    }
}

impl<T: Drop> From<AllocFailed<T>> for Stop {
    ghost use Rattle.lq_run.specs.declared.stop.Stop.TheVariants.{Memory};

    ghost from_gives = { λ _ e. e ≡ Memory };

    fn from(_: AllocFailed<T>) -> Stop {
        Stop::Memory
    }
}

/// Stops with the line of a reply.
fn stop_with(alloc: Global, reply: &Reply<'_, VisibleRow<'_>>) -> Stop
    ensures { StopsWith (reply_data cells_of reply.now) result }
{
    match reply_line(alloc, reply) {
        Ok(line) => Stop::Answer(line),
        Err(AllocError) => Stop::Memory,
    }
}

/// Stops with the line of a refusal.
pub fn refusal(alloc: Global, word: &str) -> Stop
    ensures { StopsWith (error_data word.now) result }
{
    stop_with(alloc, &Reply::Error(word))
}

/// Stops with the line of a denial by a rule. The tables and the names of the host predicates name the use.
pub fn denial(alloc: Global, store: &Store, hosts: &[HostName], rule: &str, used: Use) -> Stop
    ensures { StopsWith (denied_data (schemas_of store.now) hosts.now rule.now used) result }
{
    stop_with(
        alloc,
        &Reply::Denied {
            store,
            hosts,
            rule,
            used,
        },
    )
}

/// Stops with the line of a fault.
pub fn fault(alloc: Global, met: Fault) -> Stop
    ensures { StopsWith (fault_data met) result }
{
    stop_with(alloc, &Reply::Fault(met))
}
