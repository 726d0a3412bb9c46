//! The log of host calls.
ghost use Rattle.std.specs.Prelude.{◌≡◌, ◌<◌, ◌++◌, ◌∷◌, [], IsTrue, vec_len};
ghost use Rattle.std.specs.Vec.{vec_capacity};

use crate::call::Call;
use std::alloc::Global;
use std::marker::{Model, PhantomData};

/// The calls of hosts of the type `H` that were made, in their order. `Asks::ask` puts a call after the others, and nothing takes one
/// out.
///
/// Hosts are asked with a log of their own type. Only this crate makes one: whoever could make one elsewhere, or copy one, could ask
/// with it and drop it, and nobody would see these calls.
#[derive(Drop)]
pub struct Log<H> {
    pub(crate) calls: Vec<Call>,
    pub(crate) hosts: PhantomData<H>,
}

impl<H> Model for Log<H> {
    ghost use Rattle.std.specs.Prelude.{List};
    ghost use Rattle.lq_host.specs.declared.call.Call.{Call};

    ghost Value = { List Call };

    ghost view = { λ log. log.calls.items };
}

impl<H> Log<H> {
    /// A log of no call. Takes no memory.
    pub(crate) fn new(alloc: Global) -> Log<H>
        ensures { result ≡ [] }
    {
        Log {
            calls: Vec::new(alloc),
            hosts: PhantomData,
        }
    }

    /// The calls, in their order.
    pub fn calls(&self) -> &[Call]
        ensures { result.now ≡ self.now }
    {
        self.calls.as_slice()
    }
}

/// Makes room for one more call, and answers whether there is room: memory may be refused.
pub(crate) fn make_room(calls: &mut Vec<Call>) -> bool
    ensures room { IsTrue result → vec_len calls.new < vec_capacity calls.new }
    ensures same { calls.new.items ≡ calls.old.items }
{
    calls.try_reserve(1).is_ok()
}

/// Puts a call after the others, for which there is room.
pub(crate) fn append(calls: &mut Vec<Call>, call: Call)
    requires { vec_len calls.old < vec_capacity calls.old }
    ensures { calls.new.items ≡ calls.old.items ++ call ∷ [] }
{
    let _ = calls.push(call);
}
