//! What the role of a session has rights to.
ghost use Rattle.lq_run.specs.States.{HoldsOf};
ghost use Rattle.lq_run.specs.Statements.{HasRights};

use crate::state::State;
use crate::stop::{Stop, denial};
use lq_policy::Use;
use lq_use::decide;
use std::alloc::Global;

/// `Ok` exactly where the session's role has a right to each of these uses; else stops with the line of the first that is denied.
pub fn check_rights(alloc: Global, used: &[Use], state: &State) -> Result<(), Stop>
    ensures { HoldsOf state.now (λ s. HasRights s used.now result) }
{
    match decide(used, state.role(), state.policies()) {
        Ok(()) => Ok(()),
        Err(denied) => {
            let first = used[denied.place];
            Err(denial(alloc, state.store(), state.hosts(), denied.rule, first))
        }
    }
}
