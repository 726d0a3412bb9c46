//! Sets of uses.
ghost use Rattle.lq_language.specs.declared.rights.Use.{Use};
ghost use Rattle.lq_security.specs.Rights.{is_same_use};
ghost use Rattle.lq_policy.specs.RoleRights.{is_among};

use indexmap::IndexSet;
use lq_language::Use;
use std::alloc::{AllocError, Global};

/// Uses, each once.
#[derive(Drop)]
pub(crate) struct UseSet {
    uses: IndexSet<Use>,
}

impl UseSet {
    ghost use Rattle.std.specs.Prelude.{◌≡◌, ◌||◌, false, IfOk};

    /// The set of no use. Takes no memory.
    pub(crate) fn new(alloc: Global) -> UseSet
        ensures { (other : Use) → is_among result other ≡ false }
    {
        UseSet {
            uses: IndexSet::new(alloc),
        }
    }

    /// Whether the set has this use.
    pub(crate) fn contains(&self, used: Use) -> bool
        ensures { result ≡ is_among self.now used }
    {
        self.uses.contains(&used)
    }

    /// Puts a use into the set.
    pub(crate) fn add(&mut self, used: Use) -> Result<(), AllocError>
        ensures { IfOk result (λ _. (other : Use)
            → is_among self.new other ≡ is_same_use other used || is_among self.old other) }
    {
        self.uses.insert(used)?;
        Ok(())
    }
}
