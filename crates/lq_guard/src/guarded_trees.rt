//! Trees whose leaves are guarded.
ghost use Rattle.std.specs.Prelude.{◌≡◌};

use lq_policy::{Action, RoleId};
use lq_tree::Tree;

/// A tree with who runs it and for what. Each of its leaves is a scan: that at the head of the tree's chain of sources for the action, and
/// every other one for select.
#[derive(Drop)]
pub struct GuardedTree {
    /// The tree.
    pub tree: Tree,
    /// The role that runs it.
    pub role: RoleId,
    /// What the role does with the rows of the leaf at the head of the tree's chain of sources. It reads those of all other leaves.
    pub action: Action,
}

/// This tree with its leaves guarded: the one at the head of its chain of sources for the action, all others for select.
pub fn guard(tree: Tree, role: RoleId, action: Action) -> GuardedTree
    ensures { result ≡ record { tree = tree; role = role; action = action } }
{
    GuardedTree { tree, role, action }
}
