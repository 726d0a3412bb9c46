//! What is asked of a tree's type where the tree stands.
ghost use Rattle.std.specs.Prelude.{Some};
ghost use Rattle.lq_tree.specs.Binding.{condition_tree, items_of_tree, keyed_tree, placed_tree};
ghost use Rattle.lq_tree.specs.Binding.{settled_tree, sortable_tree, within_tree};
ghost use Rattle.lq_bind.specs.Outcomes.{Gives};

use crate::error::TermError;
use crate::trees::new_tree;
use lq_tree::{Form, Tree};
use lq_typing::{element_type, has_place, is_bool, is_key, is_sequence, is_sort_key, is_within};
use std::alloc::Global;

/// The tree, where its type is one that an expression may have: of at most 4,096 parts.
pub(crate) fn within_limit(tree: Tree) -> Result<Tree, TermError>
    ensures { Gives (within_tree tree) result }
{
    if !is_within(&tree.ty) {
        return Err(TermError::IllTyped);
    }
    Ok(tree)
}

/// The tree, where it is not null by its type.
pub(crate) fn not_null(tree: Tree) -> Result<Tree, TermError>
    ensures { Gives (placed_tree tree) result }
{
    if !has_place(&tree.ty) {
        return Err(TermError::IllTyped);
    }
    Ok(tree)
}

/// The tree, where it is a truth value.
pub(crate) fn condition(tree: Tree) -> Result<Tree, TermError>
    ensures { Gives (condition_tree tree) result }
{
    if !is_bool(&tree.ty) {
        return Err(TermError::IllTyped);
    }
    Ok(tree)
}

/// The tree, where `orderby` sorts by its values.
pub(crate) fn sort_key(tree: Tree) -> Result<Tree, TermError>
    ensures { Gives (sortable_tree tree) result }
{
    if !is_sort_key(&tree.ty) {
        return Err(TermError::IllTyped);
    }
    Ok(tree)
}

/// The tree, where its values are keys.
pub(crate) fn key(tree: Tree) -> Result<Tree, TermError>
    ensures { Gives (keyed_tree tree) result }
{
    if !is_key(&tree.ty) {
        return Err(TermError::IllTyped);
    }
    Ok(tree)
}

/// The form of a source with the type of its items, where it is a sequence or a group.
pub(crate) fn items(source: Tree) -> Result<Tree, TermError>
    ensures { Gives (items_of_tree source) result }
{
    let Tree { ty, form } = source;
    let ty = element_type(ty).ok_or(TermError::IllTyped)?;
    Ok(Tree { ty, form })
}

/// The tree as it stands in an expression: that of a sequence doesn't fault, as a fault met in
/// making it is the ending of its stream.
pub(crate) fn settle(alloc: Global, tree: Tree) -> Result<Tree, TermError>
    ensures { Gives (Some (settled_tree tree)) result }
{
    if !is_sequence(&tree.ty) {
        return Ok(tree);
    }
    let Tree { ty, form } = tree;
    new_tree(alloc, ty, Form::Sequence(form))
}
