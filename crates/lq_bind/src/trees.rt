//! Trees and forms of the parts that they hold. A form is boxed before anything is refused: letting
//! go of one by value is code for each of its variants, wherever a function may be left.
ghost use Rattle.std.specs.Prelude.{◌≡◌, Some};
ghost use Rattle.lq_language.specs.Types.{when};
ghost use Rattle.lq_tree.specs.Binding.{tree_of, typed_tree};
ghost use Rattle.lq_bind.specs.Outcomes.{Gives};

use crate::error::TermError;
use lq_tree::{Form, Tree};
use lq_value::{Held, Ty};
use std::alloc::Global;

/// A form in a box of its own.
pub(crate) fn new_form(alloc: Global, form: Form) -> Result<Held<Form>, TermError>
    ensures { Gives (Some form) result }
{
    Ok(Held::new(alloc, form)?)
}

/// A tree of this type and this form.
pub(crate) fn new_tree(alloc: Global, ty: Ty, form: Form) -> Result<Tree, TermError>
    ensures { Gives (Some (tree_of ty form)) result }
{
    let form = new_form(alloc, form)?;
    Ok(Tree { ty, form })
}

/// The same where it may have the type.
pub(crate) fn tree_if(alloc: Global, is_typed: bool, ty: Ty, form: Form) -> Result<Tree, TermError>
    ensures { Gives (when is_typed (Some (tree_of ty form))) result }
{
    let form = new_form(alloc, form)?;
    if !is_typed {
        return Err(TermError::IllTyped);
    }
    Ok(Tree { ty, form })
}

/// A tree of this form, where it has a type.
pub(crate) fn typed_tree(alloc: Global, ty: Option<Ty>, form: Form) -> Result<Tree, TermError>
    ensures { Gives (typed_tree ty form) result }
{
    let form = new_form(alloc, form)?;
    let ty = ty.ok_or(TermError::IllTyped)?;
    Ok(Tree { ty, form })
}

/// The form of a tree.
pub(crate) fn into_form(tree: Tree) -> Held<Form>
    ensures { result ≡ tree.form }
{
    let Tree { form, .. } = tree;
    form
}
