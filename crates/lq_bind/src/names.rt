//! The trees of literals, of tables and of variables (ECMA-334, literals and simple names).
ghost use Rattle.std.specs.Prelude.{◌≡◌, IfOk, Some, option_map};
ghost use Rattle.lq_value.specs.declared.scalar.Scalar.TheVariants as scalar;
ghost use Rattle.lq_value.specs.declared.ty.Ty.TheVariants as ty;
ghost use Rattle.lq_machine.specs.States.{schemas_of};
ghost use Rattle.lq_language.specs.Names.{table_number};
ghost use Rattle.lq_bind.specs.Bound.{literal_tree, rows_tree};
ghost use Rattle.lq_bind.specs.Outcomes.{Gives};

use crate::error::TermError;
use crate::trees::new_tree;
use lq_store::Store;
use lq_tree::{Form, Tree};
use lq_typing::copy_ty;
use lq_value::{Held, Scalar, Txt, Ty, copy_scalar};
use std::alloc::{AllocError, Global};

/// A literal of this type.
fn literal(alloc: Global, ty: Ty, value: Scalar) -> Result<Tree, TermError>
    ensures { Gives (Some (literal_tree ty value)) result }
{
    new_tree(alloc, ty, Form::Literal(value))
}

/// An integer.
#[inline(never)]
pub(crate) fn integer(alloc: Global, number: i32) -> Result<Tree, TermError>
    ensures { Gives (Some (literal_tree ty.Int (scalar.Int number))) result }
{
    literal(alloc, Ty::Int, Scalar::Int(number))
}

/// A text.
#[inline(never)]
pub(crate) fn text(alloc: Global, text: &Txt) -> Result<Tree, TermError>
    ensures { Gives (Some (literal_tree ty.Str (scalar.Text text.now))) result }
{
    let text = Txt::from_str(alloc, text.as_str())?;
    literal(alloc, Ty::Str, Scalar::Text(text))
}

/// `true` or `false`.
#[inline(never)]
pub(crate) fn truth(alloc: Global, truth: bool) -> Result<Tree, TermError>
    ensures { Gives (Some (literal_tree ty.Bool (scalar.Bool truth))) result }
{
    literal(alloc, Ty::Bool, Scalar::Bool(truth))
}

/// `null`, which also stands for what has no type.
#[inline(never)]
pub(crate) fn null(alloc: Global) -> Result<Tree, TermError>
    ensures { Gives (Some (literal_tree ty.Null scalar.Null)) result }
{
    literal(alloc, Ty::Null, Scalar::Null)
}

/// The rows of the table of this name.
#[tactic(auto, using(crate::proofs::TermLaws::tables))]
pub(crate) fn rows(alloc: Global, store: &Store, name: &str) -> Result<Option<Tree>, AllocError>
    ensures { IfOk result (λ rows. rows
        ≡ option_map rows_tree (table_number name.now (schemas_of store.now))) }
{
    let Some(table) = store.find(name) else {
        return Ok(None);
    };
    let ty = Ty::Seq(Held::new(alloc, Ty::Row(table))?);
    let form = Held::new(alloc, Form::Table(table))?;
    Ok(Some(Tree { ty, form }))
}

/// A variable of the session, which is its value.
pub(crate) fn variable(alloc: Global, ty: &Ty, value: &Scalar) -> Result<Tree, TermError>
    ensures { Gives (Some (literal_tree ty.now value.now)) result }
{
    let ty = copy_ty(alloc, ty)?;
    literal(alloc, ty, copy_scalar(alloc, value)?)
}
