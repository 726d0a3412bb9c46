//! The trees of members (ECMA-334, member access; .NET, `Nullable`, `String` and `IGrouping`).
ghost use Rattle.std.specs.Prelude.{◌≡◌, Some, option_map, slice_get};
ghost use Rattle.std.specs.Option.{option_copied};
ghost use Rattle.std.specs.List.{position_from};
ghost use Rattle.std.specs.Str.{bytes_eq};
ghost use Rattle.lq_value.specs.declared.ty.Ty.{out-Ty};
ghost use Rattle.lq_machine.specs.States.{schemas_of};
ghost use Rattle.lq_tree.specs.Binding.{group_key_tree, member_layer, member_tree};
ghost use Rattle.lq_tree.specs.Binding.{nullable_tree, record_member_tree, text_tree, tree_of};
ghost use Rattle.lq_tree.specs.declared.tree.Form.TheVariants as form;
ghost use Rattle.lq_bind.specs.Outcomes.{Gives};

use crate::error::TermError;
use crate::trees::{new_tree, tree_if};
use crate::{columns, type_checks};
use lq_language::Op;
use lq_store::Store;
use lq_tree::{Form, Tree};
use lq_typing::copy_ty;
use lq_value::{Held, Txt, Ty};
use std::alloc::Global;

/// The place of a record's member of this name.
fn member_named(members: &[(Txt, Ty)], name: &str) -> Option<usize>
    ensures { result ≡ position_from (λ member. bytes_eq name.now member.0) 0 members.now }
{
    members
        .iter()
        .position(|(member, _)| name == member.as_str())
}

/// The type of the member in this place.
fn type_at(members: &[(Txt, Ty)], place: usize) -> Option<&Ty>
    ensures { option_copied result ≡ option_map (λ member. member.1) (slice_get members.now place) }
{
    let member = members.get(place)?;
    Some(&member.1)
}

/// The member of a record in this place, which has this type.
fn member_at(alloc: Global, receiver: Held<Form>, place: usize, ty: &Ty) -> Result<Tree, TermError>
    ensures { Gives (Some (tree_of ty.now (form.Member receiver place))) result }
{
    let ty = copy_ty(alloc, ty)?;
    new_tree(alloc, ty, Form::Member(receiver, place))
}

/// The member of a record of this name.
fn record_member(
    alloc: Global,
    name: &str,
    receiver: Held<Form>,
    members: &[(Txt, Ty)],
) -> Result<Tree, TermError>
    ensures { Gives (record_member_tree name.now receiver members.now) result }
{
    let place = member_named(members, name).ok_or(TermError::IllTyped)?;
    let ty = type_at(members, place).ok_or(TermError::IllTyped)?;
    member_at(alloc, receiver, place, ty)
}

/// A member of an `int?`.
fn nullable(alloc: Global, name: &str, number: Held<Form>) -> Result<Tree, TermError>
    ensures { Gives (nullable_tree name.now number) result }
{
    if name == "HasValue" {
        return new_tree(alloc, Ty::Bool, Form::Unary(Op::HasValue, number));
    }
    let form = Form::Unary(Op::Value, number);
    tree_if(alloc, name == "Value", Ty::Int, form)
}

/// A member of a text.
fn text(alloc: Global, name: &str, text: Held<Form>) -> Result<Tree, TermError>
    ensures { Gives (text_tree name.now text) result }
{
    tree_if(
        alloc,
        name == "Length",
        Ty::Int,
        Form::Unary(Op::Length, text),
    )
}

/// The key of a group.
fn group_key(alloc: Global, name: &str, key: Ty, group: Held<Form>) -> Result<Tree, TermError>
    ensures { Gives (group_key_tree name.now key group) result }
{
    tree_if(alloc, name == "Key", key, Form::Key(group))
}

/// The member of a receiver of this type.
#[tactic(auto, using(crate::proofs::Layers::types))]
fn member_of(
    alloc: Global,
    store: &Store,
    name: &str,
    receiver: Held<Form>,
    ty: Ty,
) -> Result<Tree, TermError>
    ensures { Gives (member_layer (schemas_of store.now) name.now receiver (out-Ty ty)) result }
{
    match ty {
        Ty::Row(table) => columns::cell(alloc, store, name, table, receiver),
        Ty::Rec(members) => record_member(alloc, name, receiver, members.as_slice()),
        Ty::Group(key, _) => group_key(alloc, name, key.into_inner(), receiver),
        Ty::IntN => nullable(alloc, name, receiver),
        Ty::Str => text(alloc, name, receiver),
        Ty::Int | Ty::Bool | Ty::Null | Ty::Seq(_) => Err(TermError::IllTyped),
    }
}

/// The member of this name of what the receiver means, where its type has one. It isn't inlined: members of
/// members are thousands deep, and what is needed here would be on the stack for each of them.
#[inline(never)]
pub(crate) fn member(
    alloc: Global,
    store: &Store,
    name: &str,
    receiver: Tree,
) -> Result<Tree, TermError>
    ensures { Gives (member_tree (schemas_of store.now) name.now receiver) result }
{
    let Tree { ty, form } = receiver;
    let member = member_of(alloc, store, name, form, ty)?;
    type_checks::settle(alloc, member)
}
