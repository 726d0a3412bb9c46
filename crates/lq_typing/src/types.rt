//! Types: copies of them, and what may be done with values of a type.
ghost use Rattle.std.specs.Prelude.{◌≡◌, ◌+◌, ◌<◌, IfOk, IfSome, IfNone, Some};
ghost use Rattle.lq_value.specs.declared.ty.Ty.{out-Ty};
ghost use Rattle.lq_language.specs.Types.{element_type, has_place, is_key, is_sort_key, is_within, parts_of, same_types};
ghost use Rattle.lq_language.specs.OperandTypes.{is_bool, is_int, is_number, is_text};
ghost use Rattle.lq_language.specs.Meaning.{is_sequence_layer};
ghost use Rattle.lq_language.specs.Typing.{converts, has_default, takes_null, widens};
ghost use Rattle.lq_typing.specs.TypeParts.{are_keys, member_parts, same_members};

use lq_value::{Held, List, Txt, Ty};
use std::alloc::{AllocError, Global};

/// The most parts that a type may have.
const MOST_PARTS: usize = 4096;

/// A copy of a type, equal to it.
#[cycle(copying)]
pub fn copy_ty(alloc: Global, ty: &Ty) -> Result<Ty, AllocError>
    ensures { IfOk result (λ copy. copy ≡ ty.now) }
{
    match ty {
        Ty::Int => Ok(Ty::Int),
        Ty::IntN => Ok(Ty::IntN),
        Ty::Bool => Ok(Ty::Bool),
        Ty::Str => Ok(Ty::Str),
        Ty::Null => Ok(Ty::Null),
        Ty::Row(table) => Ok(Ty::Row(*table)),
        Ty::Rec(members) => Ok(Ty::Rec(copy_members(alloc, members)?)),
        Ty::Seq(item) => Ok(Ty::Seq(Held::new(alloc, copy_ty(alloc, item.get())?)?)),
        Ty::Group(key, element) => {
            let key = Held::new(alloc, copy_ty(alloc, key.get())?)?;
            Ok(Ty::Group(key, Held::new(alloc, copy_ty(alloc, element.get())?)?))
        }
    }
}

#[cycle(copying)]
fn copy_members(alloc: Global, members: &List<(Txt, Ty)>) -> Result<List<(Txt, Ty)>, AllocError>
    ensures { IfOk result (λ copy. copy ≡ members.now) }
{
    let mut copied = List::new(alloc);
    for (name, ty) in members.as_slice() {
        let name = Txt::from_str(alloc, name.as_str())?;
        copied.push((name, copy_ty(alloc, ty)?))?;
    }
    Ok(copied)
}

/// Whether values of the type are numbers or, where it is `int?`, null.
#[tactic(auto, using(crate::proofs::TypeLayers::layers))]
pub fn is_number(ty: &Ty) -> bool
    ensures { result ≡ is_number (out-Ty ty.now) }
{
    matches!(ty, Ty::Int | Ty::IntN)
}

/// Whether values of the type are truth values.
#[tactic(auto, using(crate::proofs::TypeLayers::layers))]
pub fn is_bool(ty: &Ty) -> bool
    ensures { result ≡ is_bool (out-Ty ty.now) }
{
    matches!(ty, Ty::Bool)
}

/// Whether values of the type are texts or null.
#[tactic(auto, using(crate::proofs::TypeLayers::layers))]
pub fn is_text(ty: &Ty) -> bool
    ensures { result ≡ is_text (out-Ty ty.now) }
{
    matches!(ty, Ty::Str)
}

/// Whether the type is `int`.
#[tactic(auto, using(crate::proofs::TypeLayers::layers))]
pub(crate) fn is_int(ty: &Ty) -> bool
    ensures { result ≡ is_int (out-Ty ty.now) }
{
    matches!(ty, Ty::Int)
}

/// Whether `orderby` sorts by values of the type: an int, an `int?`, a truth value or a text.
#[tactic(auto, using(crate::proofs::TypeLayers::layers))]
pub fn is_sort_key(ty: &Ty) -> bool
    ensures { result ≡ is_sort_key (Some ty.now) }
{
    matches!(ty, Ty::Int | Ty::IntN | Ty::Bool | Ty::Str)
}

/// Whether the type is any but that of null, which is not allowed where a value is kept.
#[tactic(auto, using(crate::proofs::TypeLayers::layers))]
pub fn has_place(ty: &Ty) -> bool
    ensures { result ≡ has_place (out-Ty ty.now) }
{
    !matches!(ty, Ty::Null)
}

/// Whether the type is that of a sequence.
#[tactic(auto, using(crate::proofs::TypeLayers::layers))]
pub fn is_sequence(ty: &Ty) -> bool
    ensures { result ≡ is_sequence_layer (out-Ty ty.now) }
{
    matches!(ty, Ty::Seq(_))
}

/// Whether the type has a default: all but groups and sequences.
#[tactic(auto, using(crate::proofs::TypeLayers::layers))]
pub(crate) fn has_default(ty: &Ty) -> bool
    ensures { result ≡ has_default (out-Ty ty.now) }
{
    !matches!(ty, Ty::Seq(_) | Ty::Group(_, _))
}

/// Whether values of the type may be null.
#[tactic(auto, using(crate::proofs::TypeLayers::layers))]
fn is_nullable(ty: &Ty) -> bool
    ensures { result ≡ takes_null (out-Ty ty.now) }
{
    matches!(ty, Ty::IntN | Ty::Str | Ty::Row(_) | Ty::Rec(_))
}

/// Whether the first type widens to the second: `int` to `int?`, and null to any type that may be null.
#[tactic(auto, using(crate::proofs::TypeLayers::layers))]
fn is_widening(from: &Ty, to: &Ty) -> bool
    ensures { result ≡ widens (out-Ty from.now) (out-Ty to.now) }
{
    match from {
        Ty::Int => matches!(to, Ty::IntN),
        Ty::Null => is_nullable(to),
        _ => false,
    }
}

/// The type of the items of a sequence or a group, which alone are enumerated (.NET, `IEnumerable`).
#[tactic(auto, using(crate::proofs::TypeLayers::layers))]
pub fn element_type(ty: Ty) -> Option<Ty>
    ensures { result ≡ element_type (out-Ty ty) }
{
    match ty {
        Ty::Seq(item) => Some(item.into_inner()),
        Ty::Group(_, element) => Some(element.into_inner()),
        _ => None,
    }
}

/// Whether values of the type are distinguished by their contents, as keys are (.NET, the default equality comparer): ints,
/// truth values and texts, and records of keys.
#[cycle(keys)]
#[tactic(auto, using(crate::proofs::TypeLayers::keys))]
pub fn is_key(ty: &Ty) -> bool
    ensures { result ≡ is_key ty.now }
{
    match ty {
        Ty::Int | Ty::IntN | Ty::Bool | Ty::Str => true,
        Ty::Rec(members) => are_keys(members.as_slice()),
        Ty::Null | Ty::Row(_) | Ty::Seq(_) | Ty::Group(_, _) => false,
    }
}

#[cycle(keys)]
fn are_keys(members: &[(Txt, Ty)]) -> bool
    ensures { result ≡ are_keys members.now }
{
    for (_, ty) in members {
        if !is_key(ty) {
            return false;
        }
    }
    true
}

/// Whether two types are written the same.
#[cycle(sameness)]
#[tactic(auto, using(crate::proofs::TypeLayers::sameness))]
pub(crate) fn are_same_types(left: &Ty, right: &Ty) -> bool
    ensures { result ≡ same_types left.now right.now }
{
    match left {
        Ty::Int => matches!(right, Ty::Int),
        Ty::IntN => matches!(right, Ty::IntN),
        Ty::Bool => matches!(right, Ty::Bool),
        Ty::Str => matches!(right, Ty::Str),
        Ty::Null => matches!(right, Ty::Null),
        Ty::Row(table) => matches!(right, Ty::Row(other) if table == other),
        Ty::Rec(members) => match right {
            Ty::Rec(others) => are_same_members(members.as_slice(), others.as_slice()),
            _ => false,
        },
        Ty::Seq(item) => match right {
            Ty::Seq(other) => are_same_types(item.get(), other.get()),
            _ => false,
        },
        Ty::Group(key, element) => match right {
            Ty::Group(other_key, other) => {
                are_same_types(key.get(), other_key.get())
                    && are_same_types(element.get(), other.get())
            }
            _ => false,
        },
    }
}

#[cycle(sameness)]
#[tactic(auto, using(crate::proofs::TypeLayers::sameness))]
fn are_same_members(left: &[(Txt, Ty)], right: &[(Txt, Ty)]) -> bool
    ensures { result ≡ same_members left.now right.now }
{
    let mut rest = right;
    for (name, ty) in left {
        match rest.split_first() {
            Some(((other, found), others)) => {
                if name.as_str() != other.as_str() || !are_same_types(ty, found) {
                    return false;
                }
                rest = others;
            }
            None => return false,
        }
    }
    rest.is_empty()
}

/// Whether values of the first type may be used where those of the second are.
pub fn is_convertible(from: &Ty, to: &Ty) -> bool
    ensures { result ≡ converts from.now to.now }
{
    are_same_types(from, to) || is_widening(from, to)
}

/// What is left of so many parts once those of the type are counted; None where it has more.
#[cycle(counting)]
#[tactic(auto, using(crate::proofs::TypeLayers::parts))]
fn left_of(ty: &Ty, parts: usize) -> Option<usize>
    ensures some { IfSome result (λ left. left + parts_of ty.now ≡ parts) }
    ensures none { IfNone result (parts < parts_of ty.now) }
{
    if parts == 0 {
        return None;
    }
    let left = parts - 1;
    match ty {
        Ty::Rec(members) => left_of_members(members.as_slice(), left),
        Ty::Seq(item) => left_of(item.get(), left),
        Ty::Group(key, element) => match left_of(key.get(), left) {
            Some(left) => left_of(element.get(), left),
            None => None,
        },
        Ty::Int | Ty::IntN | Ty::Bool | Ty::Str | Ty::Null | Ty::Row(_) => Some(left),
    }
}

#[cycle(counting)]
fn left_of_members(members: &[(Txt, Ty)], parts: usize) -> Option<usize>
    ensures some { IfSome result (λ left. left + member_parts members.now ≡ parts) }
    ensures none { IfNone result (parts < member_parts members.now) }
{
    let mut left = parts;
    for (_, ty) in members {
        match left_of(ty, left) {
            Some(behind) => left = behind,
            None => return None,
        }
    }
    Some(left)
}

/// Whether an expression may have the type: one of at most 4,096 parts, of which a scalar and a row are one, and each
/// record, sequence and group is one besides its parts' own.
pub fn is_within(ty: &Ty) -> bool
    ensures { result ≡ is_within ty.now }
{
    left_of(ty, MOST_PARTS).is_some()
}
