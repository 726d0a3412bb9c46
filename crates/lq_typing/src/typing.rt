//! The types of what operators and methods give, over the types of their operands.
ghost use Rattle.std.specs.Prelude.{◌≡◌, ◌&&◌, IfOk, None, Some, option_and_then};
ghost use Rattle.lq_value.specs.declared.ty.Ty.{out-Ty};
ghost use Rattle.lq_value.specs.declared.ty.Ty.TheVariants as ty;
ghost use Rattle.lq_language.specs.Types.{are_join_keys, are_widened, when};
ghost use Rattle.lq_language.specs.OperandTypes.{are_comparable, are_joined, choice_type_of_layers, coalesced, is_equality, is_ordering, joined_type, number_type, operated_type, result_type};
ghost use Rattle.lq_language.specs.Typing.{are_null_tests, given_type, if_int, if_same, if_same_keys, simple_type, through_type, type_of_choice, type_of_operation};

use crate::types::{
    are_same_types, copy_ty, has_default, has_place, is_bool, is_convertible, is_int, is_key,
    is_number,
};
use lq_grammar::Binary;
use lq_language::{Given, Simple, Through};
use lq_value::{Held, List, Txt, Ty};
use std::alloc::{AllocError, Global};

/// Whether an operator asks for the order of its operands.
fn is_ordering(sign: Binary) -> bool
    ensures { result ≡ is_ordering sign }
{
    matches!(
        sign,
        Binary::Less | Binary::Greater | Binary::LessOrEqual | Binary::GreaterOrEqual
    )
}

/// Whether a sign is `==` or `!=` (ECMA-334, relational and type-testing operators).
pub fn is_equality(sign: Binary) -> bool
    ensures { result ≡ is_equality sign }
{
    matches!(sign, Binary::Equal | Binary::NotEqual)
}

/// Whether `==` compares values of these types: two numbers, truth values or texts; and null with
/// what may be null or a number.
#[tactic(auto, using(crate::proofs::TypeLayers::layers))]
fn are_comparable(left: &Ty, right: &Ty) -> bool
    ensures { result ≡ are_comparable (out-Ty left.now) (out-Ty right.now) }
{
    match left {
        Ty::Int | Ty::IntN => matches!(right, Ty::Int | Ty::IntN | Ty::Null),
        Ty::Bool => matches!(right, Ty::Bool),
        Ty::Str => matches!(right, Ty::Str | Ty::Null),
        Ty::Row(_) => matches!(right, Ty::Null),
        Ty::Null => matches!(right, Ty::Int | Ty::IntN | Ty::Str | Ty::Row(_) | Ty::Null),
        _ => false,
    }
}

/// Whether one is the type of a record or a group, and the other that of null.
#[tactic(auto, using(crate::proofs::TypeLayers::layers))]
fn are_null_tests(left: &Ty, right: &Ty) -> bool
    ensures { result ≡ are_null_tests (out-Ty left.now) (out-Ty right.now) }
{
    match left {
        Ty::Rec(_) | Ty::Group(_, _) => matches!(right, Ty::Null),
        Ty::Null => matches!(right, Ty::Rec(_) | Ty::Group(_, _)),
        _ => false,
    }
}

/// Whether `+` joins values of these types: two texts, or a text and null.
#[tactic(auto, using(crate::proofs::TypeLayers::layers))]
fn are_joined(left: &Ty, right: &Ty) -> bool
    ensures { result ≡ are_joined (out-Ty left.now) (out-Ty right.now) }
{
    match left {
        Ty::Str => matches!(right, Ty::Str | Ty::Null),
        Ty::Null => matches!(right, Ty::Str),
        _ => false,
    }
}

/// The type of arithmetic on two numbers: `int` where both are ints.
#[tactic(auto, using(crate::proofs::TypeLayers::layers))]
fn number_type(left: &Ty, right: &Ty) -> Ty
    ensures { result ≡ number_type (out-Ty left.now) (out-Ty right.now) }
{
    if is_int(left) && is_int(right) {
        Ty::Int
    } else {
        Ty::IntN
    }
}

/// The type of two texts that the operator joins.
fn joined_type(sign: Binary, left: &Ty, right: &Ty) -> Option<Ty>
    ensures { result ≡ joined_type sign (out-Ty left.now) (out-Ty right.now) }
{
    match sign {
        Binary::Add if are_joined(left, right) => Some(Ty::Str),
        _ => None,
    }
}

/// The type of what an operator gives to operands of these types; None where it doesn't take such (ECMA-334, binary operator
/// overload resolution).
pub fn operated_type(sign: Binary, left: &Ty, right: &Ty) -> Option<Ty>
    ensures { result ≡ type_of_operation sign (out-Ty left.now) (out-Ty right.now) }
{
    if is_equality(sign) {
        (are_null_tests(left, right) || are_comparable(left, right)).then_some(Ty::Bool)
    } else if !is_number(left) || !is_number(right) {
        joined_type(sign, left, right)
    } else if is_ordering(sign) {
        Some(Ty::Bool)
    } else {
        Some(number_type(left, right))
    }
}

/// The type of `left ?? right`, whose first operand may be null; None where the two have none (ECMA-334, the null
/// coalescing operator).
#[tactic(auto, using(crate::proofs::TypeLayers::layers))]
pub fn coalesced_type(left: &Ty, right: &Ty) -> Option<Ty>
    ensures { result ≡ coalesced (out-Ty left.now) (out-Ty right.now) }
{
    match left {
        Ty::IntN => match right {
            Ty::Int => Some(Ty::Int),
            Ty::IntN | Ty::Null => Some(Ty::IntN),
            _ => None,
        },
        Ty::Str => match right {
            Ty::Str | Ty::Null => Some(Ty::Str),
            _ => None,
        },
        _ => None,
    }
}

/// The type of a choice between null and what is of this type, which may be null.
#[tactic(auto, using(crate::proofs::TypeLayers::layers))]
fn choice_beside_null(other: Ty) -> Option<Ty>
    ensures { result ≡ type_of_choice (out-Ty ty.Null) (out-Ty other) }
{
    match other {
        Ty::IntN | Ty::Str | Ty::Row(_) | Ty::Rec(_) => Some(other),
        _ => None,
    }
}

/// The type of a choice between what is of this record type and what is of the other one, or null.
#[tactic(auto, using(crate::proofs::TypeLayers::layers))]
fn choice_of_record(members: List<(Txt, Ty)>, right: Ty) -> Option<Ty>
    ensures { result ≡ type_of_choice (out-Ty (ty.Rec members)) (out-Ty right) }
{
    let left = Ty::Rec(members);
    match &right {
        Ty::Rec(_) if are_same_types(&left, &right) => Some(left),
        Ty::Null => Some(left),
        _ => None,
    }
}

/// The type of a choice between values of these types: one type; `int?` where they are numbers; and
/// beside null that of the other, where it may be null (ECMA-334, conditional operator).
#[tactic(auto, using(crate::proofs::TypeLayers::layers))]
pub fn choice_type(left: Ty, right: Ty) -> Option<Ty>
    ensures { result ≡ type_of_choice (out-Ty left) (out-Ty right) }
{
    match left {
        Ty::Int => match right {
            Ty::Int => Some(Ty::Int),
            Ty::IntN => Some(Ty::IntN),
            _ => None,
        },
        Ty::IntN => match right {
            Ty::Int | Ty::IntN | Ty::Null => Some(Ty::IntN),
            _ => None,
        },
        Ty::Bool => match right {
            Ty::Bool => Some(Ty::Bool),
            _ => None,
        },
        Ty::Str => match right {
            Ty::Str | Ty::Null => Some(Ty::Str),
            _ => None,
        },
        Ty::Row(table) => match right {
            Ty::Row(other) if table == other => Some(Ty::Row(table)),
            Ty::Null => Some(Ty::Row(table)),
            _ => None,
        },
        Ty::Rec(members) => choice_of_record(members, right),
        Ty::Null => choice_beside_null(right),
        Ty::Seq(_) | Ty::Group(_, _) => None,
    }
}

/// The sequence of items of the type.
fn sequence_of(alloc: Global, item: Ty) -> Result<Ty, AllocError>
    ensures { IfOk result (λ sequence. sequence ≡ ty.Seq item) }
{
    Ok(Ty::Seq(Held::new(alloc, item)?))
}

/// The sequence of items of the type, which stays as it is.
fn copied_sequence(alloc: Global, item: &Ty) -> Result<Ty, AllocError>
    ensures { IfOk result (λ sequence. sequence ≡ ty.Seq item.now) }
{
    sequence_of(alloc, copy_ty(alloc, item)?)
}

/// A copy of the type where this holds.
fn copied_if(alloc: Global, holds: bool, ty: &Ty) -> Result<Option<Ty>, AllocError>
    ensures { IfOk result (λ copy. copy ≡ when holds (Some ty.now)) }
{
    if !holds {
        return Ok(None);
    }
    Ok(Some(copy_ty(alloc, ty)?))
}

/// The sequence of items of the type where this holds.
fn sequence_if(alloc: Global, holds: bool, item: &Ty) -> Result<Option<Ty>, AllocError>
    ensures { IfOk result (λ sequence. sequence ≡ when holds (Some (ty.Seq item.now))) }
{
    if !holds {
        return Ok(None);
    }
    Ok(Some(copied_sequence(alloc, item)?))
}

/// The type of a method without an argument, on items of this type; None where it takes no such items (.NET, Enumerable).
pub fn simple_type(alloc: Global, method: Simple, item: &Ty) -> Result<Option<Ty>, AllocError>
    ensures { IfOk result (λ method_type. method_type ≡ simple_type method item.now) }
{
    match method {
        Simple::Distinct => sequence_if(alloc, is_key(item), item),
        Simple::Reverse => sequence_if(alloc, true, item),
        Simple::DefaultIfEmpty => sequence_if(alloc, has_default(item), item),
        Simple::Any => Ok(Some(Ty::Bool)),
        Simple::Count => Ok(Some(Ty::Int)),
        Simple::First | Simple::Last | Simple::Single => copied_if(alloc, true, item),
        Simple::FirstOrDefault | Simple::SingleOrDefault => {
            copied_if(alloc, has_default(item), item)
        }
        Simple::Sum | Simple::Min | Simple::Max => copied_if(alloc, is_number(item), item),
    }
}

/// Whether the type is that of a sequence or a group of items of the first type.
#[tactic(auto, using(crate::proofs::TypeLayers::layers))]
fn has_items(item: &Ty, second: &Ty) -> bool
    ensures { when result (Some (ty.Seq item.now)) ≡ if_same item.now (Some second.now) }
{
    match second {
        Ty::Seq(other) => are_same_types(item, other.get()),
        Ty::Group(_, other) => are_same_types(item, other.get()),
        _ => false,
    }
}

/// The type of a method on items of the first type, with an argument of the second; None where it doesn't take such (.NET,
/// Enumerable).
pub fn given_type(
    alloc: Global,
    method: Given,
    item: &Ty,
    argument: &Ty,
) -> Result<Option<Ty>, AllocError>
    ensures { IfOk result (λ method_type. method_type
        ≡ given_type method item.now (Some argument.now)) }
{
    match method {
        Given::Concat => sequence_if(alloc, has_items(item, argument), item),
        Given::Union | Given::Intersect | Given::Except => {
            if !is_key(item) {
                return Ok(None);
            }
            sequence_if(alloc, has_items(item, argument), item)
        }
        Given::Skip | Given::Take => sequence_if(alloc, is_int(argument), item),
        Given::ElementAt => copied_if(alloc, is_int(argument), item),
        Given::Contains => Ok((is_key(item) && is_convertible(argument, item)).then_some(Ty::Bool)),
    }
}

/// The type of a method on items of the first type, with a lambda whose body has the second one; None where it doesn't take
/// such (.NET, Enumerable).
pub fn through_type(
    alloc: Global,
    method: Through,
    item: &Ty,
    body: &Ty,
) -> Result<Option<Ty>, AllocError>
    ensures { IfOk result (λ method_type. method_type
        ≡ through_type method item.now (Some body.now)) }
{
    match method {
        Through::Where => sequence_if(alloc, is_bool(body), item),
        Through::Select => sequence_if(alloc, has_place(body), body),
        Through::All => Ok(is_bool(body).then_some(Ty::Bool)),
        Through::Those(method) => {
            if !is_bool(body) {
                return Ok(None);
            }
            simple_type(alloc, method, item)
        }
        Through::Values(method) => simple_type(alloc, method, body),
    }
}

/// Whether `join` compares keys of these types: of one type of keys, or an int with an `int?` (ECMA-334, join clauses).
#[tactic(auto, using(crate::proofs::TypeLayers::layers))]
pub fn are_join_keys(left: &Ty, right: &Ty) -> bool
    ensures { result ≡ are_join_keys (Some left.now) (Some right.now) }
{
    is_key(left) && are_same_types(left, right) || are_widened(left, right)
}

/// Whether the types are `int` and `int?`, in either order.
#[tactic(auto, using(crate::proofs::TypeLayers::layers))]
fn are_widened(left: &Ty, right: &Ty) -> bool
    ensures { result ≡ are_widened (out-Ty left.now) (out-Ty right.now) }
{
    match left {
        Ty::Int => matches!(right, Ty::IntN),
        Ty::IntN => matches!(right, Ty::Int),
        _ => false,
    }
}
