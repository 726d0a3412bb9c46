//! The texts of types.
use crate::building::{LineType, group, sequence, store, ty};
use lq_render::type_text;
use lq_store::Store;
use lq_value::{List, Txt, Ty};
use std::alloc::{AllocError, Global};
use std::test::Fail;

const SERVED: [(LineType, &str); 6] = [
    (LineType::Rows, "employees[]"),
    (LineType::Row, "employees"),
    (LineType::Records, "{title: string, n: int}[]"),
    (LineType::Numbers, "int?[]"),
    (LineType::Groups, "(group of string by int?)[]"),
    (LineType::Group, "group of employees by string"),
];

// Whether a type has this text, as it is freed here.
fn is_named(alloc: Global, store: &Store, ty: Ty, expected: &str) -> Result<bool, AllocError> {
    Ok(type_text(alloc, &ty, store)?.as_str() == expected)
}

fn is_served(
    alloc: Global,
    store: &Store,
    served: LineType,
    expected: &str,
) -> Result<bool, AllocError> {
    match ty(alloc, served)? {
        Some(ty) => is_named(alloc, store, ty, expected),
        None => Ok(false),
    }
}

fn are_served(alloc: Global, store: &Store) -> Result<bool, AllocError> {
    for (served, expected) in &SERVED {
        if !is_served(alloc, store, *served, expected)? {
            return Ok(false);
        }
    }
    Ok(true)
}

fn are_scalars_named(alloc: Global, store: &Store) -> Result<bool, AllocError> {
    Ok(
        is_named(alloc, store, Ty::Int, "int")?
            && is_named(alloc, store, Ty::IntN, "int?")?
            && is_named(alloc, store, Ty::Bool, "bool")?
            && is_named(alloc, store, Ty::Str, "string")?
            && is_named(alloc, store, Ty::Null, "null")?,
    )
}

// A row of no table of the store, and a record of no members.
fn are_empty_ones_named(alloc: Global, store: &Store) -> Result<bool, AllocError> {
    Ok(
        is_named(alloc, store, Ty::Row(1), "")?
            && is_named(alloc, store, Ty::Rec(List::new(alloc)), "{}")?,
    )
}

// A record of truth values.
fn truths(alloc: Global) -> Result<Ty, AllocError> {
    let mut members = List::new(alloc);
    let truths = sequence(alloc, Ty::Bool)?;
    members.push((Txt::from_str(alloc, "all")?, truths))?;
    Ok(Ty::Rec(members))
}

fn group_of_groups(alloc: Global) -> Result<Ty, AllocError> {
    let element = group(alloc, Ty::Int, truths(alloc)?)?;
    group(alloc, Ty::Str, element)
}

fn are_groups_named(alloc: Global, store: &Store) -> Result<bool, AllocError> {
    let expected = "group of (group of {all: bool[]} by int) by string";
    is_named(alloc, store, group_of_groups(alloc)?, expected)
}

fn are_all_named(alloc: Global, store: &Store) -> Result<bool, AllocError> {
    Ok(
        are_served(alloc, store)?
            && are_scalars_named(alloc, store)?
            && are_empty_ones_named(alloc, store)?
            && are_groups_named(alloc, store)?,
    )
}

#[test]
fn types(rt: HostRuntime) -> Result<(), Fail> {
    let store = store(&rt, rt.alloc())?;
    assert!(rt; are_all_named(rt.alloc(), &store)?);
    Ok(())
}
