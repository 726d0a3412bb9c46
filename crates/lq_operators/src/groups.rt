//! Groups of items by their keys.
ghost use Rattle.std.specs.Prelude.{◌≡◌, [], ◌∷◌, if◌then◌else◌, map, IfOk, OnOk};
ghost use Rattle.lq_value.specs.SameAndOrder.{same_values};
ghost use Rattle.lq_language.specs.ClauseMeaning.{as_group};
ghost use Rattle.lq_language.specs.Stream.{groups_of};
ghost use Rattle.lq_operators.specs.Places.{AreKnown, pushed_at};

use crate::hints::Hints;
use crate::keys::{is_group_of, is_group_of_scalar, place_of};
use lq_lookup::Numbering;
use lq_value::{Held, List, RowRef, Scalar, Value, copy_scalar, same};
use std::alloc::{AllocError, Global};

/// Elements in groups by their keys, put there one after another (.NET, Enumerable.GroupBy). Contracts
/// see it through `groups_in`: the keys in the order of their first appearances, each with its elements
/// in their order. Null is a key as any other.
#[derive(Drop)]
pub struct Grouping<R> {
    keys: Numbering,
    groups: Vec<(Value<R>, List<Value<R>>)>,
    hints: Hints,
    ghost known: { AreKnown keys (map (λ group. group.0) groups.items) },
}

impl<R: RowRef> Grouping<R> {
    ghost use Rattle.std.specs.Prelude.{◌≡◌, [], map, IfOk, OnOk};
    ghost use Rattle.lq_value.specs.SameAndOrder.{same_values};
    ghost use Rattle.lq_language.specs.ClauseMeaning.{as_group};
    ghost use Rattle.lq_value.specs.declared.value.Value.TheVariants as value;
    ghost use Rattle.lq_language.specs.Stream.{groups_of};
    ghost use Rattle.lq_operators.specs.Groups.{AddsPair, groups_in};

    /// Of no elements, with room for `room` keys.
    pub fn new(alloc: Global, room: usize) -> Result<Grouping<R>, AllocError>
        ensures { IfOk result (λ grouping. groups_in grouping ≡ []) }
    {
        let keys = Numbering::new(alloc, room)?;
        let groups = Vec::new(alloc);
        let hints = Hints::new(alloc);
        Ok(Grouping {
            keys,
            groups,
            hints,
        })
    }

    /// Puts an element after those of its key, or into a new group behind the others. Key and element
    /// are moved, and the key is hashed once at most.
    #[inline]
    pub fn add(&mut self, alloc: Global, key: Value<R>, element: Value<R>) -> Result<(), AllocError>
        ensures { OnOk result (AddsPair (groups_in self.old) (groups_in self.new) key element) }
    {
        let hint = self.hints.place(&key);
        if is_group_of(&key, self.groups.as_slice(), hint) {
            return push_at(&mut self.groups, hint, element);
        }
        self.add_by_key(alloc, key, element)
    }

    /// The same, where the key is this scalar: it is copied only where a hint doesn't find its group.
    #[inline]
    pub fn add_by_scalar(
        &mut self,
        alloc: Global,
        key: &Scalar,
        element: Value<R>,
    ) -> Result<(), AllocError>
        ensures { OnOk result
            (AddsPair (groups_in self.old) (groups_in self.new) (value.Scalar key.now) element) }
    {
        let hint = self.hints.scalar_place(key);
        if is_group_of_scalar(key, self.groups.as_slice(), hint) {
            return push_at(&mut self.groups, hint, element);
        }
        self.add_by_copy(alloc, key, element)
    }

    // The same, by the number of the key's copy.
    fn add_by_copy(
        &mut self,
        alloc: Global,
        key: &Scalar,
        element: Value<R>,
    ) -> Result<(), AllocError>
        ensures { OnOk result
            (AddsPair (groups_in self.old) (groups_in self.new) (value.Scalar key.now) element) }
    {
        let copy = copy_scalar(alloc, key)?;
        self.add_by_key(alloc, Value::Scalar(copy), element)
    }

    // The same, by the key's number.
    fn add_by_key(
        &mut self,
        alloc: Global,
        key: Value<R>,
        element: Value<R>,
    ) -> Result<(), AllocError>
        ensures { OnOk result (AddsPair (groups_in self.old) (groups_in self.new) key element) }
    {
        let place = place_of(alloc, &mut self.keys, self.groups.as_slice(), &key)?;
        self.hints.set(alloc, &key, place);
        if place < self.groups.len() {
            return push_at(&mut self.groups, place, element);
        }
        let group = new_group(alloc, key, element)?;
        self.groups.push(group)?;
        Ok(())
    }

    // The elements of pairs by their keys.
    fn gather(alloc: Global, pairs: List<(Value<R>, Value<R>)>) -> Result<Grouping<R>, AllocError>
        ensures { IfOk result (λ grouping. groups_in grouping ≡ groups_of same_values pairs) }
    {
        let mut grouping = Grouping::new(alloc, pairs.len())?;
        for (key, element) in pairs.into_vec() {
            grouping.add(alloc, key, element)?;
        }
        Ok(grouping)
    }

    /// The groups, each as a value.
    pub fn into_groups(self, alloc: Global) -> Result<List<Value<R>>, AllocError>
        ensures { IfOk result (λ groups. groups ≡ map as_group (groups_in self)) }
    {
        let Grouping { groups, .. } = self;
        group_values(alloc, groups)
    }
}

/// The groups of pairs of a key and an element, in the order of the keys' first appearances, each with
/// its elements in their order, moved and not copied (.NET, Enumerable.GroupBy). Null is a key as any
/// other.
pub fn group_pairs<R: RowRef>(
    alloc: Global,
    pairs: List<(Value<R>, Value<R>)>,
) -> Result<List<Value<R>>, AllocError>
    ensures { IfOk result (λ groups. groups ≡ map as_group (groups_of same_values pairs)) }
{
    let grouping = Grouping::gather(alloc, pairs)?;
    grouping.into_groups(alloc)
}

// Puts an element after those of the group at a place.
#[inline]
fn push_at<K: Drop, V: Drop>(
    groups: &mut Vec<(K, List<V>)>,
    place: usize,
    element: V,
) -> Result<(), AllocError>
    ensures element { OnOk result (groups.new.items ≡ pushed_at groups.old.items place element) }
    ensures keys { map (λ group. group.0) groups.new.items
        ≡ map (λ group. group.0) groups.old.items }
{
    match groups.get_mut(place) {
        Some(group) => group.1.push(element),
        None => Ok(()),
    }
}

// The group of a key with its first element, or with none where the key isn't the same as itself.
fn new_group<R: RowRef>(
    alloc: Global,
    key: Value<R>,
    element: Value<R>,
) -> Result<(Value<R>, List<Value<R>>), AllocError>
    ensures { IfOk result (λ group. group
        ≡ (key, (if same_values key key then element ∷ [] else []))) }
{
    let mut elements = List::new(alloc);
    if same(&key, &key) {
        elements.push(element)?;
    }
    Ok((key, elements))
}

// The values of groups.
fn group_values<R: RowRef>(
    alloc: Global,
    groups: Vec<(Value<R>, List<Value<R>>)>,
) -> Result<List<Value<R>>, AllocError>
    ensures { IfOk result (λ values. values ≡ map as_group groups.items) }
{
    let mut values = List::new(alloc);
    for (key, elements) in groups {
        let key = Held::new(alloc, key)?;
        values.push(Value::Group(key, elements))?;
    }
    Ok(values)
}
