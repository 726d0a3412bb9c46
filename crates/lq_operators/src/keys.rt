//! Keys of values, and the places of what is the same as a value.
ghost use Rattle.std.specs.Prelude.{◌≡◌, map, not, IfOk, OnErr, OnOk};
ghost use Rattle.std.specs.List.{list_any};
ghost use Rattle.lq_value.specs.KeyTests.{key_is};
ghost use Rattle.lq_value.specs.Keys.{key_value};
ghost use Rattle.lq_value.specs.Lookups.{with_key};
ghost use Rattle.lq_value.specs.SameAndOrder.{same_scalars, same_values};
ghost use Rattle.lq_value.specs.declared.value.Value.TheVariants as value;
ghost use Rattle.lq_language.specs.Enumerable.{is_among};
ghost use Rattle.lq_operators.specs.Places.{AreKnown, FindsKeys, IsPlaceOf, passes_at, place_in};

use lq_lookup::{Lookup, Nulls, Numbering};
use lq_value::{Key, RowRef, Scalar, Value, key_of, same};
use std::alloc::{AllocError, Global};

// The keys of values.
fn keys_of<R: RowRef>(alloc: Global, values: &[Value<R>]) -> Result<Vec<Key>, AllocError>
    ensures { IfOk result (λ keys. keys.items ≡ map key_value values.now) }
{
    let mut keys = Vec::with_capacity(alloc, values.len())?;
    for value in values {
        keys.push(key_of(alloc, value)?)?;
    }
    Ok(keys)
}

// The places of each key among these values. What is the same as a value has its key, and so is there; but not all that
// is there is the same, since what isn't a key has the key of null.
pub(crate) fn lookup_of<R: RowRef>(alloc: Global, values: &[Value<R>]) -> Result<Lookup, AllocError>
    ensures { IfOk result (λ lookup. FindsKeys lookup (map key_value values.now)) }
{
    let keys = keys_of(alloc, values)?;
    Lookup::build(alloc, keys.as_slice(), Nulls::Keep)
}

// Whether a value is the same as one of these.
#[tactic(auto, using(crate::proofs::PlaceLemmas::among_places))]
pub(crate) fn is_among<R: RowRef>(
    alloc: Global,
    value: &Value<R>,
    values: &[Value<R>],
    lookup: &Lookup,
) -> Result<bool, AllocError>
    requires { FindsKeys lookup.now (map key_value values.now) }
    ensures { IfOk result (λ answer. answer ≡ is_among same_values value.now values.now) }
{
    let key = key_of(alloc, value)?;
    Ok(is_same_at_one(value, values, lookup.find(&key)))
}

// Whether a value at one of these places is the same as this one.
fn is_same_at_one<R: RowRef>(value: &Value<R>, values: &[Value<R>], places: &[usize]) -> bool
    ensures { result ≡ list_any (passes_at (same_values value.now) values.now) places.now }
{
    for place in places {
        if is_same_at(value, values, *place) {
            return true;
        }
    }
    false
}

// Whether the value at a place is the same as this one.
pub(crate) fn is_same_at<R: RowRef>(value: &Value<R>, values: &[Value<R>], place: usize) -> bool
    ensures { result ≡ passes_at (same_values value.now) values.now place }
{
    match values.get(place) {
        Some(other) => are_same(value, other),
        None => false,
    }
}

// Whether the value at a place, met first, is the same as this one.
#[inline]
pub(crate) fn is_other_same<R: RowRef>(value: &Value<R>, values: &[Value<R>], place: usize) -> bool
    ensures { result ≡ passes_at (λ other. same_values other value.now) values.now place }
{
    match values.get(place) {
        Some(other) => are_same(other, value),
        None => false,
    }
}

// The same of a value that is this scalar.
#[inline]
pub(crate) fn is_other_scalar<R: RowRef>(scalar: &Scalar, values: &[Value<R>], place: usize) -> bool
    ensures { result
        ≡ passes_at (λ other. same_values other (value.Scalar scalar.now)) values.now place }
{
    match values.get(place) {
        Some(other) => is_scalar(other, scalar),
        None => false,
    }
}

// Whether the value at a place is the same as this scalar, which is met first.
#[inline]
pub(crate) fn is_scalar_at<R: RowRef>(scalar: &Scalar, values: &[Value<R>], place: usize) -> bool
    ensures { result ≡ passes_at (same_values (value.Scalar scalar.now)) values.now place }
{
    match values.get(place) {
        Some(other) => is_scalar_of(scalar, other),
        None => false,
    }
}

// Whether this scalar is the same as a value.
#[inline(always)]
#[tactic(auto, using(lq_value::proofs::SamenessLaws::sameness))]
fn is_scalar_of<R: RowRef>(scalar: &Scalar, other: &Value<R>) -> bool
    ensures { result ≡ same_values (value.Scalar scalar.now) other.now }
{
    match other {
        Value::Scalar(other) => are_same_scalars(scalar, other),
        _ => false,
    }
}

// Whether two values are the same: a scalar is compared at once.
#[inline]
fn are_same<R: RowRef>(left: &Value<R>, right: &Value<R>) -> bool
    ensures { result ≡ same_values left.now right.now }
{
    match right {
        Value::Scalar(scalar) => is_scalar(left, scalar),
        _ => same(left, right),
    }
}

// Whether a value is the same as this scalar.
#[inline(always)]
#[tactic(auto, using(lq_value::proofs::SamenessLaws::sameness, crate::proofs::KnownLemmas::other_scalar))]
fn is_scalar<R: RowRef>(other: &Value<R>, scalar: &Scalar) -> bool
    ensures { result ≡ same_values other.now (value.Scalar scalar.now) }
{
    match other {
        Value::Scalar(other) => are_same_scalars(other, scalar),
        _ => false,
    }
}

// Whether two scalars are the same: two ints are compared at once.
#[inline(always)]
fn are_same_scalars(left: &Scalar, right: &Scalar) -> bool
    ensures { result ≡ same_scalars left.now right.now }
{
    match (left, right) {
        (Scalar::Int(left), Scalar::Int(right)) => left == right,
        _ => are_same_contents(left, right),
    }
}

// The same of any two, by a call, so that what compares two ints stays short.
#[inline(never)]
fn are_same_contents(left: &Scalar, right: &Scalar) -> bool
    ensures { result ≡ same_scalars left.now right.now }
{
    match (left, right) {
        (Scalar::Null, Scalar::Null) => true,
        (Scalar::Int(left), Scalar::Int(right)) => left == right,
        (Scalar::Bool(left), Scalar::Bool(right)) => left == right,
        (Scalar::Text(left), Scalar::Text(right)) => left.as_str() == right.as_str(),
        _ => false,
    }
}

// Whether a value is the same as none of these, whose keys are among the keys; and a place, where one that is the same is likely
// to be. The value's own key is there from then on.
pub(crate) fn is_first<R: RowRef>(
    alloc: Global,
    keys: &mut Numbering,
    values: &[Value<R>],
    value: &Value<R>,
) -> Result<(bool, usize), AllocError>
    requires { AreKnown keys.old values.now }
    ensures answer { IfOk result (λ answer. answer.0
        ≡ not (list_any (λ other. same_values other value.now) values.now)) }
    ensures keys { OnOk result (keys.new ≡ with_key key_is keys.old (key_value value.now)) }
    ensures refused { OnErr result (keys.new ≡ keys.old) }
{
    let key = key_of(alloc, value)?;
    let (number, is_new) = keys.number(key)?;
    Ok((is_new || !is_among_near(value, values, number), number))
}

// Whether a value is the same as one of these, where the one at this place is likely to be it.
fn is_among_near<R: RowRef>(value: &Value<R>, values: &[Value<R>], place: usize) -> bool
    ensures { result ≡ list_any (λ other. same_values other value.now) values.now }
{
    is_other_same(value, values, place) || is_one_same(value, values)
}

// Whether a value is the same as one of these, asked one by one.
fn is_one_same<R: RowRef>(value: &Value<R>, values: &[Value<R>]) -> bool
    ensures { result ≡ list_any (λ other. same_values other value.now) values.now }
{
    for other in values {
        if same(other, value) {
            return true;
        }
    }
    false
}

// The place of the group of a key, past the last one where there is none. The groups' keys are among the keys, and so is this
// one from then on.
pub(crate) fn place_of<R: RowRef, V>(
    alloc: Global,
    keys: &mut Numbering,
    groups: &[(Value<R>, V)],
    key: &Value<R>,
) -> Result<usize, AllocError>
    requires { AreKnown keys.old (map (λ group. group.0) groups.now) }
    ensures place { IfOk result (IsPlaceOf key.now groups.now) }
    ensures keys { OnOk result (keys.new ≡ with_key key_is keys.old (key_value key.now)) }
    ensures refused { OnErr result (keys.new ≡ keys.old) }
{
    let hashed = key_of(alloc, key)?;
    let (number, is_new) = keys.number(hashed)?;
    if is_new {
        return Ok(groups.len());
    }
    Ok(place_near(key, groups, number))
}

// The place of the group of a key, where the one at this place is likely to be it.
fn place_near<R: RowRef, V>(key: &Value<R>, groups: &[(Value<R>, V)], place: usize) -> usize
    ensures { IsPlaceOf key.now groups.now result }
{
    if is_group_of(key, groups, place) {
        return place;
    }
    first_group_of(key, groups)
}

// Whether the group at a place is that of a key.
#[inline]
pub(crate) fn is_group_of<R: RowRef, V>(
    key: &Value<R>,
    groups: &[(Value<R>, V)],
    place: usize,
) -> bool
    ensures { result ≡ passes_at (λ group. same_values group.0 key.now) groups.now place }
{
    match groups.get(place) {
        Some(group) => are_same(&group.0, key),
        None => false,
    }
}

// The same of a key that is this scalar.
#[inline]
pub(crate) fn is_group_of_scalar<R: RowRef, V>(
    key: &Scalar,
    groups: &[(Value<R>, V)],
    place: usize,
) -> bool
    ensures { result
        ≡ passes_at (λ group. same_values group.0 (value.Scalar key.now)) groups.now place }
{
    match groups.get(place) {
        Some(group) => is_scalar(&group.0, key),
        None => false,
    }
}

// The place of the first group of a key, asked one by one.
fn first_group_of<R: RowRef, V>(key: &Value<R>, groups: &[(Value<R>, V)]) -> usize
    ensures { result ≡ place_in (λ group. same_values group.0 key.now) groups.now }
{
    for (place, group) in groups.iter().enumerate() {
        if same(&group.0, key) {
            return place;
        }
    }
    groups.len()
}
