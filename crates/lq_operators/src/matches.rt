//! The inner side of a join.
ghost use Rattle.std.specs.Prelude.{◌≡◌, false, map, IfSome};
ghost use Rattle.lq_value.specs.Keys.{key_of_scalar, key_value};
ghost use Rattle.lq_value.specs.declared.value.Value.{out-Value};
ghost use Rattle.lq_language.specs.ClauseMeaning.{is_null_layer};
ghost use Rattle.lq_language.specs.OperandMeaning.{is_null};
ghost use Rattle.lq_operators.specs.Places.{FindsKeys};

use crate::keys::{is_same_at, is_scalar_at, lookup_of};
use crate::pairs::{elements_of, split};
use lq_lookup::Lookup;
use lq_value::{Key, List, RowRef, Scalar, Value, copy_scalar, key_of};
use std::alloc::{AllocError, Global};

/// Items with their keys, prepared for a join (.NET, Enumerable.Join and GroupJoin). Contracts
/// see it through `pairs_of`, the list of the pairs of a key and its item.
#[derive(Drop)]
pub struct Matches<R> {
    keys: List<Value<R>>,
    items: List<Value<R>>,
    lookup: Lookup,
    ghost finds: { FindsKeys lookup (map key_value keys) },
}

impl<R: RowRef> Matches<R> {
    ghost use Rattle.std.specs.Prelude.{◌≡◌, IfOk};
    ghost use Rattle.std.specs.Option.{option_map};
    ghost use Rattle.lq_value.specs.declared.value.Value.TheVariants as value;
    ghost use Rattle.lq_language.specs.ClauseMeaning.{matches};
    ghost use Rattle.lq_operators.specs.Matching.{item_at, items_at, pairs_of};

    /// The pairs of a key and its item, in their order.
    #[tactic(auto, using(crate::proofs::PairLemmas::zip_both), unfolding(crate::specs::Matching::pairs_of))]
    pub fn build(alloc: Global, pairs: List<(Value<R>, Value<R>)>) -> Result<Matches<R>, AllocError>
        ensures { IfOk result (λ side. pairs_of side ≡ pairs) }
    {
        let (keys, items) = split(alloc, pairs)?;
        let lookup = lookup_of(alloc, keys.as_slice())?;
        Ok(Matches {
            keys,
            items,
            lookup,
        })
    }

    /// Copies of the items whose keys are the same as `key`, in their order. A key that is itself
    /// null is the same as none; a record with null members is a key as any other.
    #[tactic(auto, unfolding(crate::specs::Matching::pairs_of))]
    pub fn find(&self, alloc: Global, key: &Value<R>) -> Result<List<Value<R>>, AllocError>
        ensures { IfOk result (λ items. items ≡ matches key.now (pairs_of self.now)) }
    {
        if is_null(key) {
            return Ok(List::new(alloc));
        }
        elements_of(
            alloc,
            key,
            self.keys.as_slice(),
            self.items.as_slice(),
            &self.lookup,
        )
    }

    /// Places at which `item` gives, one after another, exactly the items whose keys are the same as
    /// `key`, in their order. A key that is itself null has none.
    pub fn places(&self, alloc: Global, key: &Value<R>) -> Result<&[usize], AllocError>
        ensures { IfOk result (λ places. items_at self.now key.now places.now
            ≡ matches key.now (pairs_of self.now)) }
    {
        match int_key(key) {
            Some(hashed) => Ok(self.lookup.find(&hashed)),
            None => self.places_by_key(alloc, key),
        }
    }

    // The same, whatever the key is.
    #[tactic(auto, unfolding(crate::specs::Matching::pairs_of))]
    fn places_by_key(&self, alloc: Global, key: &Value<R>) -> Result<&[usize], AllocError>
        ensures { IfOk result (λ places. items_at self.now key.now places.now
            ≡ matches key.now (pairs_of self.now)) }
    {
        if is_null(key) {
            return Ok(&[]);
        }
        let hashed = key_of(alloc, key)?;
        Ok(self.lookup.find(&hashed))
    }

    /// The same places of a key that is this scalar. An int is looked for as it stands; any other scalar is
    /// copied.
    #[inline]
    pub fn places_of_scalar(&self, alloc: Global, key: &Scalar) -> Result<&[usize], AllocError>
        ensures { IfOk result (λ places. items_at self.now (value.Scalar key.now) places.now
            ≡ matches (value.Scalar key.now) (pairs_of self.now)) }
    {
        match int_scalar_key(key) {
            Some(hashed) => Ok(self.lookup.find(&hashed)),
            None => self.places_by_copy(alloc, key),
        }
    }

    // The same, by a copy of the scalar.
    #[inline(never)]
    fn places_by_copy(&self, alloc: Global, key: &Scalar) -> Result<&[usize], AllocError>
        ensures { IfOk result (λ places. items_at self.now (value.Scalar key.now) places.now
            ≡ matches (value.Scalar key.now) (pairs_of self.now)) }
    {
        let copy = copy_scalar(alloc, key)?;
        self.places_by_key(alloc, &Value::Scalar(copy))
    }

    /// The item at a place, where its key is the same as `key`. Takes no memory.
    #[tactic(auto, unfolding(crate::specs::Matching::item_at))]
    pub fn item(&self, key: &Value<R>, place: usize) -> Option<&Value<R>>
        ensures { option_map (λ item. item.now) result ≡ item_at self.now key.now place }
    {
        if is_same_at(key, self.keys.as_slice(), place) {
            return self.items.as_slice().get(place);
        }
        None
    }

    /// The same item of a key that is this scalar. Takes no memory.
    #[inline]
    #[tactic(auto, unfolding(crate::specs::Matching::item_at))]
    pub fn item_of_scalar(&self, key: &Scalar, place: usize) -> Option<&Value<R>>
        ensures { option_map (λ item. item.now) result
            ≡ item_at self.now (value.Scalar key.now) place }
    {
        if is_scalar_at(key, self.keys.as_slice(), place) {
            return self.items.as_slice().get(place);
        }
        None
    }
}

// Whether a value is null.
#[tactic(auto, using(crate::proofs::Opens::layers))]
fn is_null<R: RowRef>(value: &Value<R>) -> bool
    ensures { result ≡ is_null_layer (out-Value R value.now) }
{
    match value {
        Value::Scalar(Scalar::Null) => true,
        Value::Scalar(_) => false,
        Value::Row(_) => false,
        Value::Rec(_) => false,
        Value::Group(_, _) => false,
        Value::Seq(_, _) => false,
    }
}

// The key of a value that is an int.
#[inline]
#[tactic(auto, using(lq_value::proofs::KeyLaws::keying, crate::proofs::Opens::layers))]
fn int_key<R: RowRef>(value: &Value<R>) -> Option<Key>
    ensures { IfSome result (λ key. (key ≡ key_value value.now)
        × (is_null_layer (out-Value R value.now) ≡ false)) }
{
    match value {
        Value::Scalar(Scalar::Int(int)) => Some(Key::Int(*int)),
        _ => None,
    }
}

// The same of a scalar.
#[inline]
fn int_scalar_key(scalar: &Scalar) -> Option<Key>
    ensures { IfSome result (λ key. (key ≡ key_of_scalar scalar.now)
        × (is_null scalar.now ≡ false)) }
{
    match scalar {
        Scalar::Int(int) => Some(Key::Int(*int)),
        _ => None,
    }
}
