//! The distinct items: each at its first appearance.
ghost use Rattle.std.specs.Prelude.{◌≡◌, IfOk};
ghost use Rattle.lq_value.specs.SameAndOrder.{same_values};
ghost use Rattle.lq_language.specs.Stream.{first_keys};
ghost use Rattle.lq_operators.specs.Places.{AreKnown};

use crate::hints::Hints;
use crate::keys::{is_first, is_other_same, is_other_scalar};
use lq_lookup::Numbering;
use lq_value::{List, RowRef, Scalar, Value, copy_scalar};
use std::alloc::{AllocError, Global};

/// The distinct items of those that were added, each at its first appearance (.NET,
/// Enumerable.Distinct). Contracts see it through `firsts_in`, the list of these.
#[derive(Drop)]
pub struct Distinct<R> {
    keys: Numbering,
    firsts: List<Value<R>>,
    hints: Hints,
    ghost known: { AreKnown keys firsts },
}

impl<R: RowRef> Distinct<R> {
    ghost use Rattle.std.specs.Prelude.{◌≡◌, [], IfOk, OnOk};
    ghost use Rattle.lq_value.specs.declared.value.Value.TheVariants as value;
    ghost use Rattle.lq_operators.specs.Firsts.{AddsFirst, firsts_in};

    /// Of no items, with room for `room` of them.
    pub fn new(alloc: Global, room: usize) -> Result<Distinct<R>, AllocError>
        ensures { IfOk result (λ distinct. firsts_in distinct ≡ []) }
    {
        let keys = Numbering::new(alloc, room)?;
        let firsts = List::new(alloc);
        let hints = Hints::new(alloc);
        Ok(Distinct {
            keys,
            firsts,
            hints,
        })
    }

    /// Puts an item after the others, unless it is the same as one of them. It is moved, and its key
    /// is hashed once at most.
    #[inline]
    pub fn add(&mut self, alloc: Global, item: Value<R>) -> Result<(), AllocError>
        ensures { OnOk result (AddsFirst (firsts_in self.old) (firsts_in self.new) item) }
    {
        let hint = self.hints.place(&item);
        if is_other_same(&item, self.firsts.as_slice(), hint) {
            return Ok(());
        }
        self.add_by_key(alloc, item)
    }

    /// The same of an item that is this scalar: it is copied only where a hint doesn't find it.
    #[inline]
    pub fn add_scalar(&mut self, alloc: Global, item: &Scalar) -> Result<(), AllocError>
        ensures { OnOk result
            (AddsFirst (firsts_in self.old) (firsts_in self.new) (value.Scalar item.now)) }
    {
        let hint = self.hints.scalar_place(item);
        if is_other_scalar(item, self.firsts.as_slice(), hint) {
            return Ok(());
        }
        self.add_copy(alloc, item)
    }

    // The same, by the key of a copy.
    fn add_copy(&mut self, alloc: Global, item: &Scalar) -> Result<(), AllocError>
        ensures { OnOk result
            (AddsFirst (firsts_in self.old) (firsts_in self.new) (value.Scalar item.now)) }
    {
        let copy = copy_scalar(alloc, item)?;
        self.add_by_key(alloc, Value::Scalar(copy))
    }

    // The same, by the item's key.
    fn add_by_key(&mut self, alloc: Global, item: Value<R>) -> Result<(), AllocError>
        ensures { OnOk result (AddsFirst (firsts_in self.old) (firsts_in self.new) item) }
    {
        let (is_first, place) = is_first(alloc, &mut self.keys, self.firsts.as_slice(), &item)?;
        self.hints.set(alloc, &item, place);
        if is_first {
            return self.firsts.push(item);
        }
        Ok(())
    }

    /// The distinct items, in the order in which they came.
    pub fn into_items(self) -> List<Value<R>>
        ensures { result ≡ firsts_in self }
    {
        let Distinct { firsts, .. } = self;
        firsts
    }
}

// The items that are the same as none before them, moved and not copied.
pub(crate) fn firsts_of<R: RowRef>(
    alloc: Global,
    items: List<Value<R>>,
) -> Result<List<Value<R>>, AllocError>
    ensures { IfOk result (λ firsts. firsts ≡ first_keys same_values items) }
{
    let mut distinct = Distinct::new(alloc, items.len())?;
    for item in items.into_vec() {
        distinct.add(alloc, item)?;
    }
    Ok(distinct.into_items())
}
