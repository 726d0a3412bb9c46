//! Tallies of rows by their keys.
ghost use Rattle.std.specs.Prelude.{map};
ghost use Rattle.lq_operators.specs.Places.{AreKnown};

use crate::hints::Hints;
use crate::keys::{is_group_of_scalar, place_of};
use crate::numbers::Tally;
use crate::tally_rows::{RowNumbers, add_row_at, new_group};
use lq_lookup::Numbering;
use lq_value::{Fault, List, RowRef, Scalar, Value, copy_scalar};
use std::alloc::{AllocError, Global};

/// Rows of numbers that are tallied by their keys as they come, so that no row is kept (.NET,
/// Enumerable.GroupBy with Count, Sum, Min and Max of each group). Contracts see it through
/// `tallies_in`: the keys in the order of their first appearances, each with its tallies, which are as
/// many as `begins` has. A tally that met a fault stays at that fault, and the others go on. Null is a
/// key as any other.
#[derive(Drop)]
pub struct GroupTallies<R> {
    keys: Numbering,
    groups: Vec<(Value<R>, List<Result<Tally, Fault>>)>,
    hints: Hints,
    begins: List<Tally>,
    ghost known: { AreKnown keys (map (λ group. group.0) groups.items) },
}

impl<R: RowRef> GroupTallies<R> {
    ghost use Rattle.std.specs.Prelude.{◌≡◌, [], IfOk, OnOk};
    ghost use Rattle.lq_value.specs.declared.value.Value.TheVariants as value;
    ghost use Rattle.lq_operators.specs.GroupTallies.{AddsRow, numbers_at, numbers_in, tallies_in};

    /// Of no rows. The tallies of each key begin as these, and a row has a number for each of them, at
    /// its place.
    pub fn new(alloc: Global, begins: List<Tally>) -> Result<GroupTallies<R>, AllocError>
        ensures rows { IfOk result (λ groups. tallies_in groups ≡ []) }
        ensures begins { IfOk result (λ groups. groups.begins ≡ begins) }
    {
        let keys = Numbering::new(alloc, 0)?;
        let groups = Vec::new(alloc);
        let hints = Hints::new(alloc);
        Ok(GroupTallies {
            keys,
            groups,
            hints,
            begins,
        })
    }

    /// Puts a row of numbers to the tallies of its key, or to those of a new key behind the others.
    /// The key is copied and hashed only where a hint doesn't find it.
    #[inline]
    pub fn add_row(
        &mut self,
        alloc: Global,
        key: &Scalar,
        cells: &[Scalar],
        places: &[Option<usize>],
    ) -> Result<(), AllocError>
        ensures row { OnOk result (AddsRow self.old.begins (tallies_in self.old)
            (tallies_in self.new) (value.Scalar key.now) (numbers_at cells.now places.now)) }
        ensures begins { self.new.begins ≡ self.old.begins }
    {
        let numbers = RowNumbers { cells, places };
        let hint = self.hints.scalar_place(key);
        if is_group_of_scalar(key, self.groups.as_slice(), hint) {
            add_row_at(&mut self.groups, hint, numbers);
            return Ok(());
        }
        self.add_by_copy(alloc, key, numbers)
    }

    // The same, by the number of the key's copy: by a call, so that what a hint finds takes few registers.
    #[inline(never)]
    fn add_by_copy(
        &mut self,
        alloc: Global,
        key: &Scalar,
        numbers: RowNumbers<'_>,
    ) -> Result<(), AllocError>
        ensures row { OnOk result (AddsRow self.old.begins (tallies_in self.old)
            (tallies_in self.new) (value.Scalar key.now) (numbers_in numbers.entry)) }
        ensures begins { self.new.begins ≡ self.old.begins }
    {
        let copy = copy_scalar(alloc, key)?;
        self.add_by_key(alloc, Value::Scalar(copy), numbers)
    }

    // The same, by the key's number.
    fn add_by_key(
        &mut self,
        alloc: Global,
        key: Value<R>,
        numbers: RowNumbers<'_>,
    ) -> Result<(), AllocError>
        ensures row { OnOk result (AddsRow self.old.begins (tallies_in self.old)
            (tallies_in self.new) key (numbers_in numbers.entry)) }
        ensures begins { self.new.begins ≡ self.old.begins }
    {
        let place = place_of(alloc, &mut self.keys, self.groups.as_slice(), &key)?;
        self.hints.set(alloc, &key, place);
        if place < self.groups.len() {
            add_row_at(&mut self.groups, place, numbers);
            return Ok(());
        }
        let group = new_group(alloc, self.begins.as_slice(), key, numbers)?;
        self.groups.push(group)?;
        Ok(())
    }

    /// The keys, each with its tallies. Takes no memory.
    pub fn into_groups(self) -> List<(Value<R>, List<Result<Tally, Fault>>)>
        ensures { result ≡ tallies_in self }
    {
        let GroupTallies { groups, .. } = self;
        List::from_vec(groups)
    }
}
