//! The slots of an index with their groups: searches, rows that are added and removed, and growth.
ghost use Rattle.std.specs.Prelude.{◌≤◌, length};
ghost use Rattle.lq_index.specs.Slots.{AreOwned};

use crate::cells::is_cell_at;
use crate::compaction::number_slots;
use crate::groups::{Groups, first_of};
use crate::hashing::{hash_of, home};
use crate::moves::{free_slots, put};
use crate::renumbering::renumber_slots;
use crate::slot::{Seat, Slot, Spot, is_free, is_live};
use lq_value::{Row, Scalar};
use std::alloc::{AllocError, Global};

// The greatest place that a slot holds, and the greatest number of a group.
const MOST: usize = 4_294_967_295;

// Open addressing without a way round the end: a search begins at the home of its hash among `width`
// slots and goes on slot by slot to a free one. Behind the last slot all are free, so a slot that is
// needed there is pushed.
#[derive(Drop)]
pub struct SlotTable {
    pub width: u32,
    pub slots: Vec<Slot>,
    pub groups: Groups,
    // How many slots were taken since they were last moved, and while the index is built how many rows
    // there are to be. Both tell only how wide the table becomes.
    used: u32,
    expected: usize,
    ghost owned: { AreOwned groups slots.items },
    ghost sized: { width ≤ length slots.items },
}

impl SlotTable {
    ghost use Rattle.std.specs.Prelude.{◌≡◌, ◌≢◌, ◌<◌, ◌≤◌, ◌++◌, [], ◌∷◌, ℕ, length, IfOk, OnOk, OnErr};
    ghost use Rattle.lq_value.specs.SameAndOrder.{same_scalars};
    ghost use Rattle.lq_value.specs.Lookups.{places};
    ghost use Rattle.lq_index.specs.Entries.{AreNumbers, IsIndex, cell_of, cells_of};
    ghost use Rattle.lq_index.specs.Hashes.{hash_of};
    ghost use Rattle.lq_index.specs.Keys.{Cells};
    ghost use Rattle.lq_index.specs.Removals.{Leaves};
    ghost use Rattle.lq_index.specs.Searches.{Sits};
    ghost use Rattle.lq_index.specs.Slots.{AreOwned, IsThere, Joins, Takes, entry_at, entry_of, head_of, is_entry_of, places_in, slot_at};

    // No slots, where so many rows are expected. Takes no memory.
    pub(crate) fn new(alloc: Global, expected: usize) -> SlotTable
        ensures { IsIndex result.width (entry_at result.groups result.slots.items) [] }
    {
        let slots = Vec::new(alloc);
        let groups = Groups::new(alloc);
        SlotTable {
            width: 0,
            slots,
            groups,
            used: 0,
            expected,
        }
    }

    // The table of a column of these rows.
    pub(crate) fn build(alloc: Global, rows: &[Row], column: usize) -> Result<SlotTable, AllocError>
        ensures { IfOk result (λ table. IsIndex table.width
            (entry_at table.groups table.slots.items) (cells_of column rows.now)) }
    {
        let mut table = SlotTable::new(alloc, rows.len());
        for place in 0..rows.len() {
            table.add_row(alloc, &rows[..place], column, &rows[place])?;
        }
        table.expected = 0;
        Ok(table)
    }

    // ---- searches

    // The first of the places that a spot stands for.
    #[inline(always)]
    fn first(&self, spot: Spot) -> Option<usize>
        ensures { result ≡ head_of (places_in self.now.groups spot) }
    {
        match spot {
            Spot::One(place) => Some(place as usize),
            Spot::Many(group) => first_of(self.groups.places(group)),
            Spot::Free => None,
            Spot::Dead => None,
        }
    }

    // Whether a slot is that of `key`, which has this hash.
    #[inline(always)]
    fn is_slot(&self, rows: &[Row], column: usize, slot: Slot, hash: u32, key: &Scalar) -> bool
        requires { hash ≡ hash_of key.now }
        ensures { result
            ≡ is_entry_of key.now (cells_of column rows.now) (entry_of self.now.groups slot) }
    {
        if slot.hash != hash {
            return false;
        }
        match self.first(slot.spot) {
            Some(place) => is_cell_at(rows, column, place, key),
            None => false,
        }
    }

    // Where the search for `key`, which has this hash, ends.
    fn search(&self, rows: &[Row], column: usize, hash: u32, key: &Scalar) -> Seat
        requires { hash ≡ hash_of key.now }
        ensures { Sits self.now.width (entry_at self.now.groups self.now.slots.items)
            (length self.now.slots.items) (cells_of column rows.now) key.now result }
    {
        let mut at = home(self.width, hash);
        while at < self.slots.len() {
            let slot = self.slots[at];
            if is_free(slot.spot) {
                return Seat::Vacant(at);
            }
            if self.is_slot(rows, column, slot, hash, key) {
                return Seat::Occupied(at);
            }
            at += 1;
        }
        Seat::Vacant(at)
    }

    // The places that a spot stands for. A place that stands alone is lent from the numbers.
    #[inline(always)]
    fn places_in<'a>(&'a self, identity: &'a [usize], spot: Spot) -> &'a [usize]
        requires { IsThere identity.now spot }
        ensures { result.now ≡ places_in self.now.groups spot }
    {
        match spot {
            Spot::One(place) => &identity[place as usize..place as usize + 1],
            Spot::Many(group) => self.groups.places(group),
            Spot::Free => &[],
            Spot::Dead => &[],
        }
    }

    // The places, in order, of the rows whose cell is the same as `key`. Takes no memory.
    pub(crate) fn find<'a>(
        &'a self,
        rows: &[Row],
        column: usize,
        identity: &'a [usize],
        key: &Scalar,
    ) -> &'a [usize]
        requires index { IsIndex self.now.width (entry_at self.now.groups self.now.slots.items)
            (cells_of column rows.now) }
        requires identity { AreNumbers identity.now (length rows.now) }
        ensures { result.now ≡ places (same_scalars key.now) (cells_of column rows.now) }
    {
        match self.search(rows, column, hash_of(key), key) {
            Seat::Occupied(at) => self.places_in(identity, self.slots[at].spot),
            Seat::Vacant(_) => &[],
        }
    }

    // ---- rows that are added

    // Puts the row behind the last one, whose cell is `key`, into the index. Where memory is refused
    // the index is that of the rows as they were.
    pub(crate) fn add(
        &mut self,
        alloc: Global,
        rows: &[Row],
        column: usize,
        key: &Scalar,
    ) -> Result<(), AllocError>
        requires { IsIndex self.old.width (entry_at self.old.groups self.old.slots.items)
            (cells_of column rows.now) }
        ensures ok { OnOk result (IsIndex self.new.width
            (entry_at self.new.groups self.new.slots.items)
            (cells_of column rows.now ++ key.now ∷ [])) }
        ensures err { OnErr result (IsIndex self.new.width
            (entry_at self.new.groups self.new.slots.items) (cells_of column rows.now)) }
    {
        self.make_room(alloc, rows.len())?;
        self.put_key(alloc, rows, column, key)
    }

    // Puts a row behind the last one into the index.
    fn add_row(
        &mut self,
        alloc: Global,
        rows: &[Row],
        column: usize,
        row: &Row,
    ) -> Result<(), AllocError>
        requires { IsIndex self.old.width (entry_at self.old.groups self.old.slots.items)
            (cells_of column rows.now) }
        ensures ok { OnOk result (IsIndex self.new.width
            (entry_at self.new.groups self.new.slots.items)
            (cells_of column rows.now ++ cell_of column row.now ∷ [])) }
        ensures err { OnErr result (IsIndex self.new.width
            (entry_at self.new.groups self.new.slots.items) (cells_of column rows.now)) }
    {
        match row.cells.as_slice().get(column) {
            Some(key) => self.add(alloc, rows, column, key),
            None => self.add(alloc, rows, column, &Scalar::Null),
        }
    }

    // Puts the row behind the last one, whose cell is `key`, into the index, in the room that there
    // is.
    fn put_key(
        &mut self,
        alloc: Global,
        rows: &[Row],
        column: usize,
        key: &Scalar,
    ) -> Result<(), AllocError>
        requires { IsIndex self.old.width (entry_at self.old.groups self.old.slots.items)
            (cells_of column rows.now) }
        ensures ok { OnOk result (IsIndex self.new.width
            (entry_at self.new.groups self.new.slots.items)
            (cells_of column rows.now ++ key.now ∷ [])) }
        ensures err { OnErr result (IsIndex self.new.width
            (entry_at self.new.groups self.new.slots.items) (cells_of column rows.now)) }
    {
        let place = rows.len();
        if place > MOST {
            return Err(AllocError);
        }
        let hash = hash_of(key);
        match self.search(rows, column, hash, key) {
            Seat::Occupied(at) => self.join(alloc, at, place),
            Seat::Vacant(at) => self.occupy(at, hash, place as u32),
        }
    }

    // Takes a free slot for a scalar that has this hash and its only place.
    fn occupy(&mut self, at: usize, hash: u32, place: u32) -> Result<(), AllocError>
        requires { at ≤ length self.old.slots.items }
        ensures width { self.new.width ≡ self.old.width }
        ensures ok { OnOk result (Takes (entry_at self.old.groups self.old.slots.items)
            (entry_at self.new.groups self.new.slots.items) at hash place) }
        ensures err { OnErr result ((t : ℕ)
            → entry_at self.new.groups self.new.slots.items t
            ≡ entry_at self.old.groups self.old.slots.items t) }
    {
        let slot = Slot {
            hash,
            spot: Spot::One(place),
        };
        if at < self.slots.len() {
            self.slots[at] = slot;
        } else {
            self.slots.push(slot)?;
        }
        self.used = self.used.saturating_add(1);
        Ok(())
    }

    // Puts a place behind those of a slot that has some.
    fn join(&mut self, alloc: Global, at: usize, place: usize) -> Result<(), AllocError>
        requires inside { at < length self.old.slots.items }
        requires some { (entry_at self.old.groups self.old.slots.items at).places ≢ [] }
        ensures width { self.new.width ≡ self.old.width }
        ensures ok { OnOk result (Joins (entry_at self.old.groups self.old.slots.items)
            (entry_at self.new.groups self.new.slots.items) at place) }
        ensures err { OnErr result ((t : ℕ)
            → entry_at self.new.groups self.new.slots.items t
            ≡ entry_at self.old.groups self.old.slots.items t) }
    {
        let slot = self.slots[at];
        match slot.spot {
            Spot::One(first) => self.open(alloc, at, slot.hash, first, place),
            Spot::Many(group) => self.extend(at, group, place),
            Spot::Free => unreachable!(),
            Spot::Dead => unreachable!(),
        }
    }

    // Makes a group of two places for a slot that has the first of them.
    fn open(
        &mut self,
        alloc: Global,
        at: usize,
        hash: u32,
        first: u32,
        place: usize,
    ) -> Result<(), AllocError>
        requires inside { at < length self.old.slots.items }
        requires slot { slot_at self.old.slots.items at
            ≡ record { hash = hash; spot = Spot.One first } }
        ensures width { self.new.width ≡ self.old.width }
        ensures ok { OnOk result (Joins (entry_at self.old.groups self.old.slots.items)
            (entry_at self.new.groups self.new.slots.items) at place) }
        ensures err { OnErr result ((t : ℕ)
            → entry_at self.new.groups self.new.slots.items t
            ≡ entry_at self.old.groups self.old.slots.items t) }
    {
        let group = self.groups.len();
        if group >= MOST {
            return Err(AllocError);
        }
        self.groups.open(alloc, first as usize, place)?;
        self.slots[at] = Slot {
            hash,
            spot: Spot::Many(group as u32),
        };
        Ok(())
    }

    // Puts a place behind those of a group, which is this slot's.
    fn extend(&mut self, at: usize, group: u32, place: usize) -> Result<(), AllocError>
        requires inside { at < length self.old.slots.items }
        requires slot { (slot_at self.old.slots.items at).spot ≡ Spot.Many group }
        ensures width { self.new.width ≡ self.old.width }
        ensures ok { OnOk result (Joins (entry_at self.old.groups self.old.slots.items)
            (entry_at self.new.groups self.new.slots.items) at place) }
        ensures err { OnErr result ((t : ℕ)
            → entry_at self.new.groups self.new.slots.items t
            ≡ entry_at self.old.groups self.old.slots.items t) }
    {
        self.groups.push(group, place)?;
        Ok(())
    }

    // ---- growth

    // Makes room for one more scalar, that of the row at `place`, where four of five slots were taken.
    // Where memory is refused nothing changes.
    fn make_room(&mut self, alloc: Global, place: usize) -> Result<(), AllocError>
        ensures { (cells : Cells)
            → IsIndex self.old.width (entry_at self.old.groups self.old.slots.items) cells
            → IsIndex self.new.width (entry_at self.new.groups self.new.slots.items) cells }
    {
        if self.used >= self.width / 5 * 4 {
            let width = self.next_width(place);
            if width == self.width {
                self.compact(alloc)?;
            }
            self.move_slots(alloc, width)?;
        }
        Ok(())
    }

    // How wide the table is to be next. Behind the rows that were expected it becomes twice as wide, or
    // stays as wide where moving the slots lets go of most of them, as those that are dead.
    fn next_width(&self, place: usize) -> u32 {
        if place < self.expected {
            width_for(self.width, self.used, place, self.expected)
        } else if self.live() < self.width / 2 {
            self.width
        } else {
            self.width.saturating_mul(2).max(16)
        }
    }

    // How many slots are live.
    fn live(&self) -> u32 {
        let mut count: u32 = 0;
        for slot in self.slots.as_slice() {
            if is_live(slot.spot) {
                count = count.saturating_add(1);
            }
        }
        count
    }

    // Lets go of the groups without places. Where memory is refused nothing changes.
    fn compact(&mut self, alloc: Global) -> Result<(), AllocError>
        ensures { (cells : Cells)
            → IsIndex self.old.width (entry_at self.old.groups self.old.slots.items) cells
            → IsIndex self.new.width (entry_at self.new.groups self.new.slots.items) cells }
    {
        let numbers = self.groups.numbers(alloc)?;
        self.groups.retain_some();
        number_slots(&mut self.slots, numbers.as_slice());
        Ok(())
    }

    // Moves the slots into a table of this width. Where memory is refused nothing changes.
    fn move_slots(&mut self, alloc: Global, width: u32) -> Result<(), AllocError>
        ensures { (cells : Cells)
            → IsIndex self.old.width (entry_at self.old.groups self.old.slots.items) cells
            → IsIndex self.new.width (entry_at self.new.groups self.new.slots.items) cells }
    {
        let slots = self.slots_in(alloc, width)?;
        self.slots = slots;
        self.width = width;
        self.used = self.live();
        Ok(())
    }

    // The live slots in a table of this width, by the hashes that they have.
    fn slots_in(&self, alloc: Global, width: u32) -> Result<Vec<Slot>, AllocError>
        ensures long { IfOk result (λ new. width ≤ length new.items) }
        ensures owned { IfOk result (λ new. AreOwned self.now.groups new.items) }
        ensures index { IfOk result (λ new. (cells : Cells)
            → IsIndex self.now.width (entry_at self.now.groups self.now.slots.items) cells
            → IsIndex width (entry_at self.now.groups new.items) cells) }
    {
        let mut new = free_slots(alloc, width)?;
        for at in 0..self.slots.len() {
            let slot = self.slots[at];
            if is_live(slot.spot) {
                put(&mut new, width, slot)?;
            }
        }
        Ok(new)
    }

    // ---- rows that are removed

    // Gives each place its rank, and lets go of those that have none. Takes no memory.
    pub(crate) fn remove(&mut self, ranks: &[usize])
        ensures width { self.new.width ≡ self.old.width }
        ensures index { (cells left : Cells)
            → IsIndex self.old.width (entry_at self.old.groups self.old.slots.items) cells
            → Leaves ranks.now cells left
            → IsIndex self.new.width (entry_at self.new.groups self.new.slots.items) left }
    {
        self.groups.renumber(ranks);
        renumber_slots(&mut self.slots, ranks, &self.groups);
    }
}

// The next width of a table of `width` slots that has `used` scalars of `place` rows, where there are
// `total` rows: 1.4 slots for each scalar, if the others have as many new ones, but no less than half
// as many slots again, and no more than four times as many.
fn width_for(width: u32, used: u32, place: usize, total: usize) -> u32 {
    if place == 0 {
        return 16;
    }
    let scalars = (used as u64).saturating_mul(total as u64) / place as u64;
    let wanted = (scalars / 5).saturating_mul(7);
    let width = width as u64;
    let least = width + width / 2;
    wanted.max(least).min(width * 4).max(16).min(4_294_967_295) as u32
}
