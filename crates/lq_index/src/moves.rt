//! Slots that are moved into a new table.
ghost use Rattle.std.specs.Prelude.{◌≡◌, ◌<◌, ◌≤◌, ℕ, true, false, length, IfOk, OnOk};
ghost use Rattle.lq_index.specs.Moves.{IsPut};
ghost use Rattle.lq_index.specs.Slots.{is_free, no_slot, slot_at};

use crate::hashing::home;
use crate::slot::{Slot, Spot, is_free};
use std::alloc::{AllocError, Global};

// So many slots that were never taken.
pub(crate) fn free_slots(alloc: Global, width: u32) -> Result<Vec<Slot>, AllocError>
    ensures long { IfOk result (λ slots. length slots.items ≡ width) }
    ensures free { IfOk result (λ slots. (t : ℕ) → slot_at slots.items t ≡ no_slot) }
{
    let mut slots = Vec::with_capacity(alloc, width as usize)?;
    for _ in 0..width {
        slots.push(Slot {
            hash: 0,
            spot: Spot::Free,
        })?;
    }
    Ok(slots)
}

// Puts a slot where none was taken, at its home in a table of this width or behind that.
pub(crate) fn put(slots: &mut Vec<Slot>, width: u32, slot: Slot) -> Result<(), AllocError>
    requires { width ≤ length slots.old.items }
    ensures long { OnOk result (length slots.old.items ≤ length slots.new.items) }
    ensures put { OnOk result (IsPut width slots.old.items slots.new.items slot) }
{
    let at = free_from(slots.as_slice(), home(width, slot.hash));
    if at < slots.len() {
        slots[at] = slot;
    } else {
        slots.push(slot)?;
    }
    Ok(())
}

// The first slot from here on that was never taken.
fn free_from(slots: &[Slot], from: usize) -> usize
    requires { from ≤ length slots.now }
    ensures within { result ≤ length slots.now }
    ensures from { from ≤ result }
    ensures free { is_free (slot_at slots.now result).spot ≡ true }
    ensures full { (t : ℕ) → from ≤ t → t < result → is_free (slot_at slots.now t).spot ≡ false }
{
    let mut at = from;
    while at < slots.len() {
        let slot = slots[at];
        if is_free(slot.spot) {
            return at;
        }
        at += 1;
    }
    at
}
