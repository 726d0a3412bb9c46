//! Groups that get new numbers where those without places are let go.
ghost use Rattle.std.specs.Prelude.{◌≡◌, ℕ, filter, length, IfOk};
ghost use Rattle.lq_index.specs.Compactions.{has_some, number_of, number_slot, number_spot, numbers_from};
ghost use Rattle.lq_index.specs.Slots.{slot_at};

use crate::slot::{Slot, Spot};
use lq_value::List;
use std::alloc::{AllocError, Global};

// Lets go of the lists without places.
pub(crate) fn retain_some(lists: &mut Vec<List<usize>>)
    ensures { lists.new.items ≡ filter has_some lists.old.items }
{
    lists.retain(|list| has_some(list.as_slice()));
}

// The new number of each list where those without places are let go, and for such a list the number
// behind its own.
pub(crate) fn numbers_of(alloc: Global, lists: &[List<usize>]) -> Result<Vec<usize>, AllocError>
    ensures { IfOk result (λ numbers. numbers.items ≡ numbers_from 0 0 lists.now) }
{
    let mut numbers = Vec::with_capacity(alloc, lists.len())?;
    let mut count = 0;
    for list in lists {
        if has_some(list.as_slice()) {
            numbers.push(count)?;
            count += 1;
        } else {
            let behind = numbers.len() + 1;
            numbers.push(behind)?;
        }
    }
    Ok(numbers)
}

fn has_some(places: &[usize]) -> bool
    ensures { result ≡ has_some places.now }
{
    match places {
        [] => false,
        [_, ..] => true,
    }
}

// Gives the groups of slots their new numbers. A slot whose group is let go is dead.
pub(crate) fn number_slots(slots: &mut Vec<Slot>, numbers: &[usize])
    ensures long { length slots.new.items ≡ length slots.old.items }
    ensures each { (t : ℕ) → slot_at slots.new.items t
        ≡ number_slot numbers.now (slot_at slots.old.items t) }
{
    for slot in slots.iter_mut() {
        *slot = number_slot(*slot, numbers);
    }
}

fn number_slot(slot: Slot, numbers: &[usize]) -> Slot
    ensures { result ≡ number_slot numbers.now slot }
{
    Slot {
        hash: slot.hash,
        spot: number_spot(slot.spot, numbers),
    }
}

fn number_spot(spot: Spot, numbers: &[usize]) -> Spot
    ensures { result ≡ number_spot numbers.now spot }
{
    match spot {
        Spot::Many(group) => {
            let number = number_of(numbers, group);
            if number <= group as usize {
                Spot::Many(number as u32)
            } else {
                Spot::Dead
            }
        }
        Spot::One(place) => Spot::One(place),
        Spot::Free => Spot::Free,
        Spot::Dead => Spot::Dead,
    }
}

fn number_of(numbers: &[usize], group: u32) -> usize
    ensures { result ≡ number_of numbers.now group }
{
    match numbers.get(group as usize) {
        Some(number) => *number,
        None => group as usize + 1,
    }
}
