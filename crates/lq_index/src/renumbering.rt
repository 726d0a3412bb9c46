//! Places that get their ranks where rows are removed. Nothing here takes memory.
ghost use Rattle.std.specs.Prelude.{◌≡◌, [], ℕ, get_or, length};
ghost use Rattle.lq_index.specs.Removals.{is_none, no_rank, renumber, renumber_slot, renumber_spot};
ghost use Rattle.lq_index.specs.Slots.{slot_at};

use crate::groups::Groups;
use crate::slot::{Slot, Spot};
use lq_value::List;

// Gives the single places of slots their ranks. A slot none of whose places stays is dead: it can't
// be free, as scalars behind it were put there past it.
pub(crate) fn renumber_slots(slots: &mut Vec<Slot>, ranks: &[usize], groups: &Groups)
    ensures long { length slots.new.items ≡ length slots.old.items }
    ensures each { (t : ℕ) → slot_at slots.new.items t
        ≡ renumber_slot ranks.now groups.now (slot_at slots.old.items t) }
{
    for slot in slots.iter_mut() {
        *slot = renumber_slot(*slot, ranks, groups);
    }
}

fn renumber_slot(slot: Slot, ranks: &[usize], groups: &Groups) -> Slot
    ensures { result ≡ renumber_slot ranks.now groups.now slot }
{
    Slot {
        hash: slot.hash,
        spot: renumber_spot(slot.spot, ranks, groups),
    }
}

fn renumber_spot(spot: Spot, ranks: &[usize], groups: &Groups) -> Spot
    ensures { result ≡ renumber_spot ranks.now groups.now spot }
{
    match spot {
        Spot::One(place) => {
            let rank = rank_of(ranks, place as usize);
            if rank <= place as usize {
                Spot::One(rank as u32)
            } else {
                Spot::Dead
            }
        }
        Spot::Many(group) => {
            if has_none(groups.places(group)) {
                Spot::Dead
            } else {
                Spot::Many(group)
            }
        }
        Spot::Free => Spot::Free,
        Spot::Dead => Spot::Dead,
    }
}

fn has_none(places: &[usize]) -> bool
    ensures { result ≡ is_none places.now }
{
    match places {
        [] => true,
        [_, ..] => false,
    }
}

// The rank of a place.
#[inline(always)]
fn rank_of(ranks: &[usize], place: usize) -> usize
    ensures { result ≡ get_or ranks.now place no_rank }
{
    match ranks.get(place) {
        Some(rank) => *rank,
        None => usize::MAX,
    }
}

// Gives the places of lists their ranks.
pub(crate) fn renumber_lists(lists: &mut Vec<List<usize>>, ranks: &[usize])
    ensures long { length lists.new.items ≡ length lists.old.items }
    ensures each { (g : ℕ) → get_or lists.new.items g []
        ≡ renumber ranks.now (get_or lists.old.items g []) }
{
    for list in lists.iter_mut() {
        renumber_places(&mut list.items, ranks);
    }
}

// Gives places their ranks, and lets go of those that have none.
fn renumber_places(places: &mut Vec<usize>, ranks: &[usize])
    ensures { places.new.items ≡ renumber ranks.now places.old.items }
{
    let mut count = 0;
    for at in 0..places.len() {
        let place = places[at];
        let rank = rank_of(ranks, place);
        if rank <= place {
            places[count] = rank;
            count += 1;
        }
    }
    places.truncate(count);
}
