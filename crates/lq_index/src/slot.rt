//! The slots of an index.
ghost use Rattle.std.specs.Prelude.{◌≡◌};
ghost use Rattle.lq_index.specs.Slots.{is_free, is_live};

/// Where the places of a scalar stand.
#[derive(Clone, Copy)]
pub enum Spot {
    /// Nowhere: the slot was never taken, and a search ends here.
    Free,
    /// Nowhere: the rows of the scalar are removed. A search goes on behind it.
    Dead,
    /// Here: it is the only one.
    One(u32),
    /// In the group of this number.
    Many(u32),
}

/// A slot: the hash of its scalar, and where the scalar's places stand.
#[derive(Clone, Copy)]
pub struct Slot {
    /// The hash of the scalar.
    pub hash: u32,
    /// Where its places stand.
    pub spot: Spot,
}

/// Where a search ends.
#[derive(Clone, Copy)]
pub enum Seat {
    /// At this slot, which is the scalar's.
    Occupied(usize),
    /// At this slot, which was never taken; it may become the scalar's.
    Vacant(usize),
}

// Whether a slot was never taken.
#[inline(always)]
pub(crate) fn is_free(spot: Spot) -> bool
    ensures { result ≡ is_free spot }
{
    match spot {
        Spot::Free => true,
        Spot::Dead => false,
        Spot::One(_) => false,
        Spot::Many(_) => false,
    }
}

// Whether a slot was taken for a scalar that still has rows.
#[inline(always)]
pub(crate) fn is_live(spot: Spot) -> bool
    ensures { result ≡ is_live spot }
{
    match spot {
        Spot::Free => false,
        Spot::Dead => false,
        Spot::One(_) => true,
        Spot::Many(_) => true,
    }
}
