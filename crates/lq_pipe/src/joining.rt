//! What a join asks of its inner side: the places of a key, and the items there.
ghost use Rattle.std.specs.Prelude.{◌≡◌, IfOk};
ghost use Rattle.std.specs.Option.{option_map};
ghost use Rattle.lq_language.specs.ClauseMeaning.{matches};
ghost use Rattle.lq_operators.specs.Matching.{item_at, items_at, pairs_of};
ghost use Rattle.lq_pipe.specs.Joins.{sought};

use lq_operators::Matches;
use lq_plan::{Lambda, TableRow};
use lq_value::{Scalar, Value};
use std::alloc::{AllocError, Global};

/// The lambdas of a join that are asked of each outer item.
#[derive(Clone, Copy, Drop)]
pub(crate) struct JoinLambdas<'f> {
    /// The key of an outer item.
    pub(crate) outer_key: Lambda<'f>,
    /// What comes of an outer item, which stands in a slot, and an inner one in the slot behind it.
    pub(crate) result: Lambda<'f>,
}

/// The key of an outer item, which is looked for on the inner side of a join.
#[derive(Clone, Copy)]
pub(crate) enum Sought<'k, R> {
    /// A cell, where it stands.
    Cell(&'k Scalar),
    /// A value that was made.
    Made(&'k Value<R>),
}

impl<R: TableRow> Sought<'_, R> {
    /// Places at which `item` gives, one after another, exactly the inner items that the key matches.
    #[inline(always)]
    pub(crate) fn places<'m>(
        &self,
        side: &'m Matches<R>,
        alloc: Global,
    ) -> Result<&'m [usize], AllocError>
        ensures { IfOk result (λ places. items_at side.now (sought self.now) places.now
            ≡ matches (sought self.now) (pairs_of side.now)) }
    {
        match self {
            Sought::Cell(cell) => side.places_of_scalar(alloc, cell),
            Sought::Made(key) => side.places(alloc, key),
        }
    }

    /// The inner item at a place, where the key matches it.
    #[inline(always)]
    pub(crate) fn item<'m>(&self, side: &'m Matches<R>, place: usize) -> Option<&'m Value<R>>
        ensures { option_map (λ item. item.now) result
            ≡ item_at side.now (sought self.now) place }
    {
        match self {
            Sought::Cell(cell) => side.item_of_scalar(cell, place),
            Sought::Made(key) => side.item(key, place),
        }
    }
}
