//! The items from a place on, or up to it.
ghost use Rattle.std.specs.Prelude.{◌≡◌, drop};
ghost use Rattle.lq_language.specs.Enumerable.{as_count, take_first};

use lq_value::{End, List};

// How many items a number represents: none where it is below 1.
pub(crate) fn as_count(number: i32) -> usize
    ensures { result ≡ as_count number }
{
    if number < 0 { 0 } else { number as usize }
}

// What comes after so many items.
pub(crate) fn skip<T: Drop>(count: usize, items: List<T>) -> List<T>
    ensures { result ≡ drop count items }
{
    let mut items = items.into_vec();
    let count = count.min(items.len());
    items.drain(..count);
    List::from_vec(items)
}

// So many items, and how they end: what comes after the last of them isn't read.
#[tactic(auto, using(crate::proofs::ItemLemmas::taken))]
pub(crate) fn take_first<T: Drop>(count: usize, items: List<T>, end: End) -> (List<T>, End)
    ensures { result ≡ take_first count items end }
{
    if items.len() < count {
        return (items, end);
    }
    let mut items = items.into_vec();
    items.truncate(count);
    (List::from_vec(items), End::Done)
}
