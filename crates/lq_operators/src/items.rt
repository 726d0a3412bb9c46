//! One item of a sequence: the first, the last, the only one, the one at a place.
ghost use Rattle.std.specs.Prelude.{◌≡◌};
ghost use Rattle.lq_language.specs.Enumerable.{any, element_at, first, last, single};

use crate::ending::at_end;
use crate::slices::skip;
use lq_value::{End, Fault, List};

// Whether there is an item.
pub(crate) fn any<T: Drop>(items: List<T>, end: End) -> Result<bool, Fault>
    ensures { result ≡ any items end }
{
    if items.is_empty() {
        return at_end(end, Ok(false));
    }
    Ok(true)
}

// The first item. `none` is the answer where the source comes to its end without one.
pub(crate) fn first<T: Drop>(none: Result<T, Fault>, items: List<T>, end: End) -> Result<T, Fault>
    ensures { result ≡ first none items end }
{
    let mut items = items.into_vec();
    items.truncate(1);
    match items.pop() {
        Some(item) => Ok(item),
        None => at_end(end, none),
    }
}

// The last item; all are read.
#[tactic(auto, using(crate::proofs::ItemLemmas::last_pushed))]
pub(crate) fn last<T: Drop>(none: Result<T, Fault>, items: List<T>, end: End) -> Result<T, Fault>
    ensures { result ≡ last none items end }
{
    let mut items = items.into_vec();
    match items.pop() {
        Some(item) => at_end(end, Ok(item)),
        None => at_end(end, none),
    }
}

// The only item; a second one is a fault.
#[tactic(auto, using(crate::proofs::ItemLemmas::singles))]
pub(crate) fn single<T: Drop>(none: Result<T, Fault>, items: List<T>, end: End) -> Result<T, Fault>
    ensures { result ≡ single none items end }
{
    if items.len() > 1 {
        return Err(Fault::InvalidOperation);
    }
    last(none, items, end)
}

// The item after so many.
#[tactic(auto, using(crate::proofs::ItemLemmas::first_behind))]
pub(crate) fn element_at<T: Drop>(number: i32, items: List<T>, end: End) -> Result<T, Fault>
    ensures { result ≡ element_at number items end }
{
    if number < 0 {
        return Err(Fault::ArgumentOutOfRange);
    }
    first(
        Err(Fault::ArgumentOutOfRange),
        skip(number as usize, items),
        end,
    )
}
