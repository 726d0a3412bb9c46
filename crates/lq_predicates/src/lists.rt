//! Lists of numbers, as the command line has them.
ghost use Rattle.std.specs.Prelude.{◌≡◌, None, Some, IfErr, IfOk};
ghost use Rattle.std.specs.Option.{ok_or};
ghost use Rattle.lq_load.specs.Cells.{int_of};
ghost use Rattle.lq_predicates.specs.WatchLists.{numbers_of_list};
ghost use Rattle.lq_predicates.specs.declared.watch_error.WatchError.TheVariants.{Watch};

use crate::watch_error::WatchError;
use lq_load::int_of;
use std::alloc::Global;

/// The numbers of a list: one or more, with a comma between each and the next. A number is spelled as in the cell of a table, by digits
/// with or without a minus before them, and is within `int`.
///
/// Refuses with `Watch` where the text is no such list, and with `Memory`.
pub fn watch_list(alloc: Global, list: &str) -> Result<Vec<i32>, WatchError>
    ensures ok { IfOk result (λ numbers. numbers_of_list list.now ≡ Some numbers.items) }
    ensures refused { IfErr result (λ error. error ≡ Watch → numbers_of_list list.now ≡ None) }
{
    let mut numbers = Vec::new(alloc);
    for number in list.split(',') {
        numbers.push(number_in(number)?)?;
    }
    Ok(numbers)
}

/// The number that a text spells.
fn number_in(text: &str) -> Result<i32, WatchError>
    ensures { result ≡ ok_or (int_of text.now) Watch }
{
    int_of(text.as_bytes()).ok_or(WatchError::Watch)
}
