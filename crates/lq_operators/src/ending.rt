//! The ending of a source.
ghost use Rattle.std.specs.Prelude.{◌≡◌};
ghost use Rattle.lq_language.specs.Enumerable.{at_end};

use lq_value::{End, Fault};

// What is found where a source comes to its end; the fault that ends it comes before that.
pub(crate) fn at_end<T: Drop>(end: End, found: Result<T, Fault>) -> Result<T, Fault>
    ensures { result ≡ at_end end found }
{
    match end {
        End::Done => found,
        End::Fault(fault) => Err(fault),
    }
}
