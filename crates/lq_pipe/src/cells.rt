//! The copying of cells that lambdas and plans give.
ghost use Rattle.std.specs.Prelude.{◌≡◌, IfOk};

use lq_value::{Scalar, copy_scalar};
use std::alloc::{AllocError, Global};

/// A scalar equal to a cell: an int is copied with no call, since most cells of keys are one. Refused where no
/// memory was left for a text.
#[inline(always)]
pub(crate) fn copy_cell(alloc: Global, cell: &Scalar) -> Result<Scalar, AllocError>
    ensures { IfOk result (λ copy. copy ≡ cell.now) }
{
    match cell {
        Scalar::Int(number) => Ok(Scalar::Int(*number)),
        other => copy_scalar(alloc, other),
    }
}
