//! The lines of replies that hold no value.
ghost use Rattle.std.specs.Prelude.{◌≡◌, [], IfOk};
ghost use Rattle.lq_json.specs.Replies.{reply_data};
ghost use Rattle.lq_machine.specs.Served.{line_of};
ghost use Rattle.lq_session.specs.Performed.{no_cells};

use lq_json::{Line, Reply, reply_line};
use lq_value::{RowRef, Scalar};
use std::alloc::{AllocError, Global};

/// A row with no cells: no row is in a reply without a value.
#[derive(Clone, Copy)]
pub(crate) struct NoRow;

impl RowRef for NoRow {
    ghost shown = { λ row. [] };

    fn cells(&self) -> &[Scalar] {
        &[]
    }

    fn again(&self) -> Self {
        NoRow
    }
}

/// The line of a reply that holds no value.
pub(crate) fn reply(alloc: Global, reply: Reply<'_, NoRow>) -> Result<Line, AllocError>
    ensures { IfOk result (λ line. line ≡ line_of (reply_data no_cells reply.entry)) }
{
    reply_line(alloc, &reply)
}
