//! Statements as work over the hosts of a session.
use crate::statements::perform;
use lq_grammar::Statement;
use lq_host::{Asks, Log, Work};
use lq_json::Line;
use lq_machine::Opened;
use lq_run::{State, Stop};
use std::alloc::Global;

/// A statement with what it opens, which is no more than it may, as work on a session's state that may ask its hosts.
pub(crate) struct OpenedStatement {
    pub(crate) alloc: Global,
    pub(crate) statement: Statement,
    pub(crate) opened: Opened,
}

impl Work for OpenedStatement {
    ghost use Rattle.std.specs.Prelude.{◌≡◌, false};
    ghost use Rattle.lq_machine.specs.Opening.{is_past_opening};
    ghost use Rattle.lq_run.specs.States.{AreKnown};
    ghost use Rattle.lq_session.specs.Calls.{PerformsAndCalls};

    type State = lq_run::State;

    type Outcome = Result<Line, Stop>;

    ghost may = { λ work predicates state.
        (is_past_opening work.opened ≡ false) × AreKnown predicates state };

    ghost does = { λ work predicates. PerformsAndCalls predicates work.opened work.statement };

    fn work<H: Asks>(self, state: &mut State, hosts: &H, log: &mut Log<H>) -> Result<Line, Stop> {
        let OpenedStatement {
            alloc,
            statement,
            opened,
        } = self;
        perform(alloc, statement, opened, state, hosts, log)
    }
}
