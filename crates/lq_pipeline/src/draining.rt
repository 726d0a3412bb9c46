//! Pipes whose items are given to what takes them.
ghost use Rattle.std.specs.Prelude.{◌≡◌, Some};
ghost use Rattle.lq_language.specs.TableRows.{TableRow};
ghost use Rattle.lq_pull.specs.Views.{world_seen};
ghost use Rattle.lq_pipeline.specs.Drains.{GivesItems};
ghost use Rattle.lq_pipeline.specs.Pipes.{IsPipe, form_of_pipe, place_in, sight_of_pipe, state_in};
ghost use Rattle.lq_pipeline.specs.Places.{Place};
ghost use Rattle.lq_pipeline.specs.Pulling.{Drained, GivesOne};

use crate::pipes::Pipe;
use crate::predicates::HostPredicates;
use crate::steps::Step;
use lq_guard::VisibleRow;
use lq_sink::{Flow, Sink};
use lq_value::End;
use std::alloc::AllocError;

/// Gives the next item of a pipe to a sink. Returns how a drain ends with it; none where the sink takes more.
fn give_next<'a, H: HostPredicates, K: Sink<VisibleRow<'a>>>(
    pipe: &mut Pipe<'a>,
    hosts: &mut H,
    sink: &mut K,
) -> Result<Option<End>, AllocError>
    requires { IsPipe pipe.old }
    ensures gives { GivesOne (world_seen (sight_of_pipe pipe.old) (H.hosts hosts.old).predicates)
        (form_of_pipe pipe.old) K.takes (state_in (H.hosts hosts.old).predicates pipe.old
        (H.hosts hosts.old).calls) sink.old result
        (state_in (H.hosts hosts.old).predicates pipe.new (H.hosts hosts.new).calls) sink.new }
    ensures sight { sight_of_pipe pipe.new ≡ sight_of_pipe pipe.old }
    ensures form { form_of_pipe pipe.new ≡ form_of_pipe pipe.old }
    ensures predicates { (H.hosts hosts.new).predicates ≡ (H.hosts hosts.old).predicates }
    ensures ready { IsPipe pipe.new }
{
    match pipe.next(hosts) {
        Ok(Step::Item(item)) => match sink.take(item) {
            Flow::Go => Ok(None),
            Flow::Stop => Ok(Some(End::Done)),
        },
        Ok(Step::Done) => Ok(Some(End::Done)),
        Ok(Step::Fault(fault)) => Ok(Some(End::Fault(fault))),
        Err(error) => Err(error),
    }
}

/// Gives the items of a pipe to a sink, one by one and in order, until the sink stops or they end: no pull comes after a stop, and a later one goes on
/// behind the last item. Returns how they ended; after a stop they are done. Where a growth is refused, each pull is from then on.
pub fn drain<'a, H: HostPredicates, K: Sink<VisibleRow<'a>>>(
    pipe: &mut Pipe<'a>,
    hosts: &mut H,
    sink: &mut K,
) -> Result<End, AllocError>
    requires { IsPipe pipe.old }
    ensures drains { Drained (world_seen (sight_of_pipe pipe.old) (H.hosts hosts.old).predicates)
        (form_of_pipe pipe.old) K.takes (state_in (H.hosts hosts.old).predicates pipe.old
        (H.hosts hosts.old).calls) sink.old result
        (state_in (H.hosts hosts.old).predicates pipe.new (H.hosts hosts.new).calls) sink.new }
    ensures gives { (place : Place TableRow)
        → place_in (H.hosts hosts.old).predicates pipe.old ≡ Some place
        → GivesItems K.takes place.left sink.old result sink.new }
    ensures sight { sight_of_pipe pipe.new ≡ sight_of_pipe pipe.old }
    ensures form { form_of_pipe pipe.new ≡ form_of_pipe pipe.old }
    ensures predicates { (H.hosts hosts.new).predicates ≡ (H.hosts hosts.old).predicates }
    ensures ready { IsPipe pipe.new }
{
    loop {
        match give_next(pipe, hosts, sink) {
            Ok(None) => {}
            Ok(Some(end)) => return Ok(end),
            Err(error) => return Err(error),
        }
    }
}
