//! The session and its step.
ghost use Rattle.lq_host.specs.Hosts.{hosts_of};
ghost use Rattle.lq_run.specs.States.{AreKnown, AreKnown-prop};

use crate::lines::{opening_of, statement_of, tokens_of};
use crate::serving::type_of_line;
use crate::work::OpenedStatement;
use lq_host::{Call, HostSet};
use lq_json::Line;
use lq_lex::is_blank;
use lq_policy::{Policies, RoleId};
use lq_run::{State, Stop};
use lq_store::Store;
use lq_value::Ty;
use std::alloc::{AllocError, Global};
use std::mem;

/// A session: the tables that its statements work on, the policies for them, the host predicates that
/// its statements may ask, the role that it has, and what it has defined. A session is ended by
/// `close`, or by `forget` where its program ends: leaving a block ends none, so that what takes one apart is compiled and proved once.
pub struct Session {
    alloc: Global,
    state: State,
    hosts: HostSet,
    ghost known: { AreKnown (hosts_of hosts).predicates state } by { AreKnown-prop _ state },
}

impl Session {
    ghost use Rattle.std.specs.Prelude.{◌≡◌, ◌<◌, IfOk};
    ghost use Rattle.lq_host.specs.Hosts.{hosts_of};
    ghost use Rattle.lq_language.specs.Worlds.{known_predicates};
    ghost use Rattle.lq_policy.specs.Roles.{number_of};
    ghost use Rattle.lq_machine.specs.Machine.{step};
    ghost use Rattle.lq_machine.specs.States.{first_state};
    ghost use Rattle.lq_machine.specs.HostCalls.{line_named};
    ghost use Rattle.lq_run.specs.Calls.{AddsCalls};
    ghost use Rattle.lq_session.specs.Calls.{AnswersAndLogs};
    ghost use Rattle.lq_session.specs.Performed.{Steps};
    ghost use Rattle.lq_machine.specs.ServedTypes.{line_type};
    ghost use Rattle.lq_session.specs.States.{hosts_in, session_state, state_of};

    /// The first state of a session over these tables, with these policies and host predicates, under
    /// this role. The policies were read for these predicates. No name is defined. Takes no memory.
    pub fn new(
        alloc: Global,
        store: Store,
        policies: Policies,
        hosts: HostSet,
        role: RoleId,
    ) -> Session
        requires { known_predicates (hosts_of hosts).predicates ≡ policies.predicates }
        ensures state { state_of result
            ≡ first_state store policies (hosts_of hosts).predicates (number_of role) }
        ensures hosts { hosts_in result ≡ hosts_of hosts }
    {
        Session {
            alloc,
            state: State::new(alloc, store, policies, role),
            hosts,
        }
    }

    /// The tables as they are now.
    pub fn store(&self) -> &Store
        ensures { result.now ≡ (state_of self.now).tables }
    {
        self.state.store()
    }

    /// The calls of host predicates that the lines so far made, in their order.
    pub fn calls(&self) -> &[Call]
        ensures { result.now ≡ (hosts_in self.now).calls }
    {
        self.hosts.calls()
    }

    /// The host predicates, and the log of their calls. No line changes the predicates.
    pub fn hosts(&self) -> &HostSet
        ensures { hosts_of result.now ≡ hosts_in self.now }
    {
        &self.hosts
    }

    /// The state of the session as it is now, the host predicates aside.
    pub fn state(&self) -> &State
        ensures { result.now ≡ session_state self.now }
    {
        &self.state
    }

    /// The type by which the value is served that a line asks for, were it stepped now: that of the
    /// expression of its `run`. None where the line says no `run`, the statement opens more than it
    /// may, or its expression has no type, or that of null alone, which is refused.
    pub fn served_type(&self, line: &str) -> Result<Option<Ty>, AllocError>
        ensures { IfOk result (λ ty. ty ≡ line_type (state_of self.now) line.now) }
    {
        type_of_line(self.alloc, line, &self.state)
    }

    /// Answers one line of a script: a step of the session machine, or the memory line in place
    /// of its reply, which leaves the machine's state as it was. The calls of host predicates that the line makes are put after the others
    /// in the log, whatever it is answered. A line without a token has no reply, and one of more than 65,536 bytes is refused as `syntax`.
    #[tactic(auto, using(crate::proofs::StepLemmas::answers_blank))]
    pub fn step(&mut self, line: &str) -> Option<Line>
        // This is always so. Without a condition, the proof of a caller in another crate would have to allow
        // that a step puts a closure of its own into the session.
        requires { 0 < 1 }

        ensures { AnswersAndLogs (state_of self.old) (hosts_in self.old) line.now result
            (state_of self.new) (hosts_in self.new) }
    {
        if is_blank(line) {
            return None;
        }
        match self.answer(line) {
            Ok(reply) => reply,
            Err(Stop::Answer(reply)) => Some(reply),
            Err(Stop::Memory) => Some(Line::memory()),
        }
    }

    /// Ends the session, gives the memory of its tables, policies and definitions back, and hands out its host predicates
    /// with the log of their calls.
    pub fn close(self) -> HostSet
        ensures { hosts_of result ≡ hosts_in self }
    {
        let (state, hosts) = self.into_parts();
        drop(state);
        hosts
    }

    /// Ends the session where its program ends too, and hands out its host predicates with the log of their calls. The system
    /// takes back the memory of all else.
    pub fn forget(self) -> HostSet
        ensures { hosts_of result ≡ hosts_in self }
    {
        let (rest, hosts) = self.into_parts();
        mem::forget(rest);
        hosts
    }

    fn into_parts(self) -> (State, HostSet)
        ensures state { result.0 ≡ session_state self }
        ensures hosts { hosts_of result.1 ≡ hosts_in self }
    {
        let Session {
            alloc: _,
            state,
            hosts,
        } = self;
        (state, hosts)
    }

    /// The reply to a line, or why its statement stops: the line is cut into tokens, which are read as a statement; what this
    /// opens is counted, and it is performed.
    fn answer(&mut self, line: &str) -> Result<Option<Line>, Stop>
        ensures steps { Steps (step (state_of self.old) line.now) (state_of self.old) result
            (state_of self.new) }
        ensures calls { AddsCalls (state_of self.old) (line_named (state_of self.old) line.now)
            (hosts_in self.old).calls (hosts_in self.new).calls }
        ensures predicates { (hosts_in self.new).predicates ≡ (hosts_in self.old).predicates }
    {
        let tokens = tokens_of(self.alloc, line)?;
        let Some(statement) = statement_of(self.alloc, line, &tokens)? else {
            return Ok(None);
        };
        let opened = opening_of(self.alloc, line, &tokens, &self.state)?;
        let statement = statement.into_inner();
        let task = OpenedStatement {
            alloc: self.alloc,
            statement,
            opened,
        };
        Ok(Some(self.hosts.work(task, &mut self.state)?))
    }
}
