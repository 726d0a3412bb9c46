//! The desk: a session, and how its replies are shown.
ghost use Rattle.std.specs.Prelude.{◌≡◌, map};
ghost use Rattle.lq_prompt.specs.Answers.{object_of, settings_after};

use crate::answer::Answer;
use crate::help::HELP;
use crate::names::names_text;
use crate::question::Question;
use crate::reasons::{no_table_text, why_text};
use crate::rights::rights_text;
use crate::roles::{present_role, roles_text};
use crate::sentences::{json_text, misuse_text, rows_text, time_text};
use crate::settings::{FIRST, Settings};
use crate::shown::shown;
use crate::tables::tables_text;
use lq_audit::why;
use lq_command::{Command, Misuse, closed, command_of, is_command, words_of};
use lq_policy::{Action, RoleId};
use lq_session::Session;
use std::alloc::{AllocError, Global};

/// A session that is asked line by line, and how its replies are shown. Like a session, it has no `Drop`: `into_session` ends it.
pub struct Desk {
    alloc: Global,
    session: Session,
    starting: RoleId,
    settings: Settings,
}

impl Desk {
    ghost use Rattle.std.specs.Prelude.{◌≡◌, ◌≢◌, ◌<◌, IfOk, OnErr, false, string_bytes};
    ghost use Rattle.lq_session.specs.States.{hosts_in, session_state, state_of};
    ghost use Rattle.lq_store.specs.Rules.{name_of};
    ghost use Rattle.lq_value.specs.Tables.{first_named};
    ghost use Rattle.lq_prompt.specs.Answers.{ExplainsIn, Tells, TellsText};
    ghost use Rattle.lq_prompt.specs.Desks.{AnswersCommand, AnswersLine, AnswersStatement, desk_of};
    ghost use Rattle.lq_prompt.specs.Roles.{present_role};

    /// A desk over a session, which begins under the session's present role. At most 20 rows of a reply are shown, as tables, and no
    /// times are reported. Takes no memory.
    pub fn new(alloc: Global, session: Session) -> Desk
        // This is always so, as in `Session::step`.
        requires { 0 < 1 }

        ensures state { (desk_of result).state ≡ state_of session }
        ensures session { (desk_of result).session ≡ session_state session }
        ensures hosts { (desk_of result).hosts ≡ hosts_in session }
        ensures starting { (desk_of result).starting ≡ (state_of session).role }
        ensures settings { (desk_of result).settings
            ≡ record { most_rows = 20; is_json = false; is_timed = false } }
    {
        let starting = session.state().role();
        Desk {
            alloc,
            session,
            starting,
            settings: FIRST,
        }
    }

    /// Ends the desk, and hands out its session, which is as it was.
    pub fn into_session(self) -> Session
        ensures state { state_of result ≡ (desk_of self).state }
        ensures session { session_state result ≡ (desk_of self).session }
        ensures hosts { hosts_in result ≡ (desk_of self).hosts }
    {
        let Desk {
            alloc: _,
            session,
            starting: _,
            settings: _,
        } = self;
        session
    }

    /// The name of the present role.
    pub fn role(&self) -> &str
        ensures { result.now ≡ present_role (desk_of self.now).session }
    {
        present_role(self.session.state())
    }

    /// Whether the time that each statement takes is reported.
    pub fn is_timed(&self) -> bool
        ensures { result ≡ (desk_of self.now).settings.is_timed }
    {
        self.settings.is_timed
    }

    /// Answers a line: a statement, whose `;` may be left out, by stepping the session once, and a command from the session's state,
    /// which stays as it was. Where memory is refused before that, the desk is as it was; where it is refused for what is shown of a
    /// reply, the reply's line is given.
    pub fn answer(&mut self, line: &str) -> Result<Answer, AllocError>
        // This is always so, as in `Session::step`.
        requires { 0 < 1 }

        ensures ok { IfOk result (AnswersLine line.now (desk_of self.old) (desk_of self.new)) }
        ensures err { OnErr result (self.new ≡ self.old) }
    {
        let line = line.trim();
        if is_command(line) {
            self.answer_command(line)
        } else {
            self.answer_statement(line)
        }
    }

    /// Steps the session once, and shows its reply.
    fn answer_statement(&mut self, line: &str) -> Result<Answer, AllocError>
        ensures ok { IfOk result
            (AnswersStatement line.now (desk_of self.old) (desk_of self.new)) }
        ensures err { OnErr result (self.new ≡ self.old) }
    {
        let statement = closed(self.alloc, line)?;
        let ty = self.session.served_type(&statement)?;
        let reply = self.session.step(&statement);
        Ok(shown(
            self.alloc,
            self.settings,
            self.session.state(),
            ty.as_ref(),
            reply,
        ))
    }

    /// Answers a line that begins with a dot.
    fn answer_command(&mut self, line: &str) -> Result<Answer, AllocError>
        ensures ok { IfOk result (AnswersCommand line.now (desk_of self.old) (desk_of self.new)) }
        ensures err { OnErr result (self.new ≡ self.old) }
    {
        let words = words_of(self.alloc, line)?;
        let object = object_of(words.as_slice());
        let answer = self.answer_to(command_of(words.as_slice()), object)?;
        self.settings = settings_after(command_of(words.as_slice()), self.settings);
        Ok(answer)
    }

    /// What is answered to a command about the table or the file of this name.
    fn answer_to(
        &self,
        spelled: Result<Command, Misuse>,
        object: &str,
    ) -> Result<Answer, AllocError>
        ensures { IfOk result (Tells (desk_of self.now) spelled object.now) }
    {
        match spelled {
            Ok(Command::Run) => Ok(Answer::Script(String::from_str(self.alloc, object)?)),
            Ok(Command::Quit) => Ok(Answer::End),
            Ok(command) => Ok(Answer::Text(self.text_to(command, object)?)),
            Err(misuse) => Ok(Answer::Text(String::from_str(self.alloc, misuse_text(misuse))?)),
        }
    }

    /// The text that a command is answered with.
    fn text_to(&self, command: Command, object: &str) -> Result<String, AllocError>
        requires run { command ≢ Command.Run }
        requires quit { command ≢ Command.Quit }
        ensures { IfOk result
            (λ text. TellsText (desk_of self.now) (Ok command) object.now (string_bytes text)) }
    {
        let state = self.session.state();
        match command {
            Command::Tables => tables_text(self.alloc, state),
            Command::Roles => roles_text(self.alloc, state),
            Command::Names => names_text(self.alloc, &self.session),
            Command::Rights => rights_text(self.alloc, state),
            Command::Why(number, action) => self.why(object, number, action),
            Command::Rows(most_rows) => rows_text(self.alloc, most_rows),
            Command::Json(is_json) => String::from_str(self.alloc, json_text(is_json)),
            Command::Time(is_timed) => String::from_str(self.alloc, time_text(is_timed)),
            Command::Help | Command::Run | Command::Quit => String::from_str(self.alloc, HELP),
        }
    }

    /// Why the present role may or may not do something with a row of the table of this name.
    fn why(&self, table: &str, number: u64, action: Action) -> Result<String, AllocError>
        ensures { IfOk result
            (λ text. ExplainsIn (desk_of self.now).session (desk_of self.now).starting action
            table.now number (string_bytes text)
            (first_named name_of table.now (desk_of self.now).session.tables)) }
    {
        let state = self.session.state();
        let Some(place) = state.store().find(table) else {
            return no_table_text(self.alloc, table);
        };
        let found = why(self.alloc, state, self.starting, action, place, number)?;
        let role = present_role(state);
        let question = Question {
            role,
            table,
            number,
            action,
        };
        why_text(self.alloc, question, &found)
    }
}

/// What a command is about, which follows its name.
fn object_of<'a>(words: &[&'a str]) -> &'a str
    ensures { result.now ≡ object_of (map (λ word. word.now) words.now) }
{
    match words {
        [_, object, ..] => object,
        _ => "",
    }
}

/// The settings after a command.
fn settings_after(spelled: Result<Command, Misuse>, settings: Settings) -> Settings
    ensures { result ≡ settings_after spelled settings }
{
    match spelled {
        Ok(Command::Rows(most_rows)) => Settings {
            most_rows,
            ..settings
        },
        Ok(Command::Json(is_json)) => Settings {
            is_json,
            ..settings
        },
        Ok(Command::Time(is_timed)) => Settings {
            is_timed,
            ..settings
        },
        _ => settings,
    }
}
