//! Ending: the status for the caller of the program, an audit, and the line that reports a fault.
ghost use Rattle.std.specs.Prelude.{◌≡◌, false};
ghost use Rattle.lq_session.specs.States.{hosts_in, state_of};
ghost use Rattle.lq_serve.specs.Audit.{audited};
ghost use Rattle.lq_serve.specs.Devices.{inner_of, is_ended, is_failed, Writes, WritesUnlessFailed};
ghost use Rattle.lq_serve.specs.Ending.{as_line, error_line, outcome_line, status_of, status_of_outcome, Finished};

use crate::audit::write_audit;
use crate::device::Device;
use crate::error_output::{write_error, write_more};
use crate::script_run::{Summary, serve};
use crate::serve_error::ServeError;
use crate::start_error::StartError;
use lq_session::Session;
use std::alloc::Global;
use std::io::{Read, Write};

// The status for a table, policies or a role that was refused.
const FILE_FAULT: u8 = 3;

// The status for a fault of the script or of a device.
const SCRIPT_FAULT: u8 = 4;

// The status for lack of memory.
const NO_MEMORY: u8 = 5;

/// Serves a script from a reader to a writer. Afterwards, where `audit` is asked for, it writes a line to
/// `errors` for each host call in the session's log, in their order: those that were there before too.
/// Then it reports a fault by one line to `errors`, and returns the program's status: 0, 4 for a fault of
/// the script or of a device, and 5 for lack of memory. Status and line are those of what `serve`
/// answered, and so are the marks of reader and writer.
///
/// A call's line is the predicate, the table, the row's number, each column with its argument, and the
/// answer: `LeapYear employees 1 year 2000 true`. After the replies nothing is written to the writer. All
/// is written to `errors`, unless they fail: they are then marked, and hold a front of it.
pub fn finish<R: Read, W: Write, E: Write>(
    alloc: Global,
    audit: bool,
    reader: &mut Device<R>,
    writer: &mut Device<W>,
    errors: &mut Device<E>,
    session: &mut Session,
) -> u8
    requires reader { is_failed reader.old ≡ false }
    requires writer { is_failed writer.old ≡ false }
    requires errors { is_failed errors.old ≡ false }
    ensures { Finished (R.remaining (inner_of reader.old)) (state_of session.old)
        (state_of session.new) (hosts_in session.old) (hosts_in session.new)
        (W.contents (inner_of writer.old)) (W.contents (inner_of writer.new))
        (is_failed reader.new) (is_ended reader.new) (is_failed writer.new)
        (audited audit (state_of session.new) (hosts_in session.new).calls)
        (E.contents (inner_of errors.old)) (E.contents (inner_of errors.new))
        (is_failed errors.new) result }
{
    let outcome = serve(alloc, reader, writer, session);
    write_audit(audit, errors, session);
    report(outcome, errors)
}

// Reports a fault by one line, and answers the program's status.
#[tactic(auto, using(crate::proofs::DeviceLemmas::nothing_more))]
fn report<E: Write>(outcome: Result<Summary, ServeError>, errors: &mut Device<E>) -> u8
    ensures line { WritesUnlessFailed (is_failed errors.old) (E.contents (inner_of errors.old))
        (is_failed errors.new) (E.contents (inner_of errors.new)) (outcome_line outcome) }
    ensures status { result ≡ status_of_outcome outcome }
{
    match outcome {
        Ok(_) => 0,
        Err(ServeError::Read) => {
            write_more(errors, "lq: script: read\n");
            SCRIPT_FAULT
        }
        Err(ServeError::Write) => {
            write_more(errors, "lq: script: write\n");
            SCRIPT_FAULT
        }
        Err(ServeError::TooLong) => {
            write_more(errors, "lq: script: too-long\n");
            SCRIPT_FAULT
        }
        Err(ServeError::Utf8) => {
            write_more(errors, "lq: script: utf8\n");
            SCRIPT_FAULT
        }
        Err(ServeError::Memory) => {
            write_more(errors, "lq: memory\n");
            NO_MEMORY
        }
    }
}

/// Reports the error by one line to `errors`, and answers the program's status: 5 for lack of
/// memory, and 3 for a table, policies or a role that was refused.
///
/// The line is written whole, unless `errors` fails: it is then marked, and holds a front of the line.
pub fn refuse<E: Write>(error: &StartError, errors: &mut Device<E>) -> u8
    requires { is_failed errors.old ≡ false }
    ensures line { Writes (is_failed errors.new) (E.contents (inner_of errors.old))
        (E.contents (inner_of errors.new)) (error_line error.now) }
    ensures status { result ≡ status_of error.now }
{
    match error {
        StartError::Memory => {
            write_error(errors, b"lq: memory\n");
            NO_MEMORY
        }
        StartError::Refused(line) => {
            write_error_line(errors, line.as_bytes());
            FILE_FAULT
        }
    }
}

// Writes the line and its line feed, as far as they can be written.
fn write_error_line<E: Write>(errors: &mut Device<E>, line: &[u8])
    requires { is_failed errors.old ≡ false }
    ensures { Writes (is_failed errors.new) (E.contents (inner_of errors.old))
        (E.contents (inner_of errors.new)) (as_line line.now) }
{
    write_error(errors, line);
    if !errors.failed() {
        write_error(errors, b"\n");
    }
}
