//! Serving a script: reading it whole, stepping its lines in order, and writing their replies.
ghost use Rattle.std.specs.Prelude.{◌≡◌, ◌≢◌, ◌+◌, ◌≤◌, ◌↔◌, List, ℕ, false, true, length, IfOk, IfErr, OnOk, OnErr, IfSome};
ghost use Rattle.lq_grammar.specs.Script.{lines_of, script_limit};
ghost use Rattle.lq_session.specs.States.{hosts_in, state_of};
ghost use Rattle.lq_serve.specs.Devices.{inner_of, read_count, late_count, late_count_next, is_ended, is_failed, TakesAtMost};
ghost use Rattle.lq_serve.specs.ScriptRun.{IsNoText, IsTooLong, LineServed, LineServedInPart, LinesServed, ServedInPart, ServedWhole, Stopped};

use crate::device::Device;
use crate::script_bytes::{SCRIPT_LIMIT, has_short_lines, read_script};
use crate::script_lines::first_line;
use crate::serve_error::{ServeError, WriteFailed};
use lq_lex::{LINE_LIMIT, without_marks};
use lq_session::Session;
use std::alloc::Global;
use std::io::{Read, Write};
use std::str;

/// How much was served.
#[derive(Clone, Copy, PartialEq, Eq)]
pub struct Summary {
    /// The lines that were stepped.
    pub lines: u64,
    /// The lines that had a reply.
    pub replies: u64,
}

/// Reads a script whole, steps its lines in order, and writes the replies.
///
/// A script has at most 1,048,576 bytes, and its lines at most 65,536 bytes each. Sizes are those of
/// the script as it is, byte order marks among them, and are looked at before UTF-8. At most
/// 1,048,577 bytes are read, and by at most as many reads, whatever the reader has; the reader may
/// have come to its end before, and is then read on. No read is made after one that answered an error
/// or the end. After each error but `Write` nothing was stepped and nothing written. `Memory` is for
/// the script's bytes alone: a step that finds no memory answers so by its reply.
pub fn serve<R: Read, W: Write>(
    alloc: Global,
    reader: &mut Device<R>,
    writer: &mut Device<W>,
    session: &mut Session,
) -> Result<Summary, ServeError>
    requires reader { is_failed reader.old ≡ false }
    requires writer { is_failed writer.old ≡ false }

    // What is written is the output of the machine over the script's lines, and the log grows by calls that these allow.
    ensures ok { IfOk result (λ summary.
        ServedWhole (R.remaining (inner_of reader.old)) (state_of session.old)
        (state_of session.new) (hosts_in session.old) (hosts_in session.new)
        (W.contents (inner_of writer.old)) (W.contents (inner_of writer.new)) summary) }

    // After a failed write the first lines were stepped, and what was written is a front of their output.
    ensures write { result ≡ Err ServeError.Write
        → ServedInPart (R.remaining (inner_of reader.old)) (state_of session.old)
        (state_of session.new) (hosts_in session.old) (hosts_in session.new)
        (W.contents (inner_of writer.old)) (W.contents (inner_of writer.new)) }

    // After each other error nothing was stepped and nothing written.
    ensures untouched { IfErr result (λ e. e ≢ ServeError.Write
        → (session.new ≡ session.old) × (writer.new ≡ writer.old)) }
    ensures too_long { result ≡ Err ServeError.TooLong
        → IsTooLong (R.remaining (inner_of reader.old)) }
    ensures utf8 { result ≡ Err ServeError.Utf8 → IsNoText (R.remaining (inner_of reader.old)) }

    // There is no memory for bytes that a read gave, before the end.
    ensures memory { result ≡ Err ServeError.Memory → is_ended reader.new ≡ false }

    // The devices show which of them failed.
    ensures read_marked { (result ≡ Err ServeError.Read) ↔ (is_failed reader.new ≡ true) }
    ensures write_marked { (result ≡ Err ServeError.Write) ↔ (is_failed writer.new ≡ true) }

    // One byte more than a script has is read at most, and as many reads are made, none after an error or
    // the end: only the first may come late, where the reader had ended before.
    ensures taken { TakesAtMost (script_limit + 1) (R.remaining (inner_of reader.old))
        (R.remaining (inner_of reader.new)) }
    ensures reads { read_count reader.new ≤ read_count reader.old + (script_limit + 1) }
    ensures in_time { late_count reader.new ≤ late_count_next reader.old }
{
    let bytes = read_script(alloc, reader, SCRIPT_LIMIT)?;
    if !has_short_lines(&bytes, LINE_LIMIT) {
        return Err(ServeError::TooLong);
    }
    match str::from_utf8(without_marks(&bytes)) {
        Ok(text) => Ok(serve_text(text, writer, session)?),
        Err(_) => Err(ServeError::Utf8),
    }
}

// The text is within the limits of size, so the counts do not wrap.
fn serve_text<W: Write>(
    text: &str,
    writer: &mut Device<W>,
    session: &mut Session,
) -> Result<Summary, WriteFailed>
    requires small { length text.now ≤ script_limit }
    requires writer { is_failed writer.old ≡ false }
    ensures ok { IfOk result (λ summary.
        LinesServed (lines_of text.now) (state_of session.old) (state_of session.new)
        (hosts_in session.old) (hosts_in session.new)
        (W.contents (inner_of writer.old)) (W.contents (inner_of writer.new)) summary) }
    ensures err { OnErr result (Stopped (lines_of text.now) (state_of session.old)
        (state_of session.new) (hosts_in session.old) (hosts_in session.new)
        (W.contents (inner_of writer.old)) (W.contents (inner_of writer.new))) }
    ensures unmarked { OnOk result (is_failed writer.new ≡ false) }
    ensures marked { OnErr result (is_failed writer.new ≡ true) }
{
    let mut rest = text;
    let mut summary = Summary {
        lines: 0,
        replies: 0,
    };
    while !rest.is_empty() {
        let (line, behind) = first_line(rest);
        rest = behind;
        let count = serve_line(line, writer, session)?;
        summary.lines += 1;
        summary.replies += count;
    }
    writer.flush()?;
    Ok(summary)
}

// Returns 1 where the line had a reply, and otherwise 0.
fn serve_line<W: Write>(
    line: &str,
    writer: &mut Device<W>,
    session: &mut Session,
) -> Result<u64, WriteFailed>
    requires { is_failed writer.old ≡ false }
    ensures ok { IfOk result (λ count. LineServed line.now (state_of session.old)
        (state_of session.new) (hosts_in session.old) (hosts_in session.new)
        (W.contents (inner_of writer.old)) (W.contents (inner_of writer.new)) count) }
    ensures err { OnErr result (LineServedInPart line.now (state_of session.old)
        (state_of session.new) (hosts_in session.old) (hosts_in session.new)
        (W.contents (inner_of writer.old)) (W.contents (inner_of writer.new))) }
    ensures few { IfOk result (λ count. count ≤ 1) }
    ensures unmarked { OnOk result (is_failed writer.new ≡ false) }
    ensures marked { OnErr result (is_failed writer.new ≡ true) }
{
    match session.step(line) {
        Some(reply) => {
            writer.write_all(reply.bytes())?;
            Ok(1)
        }
        None => Ok(0),
    }
}
