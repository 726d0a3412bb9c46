//! Inputs, each answered once.
ghost use Rattle.std.specs.Prelude.{◌≡◌, false, true, IfOk, OnOk, OnErr};
ghost use Rattle.std.specs.Io.KnownBytes.{Appends};
ghost use Rattle.lq_prompt.specs.Desks.{desk_of};
ghost use Rattle.lq_serve.specs.Devices.{AppendsFront, inner_of, is_failed};
ghost use Rattle.lq_conversation.specs.Inputs.{AnswersInput, AnswersOnce, left_after, next_after, said_of, text_of};
ghost use Rattle.lq_conversation.specs.Writers.{IsCutShort, Receives};

use crate::next::Next;
use crate::output::tell;
use crate::surroundings::Surroundings;
use lq_command::Input;
use lq_prompt::{Answer, Desk};
use lq_serve::{Device, WriteFailed};
use std::alloc::AllocError;
use std::io::Write;

/// Answers an input, once, writes the answer, and returns what is left to do. A line is answered by the desk; where memory is refused for
/// that, the desk is as it was, and a sentence says so, as one does of an input that is no line.
pub fn answer_input<W: Write, S: Surroundings>(
    input: &Input,
    desk: &mut Desk,
    writer: &mut Device<W>,
    around: &mut S,
) -> Result<Next, WriteFailed>
    requires { is_failed writer.old ≡ false }

    // The writer took what is written of the answer.
    ensures ok { IfOk result (λ next. Receives (W.contents (inner_of writer.old))
        (W.contents (inner_of writer.new))
        (λ bytes. AnswersInput input.now (desk_of desk.old) (desk_of desk.new) bytes next)) }

    // A writer that failed took the first of it.
    ensures err { OnErr result (Receives (W.contents (inner_of writer.old))
        (W.contents (inner_of writer.new)) (IsCutShort
        (λ bytes. AnswersInput input.now (desk_of desk.old) (desk_of desk.new) bytes Next.Line))) }

    // The writer shows whether it failed.
    ensures unmarked { OnOk result (is_failed writer.new ≡ false) }
    ensures marked { OnErr result (is_failed writer.new ≡ true) }
{
    match input {
        Input::Line(line) => answer_line(line.as_str(), desk, writer, around),
        Input::TooLong => complain(
            writer,
            "The line has more than 65,536 bytes, and was not read: write a shorter one.\n",
        ),
        Input::NoText => complain(
            writer,
            "The line is not UTF-8, and was not read: write it in UTF-8.\n",
        ),
        Input::NoMemory => complain(
            writer,
            "There was not enough memory for the line: write a shorter one.\n",
        ),
        Input::End => Ok(Next::Nothing),
    }
}

/// Writes a sentence about an input that is no line, after which comes the next one.
fn complain<W: Write>(writer: &mut Device<W>, sentence: &str) -> Result<Next, WriteFailed>
    requires { is_failed writer.old ≡ false }
    ensures ok { IfOk result (λ next. (next ≡ Next.Line)
        × Appends (W.contents (inner_of writer.old)) (W.contents (inner_of writer.new)) sentence.now) }
    ensures err { OnErr result (AppendsFront (W.contents (inner_of writer.old))
        (W.contents (inner_of writer.new)) sentence.now) }
    ensures unmarked { OnOk result (is_failed writer.new ≡ false) }
    ensures marked { OnErr result (is_failed writer.new ≡ true) }
{
    tell(writer, sentence.as_bytes())
}

/// Answers a line, writes the answer, and returns what is left to do.
fn answer_line<W: Write, S: Surroundings>(
    line: &str,
    desk: &mut Desk,
    writer: &mut Device<W>,
    around: &mut S,
) -> Result<Next, WriteFailed>
    requires { is_failed writer.old ≡ false }
    ensures ok { IfOk result (λ next. Receives (W.contents (inner_of writer.old))
        (W.contents (inner_of writer.new))
        (λ bytes. AnswersOnce line.now (desk_of desk.old) (desk_of desk.new) bytes next)) }
    ensures err { OnErr result (Receives (W.contents (inner_of writer.old))
        (W.contents (inner_of writer.new)) (IsCutShort
        (λ bytes. AnswersOnce line.now (desk_of desk.old) (desk_of desk.new) bytes Next.Line))) }
    ensures unmarked { OnOk result (is_failed writer.new ≡ false) }
    ensures marked { OnErr result (is_failed writer.new ≡ true) }
{
    around.start_clock();
    let given = desk.answer(line);
    report(desk, &given, around);
    write_given(given, writer)
}

/// Reports the time that a statement took, where that was asked for.
fn report<S: Surroundings>(desk: &Desk, given: &Result<Answer, AllocError>, around: &mut S) {
    if desk.is_timed() && matches!(given, Ok(Answer::Shown(_) | Answer::Reply(_))) {
        around.report_time();
    }
}

/// Writes what the desk gave for a line, and returns what is left to do.
fn write_given<W: Write>(
    given: Result<Answer, AllocError>,
    writer: &mut Device<W>,
) -> Result<Next, WriteFailed>
    requires { is_failed writer.old ≡ false }
    ensures ok { IfOk result (λ next. (next ≡ left_after given)
        × Appends (W.contents (inner_of writer.old)) (W.contents (inner_of writer.new))
        (said_of given)) }
    ensures err { OnErr result ((left_after given ≡ Next.Line)
        × AppendsFront (W.contents (inner_of writer.old)) (W.contents (inner_of writer.new))
        (said_of given)) }
    ensures unmarked { OnOk result (is_failed writer.new ≡ false) }
    ensures marked { OnErr result (is_failed writer.new ≡ true) }
{
    match given {
        Ok(answer) => write_text(answer, writer),
        Err(AllocError) => tell(
            writer,
            "There was not enough memory for that, and nothing was done.\n".as_bytes(),
        ),
    }
}

/// Writes an answer, and returns what is left to do.
fn write_text<W: Write>(answer: Answer, writer: &mut Device<W>) -> Result<Next, WriteFailed>
    requires { is_failed writer.old ≡ false }
    ensures ok { IfOk result (λ next. (next ≡ next_after answer)
        × Appends (W.contents (inner_of writer.old)) (W.contents (inner_of writer.new))
        (text_of answer)) }
    ensures err { OnErr result ((next_after answer ≡ Next.Line)
        × AppendsFront (W.contents (inner_of writer.old)) (W.contents (inner_of writer.new))
        (text_of answer)) }
    ensures unmarked { OnOk result (is_failed writer.new ≡ false) }
    ensures marked { OnErr result (is_failed writer.new ≡ true) }
{
    match answer {
        Answer::Nothing => Ok(Next::Line),
        Answer::Shown(text) => tell(writer, text.as_bytes()),
        Answer::Reply(line) => tell(writer, line.bytes()),
        Answer::Text(text) => tell(writer, text.as_bytes()),
        Answer::Script(file) => Ok(Next::Script(file)),
        Answer::End => Ok(Next::Nothing),
    }
}
