//! Scripts, whose lines are answered as if they were typed.
ghost use Rattle.std.specs.Prelude.{◌≡◌, List, ℕ, false, true, IfOk, OnOk, OnErr};
ghost use Rattle.lq_prompt.specs.Desks.{desk_of};
ghost use Rattle.lq_serve.specs.Devices.{inner_of, is_failed};
ghost use Rattle.lq_conversation.specs.Scripts.{AnswersInScript, ReadsScript, RunsFile, RunsScript, fault_text, script_of};
ghost use Rattle.lq_conversation.specs.Outcomes.{Tells, has_failed, outcome_of};
ghost use Rattle.lq_conversation.specs.Writers.{Receives};

use crate::inputs::answer_input;
use crate::next::Next;
use crate::output::write_answer;
use crate::surroundings::Surroundings;
use lq_command::{Input, first_line, input_of};
use lq_prompt::Desk;
use lq_serve::{Device, FileError, Files, SCRIPT_LIMIT, WriteFailed};
use std::alloc::Global;
use std::io::Write;

/// Why no line of a script is answered.
#[derive(Clone, Copy, Drop)]
enum ScriptFault {
    /// It has too many bytes.
    TooLong,
    /// It can't be read.
    Unreadable,
    /// There was no memory for it.
    Memory,
}

/// Answers the lines of a file, and returns whether the desk ends.
pub(crate) fn run_file<W: Write, F: Files, S: Surroundings>(
    alloc: Global,
    file: &str,
    desk: &mut Desk,
    writer: &mut Device<W>,
    files: &mut F,
    around: &mut S,
) -> Result<bool, WriteFailed>
    requires { is_failed writer.old ≡ false }
    ensures ok { IfOk result (λ ends. Receives (W.contents (inner_of writer.old))
        (W.contents (inner_of writer.new)) (λ bytes. RunsFile (F.holds files.old) file.now
        (desk_of desk.old) (desk_of desk.new) bytes (outcome_of ends))) }
    ensures err { OnErr result (Receives (W.contents (inner_of writer.old))
        (W.contents (inner_of writer.new)) (λ bytes. RunsFile (F.holds files.old) file.now
        (desk_of desk.old) (desk_of desk.new) bytes has_failed)) }
    ensures unmarked { OnOk result (is_failed writer.new ≡ false) }
    ensures marked { OnErr result (is_failed writer.new ≡ true) }
    ensures keeps { (name : List ℕ) → F.holds files.new name ≡ F.holds files.old name }
{
    match read_script(files, file) {
        Ok(script) => answer_script(alloc, script.as_slice(), desk, writer, around),
        Err(fault) => say(writer, fault_text(fault)),
    }
}

/// The script in the file of this name, or why there is none.
fn read_script<F: Files>(files: &mut F, file: &str) -> Result<Vec<u8>, ScriptFault>
    ensures script { ReadsScript (F.holds files.old) file.now result }
    ensures keeps { (name : List ℕ) → F.holds files.new name ≡ F.holds files.old name }
{
    match files.read(file, SCRIPT_LIMIT as u64 + 1) {
        Ok(bytes) => in_size(bytes),
        Err(FileError::Read) => Err(ScriptFault::Unreadable),
        Err(FileError::Memory) => Err(ScriptFault::Memory),
    }
}

/// The bytes of a script, unless there are too many.
fn in_size(bytes: Vec<u8>) -> Result<Vec<u8>, ScriptFault>
    ensures { result ≡ script_of (Ok bytes) }
{
    if bytes.len() > SCRIPT_LIMIT {
        Err(ScriptFault::TooLong)
    } else {
        Ok(bytes)
    }
}

/// The sentence that says why no line of a script is answered.
fn fault_text(fault: ScriptFault) -> &'static str
    ensures { result.now ≡ fault_text fault }
{
    match fault {
        ScriptFault::TooLong => {
            "The script has more than 1,048,576 bytes, and no line of it was answered.\n"
        }
        ScriptFault::Unreadable => "There is no file of this name that can be read.\n",
        ScriptFault::Memory => "There was not enough memory for the script.\n",
    }
}

/// Answers the lines of a script, and returns whether the desk ends.
fn answer_script<W: Write, S: Surroundings>(
    alloc: Global,
    script: &[u8],
    desk: &mut Desk,
    writer: &mut Device<W>,
    around: &mut S,
) -> Result<bool, WriteFailed>
    requires { is_failed writer.old ≡ false }
    ensures ok { IfOk result (λ ends. Receives (W.contents (inner_of writer.old))
        (W.contents (inner_of writer.new)) (λ bytes. RunsScript script.now
        (desk_of desk.old) (desk_of desk.new) bytes (outcome_of ends))) }
    ensures err { OnErr result (Receives (W.contents (inner_of writer.old))
        (W.contents (inner_of writer.new)) (λ bytes. RunsScript script.now
        (desk_of desk.old) (desk_of desk.new) bytes has_failed)) }
    ensures unmarked { OnOk result (is_failed writer.new ≡ false) }
    ensures marked { OnErr result (is_failed writer.new ≡ true) }
{
    let mut rest = script;
    while !rest.is_empty() {
        let (line, behind) = first_line(rest);
        rest = behind;
        let ends = answer_in_script(&input_of(alloc, line), desk, writer, around)?;
        if ends {
            return Ok(true);
        }
    }
    Ok(false)
}

/// Answers an input of a script, and returns whether the desk ends.
fn answer_in_script<W: Write, S: Surroundings>(
    input: &Input,
    desk: &mut Desk,
    writer: &mut Device<W>,
    around: &mut S,
) -> Result<bool, WriteFailed>
    requires { is_failed writer.old ≡ false }
    ensures ok { IfOk result (λ ends. Receives (W.contents (inner_of writer.old))
        (W.contents (inner_of writer.new)) (λ bytes. AnswersInScript input.now
        (desk_of desk.old) (desk_of desk.new) bytes (outcome_of ends))) }
    ensures err { OnErr result (Receives (W.contents (inner_of writer.old))
        (W.contents (inner_of writer.new)) (λ bytes. AnswersInScript input.now
        (desk_of desk.old) (desk_of desk.new) bytes has_failed)) }
    ensures unmarked { OnOk result (is_failed writer.new ≡ false) }
    ensures marked { OnErr result (is_failed writer.new ≡ true) }
{
    match answer_input(input, desk, writer, around)? {
        Next::Line => Ok(false),
        Next::Nothing => Ok(true),
        Next::Script(_other) => say(writer, "A script can't run another one.\n"),
    }
}

/// Writes a sentence, after which the desk goes on.
fn say<W: Write>(writer: &mut Device<W>, sentence: &str) -> Result<bool, WriteFailed>
    requires { is_failed writer.old ≡ false }
    ensures ok { IfOk result (λ ends. Receives (W.contents (inner_of writer.old))
        (W.contents (inner_of writer.new)) (λ bytes. Tells sentence.now bytes (outcome_of ends))) }
    ensures err { OnErr result (Receives (W.contents (inner_of writer.old))
        (W.contents (inner_of writer.new)) (λ bytes. Tells sentence.now bytes has_failed)) }
    ensures unmarked { OnOk result (is_failed writer.new ≡ false) }
    ensures marked { OnErr result (is_failed writer.new ≡ true) }
{
    write_answer(writer, sentence.as_bytes())?;
    Ok(false)
}
