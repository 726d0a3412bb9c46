//! Conversations, in which the inputs of a reader are answered in order.
ghost use Rattle.std.specs.Prelude.{◌≡◌, ◌||◌, if◌then◌else◌, not, List, ℕ, false, true, IfOk, OnOk, OnErr};
ghost use Rattle.lq_command.specs.Readers.{input_count, is_ended, is_marked, reader_of};
ghost use Rattle.lq_prompt.specs.Desks.{desk_of};
ghost use Rattle.lq_serve.specs.Devices.{inner_of, is_failed};
ghost use Rattle.lq_conversation.specs.Conversations.{AnswersInputs, AnswersTyped, Conversation};
ghost use Rattle.lq_conversation.specs.Outcomes.{has_failed, outcome_of};
ghost use Rattle.lq_conversation.specs.Writers.{Receives};

use crate::inputs::answer_input;
use crate::next::Next;
use crate::script::run_file;
use crate::surroundings::Surroundings;
use lq_command::{Input, LineReader};
use lq_prompt::Desk;
use lq_serve::{Device, Files, WriteFailed};
use std::alloc::Global;
use std::io::{Read, Write};

/// The status where the desk has ended.
const ENDED: u8 = 0;

/// The status for a fault of the input or the output.
const DEVICE_FAULT: u8 = 4;

/// Answers what the line reader has, input by input, each once and in order, until it ends or the desk does, and returns the program's
/// status: 4 where the line reader or the writer has failed, and otherwise 0. The lines of a file that an input names are answered in its
/// place. The prompt and hints go to what is around.
pub fn converse<R: Read, W: Write, F: Files, S: Surroundings>(
    alloc: Global,
    lines: &mut LineReader<R>,
    desk: &mut Desk,
    writer: &mut Device<W>,
    files: &mut F,
    around: &mut S,
) -> u8
    requires open { is_ended lines.old ≡ false }
    requires lines { is_marked lines.old ≡ false }
    requires writer { is_failed writer.old ≡ false }

    // Each input is answered once, in order, and the writer takes what is answered.
    ensures answers { Conversation (F.holds files.old) (R.remaining (reader_of lines.old))
        (input_count lines.old) (input_count lines.new) (desk_of desk.old) (desk_of desk.new)
        (W.contents (inner_of writer.old)) (W.contents (inner_of writer.new))
        (is_marked lines.new) (is_failed writer.new) }

    // The status is 4 exactly where one of the two is marked at the end.
    ensures status { result ≡ (if is_marked lines.new || is_failed writer.new then 4 else 0) }
{
    around.hint("One statement per line; .help lists the commands; Ctrl-D ends.\n");
    match answer_inputs(alloc, lines, desk, writer, files, around) {
        Ok(true) => {
            around.hint("\n");
            ENDED
        }
        Ok(false) => {
            around.hint("\ndesk: the input can't be read\n");
            DEVICE_FAULT
        }
        Err(WriteFailed) => {
            around.hint("\ndesk: the output can't be written\n");
            DEVICE_FAULT
        }
    }
}

/// Answers the inputs of a line reader, and returns whether the desk has ended: if not, nothing more can be read.
fn answer_inputs<R: Read, W: Write, F: Files, S: Surroundings>(
    alloc: Global,
    lines: &mut LineReader<R>,
    desk: &mut Desk,
    writer: &mut Device<W>,
    files: &mut F,
    around: &mut S,
) -> Result<bool, WriteFailed>
    requires open { is_ended lines.old ≡ false }
    requires lines { is_marked lines.old ≡ false }
    requires writer { is_failed writer.old ≡ false }
    ensures ok { IfOk result (λ ends. Receives (W.contents (inner_of writer.old))
        (W.contents (inner_of writer.new)) (λ bytes. AnswersInputs (F.holds files.old)
        (R.remaining (reader_of lines.old)) (input_count lines.old) (input_count lines.new)
        (desk_of desk.old) (desk_of desk.new) bytes (outcome_of ends))) }
    ensures err { OnErr result (Receives (W.contents (inner_of writer.old))
        (W.contents (inner_of writer.new)) (λ bytes. AnswersInputs (F.holds files.old)
        (R.remaining (reader_of lines.old)) (input_count lines.old) (input_count lines.new)
        (desk_of desk.old) (desk_of desk.new) bytes has_failed)) }
    ensures unmarked { OnOk result (is_failed writer.new ≡ false) }
    ensures marked { OnErr result (is_failed writer.new ≡ true) }

    // Where the desk has not ended, the line reader has refused.
    ensures refused { IfOk result (λ ends. is_marked lines.new ≡ not ends) }
    ensures unrefused { OnErr result (is_marked lines.new ≡ false) }
{
    loop {
        around.prompt(desk.role());
        let Ok(input) = lines.next_line(alloc) else {
            return Ok(false);
        };
        let ends = answer_typed(alloc, input, desk, writer, files, around)?;
        if ends {
            return Ok(true);
        }
    }
}

/// Answers an input that was typed, and the lines of the file that it may name, and returns whether the desk ends.
fn answer_typed<W: Write, F: Files, S: Surroundings>(
    alloc: Global,
    input: Input,
    desk: &mut Desk,
    writer: &mut Device<W>,
    files: &mut F,
    around: &mut S,
) -> Result<bool, WriteFailed>
    requires { is_failed writer.old ≡ false }
    ensures ok { IfOk result (λ ends. Receives (W.contents (inner_of writer.old))
        (W.contents (inner_of writer.new)) (λ bytes. AnswersTyped (F.holds files.old) input
        (desk_of desk.old) (desk_of desk.new) bytes (outcome_of ends))) }
    ensures err { OnErr result (Receives (W.contents (inner_of writer.old))
        (W.contents (inner_of writer.new)) (λ bytes. AnswersTyped (F.holds files.old) input
        (desk_of desk.old) (desk_of desk.new) bytes has_failed)) }
    ensures unmarked { OnOk result (is_failed writer.new ≡ false) }
    ensures marked { OnErr result (is_failed writer.new ≡ true) }
    ensures keeps { (name : List ℕ) → F.holds files.new name ≡ F.holds files.old name }
{
    match answer_input(&input, desk, writer, around)? {
        Next::Line => Ok(false),
        Next::Nothing => Ok(true),
        Next::Script(file) => run_file(alloc, file.as_str(), desk, writer, files, around),
    }
}
