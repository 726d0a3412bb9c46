//! Where answers are written.
ghost use Rattle.std.specs.Prelude.{◌≡◌, false, true, IfOk, OnOk, OnErr};
ghost use Rattle.std.specs.Io.KnownBytes.{Appends};
ghost use Rattle.lq_serve.specs.Devices.{AppendsFront, inner_of, is_failed};

use crate::next::Next;
use lq_serve::{Device, WriteFailed};
use std::io::Write;

/// Writes an answer, and hands it on at once.
pub(crate) fn write_answer<W: Write>(
    writer: &mut Device<W>,
    bytes: &[u8],
) -> Result<(), WriteFailed>
    requires { is_failed writer.old ≡ false }
    ensures ok { OnOk result (Appends (W.contents (inner_of writer.old))
        (W.contents (inner_of writer.new)) bytes.now) }
    ensures err { OnErr result (AppendsFront (W.contents (inner_of writer.old))
        (W.contents (inner_of writer.new)) bytes.now) }
    ensures unmarked { OnOk result (is_failed writer.new ≡ false) }
    ensures marked { OnErr result (is_failed writer.new ≡ true) }
{
    writer.write_all(bytes)?;
    writer.flush()
}

/// Writes what an input is answered, after which comes the next one.
pub(crate) fn tell<W: Write>(writer: &mut Device<W>, bytes: &[u8]) -> Result<Next, WriteFailed>
    requires { is_failed writer.old ≡ false }
    ensures ok { IfOk result (λ next. (next ≡ Next.Line)
        × Appends (W.contents (inner_of writer.old)) (W.contents (inner_of writer.new)) bytes.now) }
    ensures err { OnErr result (AppendsFront (W.contents (inner_of writer.old))
        (W.contents (inner_of writer.new)) bytes.now) }
    ensures unmarked { OnOk result (is_failed writer.new ≡ false) }
    ensures marked { OnErr result (is_failed writer.new ≡ true) }
{
    write_answer(writer, bytes)?;
    Ok(Next::Line)
}
