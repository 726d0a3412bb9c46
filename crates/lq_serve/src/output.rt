//! One write to a std writer.
ghost use Rattle.std.specs.Prelude.{◌<◌, length, IfOk};
ghost use Rattle.std.specs.Io.{WritesAtMost};
ghost use Rattle.std.specs.Io.KnownBytes.{WriteAppends};

use crate::serve_error::WriteFailed;
use std::io::Write;

// One write, which fails where it answers an error (`Interrupted` too) or takes none of some bytes.
pub(crate) fn write_some<W: Write>(writer: &mut W, bytes: &[u8]) -> Result<usize, WriteFailed>
    ensures bound { WritesAtMost result bytes.now }
    ensures bytes { WriteAppends (W.contents writer.old) (W.contents writer.new) result bytes.now }
    ensures some { IfOk result (λ n. 0 < length bytes.now → 0 < n) }
{
    match writer.write(bytes) {
        Ok(count) if 0 < count || bytes.is_empty() => Ok(count),
        _ => Err(WriteFailed),
    }
}
