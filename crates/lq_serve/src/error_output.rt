//! What is written to standard error. Where it fails nobody is left to report that to, and it takes no more.
ghost use Rattle.std.specs.Prelude.{◌≡◌, false};
ghost use Rattle.lq_serve.specs.Devices.{inner_of, is_failed, Writes, WritesUnlessFailed};

use crate::device::Device;
use std::io::Write;

// Writes as much of the text as can be written.
pub(crate) fn write_error<E: Write>(errors: &mut Device<E>, text: &[u8])
    requires { is_failed errors.old ≡ false }
    ensures { Writes (is_failed errors.new) (E.contents (inner_of errors.old))
        (E.contents (inner_of errors.new)) text.now }
{
    let _ = errors.write_all(text);
}

// Writes as much of the text as can be written, which is nothing where the device has failed.
#[tactic(auto, using(crate::proofs::DeviceLemmas::unless_failed))]
pub(crate) fn write_more<E: Write>(errors: &mut Device<E>, text: &str)
    ensures { WritesUnlessFailed (is_failed errors.old) (E.contents (inner_of errors.old))
        (is_failed errors.new) (E.contents (inner_of errors.new)) text.now }
{
    if !errors.failed() {
        write_error(errors, text.as_bytes());
    }
}
