//! Texts, written as JSON strings.
ghost use Rattle.std.specs.Prelude.{◌≡◌, ◌++◌, length, OnOk};
ghost use Rattle.std.specs.Bool.{OnTrue};
ghost use Rattle.json.specs.Print.{escape, quoted};
ghost use Rattle.json.specs.Written.{PlainBetween};

use crate::text::Text;
use json::Writer;
use std::alloc::AllocError;

/// Whether no byte needs an escape.
#[inline(always)]
fn is_plain(text: &[u8]) -> bool
    ensures { OnTrue result (PlainBetween text.now 0 (length text.now)) }
{
    for &byte in text {
        if byte == b'"' || byte == b'\\' || byte < 0x20 {
            return false;
        }
    }
    true
}

/// A text as the library writes it, with its escapes.
#[inline(never)]
#[tactic(auto, using(crate::proofs::Written::print_string))]
fn write_escaped(text: &str, out: &mut Text) -> Result<(), AllocError>
    ensures { OnOk result (out.new ≡ out.old ++ quoted text.now) }
{
    let mut writer = Writer::new(Vec::new(out.allocator()));
    writer.string(text)?;
    let written = writer.into_inner();
    out.put(written.as_slice())
}

/// A text without escapes, in quotes.
fn write_plain(text: &[u8], out: &mut Text) -> Result<(), AllocError>
    requires { escape text.now ≡ text.now }
    ensures { OnOk result (out.new ≡ out.old ++ quoted text.now) }
{
    out.put_byte(b'"')?;
    out.put(text)?;
    out.put_byte(b'"')
}

/// A text, in quotes and with escapes.
// Most texts need none. Those that do go through a writer of their own, since one over the line
// would fill room ahead for each.
#[inline(never)]
pub(crate) fn write_string(text: &str, out: &mut Text) -> Result<(), AllocError>
    ensures { OnOk result (out.new ≡ out.old ++ quoted text.now) }
{
    let bytes = text.as_bytes();
    if is_plain(bytes) {
        write_plain(bytes, out)
    } else {
        write_escaped(text, out)
    }
}
