//! A script's bytes: reading them whole, and their sizes.
ghost use Rattle.std.specs.Prelude.{◌≡◌, ◌≢◌, ◌+◌, ◌<◌, ◌≤◌, ◌↔◌, false, true, length, vec_len, IfOk, IfErr, IfSome};
ghost use Rattle.lq_grammar.specs.Script.{fits, script_limit};
ghost use Rattle.lq_serve.specs.Devices.{inner_of, read_count, late_count, late_count_next, is_ended, is_failed, TakesAtMost};

use crate::device::Device;
use crate::serve_error::ServeError;
use std::alloc::Global;
use std::io::Read;

/// The most bytes that a script may have.
pub const SCRIPT_LIMIT: usize = 1_048_576;

// Reads to the end, by at most `limit + 1` reads, none after an error or the end: at most `limit` bytes, and one more to see
// that there are more. The first read is made whether or not the reader had come to its end before.
//
// It refuses as `Read` where the reader fails, as `TooLong` as soon as it has `limit + 1` bytes, and
// as `Memory` where the bytes find no room.
pub(crate) fn read_script<R: Read>(
    alloc: Global,
    reader: &mut Device<R>,
    limit: usize,
) -> Result<Vec<u8>, ServeError>
    requires limit { limit ≤ script_limit }
    requires unmarked { is_failed reader.old ≡ false }
    ensures in_size { IfOk result (λ bytes. vec_len bytes ≤ limit) }
    ensures whole { IfOk result (λ bytes. IfSome (R.remaining (inner_of reader.old))
        (λ all. bytes.items ≡ all)) }
    ensures too_long { result ≡ Err ServeError.TooLong
        → IfSome (R.remaining (inner_of reader.old)) (λ all. limit < length all) }
    ensures memory { result ≡ Err ServeError.Memory → is_ended reader.new ≡ false }
    ensures marked { (result ≡ Err ServeError.Read) ↔ (is_failed reader.new ≡ true) }
    ensures few { read_count reader.new ≤ read_count reader.old + (limit + 1) }
    ensures in_time { late_count reader.new ≤ late_count_next reader.old }
    ensures taken { TakesAtMost (limit + 1) (R.remaining (inner_of reader.old))
        (R.remaining (inner_of reader.new)) }
    ensures refusals { IfErr result (λ e. (e ≢ ServeError.Write) × (e ≢ ServeError.Utf8)) }
{
    let mut bytes = Vec::new(alloc);
    let mut chunk = [0u8; 4096];
    while bytes.len() <= limit {
        let room = chunk.len().min(limit + 1 - bytes.len());
        let count = reader.read(&mut chunk[..room])?;
        if count == 0 {
            return Ok(bytes);
        }
        bytes.extend_from_slice(&chunk[..count])?;
    }
    Err(ServeError::TooLong)
}

// Whether no line has more than `limit` bytes, its line feed not counted.
pub(crate) fn has_short_lines(bytes: &[u8], limit: usize) -> bool
    ensures { result ≡ fits limit bytes.now }
{
    let mut room = limit;
    for byte in bytes {
        if *byte == b'\n' {
            room = limit;
        } else if room == 0 {
            return false;
        } else {
            room -= 1;
        }
    }
    true
}
