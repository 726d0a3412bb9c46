//! The lines of a script whose bytes are there.
ghost use Rattle.std.specs.Prelude.{◌≡◌, ◌∷◌, ◌==◌, ◌<◌, IfSome, length};
ghost use Rattle.std.specs.List.{position};
ghost use Rattle.lq_grammar.specs.Script.{lines_of};
ghost use Rattle.lq_command.specs.Inputs.{IsInput};

use crate::input::{Draft, Input};
use std::alloc::Global;

/// The first line of some bytes, without its line feed, and the bytes after it.
pub fn first_line(bytes: &[u8]) -> (&[u8], &[u8])
    requires { 0 < length bytes.now }
    ensures lines { lines_of bytes.now ≡ result.0.now ∷ lines_of result.1.now }
    ensures shorter { length result.1.now < length bytes.now }
{
    match feed_of(bytes) {
        Some(feed) => (&bytes[..feed], &bytes[feed + 1..]),
        None => (bytes, &[]),
    }
}

/// The place of the first line feed.
fn feed_of(bytes: &[u8]) -> Option<usize>
    ensures value { result ≡ position (λ c. c == 10) bytes.now }
    ensures within { IfSome result (λ feed. feed < length bytes.now) }
{
    bytes.iter().position(|byte| *byte == b'\n')
}

/// The input that a line gives: a line of at most 65,536 bytes that is UTF-8, or what is wrong with it. There may be no memory for it.
pub fn input_of(alloc: Global, line: &[u8]) -> Input
    ensures { IsInput line.now result }
{
    let mut draft = Draft::new(alloc);
    for byte in line {
        draft.add(*byte);
    }
    draft.finish()
}
