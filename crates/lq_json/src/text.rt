//! A text that is written piece by piece.
ghost use Rattle.std.specs.Prelude.{◌≡◌, ◌+◌, ◌∷◌, ◌++◌, ◌≤◌, [], length, take, vec_len, OnOk};
ghost use Rattle.serde_json.specs.Written.{comma_if};

use std::alloc::{AllocError, Global};
use std::marker::Model;
use std::simd::Simd;

/// The least and the most that is filled ahead.
const LEAST_AHEAD: usize = 128;

const MOST_AHEAD: usize = 1024;

/// Fills with zeros so many bytes or more.
#[cold]
#[inline(never)]
fn fill(bytes: &mut Vec<u8>, additional: usize) -> Result<(), AllocError>
    ensures front { take (vec_len bytes.old) bytes.new.items ≡ bytes.old.items }
    ensures ready { OnOk result (vec_len bytes.old + additional ≤ vec_len bytes.new) }
{
    let ahead = additional.max(bytes.len().clamp(LEAST_AHEAD, MOST_AHEAD));
    match bytes.len().checked_add(ahead) {
        Some(len) => bytes.resize(len, 0),
        None => Err(AllocError),
    }
}

/// Sees to it that so many bytes are there behind the first `len`.
#[inline(always)]
fn fill_ahead(bytes: &mut Vec<u8>, len: usize, additional: usize) -> Result<(), AllocError>
    requires { len ≤ vec_len bytes.old }
    ensures front { take (vec_len bytes.old) bytes.new.items ≡ bytes.old.items }
    ensures ready { OnOk result (len + additional ≤ vec_len bytes.new) }
{
    if additional <= bytes.len() - len {
        return Ok(());
    }
    fill(bytes, additional)
}

/// Stores the first N bytes of `block` at a place, all at once.
#[inline(always)]
fn store<const N: usize>(bytes: &mut [u8], at: usize, block: &[u8])
    requires { (N ≤ length block.now) × (at + N ≤ length bytes.old) }
    ensures stored { take (at + N) bytes.new ≡ take at bytes.old ++ take N block.now }
    ensures len { length bytes.new ≡ length bytes.old }
{
    Simd::<u8, N>::from_slice(block).copy_to_slice(&mut bytes[at..]);
}

/// Bytes that are put one behind another, with no copy of those before. Once memory was refused it
/// is of no more use.
// Bytes behind the first `len` are filled ahead, so that a short text is stored as a block of a
// fixed size.
#[derive(Drop)]
pub(crate) struct Text {
    bytes: Vec<u8>,
    len: usize,
}

impl Model for Text {
    ghost use Rattle.std.specs.Prelude.{◌≤◌, length, take, List, ℕ};

    ghost Value = { List ℕ };

    ghost view = { λ t. take t.len t.bytes.items };

    ghost invariant = { λ t. t.len ≤ length t.bytes.items };
}

impl Text {
    /// The text of no bytes. Takes no memory.
    pub(crate) fn new(alloc: Global) -> Text
        ensures { result ≡ [] }
    {
        Text {
            bytes: Vec::new(alloc),
            len: 0,
        }
    }

    /// Puts bytes behind the others.
    #[inline(always)]
    pub(crate) fn put(&mut self, bytes: &[u8]) -> Result<(), AllocError>
        ensures { OnOk result (self.new ≡ self.old ++ bytes.now) }
    {
        fill_ahead(&mut self.bytes, self.len, bytes.len())?;
        let end = self.len + bytes.len();
        self.bytes.as_mut_slice()[self.len..end].copy_from_slice(bytes);
        self.len = end;
        Ok(())
    }

    /// Puts the first `count` bytes of a block behind the others, with one store of N bytes.
    #[inline(always)]
    pub(crate) fn put_block<const N: usize>(
        &mut self,
        block: &[u8],
        count: usize,
    ) -> Result<(), AllocError>
        requires { (count ≤ N) × (N ≤ length block.now) }
        ensures { OnOk result (self.new ≡ self.old ++ take count block.now) }
    {
        fill_ahead(&mut self.bytes, self.len, N)?;
        store::<N>(self.bytes.as_mut_slice(), self.len, block);
        self.len += count;
        Ok(())
    }

    /// Puts a byte behind the others.
    #[inline(always)]
    pub(crate) fn put_byte(&mut self, byte: u8) -> Result<(), AllocError>
        ensures { OnOk result (self.new ≡ self.old ++ byte ∷ []) }
    {
        fill_ahead(&mut self.bytes, self.len, 1)?;
        self.bytes.as_mut_slice()[self.len] = byte;
        self.len += 1;
        Ok(())
    }

    /// Puts a comma behind the others, where something is before what comes.
    #[inline(always)]
    pub(crate) fn put_comma(&mut self, later: bool) -> Result<(), AllocError>
        ensures { OnOk result (self.new ≡ self.old ++ comma_if later) }
    {
        if later { self.put_byte(b',') } else { Ok(()) }
    }

    /// What gives the text its memory.
    pub(crate) fn allocator(&self) -> Global {
        *self.bytes.allocator()
    }

    /// The bytes, moved and not copied.
    pub(crate) fn into_bytes(self) -> Vec<u8>
        ensures { result.items ≡ self }
    {
        let Text { mut bytes, len } = self;
        bytes.truncate(len);
        bytes
    }
}
