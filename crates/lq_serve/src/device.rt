//! A reader or a writer that keeps account of its reads and of its faults.
ghost use Rattle.std.specs.Prelude.{◌≡◌, ◌≤◌, ◌<◌, ◌+◌, ◌↔◌, false, true, length, IsErr, IfOk, OnOk, OnErr};
ghost use Rattle.std.specs.Io.{ReadsAtMost, WritesAtMost};
ghost use Rattle.std.specs.Io.KnownBytes.{ReadConsumes, Appends, Keeps, WriteAppends};

use crate::output::write_some;
use crate::serve_error::{ReadFailed, WriteFailed};
use std::io::{Read, Write};

/// A std reader or writer with a mark that says whether it has failed.
///
/// It fails where a read, a write or a flush answers an error (`Interrupted` is one too, and is not
/// tried again), or where a write takes none of some bytes. A mark stays.
#[derive(Drop)]
pub struct Device<T> {
    inner: T,
    reads: u64,
    late: u64,
    writes: u64,
    failed: bool,
    ended: bool,
}

impl<T> Device<T> {
    ghost use Rattle.lq_serve.specs.Devices.{inner_of, read_count, late_count, write_count, is_failed, is_ended};

    /// A device that has made no read and no write, is unmarked, and has not come to its end.
    pub fn new(inner: T) -> Device<T>
        ensures inner { inner_of result ≡ inner }
        ensures unread { read_count result ≡ 0 }
        ensures in_time { late_count result ≡ 0 }
        ensures unwritten { write_count result ≡ 0 }
        ensures unmarked { is_failed result ≡ false }
        ensures open { is_ended result ≡ false }
    {
        Device {
            inner,
            reads: 0,
            late: 0,
            writes: 0,
            failed: false,
            ended: false,
        }
    }

    /// Whether the device is marked: it has failed.
    pub fn failed(&self) -> bool
        ensures { result ≡ is_failed self.now }
    {
        self.failed
    }

    /// How many reads the device has made. The count stays at 2^64 - 1.
    pub fn reads(&self) -> u64
        ensures { result ≡ read_count self.now }
    {
        self.reads
    }

    fn mark(&mut self)
        ensures { self.new ≡ record self.old { failed = true } }
    {
        self.failed = true;
    }
}

impl<R: Read> Device<R> {
    ghost use Rattle.lq_serve.specs.Devices.{inner_of, read_count, late_count, late_count_next, write_count, is_failed, is_ended, one_more};

    /// Makes one read, and returns how many bytes it gave. An error or the answer 0 ends the device until a
    /// read gives bytes again: std's readers may be read on, and reads that come so late are counted.
    pub fn read(&mut self, buffer: &mut [u8]) -> Result<usize, ReadFailed>
        ensures bound { ReadsAtMost result buffer.new }
        ensures bytes { ReadConsumes (R.remaining (inner_of self.old))
            (R.remaining (inner_of self.new)) result buffer.new }
        ensures counted { read_count self.new ≡ one_more (read_count self.old) }
        ensures late { late_count self.new ≡ late_count_next self.old }
        ensures writes { write_count self.new ≡ write_count self.old }
        ensures marked { is_failed self.old ≡ false → (IsErr result ↔ (is_failed self.new ≡ true)) }
        ensures stays { is_failed self.old ≡ true → is_failed self.new ≡ true }
        ensures open { IfOk result (λ n. 0 < n → is_ended self.new ≡ false) }
        ensures ended { IfOk result (λ n. n ≡ 0 → is_ended self.new ≡ true) }
        ensures broken { OnErr result (is_ended self.new ≡ true) }
    {
        self.reads = self.reads.saturating_add(1);
        if self.ended {
            self.late = self.late.saturating_add(1);
        }
        match self.inner.read(buffer) {
            Ok(count) => {
                self.ended = count == 0;
                Ok(count)
            }
            Err(_) => {
                self.mark();
                self.ended = true;
                Err(ReadFailed)
            }
        }
    }
}

impl<W: Write> Device<W> {
    ghost use Rattle.lq_serve.specs.Devices.{inner_of, read_count, late_count, write_count, is_failed, is_ended, one_more, AppendsFront};

    /// Makes one write, and returns how many of the bytes it took: of some bytes at least one. A write that
    /// answers an error, or takes none of some bytes, fails and marks the device.
    pub fn write(&mut self, bytes: &[u8]) -> Result<usize, WriteFailed>
        ensures bound { WritesAtMost result bytes.now }
        ensures bytes { WriteAppends (W.contents (inner_of self.old))
            (W.contents (inner_of self.new)) result bytes.now }
        ensures some { IfOk result (λ n. 0 < length bytes.now → 0 < n) }
        ensures counted { write_count self.new ≡ one_more (write_count self.old) }
        ensures marked { is_failed self.old ≡ false → (IsErr result ↔ (is_failed self.new ≡ true)) }
        ensures stays { is_failed self.old ≡ true → is_failed self.new ≡ true }
        ensures reads { read_count self.new ≡ read_count self.old }
        ensures late { late_count self.new ≡ late_count self.old }
        ensures ended { is_ended self.new ≡ is_ended self.old }
    {
        self.writes = self.writes.saturating_add(1);
        let result = write_some(&mut self.inner, bytes);
        if result.is_err() {
            self.mark();
        }
        result
    }

    /// Writes all the bytes, by at most as many writes as there are bytes. It ends at the first write that
    /// fails: a front of the bytes is then written.
    pub fn write_all(&mut self, bytes: &[u8]) -> Result<(), WriteFailed>
        ensures ok { OnOk result (Appends (W.contents (inner_of self.old))
            (W.contents (inner_of self.new)) bytes.now) }
        ensures err { OnErr result (AppendsFront (W.contents (inner_of self.old))
            (W.contents (inner_of self.new)) bytes.now) }
        ensures few { write_count self.new ≤ write_count self.old + length bytes.now }
        ensures marked { is_failed self.old ≡ false → (IsErr result ↔ (is_failed self.new ≡ true)) }
        ensures stays { is_failed self.old ≡ true → is_failed self.new ≡ true }
        ensures reads { read_count self.new ≡ read_count self.old }
        ensures late { late_count self.new ≡ late_count self.old }
        ensures ended { is_ended self.new ≡ is_ended self.old }
    {
        let mut rest = bytes;
        while !rest.is_empty() {
            let count = self.write(rest)?;
            let (_, behind) = rest.split_at(count);
            rest = behind;
        }
        Ok(())
    }

    /// Hands on what the writer may hold back.
    pub fn flush(&mut self) -> Result<(), WriteFailed>
        ensures bytes { Keeps (W.contents (inner_of self.old)) (W.contents (inner_of self.new)) }
        ensures marked { is_failed self.old ≡ false → (IsErr result ↔ (is_failed self.new ≡ true)) }
        ensures stays { is_failed self.old ≡ true → is_failed self.new ≡ true }
        ensures reads { read_count self.new ≡ read_count self.old }
        ensures late { late_count self.new ≡ late_count self.old }
        ensures writes { write_count self.new ≡ write_count self.old }
        ensures ended { is_ended self.new ≡ is_ended self.old }
    {
        match self.inner.flush() {
            Ok(()) => Ok(()),
            Err(_) => {
                self.mark();
                Err(WriteFailed)
            }
        }
    }
}
