//! Lines, read as they come.
use crate::input::{Draft, Input};
use std::alloc::Global;
use std::io;
use std::io::Read;

/// A reader that is read line by line, with the number of inputs that it has given, and a mark that says whether it has refused one.
/// It is asked for one byte at a time, so it should have a buffer. After its end it isn't read again. A mark stays.
#[derive(Drop)]
pub struct LineReader<R> {
    reader: R,
    is_ended: bool,
    is_marked: bool,
    input_count: u64,
}

impl<R: Read> LineReader<R> {
    ghost use Rattle.std.specs.Prelude.{◌≡◌, ◌≤◌, ◌+◌, ◌↔◌, IfOk, IsErr, OnOk, OnErr, false, true};
    ghost use Rattle.lq_command.specs.Readers.{GivesByte, Takes, input_count, is_ended, is_marked, reader_of};

    /// The lines of a reader, of which none was read.
    pub fn new(reader: R) -> LineReader<R>
        ensures reader { reader_of result ≡ reader }
        ensures open { is_ended result ≡ false }
        ensures unmarked { is_marked result ≡ false }
        ensures unread { input_count result ≡ 0 }
    {
        LineReader {
            reader,
            is_ended: false,
            is_marked: false,
            input_count: 0,
        }
    }

    /// Whether the reader is marked: it has refused a line.
    pub fn has_failed(&self) -> bool
        ensures { result ≡ is_marked self.now }
    {
        self.is_marked
    }

    /// The next byte; none at the end.
    fn next_byte(&mut self) -> io::Result<Option<u8>>
        ensures byte { IfOk result (GivesByte (R.remaining (reader_of self.old))
            (R.remaining (reader_of self.new))
            (is_ended self.old) (is_ended self.new)) }
        ensures mark { is_marked self.new ≡ is_marked self.old }
        ensures count { input_count self.new ≡ input_count self.old }
    {
        if self.is_ended {
            return Ok(None);
        }
        let mut byte = [0u8; 1];
        if self.reader.read(&mut byte)? == 0 {
            self.is_ended = true;
            return Ok(None);
        }
        Ok(Some(byte[0]))
    }

    /// The next line, which is neither counted nor marked. It refuses where a read answers an error, or a line has 2^64 bytes.
    fn take_line(&mut self, alloc: Global) -> io::Result<Input>
        ensures line { IfOk result (Takes (R.remaining (reader_of self.old))
            (R.remaining (reader_of self.new))
            (is_ended self.old) (is_ended self.new)) }
        ensures mark { is_marked self.new ≡ is_marked self.old }
        ensures count { input_count self.new ≡ input_count self.old }
    {
        let mut draft = Draft::new(alloc);
        for _ in 0..u64::MAX {
            match self.next_byte()? {
                Some(b'\n') => return Ok(draft.finish()),
                Some(byte) => draft.add(byte),
                None if draft.is_empty() => return Ok(Input::End),
                None => return Ok(draft.finish()),
            }
        }
        Err(io::Error::from(io::ErrorKind::FileTooLarge))
    }

    /// The next line, which is counted; none after 2^64 - 1 inputs.
    fn take_counted(&mut self, alloc: Global) -> io::Result<Input>
        ensures line { IfOk result (Takes (R.remaining (reader_of self.old))
            (R.remaining (reader_of self.new))
            (is_ended self.old) (is_ended self.new)) }
        ensures counted { OnOk result (input_count self.new ≡ input_count self.old + 1) }
        ensures refused { OnErr result (input_count self.new ≡ input_count self.old) }
        ensures few { input_count self.new ≤ u64.MAX }
        ensures mark { is_marked self.new ≡ is_marked self.old }
    {
        let Some(count) = self.input_count.checked_add(1) else {
            return Err(io::Error::from(io::ErrorKind::FileTooLarge));
        };
        let input = self.take_line(alloc)?;
        self.input_count = count;
        Ok(input)
    }

    /// The next line: one of at most 65,536 bytes that is UTF-8, or what is wrong with it, once it is read to its end. It refuses,
    /// and marks the reader, where a read answers an error, where a line has 2^64 bytes, and where 2^64 - 1 inputs were given.
    pub fn next_line(&mut self, alloc: Global) -> io::Result<Input>
        ensures line { IfOk result (Takes (R.remaining (reader_of self.old))
            (R.remaining (reader_of self.new))
            (is_ended self.old) (is_ended self.new)) }
        ensures counted { OnOk result (input_count self.new ≡ input_count self.old + 1) }
        ensures refused { OnErr result (input_count self.new ≡ input_count self.old) }
        ensures few { input_count self.new ≤ u64.MAX }
        ensures marked { is_marked self.old ≡ false → (IsErr result ↔ (is_marked self.new ≡ true)) }
        ensures stays { is_marked self.old ≡ true → is_marked self.new ≡ true }
    {
        let result = self.take_counted(alloc);
        if result.is_err() {
            self.is_marked = true;
        }
        result
    }
}
