//! Serving over devices that fail, and loading.
ghost use Rattle.std.specs.Prelude.{◌<◌};

use crate::loads::options_of;
use lq_host::HostSet;
use lq_serve::{Device, MemoryFiles, ServeError, Summary, finish, load, serve};
use lq_session::Session;
use std::alloc::{AllocError, Global};
use std::io;
use std::io::{ErrorKind, Read, Write};
use std::process::Abort;
use std::test::Fail;

// A script, and what a session over a table t, with the numbers 1 and 2 in its column c, answers to it.
const SCRIPT: &[u8] =
    b"run from x in t select x.c;\n\n// note\nrun from;\nrun from x in t select x.d;\nrun from x in t select x.c;";

const LINES: u64 = 6;

const OUTPUT: &[u8] =
    b"{\"items\":[1,2]}\n{\"error\":\"syntax\"}\n{\"error\":\"type\"}\n{\"items\":[1,2]}\n";

const REPLIES: u64 = 4;

const FILES: [(&str, &[u8]); 2] = [
    ("t.csv", b"c:int\n1\n2\n"),
    (
        "p",
        b"role = [{name = \"a\"}]\ngrant = [{name = \"all\", rights = [\"t.*\"]}]",
    ),
];

fn session(alloc: Global) -> Result<Session, Fail>
    // This is always so, as in `Session::step`.
    requires { 0 < 1 }
{
    let options = options_of(alloc, "a", "p", &["t.csv"])?;
    let mut files = MemoryFiles::new(alloc, &FILES);
    Ok(load(alloc, &options, HostSet::new(alloc), &mut files)?)
}

pub(crate) fn names_of(alloc: Global, words: &[&str]) -> Result<Vec<String>, AllocError> {
    let mut names = Vec::new(alloc);
    for word in words {
        names.push(String::from_str(alloc, word)?)?;
    }
    Ok(names)
}

const KINDS: [ErrorKind; 3] = [
    ErrorKind::Interrupted,
    ErrorKind::WouldBlock,
    ErrorKind::BrokenPipe,
];

// What a device does at the call at which it fails.
#[derive(Clone, Copy)]
pub(crate) enum Fault {
    Never,
    Errs(ErrorKind),
    // A write takes nothing.
    Stalls,
}

// Gives its text at most `piece` bytes a read, and fails at the read numbered `bad`, from 1.
#[derive(Drop)]
struct Pieces {
    text: &'static [u8],
    piece: usize,
    reads: u64,
    bad: u64,
    kind: ErrorKind,
}

impl Read for Pieces {
    fn read(&mut self, buffer: &mut [u8]) -> io::Result<usize> {
        self.reads = self.reads.saturating_add(1);
        if self.reads == self.bad {
            return Err(io::Error::from(self.kind));
        }
        let most = buffer.len().min(self.piece);
        self.text.read(&mut buffer[..most])
    }
}

fn whole(text: &'static [u8]) -> Pieces {
    Pieces {
        text,
        piece: 4096,
        reads: 0,
        bad: 0,
        kind: ErrorKind::Other,
    }
}

// Gives one byte `left` times, at most `piece` of them a read.
#[derive(Drop)]
struct Repeated {
    byte: u8,
    left: usize,
    piece: usize,
}

impl Read for Repeated {
    fn read(&mut self, buffer: &mut [u8]) -> io::Result<usize> {
        let most = buffer.len().min(self.piece).min(self.left);
        buffer[..most].fill(self.byte);
        self.left -= most;
        Ok(most)
    }
}

// Takes at most five bytes a write, and fails at the call numbered `bad`, from 1, flushes among them.
#[derive(Drop)]
pub(crate) struct Taker {
    pub(crate) taken: Vec<u8>,
    // Whether the last call was a flush that ended well.
    flushed: bool,
    calls: u64,
    bad: u64,
    fault: Fault,
}

impl Write for Taker {
    fn write(&mut self, bytes: &[u8]) -> io::Result<usize> {
        self.calls = self.calls.saturating_add(1);
        match self.fault {
            Fault::Errs(kind) if self.calls == self.bad => return Err(io::Error::from(kind)),
            Fault::Stalls if self.calls == self.bad => return Ok(0),
            _ => {}
        }
        self.flushed = false;
        let most = bytes.len().min(5);
        self.taken.extend_from_slice(&bytes[..most])?;
        Ok(most)
    }

    fn flush(&mut self) -> io::Result<()> {
        self.calls = self.calls.saturating_add(1);
        match self.fault {
            Fault::Errs(kind) if self.calls == self.bad => Err(io::Error::from(kind)),
            _ => {
                self.flushed = true;
                Ok(())
            }
        }
    }
}

pub(crate) fn taking(alloc: Global, bad: u64, fault: Fault) -> Taker {
    Taker {
        taken: Vec::new(alloc),
        flushed: false,
        calls: 0,
        bad,
        fault,
    }
}

// What is left of serving a script: the outcome, and what the devices show.
#[derive(Drop)]
struct ServedScript {
    outcome: Result<Summary, ServeError>,
    reads: u64,
    read_failed: bool,
    write_failed: bool,
    sink: Taker,
}

fn serve_script<R: Read + Drop>(
    alloc: Global,
    script: R,
    mut sink: Taker,
) -> Result<ServedScript, Fail> {
    let mut session = session(alloc)?;
    let mut reader = Device::new(script);
    let mut writer = Device::new(&mut sink);
    let outcome = serve(alloc, &mut reader, &mut writer, &mut session);
    drop(session.close());
    let write_failed = writer.failed();
    Ok(ServedScript {
        outcome,
        reads: reader.reads(),
        read_failed: reader.failed(),
        write_failed,
        sink,
    })
}

// Whether nothing was stepped and nothing written after the read that failed, which was the last.
fn is_unread(run: &ServedScript, bad: u64) -> bool {
    matches!(run.outcome, Err(ServeError::Read))
        && run.read_failed
        && !run.write_failed
        && run.reads == bad
        && run.sink.calls == 0
}

// Whether the output is whole and handed on.
fn is_whole(run: &ServedScript) -> bool {
    match &run.outcome {
        Ok(summary) => {
            summary.lines == LINES
                && summary.replies == REPLIES
                && !run.write_failed
                && run.sink.taken.as_slice() == OUTPUT
                && run.sink.flushed
        }
        Err(_) => false,
    }
}

// Whether a front of the output was taken, and no call made after the one that failed.
fn is_cut_off(run: &ServedScript, bad: u64) -> bool {
    matches!(run.outcome, Err(ServeError::Write))
        && run.write_failed
        && OUTPUT.starts_with(&run.sink.taken)
        && run.sink.calls == bad
}

// Whether this many lines were served, or, with none, the script was refused as too long and nothing written.
fn has_lines(run: &ServedScript, lines: Option<u64>) -> bool {
    match (&run.outcome, lines) {
        (Ok(summary), Some(lines)) => summary.lines == lines,
        (Err(ServeError::TooLong), None) => run.sink.calls == 0,
        _ => false,
    }
}

#[test]
fn a_failed_read_steps_and_writes_nothing(rt: HostRuntime) -> Result<(), Fail> {
    for kind in &KINDS {
        // Seven reads of at most 16 bytes, and the read that gives none.
        for bad in 1..9 {
            let script = Pieces {
                text: SCRIPT,
                piece: 16,
                reads: 0,
                bad,
                kind: *kind,
            };
            let run = serve_script(rt.alloc(), script, taking(rt.alloc(), 0, Fault::Never))?;
            assert!(rt; is_unread(&run, bad), "{kind:?} at read {bad}");
        }
    }
    Ok(())
}

// The calls of the writer fail in turn, until there is none left to fail.
fn fail_each_call(rt: &impl Abort, alloc: Global, fault: Fault) -> Result<u64, Fail> {
    for bad in 1..1000 {
        let run = serve_script(alloc, whole(SCRIPT), taking(alloc, bad, fault))?;
        if is_whole(&run) {
            return Ok(bad);
        }
        assert!(rt; is_cut_off(&run, bad), "at call {bad}");
    }
    Ok(0)
}

#[test]
fn a_failed_write_leaves_a_front_of_the_output(rt: HostRuntime) -> Result<(), Fail> {
    for kind in &KINDS {
        assert!(rt; 1 < fail_each_call(&rt, rt.alloc(), Fault::Errs(*kind))?);
    }
    assert!(rt; 0 < fail_each_call(&rt, rt.alloc(), Fault::Stalls)?);
    Ok(())
}

const BYTES: &[u8] = b"one\ntwo\nthree\n";

// Whether a device over a writer of whose calls the one numbered `bad` fails is marked then, with so many bytes taken.
fn is_marked(alloc: Global, bad: u64, fault: Fault, taken: usize) -> bool {
    let mut sink = taking(alloc, bad, fault);
    let mut writer = Device::new(&mut sink);
    let is_refused = writer.write_all(BYTES).is_err() && writer.failed();
    is_refused && BYTES.starts_with(&sink.taken) && sink.taken.len() == taken
}

// Whether a device over a writer of whose calls the one numbered `bad` fails takes these bytes whole.
fn is_taken_whole(alloc: Global, bytes: &[u8], bad: u64, fault: Fault) -> bool {
    let mut sink = taking(alloc, bad, fault);
    let mut writer = Device::new(&mut sink);
    let is_taken = writer.write_all(bytes).is_ok() && !writer.failed();
    is_taken && sink.taken.as_slice() == bytes
}

#[test]
fn a_device_marks_itself_at_each_failed_write(rt: HostRuntime) {
    for fault in &[Fault::Errs(ErrorKind::Interrupted), Fault::Stalls] {
        for (bad, taken) in &[(1, 0), (2, 5), (3, 10)] {
            assert!(rt;
                is_marked(rt.alloc(), *bad, *fault, *taken),
                "at write {bad}"
            );
        }
        assert!(rt; is_taken_whole(rt.alloc(), BYTES, 4, *fault));
    }
}

// How many bytes are written at a time, none of them too many for one call.
const LENGTHS: [usize; 4] = [65_535, 65_536, 65_537, 200_000];

#[test]
fn bytes_are_written_whole_however_many(rt: HostRuntime) -> Result<(), Fail> {
    for length in &LENGTHS {
        let bytes = vec![in rt.alloc(); b'a'; *length]?;
        assert!(rt;
            is_taken_whole(rt.alloc(), &bytes, 0, Fault::Never),
            "{length} bytes"
        );
    }
    Ok(())
}

// A byte, how many times it is given, how many of them a read, and the lines of such a script (none: it is too long) and the
// reads that it takes (0: any number).
const SIZES: [(u8, usize, usize, Option<u64>, u64); 5] = [
    (b'\n', 1_048_576, 4096, Some(1_048_576), 0),
    (b'\n', 1_048_577, 4096, None, 0),
    (b' ', 65_536, 4096, Some(1), 0),
    (b' ', 65_537, 4096, None, 0),
    // An endless reader is left after one byte too many.
    (b'\n', usize::MAX, 1, None, 1_048_577),
];

#[test]
fn sizes_are_refused_from_one_byte_too_many(rt: HostRuntime) -> Result<(), Fail> {
    for (byte, left, piece, lines, reads) in &SIZES {
        let script = Repeated {
            byte: *byte,
            left: *left,
            piece: *piece,
        };
        let run = serve_script(rt.alloc(), script, taking(rt.alloc(), 0, Fault::Never))?;
        assert!(rt; has_lines(&run, *lines), "{left} times {byte}");
        assert!(rt; *reads == 0 || run.reads == *reads, "{left} times {byte}");
    }
    Ok(())
}

// Scripts, each with the number of its lines.
const COUNTED: [(&[u8], u64); 5] = [
    (b"", 0),
    (b"\xEF\xBB\xBF\xEF\xBB\xBF", 0),
    (b"\xEF\xBB\xBFa", 1),
    (b"a\r\n\xEF\xBB\xBFb\n", 2),
    (b"\n\n ", 3),
];

#[test]
fn lines_are_counted_behind_the_marks(rt: HostRuntime) -> Result<(), Fail> {
    for (script, lines) in &COUNTED {
        let run = serve_script(
            rt.alloc(),
            whole(script),
            taking(rt.alloc(), 0, Fault::Never),
        )?;
        assert!(rt; has_lines(&run, Some(*lines)), "{script:?}");
    }
    Ok(())
}

// What is left of a run to its end: the status, whether the device of errors is marked, and what the two writers took.
#[derive(Drop)]
struct Ended {
    status: u8,
    is_marked: bool,
    error_sink: Taker,
    sink: Taker,
}

fn end_script(
    alloc: Global,
    script: Pieces,
    mut sink: Taker,
    mut error_sink: Taker,
) -> Result<Ended, Fail> {
    let mut session = session(alloc)?;
    let mut reader = Device::new(script);
    let mut writer = Device::new(&mut sink);
    let mut errors = Device::new(&mut error_sink);
    let status = finish(
        alloc,
        true,
        &mut reader,
        &mut writer,
        &mut errors,
        &mut session,
    );
    drop(session.close());
    let is_marked = errors.failed();
    Ok(Ended {
        status,
        is_marked,
        error_sink,
        sink,
    })
}

// Scripts, the read, the call of the writer and the call of the writer of errors that fail (0: none), and the status and the line
// that follow.
const ENDINGS: [(&[u8], u64, u64, u64, u8, &[u8]); 5] = [
    (SCRIPT, 0, 0, 0, 0, b""),
    (SCRIPT, 1, 0, 0, 4, b"lq: script: read\n"),
    (b"", 0, 1, 0, 4, b"lq: script: write\n"),
    (b"one\n\xFF\n", 0, 0, 0, 4, b"lq: script: utf8\n"),
    // A fault that can be reported to nobody keeps its status.
    (b"one\n\xFF\n", 0, 0, 3, 4, b"lq: script"),
];

fn is_ended(end: &Ended, status: u8, line: &[u8], is_marked: bool) -> bool {
    end.status == status
        && end.is_marked == is_marked
        && end.error_sink.taken.as_slice() == line
        && (status != 0 || end.sink.taken.as_slice() == OUTPUT)
}

#[test]
fn a_fault_ends_with_its_status_and_its_line(rt: HostRuntime) -> Result<(), Fail> {
    for (text, bad_read, bad_call, bad_error, status, line) in &ENDINGS {
        let mut script = whole(text);
        script.bad = *bad_read;
        let sink = taking(rt.alloc(), *bad_call, Fault::Errs(ErrorKind::Other));
        let error_sink = taking(rt.alloc(), *bad_error, Fault::Stalls);
        let end = end_script(rt.alloc(), script, sink, error_sink)?;
        assert!(rt; is_ended(&end, *status, line, *bad_error > 0), "{text:?}");
    }
    Ok(())
}
