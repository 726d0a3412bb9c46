//! Starting: which files are read, and up to where. What is refused, and what is there after a start, is shown by the built program
//! (tests/cli).
use crate::devices::{Fault, names_of, taking};
use lq_host::HostSet;
use lq_options::Options;
use lq_serve::{Device, FileError, FileRead, Files, MemoryFiles, StartError, load, refuse};
use lq_value::Txt;
use std::alloc::Global;
use std::process::Abort;
use std::test::Fail;

const FILES: [(&str, &[u8]); 6] = [
    ("no.toml", b"role = ["),
    ("none.toml", b""),
    ("t.csv", b"c:int\n1\n2\n"),
    ("data/old/u.csv", b"a:int,b:int\n-1,7\n"),
    ("v", b"c:int\n"),
    ("1.csv", b"a:int\n"),
];

fn folder(alloc: Global) -> MemoryFiles<'static> {
    MemoryFiles::new(alloc, &FILES)
}

// What the command line asks for: a role, a policy file and table files.
pub(crate) fn options_of(
    alloc: Global,
    role: &str,
    policy: &str,
    tables: &[&str],
) -> Result<Options, Fail> {
    Ok(Options {
        role: String::from_str(alloc, role)?,
        policy: String::from_str(alloc, policy)?,
        script: None,
        watch: None,
        audit: false,
        tables: names_of(alloc, tables)?,
    })
}

fn assert_refused(
    rt: &impl Abort,
    alloc: Global,
    files: &mut MemoryFiles<'_>,
    options: &Options,
    line: &str,
) {
    match load(alloc, options, HostSet::new(alloc), files) {
        Err(StartError::Refused(text)) => {
            assert!(rt; text.as_str() == line, "{line} and not {text:?}");
        }
        _ => panic!(rt; "{line} was not reported"),
    }
}

const TABLE: u64 = 16_777_217;

const POLICY: u64 = 1_048_577;

// A reading: the file, how many bytes are asked for at most, and whether it is there.
type Readings<'a> = &'a [(&'a str, u64, bool)];

// A policy file and table files, what is refused, and the readings up to it.
const READINGS: [(&str, &[&str], &str, Readings<'static>); 5] = [
    (
        "no.toml",
        &["t.csv", "v", "old/w.csv", "data/old/u.csv"],
        "lq: old/w.csv: read",
        &[
            ("t.csv", TABLE, true),
            ("v", TABLE, true),
            ("old/w.csv", TABLE, false),
        ],
    ),
    ("no.toml", &["1.csv"], "lq: 1.csv: name", &[]),
    (
        "no.toml",
        &["t.csv"],
        "lq: no.toml: toml",
        &[("t.csv", TABLE, true), ("no.toml", POLICY, true)],
    ),
    (
        "old.toml",
        &["t.csv"],
        "lq: old.toml: read",
        &[("t.csv", TABLE, true), ("old.toml", POLICY, false)],
    ),
    (
        "none.toml",
        &["t.csv"],
        "lq: low: role",
        &[("t.csv", TABLE, true), ("none.toml", POLICY, true)],
    ),
];

fn are_asked(readings: &[FileRead], asked: Readings<'_>) -> bool {
    let mut left = asked;
    for reading in readings {
        match left {
            [(file, limit, is_there), others @ ..]
                if reading.file.as_str() == *file
                    && reading.limit == *limit
                    && reading.gave.is_some() == *is_there => {
                left = others;
            }
            _ => return false,
        }
    }
    left.is_empty()
}

#[test]
fn named_files_are_read_once_up_to_the_first_fault(rt: HostRuntime) -> Result<(), Fail> {
    for (policy, words, line, asked) in &READINGS {
        let mut files = folder(rt.alloc());
        let options = options_of(rt.alloc(), "low", policy, words)?;
        assert_refused(&rt, rt.alloc(), &mut files, &options, line);
        assert!(rt; are_asked(files.readings(), asked), "{line}");
    }
    Ok(())
}

#[test]
fn the_first_bytes_of_a_file_are_read(rt: HostRuntime) -> Result<(), Fail> {
    let mut files = folder(rt.alloc());
    for (limit, bytes) in &[
        (0, ""),
        (4, "c:in"),
        (10, "c:int\n1\n2\n"),
        (u64::MAX, "c:int\n1\n2\n"),
    ] {
        assert!(rt; files.read("t.csv", *limit)?.as_slice() == bytes.as_bytes());
    }
    assert!(rt; files.read("t", 1).err() == Some(FileError::Read));
    assert_eq!(rt; files.readings().len(), 5);
    Ok(())
}

#[test]
fn a_refusal_ends_with_its_status_and_its_line(rt: HostRuntime) -> Result<(), Fail> {
    let refused = StartError::Refused(Txt::from_str(rt.alloc(), "lq: a: read")?);
    for (error, bad, status, line) in &[
        (&refused, 0, 3, "lq: a: read\n"),
        (&StartError::Memory, 0, 5, "lq: memory\n"),
        (&refused, 2, 3, "lq: a"),
    ] {
        let mut taker = taking(rt.alloc(), *bad, Fault::Stalls);
        let mut errors = Device::new(&mut taker);
        assert_eq!(rt; refuse(error, &mut errors), *status);
        assert_eq!(rt; errors.failed(), *bad > 0);
        assert!(rt; taker.taken.as_slice() == line.as_bytes());
    }
    Ok(())
}
