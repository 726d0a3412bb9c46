//! The files of the machine that a program runs on.
ghost use Rattle.std.specs.Prelude.{◌≡◌, ◌≢◌};
ghost use Rattle.std.specs.IoError.{error_kind};
ghost use Rattle.std.specs.declared.io.ErrorKind.TheVariants as fault;
ghost use Rattle.lq_serve.specs.declared.files.FileError.TheVariants.{Memory, Read};

use lq_serve::{FileError, Files};
use std::fs::File;
use std::io;
use std::io::Read;

/// The machine's files, by their paths.
#[derive(Drop)]
pub struct Disk<'a> {
    rt: &'a HostRuntime,
}

/// Why a file was not read, of this fault.
fn file_error(error: &io::Error) -> FileError
    ensures memory { error_kind error.now ≡ fault.OutOfMemory → result ≡ Memory }
    ensures read { error_kind error.now ≢ fault.OutOfMemory → result ≡ Read }
{
    if error.kind() == io::ErrorKind::OutOfMemory {
        FileError::Memory
    } else {
        FileError::Read
    }
}

impl<'a> Disk<'a> {
    /// The files that a program finds on the machine of this runtime.
    pub fn new(rt: &'a HostRuntime) -> Disk<'a>
        ensures { result.rt ≡ rt.entry }
    {
        Disk { rt }
    }

    /// The first bytes of the file at a path, at most `limit` of them.
    fn first_bytes(&self, path: &str, limit: u64) -> io::Result<Vec<u8>> {
        let file = File::open(self.rt, path)?;
        let mut bytes = Vec::new(self.rt.alloc());
        file.take(limit).read_to_end(&mut bytes)?;
        Ok(bytes)
    }
}

impl Files for Disk<'_> {
    ghost use Rattle.std.specs.Prelude.{None};

    // What a file holds is not known here, nor is it kept what was read.
    ghost holds = { λ _ _. None };

    ghost answered = { λ _. None };

    fn read(&mut self, name: &str, limit: u64) -> Result<Vec<u8>, FileError> {
        match self.first_bytes(name, limit) {
            Ok(bytes) => Ok(bytes),
            Err(error) => Err(file_error(&error)),
        }
    }
}
