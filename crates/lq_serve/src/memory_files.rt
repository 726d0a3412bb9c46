//! Files in memory.
ghost use Rattle.std.specs.Prelude.{◌≡◌, ◌∷◌, ◌++◌, [], take, option_map, OnOk, OnErr};
ghost use Rattle.lq_serve.specs.MemoryFiles.{bytes_under};

use crate::files::{FileError, FileRead, Files};
use lq_value::{List, Txt};
use std::alloc::{AllocError, Global};

/// Some files by their names, with their bytes; no other file can be read.
#[derive(Drop)]
pub struct MemoryFiles<'a> {
    alloc: Global,
    files: &'a [(&'a str, &'a [u8])],
    readings: List<FileRead>,
}

impl<'a> MemoryFiles<'a> {
    ghost use Rattle.lq_serve.specs.MemoryFiles.{files_in, readings_in};

    /// These files, of which none was read. Of two files of one name the first is there.
    pub fn new(alloc: Global, files: &'a [(&'a str, &'a [u8])]) -> MemoryFiles<'a>
        ensures files { files_in result ≡ files.now }
        ensures unread { readings_in result ≡ [] }
    {
        MemoryFiles {
            alloc,
            files,
            readings: List::new(alloc),
        }
    }

    /// The reads that were answered, in order.
    pub fn readings(&self) -> &[FileRead]
        ensures { result.now ≡ readings_in self.now }
    {
        self.readings.as_slice()
    }

    // Puts a reading after the others.
    fn add_reading(
        &mut self,
        name: &str,
        limit: u64,
        gave: Option<List<u8>>,
    ) -> Result<(), AllocError>
        ensures added { OnOk result (readings_in self.new
            ≡ readings_in self.old ++ record { file = name.now; limit = limit; gave = gave } ∷ []) }
        ensures unread { OnErr result (readings_in self.new ≡ readings_in self.old) }
        ensures files { files_in self.new ≡ files_in self.old }
    {
        let file = Txt::from_str(self.alloc, name)?;
        self.readings.push(FileRead { file, limit, gave })
    }
}

impl Files for MemoryFiles<'_> {
    ghost use Rattle.std.specs.Prelude.{Some};
    ghost use Rattle.lq_serve.specs.MemoryFiles.{bytes_under, files_in, readings_in};

    ghost holds = { λ place name. Some (bytes_under (files_in place) name) };

    ghost answered = { λ place. Some (readings_in place) };

    fn read(&mut self, name: &str, limit: u64) -> Result<Vec<u8>, FileError> {
        match bytes_under(self.files, name) {
            Some(bytes) => {
                let first = first_bytes(bytes, limit);
                let answer = Vec::from_slice(self.alloc, first)?;
                let copy = List::from_vec(Vec::from_slice(self.alloc, first)?);
                self.add_reading(name, limit, Some(copy))?;
                Ok(answer)
            }
            None => {
                self.add_reading(name, limit, None)?;
                Err(FileError::Read)
            }
        }
    }
}

// The bytes of the first file of this name.
fn bytes_under<'a>(files: &[(&'a str, &'a [u8])], name: &str) -> Option<&'a [u8]>
    ensures { option_map (λ bytes. bytes.now) result ≡ bytes_under files.now name.now }
{
    for (file, bytes) in files {
        if file.as_bytes() == name.as_bytes() {
            return Some(*bytes);
        }
    }
    None
}

// The first of some bytes, at most `limit` of them.
fn first_bytes(bytes: &[u8], limit: u64) -> &[u8]
    ensures { result.now ≡ take limit bytes.now }
{
    let most = bytes.len().min(limit as usize);
    &bytes[..most]
}
