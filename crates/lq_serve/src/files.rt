//! Files by their names, as those who load them see them.
use lq_value::{List, Txt};
use std::alloc::AllocError;
use thiserror::Error;

/// Why a file was not read.
#[derive(Clone, Copy, Debug, Drop, Eq, Error, PartialEq)]
pub enum FileError {
    /// There was no memory for its bytes.
    #[error("memory")]
    Memory,
    /// It can't be read.
    #[error("read")]
    Read,
}

impl From<AllocError> for FileError {
    ghost use Rattle.std.specs.Prelude.{◌≡◌};
    ghost use Rattle.lq_serve.specs.declared.files.FileError.TheVariants.{Memory};

    ghost from_gives = { λ _ error. error ≡ Memory };

    fn from(_: AllocError) -> FileError {
        FileError::Memory
    }
}

/// A read that was answered.
#[derive(Drop)]
pub struct FileRead {
    /// The name of the file.
    pub file: Txt,
    /// The most bytes that were asked for.
    pub limit: u64,
    /// The file's first bytes, or None where it can't be read.
    pub gave: Option<List<u8>>,
}

/// A place where files are found by their names.
pub trait Files {
    ghost use Rattle.std.specs.Prelude.{◌≡◌, List, ℕ, Option, IfSome};
    ghost use Rattle.lq_serve.specs.Files.{Adds, IsAnswer, readings_by};
    ghost use Rattle.lq_serve.specs.declared.files.FileRead.{FileRead};

    /// What is known of the file of a name: nothing, that it can't be read (`Some None`), or its
    /// bytes, and that it can be read. A place of which nothing is known answers None throughout.
    ghost holds: { Self → List ℕ → Option (Option (List ℕ)) };

    /// The reads that were answered so far, with bytes or with `Read`, where they are known.
    ghost answered: { Self → Option (List FileRead) };

    /// The first bytes of the file of this name, at most `limit` of them. Refuses with `Memory`
    /// where they find no room, and with `Read` where the file can't be read.
    fn read(&mut self, name: &str, limit: u64) -> Result<Vec<u8>, FileError>
        ensures known { IfSome (holds self.old name.now) (λ there. IsAnswer there limit result) }
        ensures answer { Adds (answered self.old) (answered self.new)
            (readings_by name.now limit result) }
        ensures keeps { (n : List ℕ) → holds self.new n ≡ holds self.old n };
}
