//! Reading of a whole file, up to a limit.
ghost use Rattle.std.specs.Prelude.{◌≡◌, ◌∷◌, [], List, ℕ, Option};
ghost use Rattle.lq_serve.specs.Loading.{Answered, AreFirstBytes, GivesBytes};

use crate::file_fault::FileFault;
use crate::files::{FileError, Files};

// The bytes of the file of this name, or of a longer file the first of them: as many as the limit.
pub(crate) fn read_file<F: Files>(
    file: &str,
    limit: u64,
    files: &mut F,
) -> Result<Vec<u8>, FileFault>
    ensures given { (gave : Option (List ℕ))
        × AreFirstBytes (F.holds files.old) limit file.now gave
        × Answered result (F.answered files.old) (F.answered files.new)
        (record { file = file.now; limit = limit; gave = gave } ∷ [])
        × GivesBytes gave result }
    ensures keeps { (n : List ℕ) → F.holds files.new n ≡ F.holds files.old n }
{
    match files.read(file, limit) {
        Ok(bytes) => Ok(bytes),
        Err(FileError::Memory) => Err(FileFault::Memory),
        Err(FileError::Read) => Err(FileFault::Read),
    }
}
