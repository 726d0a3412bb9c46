//! The script of a file that can't be opened.
use std::io;
use std::io::Read;

/// A reader that can't be read.
#[derive(Drop)]
pub struct NoFile;

impl Read for NoFile {
    ghost use Rattle.std.specs.Prelude.{◌≡◌, IsErrAnd};
    ghost use Rattle.std.specs.IoError.{error_kind};
    ghost use Rattle.std.specs.declared.io.ErrorKind.TheVariants as fault;

    fn read(&mut self, _buf: &mut [u8]) -> io::Result<usize>
        ensures { IsErrAnd result (λ e. error_kind e ≡ fault.NotFound) }
    {
        Err(io::Error::from(io::ErrorKind::NotFound))
    }
}
