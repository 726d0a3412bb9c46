//! The words of the command line, and the reports of what is wrong with them.
ghost use Rattle.std.specs.Prelude.{◌≡◌, ◌≢◌, IfOk};
ghost use Rattle.std.specs.IoError.{error_kind};
ghost use Rattle.std.specs.Vec.Iter.{into_iter_items};
ghost use Rattle.std.specs.declared.io.ErrorKind.TheVariants as fault;
ghost use Rattle.clap.specs.Values.{kind_of};
ghost use Rattle.clap.specs.declared.error.ErrorKind.TheVariants as usage;

use clap::error::ErrorKind;
use std::alloc::{AllocError, Global};
use std::io::Write;
use std::{env, io};

/// The status where there was nothing to do but to print the help.
const ENDED: u8 = 0;

/// The status for a fault of the command line.
const USAGE: u8 = 2;

/// The status for want of memory.
const NO_MEMORY: u8 = 5;

/// The words of the command line, all those that were found there, in their order. The first is the program's name.
pub fn words(alloc: Global, args: env::Args) -> Result<Vec<String>, AllocError>
    ensures { IfOk result (λ words. words.items ≡ into_iter_items args) }
{
    args.collect(alloc)
}

/// Reports the want of memory, and answers the status for it. A failure to write is passed over: nobody is left to be told.
pub fn report_memory(rt: &HostRuntime) -> u8
    ensures { result ≡ 5 }
{
    let _ = rt.stderr().write_all(b"lq: memory\n");
    NO_MEMORY
}

/// Reports that the list of `--watch` is none of numbers, and answers the status for it. A failure to write is passed over.
pub fn report_watch(rt: &HostRuntime) -> u8
    ensures { result ≡ 2 }
{
    let _ = rt.stderr().write_all(b"lq: watch\n");
    USAGE
}

/// Reports why the words could not be read, and answers the status for it.
pub fn report_words(rt: &HostRuntime, error: &io::Error) -> u8
    ensures memory { error_kind error.now ≡ fault.OutOfMemory → result ≡ 5 }
    ensures usage { error_kind error.now ≢ fault.OutOfMemory → result ≡ 2 }
{
    if error.kind() == io::ErrorKind::OutOfMemory {
        return report_memory(rt);
    }
    let _ = rt
        .stderr()
        .write_all(b"lq: a word of the command line isn't UTF-8\n");
    USAGE
}

/// Reports what is wrong with the words, or prints the help that they ask for, and answers the status for it.
pub fn report_options(rt: &HostRuntime, error: &clap::Error) -> u8
    ensures memory { kind_of error.now ≡ usage.OutOfMemory → result ≡ 5 }
    ensures help { kind_of error.now ≡ usage.DisplayHelp → result ≡ 0 }
    ensures usage { kind_of error.now ≢ usage.OutOfMemory → kind_of error.now ≢ usage.DisplayHelp
        → result ≡ 2 }
{
    let kind = error.kind();
    if kind == ErrorKind::OutOfMemory {
        return report_memory(rt);
    }
    let _ = error.print(rt);
    if kind == ErrorKind::DisplayHelp {
        ENDED
    } else {
        USAGE
    }
}
