//! What the programs of this repository take from the machine that they run on: its files, the words of their command line, and
//! standard error, where they report what is wrong with these.
//!
//! It promises which status each report answers (`report_words`, `report_options`, `report_watch`,
//! `report_memory`), that a script that can't be opened is never read (`NoFile`), and why a file was not read (`Disk`). What the
//! machine gives and takes is in no clause.
#![tactic(auto)]

mod command_line;
mod disk;
mod no_file;

pub use command_line::{report_memory, report_options, report_watch, report_words, words};
pub use disk::Disk;
pub use no_file::NoFile;
