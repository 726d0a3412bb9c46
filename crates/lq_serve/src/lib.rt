//! The server over its files and devices: tables and policies are loaded, a script is read whole, its lines are stepped
//! in order, and the replies are written.
//!
//! `serve` writes exactly the session machine's replies to the script's lines; `load` starts the session
//! that the files mean, or names the first fault; `finish` and `refuse` end with the status and the line
//! of what happened, and `finish` with an audit of the host calls before it, if one is asked for.
#![tactic(auto)]

mod audit;
mod device;
mod ending;
mod error_output;
mod file_fault;
mod files;
mod loading;
mod memory_files;
mod naming;
mod output;
mod reading;
mod script_bytes;
mod script_lines;
mod script_run;
mod serve_error;
mod start_error;
mod starting;

pub use device::Device;
pub use ending::{finish, refuse};
pub use files::{FileError, FileRead, Files};
pub use memory_files::MemoryFiles;
pub use script_bytes::SCRIPT_LIMIT;
pub use script_run::{Summary, serve};
pub use serve_error::{ReadFailed, ServeError, WriteFailed};
pub use start_error::StartError;
pub use starting::load;
