//! The command lines of the programs `lq` and `desk`, read by `clap`: their words are taken apart into the options that they
//! name.
//!
//! `options` and `desk_options` give exactly the values that `clap` defines for the words, or refuse them with `clap`'s
//! kind of fault.
#![tactic(auto)]

ghost use Rattle.std.specs.Prelude.{◌≡◌, ◌≢◌, [], Some, IfOk, codes, map, option_map};
ghost use Rattle.std.specs.String.{string_bytes};
ghost use Rattle.clap.specs.Words.{FailsBy, all_of, fault_of, first_of};
ghost use Rattle.lq_options.specs.CommandLine.{is_given, lq_app, lq_rows};
ghost use Rattle.lq_options.specs.DeskCommandLine.{desk_app, desk_rows};

mod asked;
mod command;
mod desk_asked;
mod desk_command;
mod values;

pub use asked::Options;
use clap::Error;
use command::matches_of_words;
pub use desk_asked::DeskOptions;
use desk_command::desk_matches;
use std::alloc::Global;
use values::{is_given, shared_options, text_of};

/// The options that `words` name; the first word is the program's name, as in `std::env::args`.
///
/// A refusal is `clap`'s: a mistake in the words, a wish for help, or lack of memory. Its `print` writes help to
/// standard output and anything else to standard error, and its `exit_code` is 0 after help and 2 else.
pub fn options(alloc: Global, words: &[String]) -> Result<Options, Error>
    ensures role { IfOk result (λ options.
        first_of (codes "role") (lq_rows (map string_bytes words.entry.now))
        ≡ Some (string_bytes options.role)) }
    ensures policy { IfOk result (λ options.
        first_of (codes "policy") (lq_rows (map string_bytes words.entry.now))
        ≡ Some (string_bytes options.policy)) }
    ensures script { IfOk result (λ options.
        first_of (codes "script") (lq_rows (map string_bytes words.entry.now))
        ≡ option_map string_bytes options.script) }
    ensures watch { IfOk result (λ options.
        first_of (codes "watch") (lq_rows (map string_bytes words.entry.now))
        ≡ option_map string_bytes options.watch) }
    ensures audit { IfOk result (λ options. options.audit
        ≡ is_given (first_of (codes "audit") (lq_rows (map string_bytes words.entry.now)))) }
    ensures tables { IfOk result (λ options.
        all_of (codes "tables") (lq_rows (map string_bytes words.entry.now))
        ≡ Some (map string_bytes options.tables.items)) }
    ensures some_table { IfOk result (λ options. options.tables.items ≢ []) }
    ensures refused { FailsBy (fault_of lq_app (map string_bytes words.entry.now)) result }
{
    let matches = matches_of_words(alloc, words)?;
    let script = text_of(alloc, &matches, "script")?;
    let audit = is_given(&matches, "audit");
    let DeskOptions {
        role,
        policy,
        watch,
        tables,
    } = shared_options(alloc, &matches)?;
    Ok(Options {
        role,
        policy,
        script,
        watch,
        audit,
        tables,
    })
}

/// The options of the desk that `words` name; the first word is the program's name, as in
/// `std::env::args`. A refusal is `clap`'s, as that of `options` is.
pub fn desk_options(alloc: Global, words: &[String]) -> Result<DeskOptions, Error>
    ensures role { IfOk result (λ options.
        first_of (codes "role") (desk_rows (map string_bytes words.entry.now))
        ≡ Some (string_bytes options.role)) }
    ensures policy { IfOk result (λ options.
        first_of (codes "policy") (desk_rows (map string_bytes words.entry.now))
        ≡ Some (string_bytes options.policy)) }
    ensures watch { IfOk result (λ options.
        first_of (codes "watch") (desk_rows (map string_bytes words.entry.now))
        ≡ option_map string_bytes options.watch) }
    ensures tables { IfOk result (λ options.
        all_of (codes "tables") (desk_rows (map string_bytes words.entry.now))
        ≡ Some (map string_bytes options.tables.items)) }
    ensures some_table { IfOk result (λ options. options.tables.items ≢ []) }
    ensures refused { FailsBy (fault_of desk_app (map string_bytes words.entry.now)) result }
{
    let matches = desk_matches(alloc, words)?;
    Ok(shared_options(alloc, &matches)?)
}
