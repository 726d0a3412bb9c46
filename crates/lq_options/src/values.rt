//! The values that the words gave to an argument, copied.
ghost use Rattle.std.specs.Prelude.{◌≡◌, ◌≢◌, [], Some, IfOk, codes, map, option_map};
ghost use Rattle.std.specs.String.{string_bytes};
ghost use Rattle.clap.specs.Words.{all_of, first_of, found_of, rows_of};
ghost use Rattle.lq_options.specs.CommandLine.{is_given};

use crate::desk_asked::DeskOptions;
use clap::ArgMatches;
use std::alloc::{AllocError, Global};

// The first value of an argument.
fn first_text<'a>(matches: &ArgMatches<'a>, id: &str) -> Option<&'a str>
    ensures { option_map (λ text. text.now) result
        ≡ first_of id.now (rows_of (found_of matches.now)) }
{
    matches.get_str(id)
}

// All values of an argument.
fn all_texts<'m, 'a>(matches: &'m ArgMatches<'a>, id: &str) -> Option<&'m [&'a str]>
    ensures { option_map (λ texts. map (λ text. text.now) texts.now) result
        ≡ all_of id.now (rows_of (found_of matches.now)) }
{
    matches.get_strs(id)
}

// A copy of each text.
fn copies(alloc: Global, texts: &[&str]) -> Result<Vec<String>, AllocError>
    ensures { IfOk result (λ copies. map string_bytes copies.items
        ≡ map (λ text. text.now) texts.now) }
{
    let mut copies = Vec::new(alloc);
    for text in texts {
        copies.push(String::from_str(alloc, text)?)?;
    }
    Ok(copies)
}

/// The first value of an argument that may be left out.
pub(crate) fn text_of(
    alloc: Global,
    matches: &ArgMatches<'_>,
    id: &str,
) -> Result<Option<String>, AllocError>
    ensures { IfOk result (λ text. first_of id.now (rows_of (found_of matches.now))
        ≡ option_map string_bytes text) }
{
    match first_text(matches, id) {
        Some(text) => Ok(Some(String::from_str(alloc, text)?)),
        None => Ok(None),
    }
}

/// Whether a flag is given.
pub(crate) fn is_given(matches: &ArgMatches<'_>, id: &str) -> bool
    ensures { result ≡ is_given (first_of id.now (rows_of (found_of matches.now))) }
{
    match first_text(matches, id) {
        Some(text) => text == "true",
        None => false,
    }
}

// The first value of an argument that `clap` requires.
fn given_text(alloc: Global, matches: &ArgMatches<'_>, id: &str) -> Result<String, AllocError>
    ensures { IfOk result (λ text. first_of id.now (rows_of (found_of matches.now))
        ≡ Some (string_bytes text)) }
{
    match first_text(matches, id) {
        Some(text) => String::from_str(alloc, text),
        None => Err(AllocError),
    }
}

// The values of an argument that `clap` requires.
fn given_texts(alloc: Global, matches: &ArgMatches<'_>, id: &str) -> Result<Vec<String>, AllocError>
    ensures values { IfOk result (λ texts. all_of id.now (rows_of (found_of matches.now))
        ≡ Some (map string_bytes texts.items)) }
    ensures some { IfOk result (λ texts. texts.items ≢ []) }
{
    match all_texts(matches, id) {
        Some([]) | None => Err(AllocError),
        Some(texts) => copies(alloc, texts),
    }
}

/// The values of the arguments that both programs have.
pub(crate) fn shared_options(
    alloc: Global,
    matches: &ArgMatches<'_>,
) -> Result<DeskOptions, AllocError>
    ensures role { IfOk result (λ options.
        first_of (codes "role") (rows_of (found_of matches.now))
        ≡ Some (string_bytes options.role)) }
    ensures policy { IfOk result (λ options.
        first_of (codes "policy") (rows_of (found_of matches.now))
        ≡ Some (string_bytes options.policy)) }
    ensures watch { IfOk result (λ options.
        first_of (codes "watch") (rows_of (found_of matches.now))
        ≡ option_map string_bytes options.watch) }
    ensures tables { IfOk result (λ options.
        all_of (codes "tables") (rows_of (found_of matches.now))
        ≡ Some (map string_bytes options.tables.items)) }
    ensures some_table { IfOk result (λ options. options.tables.items ≢ []) }
{
    let role = given_text(alloc, matches, "role")?;
    let policy = given_text(alloc, matches, "policy")?;
    let watch = text_of(alloc, matches, "watch")?;
    let tables = given_texts(alloc, matches, "tables")?;
    Ok(DeskOptions {
        role,
        policy,
        watch,
        tables,
    })
}
