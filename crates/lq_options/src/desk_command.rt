//! The command `desk` as `clap` knows it, with its help.
ghost use Rattle.std.specs.Prelude.{◌≡◌, IfOk, map};
ghost use Rattle.std.specs.String.{string_bytes};
ghost use Rattle.clap.specs.Words.{FailsBy, app_of, fault_of, found_of, rows_of};
ghost use Rattle.lq_options.specs.DeskCommandLine.{desk_app, desk_rows};

use crate::command::{policy, role, tables, watch};
use clap::{ArgMatches, Command, Error};
use std::alloc::{AllocError, Global};

const ABOUT: &str = "\
Answers C# query expressions over CSV tables at a prompt, under row security policies.

One statement a line, or a command that begins with a dot: .help lists the commands. The prompt
shows the role. Replies go to standard output, the prompt and hints to standard error. Ctrl-D ends.";

const ROLE: &str = "The role that the desk begins with, one of the policy file's";

const MORE: &str = "\
Example:
  people.csv is a table, and policy.toml lets the role dan use its columns and see two of its rows:

    id:int,name:string,dept:int      role = [{name = \"dan\"}]
    1,ann,10                         table = [{name = \"people\", row_security = true}]
    2,bob,10                         grant = [{name = \"all\", rights = [\"people.*\"]}]
    3,cyd,20                         [[policy]]
                                     name = \"dept10\"
                                     table = \"people\"
                                     using = \"row.dept == 10\"

  This prints 2:

    echo 'run people.Count()' | desk --role dan --policy policy.toml people.csv

Statuses:
  0  the input has ended, or .quit was typed
  2  the command line is wrong, or LIST is no list of numbers
  3  a table, the policies or the role was refused
  4  the input could not be read, or the replies could not be written
  5  there was no memory for LIST, the predicates, the tables or the policies";

fn desk_command<'a>(alloc: Global) -> Result<Command<'a>, AllocError>
    ensures { IfOk result (λ command. app_of command ≡ desk_app) }
{
    // The usage says `desk`, whatever the file of the program is called.
    Command::new(alloc, "desk")
        .bin_name("desk")?
        .about(ABOUT)
        .after_help(MORE)
        .arg(role(alloc, ROLE))?
        .arg(policy(alloc))?
        .arg(watch(alloc))?
        .arg(tables(alloc))
}

/// What `clap` finds among the words of the command line.
pub(crate) fn desk_matches<'a>(alloc: Global, words: &'a [String]) -> Result<ArgMatches<'a>, Error>
    ensures rows { IfOk result (λ matches. rows_of (found_of matches)
        ≡ desk_rows (map string_bytes words.entry.now)) }
    ensures refused { FailsBy (fault_of desk_app (map string_bytes words.entry.now)) result }
{
    desk_command(alloc)?.try_get_matches_from(words)
}
