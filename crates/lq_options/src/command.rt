//! The command `lq` as `clap` knows it, with its help.
ghost use Rattle.std.specs.Prelude.{◌≡◌, IfOk, false, map};
ghost use Rattle.std.specs.String.{string_bytes};
ghost use Rattle.clap.specs.Words.{FailsBy, app_of, fault_of, found_of, rows_of, rule_of};
ghost use Rattle.lq_options.specs.CommandLine.{audit_rule, lq_app, lq_rows, policy_rule, role_rule, script_rule, tables_rule, watch_rule};

use clap::{Arg, ArgAction, ArgMatches, Command, Error};
use std::alloc::{AllocError, Global};

const ABOUT: &str = "\
Answers C# query expressions over CSV tables, under row security policies.

The tables are read, then each statement of the script is answered by a line of JSON on standard
output. A role is served only the rows that the policies show it, and a statement that uses a table,
a column or a host predicate without a right is denied.";

const ROLE: &str = "The role that the script begins with, one of the policy file's";

const MORE: &str = "\
Example:
  people.csv is a table, and policy.toml lets the role dan use its columns and see two of its rows:

    id:int,name:string,dept:int      role = [{name = \"dan\"}]
    1,ann,10                         table = [{name = \"people\", row_security = true}]
    2,bob,10                         grant = [{name = \"all\", rights = [\"people.*\"]}]
    3,cyd,20                         [[policy]]
                                     name = \"dept10\"
                                     table = \"people\"
                                     using = \"row.dept == 10\"

  This prints {\"items\":[\"ann\",\"bob\"]}:

    echo 'run from p in people select p.name;' | lq --role dan --policy policy.toml people.csv

Replies:
  {\"items\":[..]} or {\"value\":V}; {\"fault\":F} at a fault of the query; {\"error\":W} at a refusal;
  {\"denied\":R,\"use\":U} where the role has no right to the use U, by the rule R

Host predicates of columns of numbers, to each of which a role needs a right like \"Host.Under\":
  Host.LeapYear(e.c)    whether a year from 1 to 9999 is a leap year
  Host.Under(e.c, e.d)  whether a number from -1000 to 1000 is less than another from 1 to 9999
  Host.Watched(e.c)     whether a number is in LIST, as in --watch 2,3 or --watch=-2,3

Statuses:
  0  the script has ended, whatever its replies are
  2  the command line is wrong, or LIST is no list of numbers
  3  a table, the policies or the role was refused
  4  the script could not be read, is too long or is not UTF-8, or its replies could not be written
  5  there was no memory for LIST, the predicates, the tables, the policies or the script";

/// The argument that names the role to begin with.
pub(crate) fn role<'a>(alloc: Global, help: &'a str) -> Arg<'a>
    ensures rule { rule_of result ≡ role_rule }
    ensures local { result.global ≡ false }
{
    Arg::new(alloc, "role")
        .long("role")
        .value_name("R")
        .help(help)
        .required(true)
}

/// The argument that names the policy file.
pub(crate) fn policy<'a>(alloc: Global) -> Arg<'a>
    ensures rule { rule_of result ≡ policy_rule }
    ensures local { result.global ≡ false }
{
    Arg::new(alloc, "policy")
        .long("policy")
        .value_name("P")
        .help("The policy file: roles, policies and rights, in TOML")
        .required(true)
}

fn script<'a>(alloc: Global) -> Arg<'a>
    ensures rule { rule_of result ≡ script_rule }
    ensures local { result.global ≡ false }
{
    Arg::new(alloc, "script")
        .long("script")
        .value_name("S")
        .help("The script, one statement a line [default: standard input]")
}

/// The argument that lists the numbers of the predicate `Watched`.
pub(crate) fn watch<'a>(alloc: Global) -> Arg<'a>
    ensures rule { rule_of result ≡ watch_rule }
    ensures local { result.global ≡ false }
{
    Arg::new(alloc, "watch")
        .long("watch")
        .value_name("LIST")
        .help("Numbers with commas, on which Host.Watched is true [default: no such predicate]")
}

fn audit<'a>(alloc: Global) -> Arg<'a>
    ensures rule { rule_of result ≡ audit_rule }
    ensures local { result.global ≡ false }
{
    Arg::new(alloc, "audit")
        .long("audit")
        .help("Print each call of a host predicate to standard error once the script has ended")
        .action(ArgAction::SetTrue)
}

/// The words that belong to no option, which name the table files.
pub(crate) fn tables<'a>(alloc: Global) -> Arg<'a>
    ensures rule { rule_of result ≡ tables_rule }
    ensures local { result.global ≡ false }
{
    Arg::new(alloc, "tables")
        .value_name("T.csv")
        .help("The tables, each named after its file, without folders and .csv")
        .required(true)
        .action(ArgAction::Append)
}

fn command<'a>(alloc: Global) -> Result<Command<'a>, AllocError>
    ensures { IfOk result (λ command. app_of command ≡ lq_app) }
{
    // The usage says `lq`, whatever the file of the program is called.
    Command::new(alloc, "lq")
        .bin_name("lq")?
        .about(ABOUT)
        .after_help(MORE)
        .arg(role(alloc, ROLE))?
        .arg(policy(alloc))?
        .arg(script(alloc))?
        .arg(watch(alloc))?
        .arg(audit(alloc))?
        .arg(tables(alloc))
}

/// What `clap` finds among the words of the command line.
pub(crate) fn matches_of_words<'a>(
    alloc: Global,
    words: &'a [String],
) -> Result<ArgMatches<'a>, Error>
    ensures rows { IfOk result (λ matches. rows_of (found_of matches)
        ≡ lq_rows (map string_bytes words.entry.now)) }
    ensures refused { FailsBy (fault_of lq_app (map string_bytes words.entry.now)) result }
{
    command(alloc)?.try_get_matches_from(words)
}
