//! The sentences of replies without rows.
ghost use Rattle.std.specs.Prelude.{◌≡◌, ◌++◌, IfOk, option_map, string_bytes};
ghost use Rattle.lq_render.specs.Cells.{escaped_text};
ghost use Rattle.lq_render.specs.Sentences.{advice, advice_on_data, assigned_text, defined_text, deleted_text, denied_by, denied_text, ending_text, error_text, fault_sentence, fault_text, inserted_text, reason, role_text, rows_text};

use crate::cells::push_escaped;
use crate::counts::push_count;
use std::alloc::{AllocError, Global};

/// A sentence with a name in it, whose control characters are escaped.
fn sentence(alloc: Global, before: &str, name: &str, after: &str) -> Result<String, AllocError>
    ensures { IfOk result (λ text. string_bytes text
        ≡ before.now ++ (escaped_text name.now ++ after.now)) }
{
    let mut text = String::from_str(alloc, before)?;
    push_escaped(alloc, &mut text, name)?;
    text.push_str(after)?;
    Ok(text)
}

/// What happened, of a fault of this name; empty of any other.
fn reason(name: &str) -> &'static str
    ensures { result.now ≡ reason name.now }
{
    if name == "DivideByZero" {
        ", a division by zero"
    } else if name == "Overflow" {
        ", a number left the range of int"
    } else if name == "NullReference" {
        ", a member of null was read"
    } else if name == "InvalidOperation" {
        ", no value or no single item where one is needed"
    } else if name == "ArgumentOutOfRange" {
        ", an index, or a host predicate's argument, out of range"
    } else {
        ""
    }
}

/// A fault, what happened, and what is said after that.
fn fault_line(alloc: Global, name: &str, end: &str) -> Result<String, AllocError>
    ensures { IfOk result (λ text. string_bytes text ≡ fault_sentence name.now ++ end.now) }
{
    let mut text = sentence(alloc, "fault: ", name, reason(name))?;
    text.push_str(end)?;
    Ok(text)
}

/// The line of a fault.
pub(crate) fn fault_text(alloc: Global, name: &str) -> Result<String, AllocError>
    ensures { IfOk result (λ text. string_bytes text ≡ fault_text name.now) }
{
    fault_line(alloc, name, "\n")
}

/// The line of a fault under the items before it.
pub(crate) fn ending_text(alloc: Global, name: &str) -> Result<String, AllocError>
    ensures { IfOk result (λ text. string_bytes text ≡ ending_text name.now) }
{
    fault_line(alloc, name, " (these are the items before it)\n")
}

/// What to do next, of a refusal under this word; none of another word.
fn advice(word: &str) -> Option<&'static str>
    ensures { option_map (λ text. text.now) result ≡ advice word.now }
{
    if word == "syntax" {
        Some(
            "this is not a statement; the statements are: run E; var N = E; N = E; as R; insert T (..); delete T x => p;",
        )
    } else if word == "type" {
        Some(
            "a name is unknown or already in use, a type doesn't fit, or the number of cells is wrong; try .tables and .names",
        )
    } else if word == "too-deep" {
        Some("the statement is too long or too deeply nested; give parts of it a name with var")
    } else {
        advice_on_data(word)
    }
}

/// The same where what is asked for isn't there, or has no room.
fn advice_on_data(word: &str) -> Option<&'static str>
    ensures { option_map (λ text. text.now) result ≡ advice_on_data word.now }
{
    if word == "memory" {
        Some("there was not enough memory, and nothing has changed; ask for less at once")
    } else if word == "role" {
        Some("the policy file has no such role; try .roles")
    } else if word == "cell" {
        Some("a value lies outside of its column's range; try .tables")
    } else if word == "full" {
        Some("the table has used up its row numbers; it takes no more rows")
    } else {
        None
    }
}

/// The line of a refusal.
pub(crate) fn error_text(alloc: Global, word: &str) -> Result<String, AllocError>
    ensures { IfOk result (λ text. string_bytes text ≡ error_text word.now) }
{
    match advice(word) {
        Some(advice) => format!(in alloc; "error: {advice}\n"),
        None => sentence(alloc, "error: ", word, "\n"),
    }
}

/// The line of a denial: the rule that denies a use, and the use.
pub(crate) fn denied_text(alloc: Global, rule: &str, used: &str) -> Result<String, AllocError>
    ensures { IfOk result (λ text. string_bytes text ≡ denied_text rule.now used.now) }
{
    if rule == "no-grant" {
        return sentence(alloc, "denied: no grant covers ", used, "\n");
    }
    if rule == "default-deny" {
        let before = "denied by default: no policy permits this row (";
        return sentence(alloc, before, used, ")\n");
    }
    denied_by(alloc, rule, used)
}

/// The line of a denial by a rule that has a name.
fn denied_by(alloc: Global, rule: &str, used: &str) -> Result<String, AllocError>
    ensures { IfOk result (λ text. string_bytes text ≡ denied_by rule.now used.now) }
{
    let mut text = sentence(alloc, "denied by ", rule, ": ")?;
    push_escaped(alloc, &mut text, used)?;
    text.push_str("\n")?;
    Ok(text)
}

/// The line of a definition.
pub(crate) fn defined_text(alloc: Global, name: &str) -> Result<String, AllocError>
    ensures { IfOk result (λ text. string_bytes text ≡ defined_text name.now) }
{
    sentence(alloc, "", name, " is defined\n")
}

/// The line of an assignment.
pub(crate) fn assigned_text(alloc: Global, name: &str) -> Result<String, AllocError>
    ensures { IfOk result (λ text. string_bytes text ≡ assigned_text name.now) }
{
    sentence(alloc, "", name, " is assigned\n")
}

/// The line of a role.
pub(crate) fn role_text(alloc: Global, name: &str) -> Result<String, AllocError>
    ensures { IfOk result (λ text. string_bytes text ≡ role_text name.now) }
{
    sentence(alloc, "the role is ", name, "\n")
}

/// A number of rows.
fn rows_text(alloc: Global, count: u64) -> Result<String, AllocError>
    ensures { IfOk result (λ text. string_bytes text ≡ rows_text count) }
{
    if count == 1 {
        return String::from_str(alloc, "1 row");
    }
    let mut text = String::new(alloc);
    push_count(alloc, &mut text, count)?;
    text.push_str(" rows")?;
    Ok(text)
}

/// The line of an insertion.
pub(crate) fn inserted_text(alloc: Global, count: u64) -> Result<String, AllocError>
    ensures { IfOk result (λ text. string_bytes text ≡ inserted_text count) }
{
    let mut text = rows_text(alloc, count)?;
    text.push_str(" inserted\n")?;
    Ok(text)
}

/// The line of a deletion.
pub(crate) fn deleted_text(alloc: Global, count: u64) -> Result<String, AllocError>
    ensures { IfOk result (λ text. string_bytes text ≡ deleted_text count) }
{
    let mut text = rows_text(alloc, count)?;
    text.push_str(" deleted\n")?;
    Ok(text)
}
