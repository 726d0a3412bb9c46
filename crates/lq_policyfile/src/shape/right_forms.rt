//! The texts of rights.
ghost use Rattle.std.specs.Prelude.{◌≡◌, option_map};
ghost use Rattle.lq_policyfile.specs.Outcome.{Reads};
ghost use Rattle.lq_policyfile.specs.Rights.{IsRead, around, change_in_words, columns_in_words, dotted, predicate_in_words, right_of, spaced};

use crate::entry::RightForm;
use crate::error::ShapeError;
use crate::shape::value::Shaped;
use lq_lex::is_name;
use lq_value::Txt;
use std::alloc::Global;
use toml::Value;

/// What comes before the first dot of a text, and after it.
fn around_dot(text: &str) -> Option<(&str, &str)>
    ensures { option_map (λ words. (words.0.now, words.1.now)) result ≡ around 46 text.now }
{
    text.split_once('.')
}

/// What comes before the first blank of a text, and after it.
fn around_blank(text: &str) -> Option<(&str, &str)>
    ensures { option_map (λ words. (words.0.now, words.1.now)) result ≡ around 32 text.now }
{
    text.split_once(' ')
}

/// A right to columns of a table.
fn columns_in_words(alloc: Global, table: &str, columns: &str) -> Result<RightForm, ShapeError>
    ensures { Reads (columns_in_words table.now columns.now) result }
{
    let table = Txt::from_str(alloc, table)?;
    if columns == "*" {
        Ok(RightForm::AllColumns(table))
    } else if is_name(columns) {
        Ok(RightForm::Column(table, Txt::from_str(alloc, columns)?))
    } else {
        Err(ShapeError::Shape)
    }
}

/// A right to a host predicate.
fn predicate_in_words(alloc: Global, name: &str) -> Result<RightForm, ShapeError>
    ensures { Reads (predicate_in_words name.now) result }
{
    if is_name(name) {
        Ok(RightForm::Host(Txt::from_str(alloc, name)?))
    } else {
        Err(ShapeError::Shape)
    }
}

/// A right with a dot between two words.
fn dotted(alloc: Global, owner: &str, part: &str) -> Result<RightForm, ShapeError>
    ensures { Reads (dotted owner.now part.now) result }
{
    if is_name(owner) {
        columns_in_words(alloc, owner, part)
    } else if owner == "Host" {
        predicate_in_words(alloc, part)
    } else {
        Err(ShapeError::Shape)
    }
}

/// A right to put rows into a table, or to remove them.
fn change_in_words(alloc: Global, table: &str, change: &str) -> Result<RightForm, ShapeError>
    ensures { Reads (change_in_words table.now change.now) result }
{
    let table = Txt::from_str(alloc, table)?;
    match change {
        "insert" => Ok(RightForm::Insert(table)),
        "delete" => Ok(RightForm::Delete(table)),
        _ => Err(ShapeError::Shape),
    }
}

/// A right with a blank between two words.
fn spaced(alloc: Global, table: &str, change: &str) -> Result<RightForm, ShapeError>
    ensures { Reads (spaced table.now change.now) result }
{
    if is_name(table) {
        change_in_words(alloc, table, change)
    } else {
        Err(ShapeError::Shape)
    }
}

/// A right by its first dot, or else its first blank.
#[tactic(auto, unfolding(crate::specs::Rights::right_of))]
fn in_words(alloc: Global, text: &str) -> Result<RightForm, ShapeError>
    ensures { Reads (right_of text.now) result }
{
    if let Some((owner, part)) = around_dot(text) {
        return dotted(alloc, owner, part);
    }
    match around_blank(text) {
        Some((table, change)) => spaced(alloc, table, change),
        None => Err(ShapeError::Shape),
    }
}

/// What the text of a right says. It says one thing at most.
fn right_of(alloc: Global, text: &str) -> Result<RightForm, ShapeError>
    ensures read { Reads (right_of text.now) result }
    ensures says { IsRead text.now result }
{
    in_words(alloc, text)
}

impl Shaped for RightForm {
    ghost use Rattle.lq_policyfile.specs.TomlValues.{by_text};
    ghost use Rattle.lq_policyfile.specs.Rights.{right_of};

    ghost shape = { by_text right_of };

    fn read(alloc: Global, value: &Value) -> Result<RightForm, ShapeError> {
        right_of(alloc, value.as_str().ok_or(ShapeError::Shape)?)
    }
}
