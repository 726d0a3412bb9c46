//! Texts that are one of some words.
ghost use Rattle.std.specs.Prelude.{◌≡◌};
ghost use Rattle.lq_policyfile.specs.Shape.{actions_of, kind_of};

use crate::entry::{Actions, Kind};
use crate::error::ShapeError;
use crate::shape::value::Shaped;
use lq_security::Action;
use std::alloc::Global;
use toml::Value;

/// The kind of policies that this word means.
fn kind_of(text: &str) -> Option<Kind>
    ensures { result ≡ kind_of text.now }
{
    match text {
        "permissive" => Some(Kind::Permissive),
        "restrictive" => Some(Kind::Restrictive),
        _ => None,
    }
}

impl Shaped for Kind {
    ghost use Rattle.lq_policyfile.specs.TomlValues.{by_text};
    ghost use Rattle.lq_policyfile.specs.Shape.{kind_of};

    ghost shape = { by_text kind_of };

    fn read(_alloc: Global, value: &Value) -> Result<Kind, ShapeError> {
        kind_of(value.as_str().ok_or(ShapeError::Shape)?).ok_or(ShapeError::Shape)
    }
}

/// The actions that this word means.
fn actions_of(text: &str) -> Option<Actions>
    ensures { result ≡ actions_of text.now }
{
    match text {
        "all" => Some(Actions::All),
        "select" => Some(Actions::Only(Action::Select)),
        "insert" => Some(Actions::Only(Action::Insert)),
        "delete" => Some(Actions::Only(Action::Delete)),
        _ => None,
    }
}

impl Shaped for Actions {
    ghost use Rattle.lq_policyfile.specs.TomlValues.{by_text};
    ghost use Rattle.lq_policyfile.specs.Shape.{actions_of};

    ghost shape = { by_text actions_of };

    fn read(_alloc: Global, value: &Value) -> Result<Actions, ShapeError> {
        actions_of(value.as_str().ok_or(ShapeError::Shape)?).ok_or(ShapeError::Shape)
    }
}
