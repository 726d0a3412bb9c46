//! The names that `var` statements defined, with their types.
ghost use Rattle.std.specs.Prelude.{◌≡◌, IfOk, map, string_bytes};
ghost use Rattle.lq_session.specs.States.{state_of};
ghost use Rattle.lq_prompt.specs.Names.{name_row, names_text, stands_for, type_of_name};

use crate::grids::{joined, row, table_text, word};
use lq_machine::{Defined, Definition};
use lq_render::{Cell, type_text};
use lq_session::Session;
use lq_value::List;
use std::alloc::{AllocError, Global};

/// What a name stands for.
fn stands_for(defined: &Defined) -> &'static str
    ensures { result.now ≡ stands_for defined.now }
{
    match defined {
        Defined::Variable(_, _) => "variable",
        Defined::Query(_, _) => "query",
    }
}

/// The type by which a name would be served.
fn type_of_name(alloc: Global, session: &Session, name: &str) -> Result<String, AllocError>
    ensures { IfOk result (λ text. string_bytes text
        ≡ type_of_name (state_of session.now) name.now) }
{
    let line = joined(alloc, &["run ", name, ";"])?;
    match session.served_type(&line)? {
        Some(ty) => type_text(alloc, &ty, session.store()),
        None => String::from_str(alloc, "none"),
    }
}

/// The row of a name.
fn name_row(
    alloc: Global,
    session: &Session,
    definition: &Definition,
) -> Result<List<Cell>, AllocError>
    ensures { IfOk result (λ cells. cells ≡ name_row (state_of session.now) definition.now) }
{
    let name = definition.name.as_str();
    let kind = word(alloc, stands_for(&definition.defined))?;
    let ty = type_of_name(alloc, session, name)?;
    row(alloc, [word(alloc, name)?, kind, word(alloc, &ty)?])
}

/// The rows of names.
fn names_rows(
    alloc: Global,
    session: &Session,
    definitions: &[Definition],
) -> Result<List<List<Cell>>, AllocError>
    ensures { IfOk result (λ grid. grid ≡ map (name_row (state_of session.now)) definitions.now) }
{
    let mut grid = List::new(alloc);
    for definition in definitions {
        grid.push(name_row(alloc, session, definition)?)?;
    }
    Ok(grid)
}

/// The names that are defined.
pub(crate) fn names_text(alloc: Global, session: &Session) -> Result<String, AllocError>
    ensures { IfOk result (λ text. string_bytes text ≡ names_text (state_of session.now)) }
{
    let grid = names_rows(alloc, session, session.state().definitions())?;
    table_text(alloc, &["name", "kind", "type"], &grid)
}
