//! The roles: which one is current, and which bypass row security.
ghost use Rattle.std.specs.Prelude.{◌≡◌, IfOk, map, string_bytes};
ghost use Rattle.lq_prompt.specs.Roles.{present_role, role_row, roles_text};

use crate::grids::{row, table_text, word, yes};
use lq_render::Cell;
use lq_run::State;
use lq_security::Role;
use lq_value::List;
use std::alloc::{AllocError, Global};

/// The name of the present role.
pub(crate) fn present_role(state: &State) -> &str
    ensures { result.now ≡ present_role state.now }
{
    match state.policies().role_name(state.role()) {
        Some(name) => name,
        None => "?",
    }
}

/// The row of a role.
fn role_row(alloc: Global, present: &str, role: &Role) -> Result<List<Cell>, AllocError>
    ensures { IfOk result (λ cells. cells ≡ role_row present.now role.now) }
{
    let name = role.name.as_str();
    let is_present = yes(alloc, name == present)?;
    let bypasses = yes(alloc, role.bypass)?;
    row(alloc, [word(alloc, name)?, is_present, bypasses])
}

/// The rows of the roles.
fn roles_rows(alloc: Global, present: &str, roles: &[Role]) -> Result<List<List<Cell>>, AllocError>
    ensures { IfOk result (λ grid. grid ≡ map (role_row present.now) roles.now) }
{
    let mut grid = List::new(alloc);
    for role in roles {
        grid.push(role_row(alloc, present, role)?)?;
    }
    Ok(grid)
}

/// The roles.
pub(crate) fn roles_text(alloc: Global, state: &State) -> Result<String, AllocError>
    ensures { IfOk result (λ text. string_bytes text ≡ roles_text state.now) }
{
    let grid = roles_rows(alloc, present_role(state), state.policies().roles())?;
    table_text(alloc, &["role", "current", "bypasses row security"], &grid)
}
