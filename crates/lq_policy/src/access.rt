//! Who does what with the rows of which table.
use lq_security::Action;
use lq_value::TableNumber;

/// A role, by its number among the roles of its policies.
#[derive(Clone, Copy, Drop, Eq, PartialEq)]
pub struct RoleId {
    pub(crate) number: usize,
}

/// What a role does with the rows of a table.
#[derive(Clone, Copy, Drop)]
pub(crate) struct Access {
    pub(crate) role: RoleId,
    pub(crate) action: Action,
    pub(crate) table: TableNumber,
}

impl Access {
    ghost use Rattle.std.specs.Prelude.{◌≡◌};

    /// The reading of the same table by the same role.
    pub(crate) fn reading(self) -> Access
        ensures { result ≡ record self { action = Action.Select } }
    {
        Access {
            action: Action::Select,
            ..self
        }
    }
}
