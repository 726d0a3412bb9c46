//! What a role may use, worked out once.
ghost use Rattle.std.specs.Prelude.{◌≡◌, ◌&&◌, ◌||◌, not, IfOk};
ghost use Rattle.std.specs.List.{list_any};
ghost use Rattle.lq_security.specs.Rights.{is_same_use};
ghost use Rattle.lq_language.specs.declared.rights.Use.{Use};
ghost use Rattle.lq_policy.specs.RoleRights.{gives, is_among};

use crate::access::RoleId;
use crate::use_set::UseSet;
use lq_language::Use;
use std::alloc::AllocError;

/// A role, and all that it may use.
#[derive(Drop)]
pub(crate) struct RoleRights {
    pub(crate) role: RoleId,
    /// Columns, tables with such a column, the putting in and removal of rows, and host predicates.
    pub(crate) allowed: UseSet,
}

impl RoleRights {
    ghost use Rattle.std.specs.Prelude.{◌≡◌, ◌==◌};
    ghost use Rattle.lq_policy.specs.Roles.{number_of};

    /// Whether they are those of this role.
    pub(crate) fn are_of(&self, role: RoleId) -> bool
        ensures { result ≡ (number_of self.now.role == number_of role) }
    {
        self.role.number == role.number
    }
}

/// Puts rights into a set.
pub(crate) fn add_rights(set: &mut UseSet, rights: &[Use]) -> Result<(), AllocError>
    ensures { IfOk result (λ _. (other : Use)
        → is_among set.new other ≡ list_any (is_same_use other) rights.now
        || is_among set.old other) }
{
    for right in rights {
        set.add(*right)?;
    }
    Ok(())
}

/// Puts into a set what a right gives: itself, and a column's table.
fn add_given(set: &mut UseSet, right: Use) -> Result<(), AllocError>
    ensures { IfOk result (λ _. (other : Use)
        → is_among set.new other ≡ gives other right || is_among set.old other) }
{
    match right {
        Use::Table(_) => Ok(()),
        Use::Column(table, _) => {
            set.add(Use::Table(table))?;
            set.add(right)
        }
        Use::Insert(_) | Use::Delete(_) | Use::Host(_) => set.add(right),
    }
}

/// The same, where the right isn't withheld.
fn add_unwithheld(set: &mut UseSet, right: Use, withheld: &UseSet) -> Result<(), AllocError>
    ensures { IfOk result (λ _. (other : Use) → is_among set.new other
        ≡ (gives other right && not (is_among withheld.now right)) || is_among set.old other) }
{
    if withheld.contains(right) {
        return Ok(());
    }
    add_given(set, right)
}

/// The same of each of these rights.
pub(crate) fn add_open(
    set: &mut UseSet,
    rights: &[Use],
    withheld: &UseSet,
) -> Result<(), AllocError>
    ensures { IfOk result (λ _. (other : Use) → is_among set.new other
        ≡ list_any (λ right. gives other right && not (is_among withheld.now right)) rights.now
        || is_among set.old other) }
{
    for right in rights {
        add_unwithheld(set, *right, withheld)?;
    }
    Ok(())
}
