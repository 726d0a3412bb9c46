//! Whether a role has a right to each of some uses.
ghost use Rattle.std.specs.Prelude.{◌≡◌, option_map};
ghost use Rattle.lq_security.specs.Rights.{denier_of};
ghost use Rattle.lq_policy.specs.Roles.{number_of};
ghost use Rattle.lq_use.specs.Decisions.{Decides};

use lq_policy::{Policies, RoleId, Use};

/// The first use of some to which a role has no right: its place among them, from 0, and the name of the rule that denies it.
#[derive(Clone, Copy, Drop)]
pub struct Denied<'a> {
    /// The place.
    pub place: usize,
    /// The name of the first withhold that applies and covers the use, or `no-grant`.
    pub rule: &'a str,
}

/// The rule that denies a use, if the role has no right to it.
fn denier<'a>(used: &Use, role: RoleId, policies: &'a Policies) -> Option<&'a str>
    ensures { option_map (λ rule. rule.now) result
        ≡ denier_of policies.now (number_of role) used.now }
{
    policies.right(role, *used).err()
}

/// Whether the role has a right to each of these uses; the first to which it has none is denied. Takes no
/// memory. It looks each use up where the policies have prepared the role; for another role it goes over
/// the rules at each use.
pub fn decide<'a>(uses: &[Use], role: RoleId, policies: &'a Policies) -> Result<(), Denied<'a>>
    ensures { Decides policies.now (number_of role) uses.now result }
{
    for place in 0..uses.len() {
        let used = &uses[place];
        if let Some(rule) = denier(used, role, policies) {
            return Err(Denied { place, rule });
        }
    }
    Ok(())
}
