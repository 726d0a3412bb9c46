//! What is known of the roles.
use crate::access::RoleId;
use crate::policies::Policies;
use lq_security::Role;

impl Policies {
    ghost use Rattle.std.specs.Prelude.{◌≡◌, option_map, slice_get};
    ghost use Rattle.std.specs.Option.{option_copied};
    ghost use Rattle.lq_policy.specs.Roles.{is_bypassing, number_of};

    /// The roles, in the order of the file.
    pub fn roles(&self) -> &[Role]
        ensures { result.now ≡ self.now.roles }
    {
        self.parts.roles.as_slice()
    }

    /// The role of this number, if these policies have it.
    fn role_at(&self, role: RoleId) -> Option<&Role>
        ensures { option_copied result ≡ slice_get self.now.roles (number_of role) }
    {
        self.roles().get(role.number)
    }

    /// The name of a role; none, where these policies don't have it.
    pub fn role_name(&self, role: RoleId) -> Option<&str>
        ensures { option_copied result
            ≡ option_map (λ entry. entry.name) (slice_get self.now.roles (number_of role)) }
    {
        Some(self.role_at(role)?.name.as_str())
    }

    /// Whether row policies don't bear on the role. One that these policies don't have bypasses
    /// nothing.
    pub fn is_bypassing(&self, role: RoleId) -> bool
        ensures { result ≡ is_bypassing (slice_get self.now.roles (number_of role)) }
    {
        match self.role_at(role) {
            Some(role) => role.bypass,
            None => false,
        }
    }
}
