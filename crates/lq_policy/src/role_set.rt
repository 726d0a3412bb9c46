//! Sets of roles, and the roles that each role has as a member of others.
ghost use Rattle.std.specs.Prelude.{◌≡◌, [], ℕ, slice_get, IfOk};
ghost use Rattle.std.specs.List.{list_any};
ghost use Rattle.std.specs.Option.{option_copied};
ghost use Rattle.lq_security.specs.Visible.{is_named, memberships_after};
ghost use Rattle.lq_policy.specs.Memberships.{DecideMemberships, goes_by_marks, is_marked};
ghost use Rattle.lq_policy.specs.Roles.{goes_by_name};

use lq_security::Role;
use std::alloc::{AllocError, Global};

/// A set of roles, by their numbers.
#[derive(Drop)]
pub(crate) struct RoleSet {
    /// A role n is in the set where bit n % 64 of word n / 64 is 1. None after the last word is.
    words: Vec<u64>,
}

impl RoleSet {
    ghost use Rattle.std.specs.Prelude.{◌≡◌, ◌==◌, ◌≤◌, ◌&&◌, ◌||◌, false, ℕ, length, slice_get, IfOk};
    ghost use Rattle.lq_security.specs.Visible.{is_named};
    ghost use Rattle.lq_policy.specs.Memberships.{goes_by_marks, is_marked};
    ghost use Rattle.lq_policy.specs.Roles.{IsAnyNumber};

    /// The set of no role. Takes no memory.
    fn new(alloc: Global) -> RoleSet
        ensures { (n : ℕ) → is_marked result n ≡ false }
    {
        RoleSet {
            words: Vec::new(alloc),
        }
    }

    /// Whether a role is in the set.
    fn contains(&self, number: usize) -> bool
        ensures { result ≡ is_marked self.now number }
    {
        match self.words.get(number / 64) {
            Some(word) => (*word >> (number % 64)) & 1 == 1,
            None => false,
        }
    }

    /// Has at least so many words from now on, and room for no more than it needs.
    fn lengthen(&mut self, len: usize) -> Result<(), AllocError>
        ensures same { IfOk result (λ _. (n : ℕ) → is_marked self.new n ≡ is_marked self.old n) }
        ensures long { IfOk result (λ _. len ≤ length self.new.words.items) }
    {
        let so_far = self.words.len();
        if so_far < len {
            self.words.reserve_exact(len - so_far)?;
            self.words.resize(len, 0)?;
        }
        Ok(())
    }

    /// Puts a role into the set.
    fn insert(&mut self, number: usize) -> Result<(), AllocError>
        ensures { IfOk result (λ _. (n : ℕ)
            → is_marked self.new n ≡ (number == n) || is_marked self.old n) }
    {
        self.lengthen(number / 64 + 1)?;
        self.words[number / 64] |= 1 << (number % 64);
        Ok(())
    }

    /// Puts all roles of another set into this one.
    fn insert_all(&mut self, others: &RoleSet) -> Result<(), AllocError>
        ensures { IfOk result (λ _. (n : ℕ)
            → is_marked self.new n ≡ is_marked others.now n || is_marked self.old n) }
    {
        self.lengthen(others.words.len())?;
        for (place, word) in others.words.iter().enumerate() {
            self.words[place] |= *word;
        }
        Ok(())
    }

    /// Whether a role in the set has this name.
    fn has_named(&self, roles: &[Role], name: &str) -> bool
        ensures { IsAnyNumber (λ n. is_marked self.now n
            && is_named name.now (slice_get roles.now n)) result }
    {
        for (number, role) in roles.iter().enumerate() {
            if self.contains(number) && is_named(Some(role), name) {
                return true;
            }
        }
        false
    }

    /// Puts the role of this number into the set, and all that it has, as the sets of the
    /// roles give them. Nothing, where there is no such role.
    fn insert_group(&mut self, number: usize, sets: &[RoleSet]) -> Result<(), AllocError>
        ensures { IfOk result (λ _. (n : ℕ)
            → is_marked self.new n ≡ goes_by_marks number (slice_get sets.now number) n
            || is_marked self.old n) }
    {
        if let Some(set) = sets.get(number) {
            self.insert_all(set)?;
            self.insert(number)?;
        }
        Ok(())
    }
}

/// Whether there is a role, and it has this name.
fn is_named(role: Option<&Role>, name: &str) -> bool
    ensures { result ≡ is_named name.now (option_copied role.entry) }
{
    match role {
        Some(role) => role.name.as_str() == name,
        None => false,
    }
}

/// The roles that a member of these has besides itself.
fn groups_of(alloc: Global, member_of: &[usize], sets: &[RoleSet]) -> Result<RoleSet, AllocError>
    ensures { IfOk result (λ set. (n : ℕ)
        → is_marked set n ≡ list_any (λ other. goes_by_marks other (slice_get sets.now other) n)
        member_of.now) }
{
    let mut groups = RoleSet::new(alloc);
    for number in member_of {
        groups.insert_group(*number, sets)?;
    }
    Ok(groups)
}

/// For each role, the roles that it has besides itself, by any chain of memberships.
pub(crate) fn memberships(alloc: Global, roles: &[Role]) -> Result<Vec<RoleSet>, AllocError>
    ensures { IfOk result (λ sets. DecideMemberships (memberships_after [] roles.now) sets.items) }
{
    let mut sets = Vec::new(alloc);
    for role in roles {
        let groups = groups_of(alloc, role.member_of.as_slice(), sets.as_slice())?;
        sets.push(groups)?;
    }
    Ok(sets)
}

/// The set of the role of this number.
fn set_of(sets: &[RoleSet], role: usize) -> Option<&RoleSet>
    ensures { option_copied result ≡ slice_get sets.now role }
{
    sets.get(role)
}

/// The role of this number.
fn role_of(roles: &[Role], role: usize) -> Option<&Role>
    ensures { option_copied result ≡ slice_get roles.now role }
{
    roles.get(role)
}

/// Whether this role has, as the sets give its roles, one of this name.
pub(crate) fn has_role_named(roles: &[Role], sets: &[RoleSet], role: usize, name: &str) -> bool
    requires { DecideMemberships (memberships_after [] roles.now) sets.now }
    ensures { result ≡ goes_by_name roles.now role name.now }
{
    let Some(set) = set_of(sets, role) else {
        return false;
    };
    is_named(role_of(roles, role), name) || set.has_named(roles, name)
}
