//! Groups of equal keys.
use crate::rows::Rows;
use lq_value::Key;
use std::alloc::{AllocError, Global};
use std::marker::Model;

/// The keys of a list in order of first appearance, each with its places in that list. Null is a key
/// as any other.
#[derive(Drop)]
pub struct Groups {
    rows: Rows,
}

impl Model for Groups {
    ghost use Rattle.std.specs.Prelude.{List, ℕ};
    ghost use Rattle.lq_value.specs.declared.key.Key.{Key as KeyValue};

    ghost Value = { List (KeyValue × List ℕ) };

    ghost view = { λ g. g.rows };
}

impl Groups {
    ghost use Rattle.std.specs.Prelude.{◌≡◌, IfOk, length, slice_get};
    ghost use Rattle.std.specs.Option.{option_map};
    ghost use Rattle.lq_value.specs.KeyTests.{key_is};
    ghost use Rattle.lq_value.specs.Lookups.{places_by_key};

    /// The groups of `keys`.
    pub fn build(alloc: Global, keys: &[Key]) -> Result<Groups, AllocError>
        ensures { IfOk result (λ groups. groups ≡ places_by_key key_is keys.now) }
    {
        let rows = Rows::build(alloc, keys)?;
        Ok(Groups { rows })
    }

    /// The key of the group with this number, counted from 0, and its places; none past the last
    /// group. Takes no memory.
    pub fn get(&self, index: usize) -> Option<(&Key, &[usize])>
        ensures { option_map (λ p. (p.0.now, p.1.now)) result ≡ slice_get self.now index }
    {
        self.rows.get(index)
    }

    /// How many groups there are. Takes no memory.
    pub fn len(&self) -> usize
        ensures { result ≡ length self.now }
    {
        self.rows.len()
    }
}
