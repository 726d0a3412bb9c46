//! Places by key.
ghost use Rattle.std.specs.Prelude.{◌≡◌};
ghost use Rattle.lq_lookup.specs.Finding.{is_kept};

use crate::nulls::Nulls;
use crate::rows::Rows;
use lq_value::Key;
use std::alloc::{AllocError, Global};
use std::marker::Model;

/// The places of each key of a list.
#[derive(Drop)]
pub struct Lookup {
    nulls: Nulls,
    rows: Rows,
}

impl Model for Lookup {
    ghost use Rattle.std.specs.Prelude.{List, ℕ};
    ghost use Rattle.lq_value.specs.declared.key.Key.{Key as KeyValue};
    ghost use Rattle.lq_lookup.specs.declared.nulls.Nulls.{Nulls as NullsValue};

    ghost Value = { NullsValue × List (KeyValue × List ℕ) };

    ghost view = { λ l. (l.nulls, l.rows) };
}

impl Lookup {
    ghost use Rattle.std.specs.Prelude.{◌≡◌, IfOk};
    ghost use Rattle.lq_value.specs.declared.key.Key.{Key as KeyValue};
    ghost use Rattle.lq_lookup.specs.Finding.{places_of, matches};

    /// The lookup of `keys`. Under `Nulls::Skip` a key that is itself null is found nowhere; a record
    /// with null members is a key as any other.
    pub fn build(alloc: Global, keys: &[Key], nulls: Nulls) -> Result<Lookup, AllocError>
        ensures { IfOk result (λ lookup. (q : KeyValue)
            → places_of lookup q ≡ matches nulls keys.now q) }
    {
        let rows = Rows::build(alloc, keys)?;
        Ok(Lookup { nulls, rows })
    }

    /// The places of `key`, in order. Takes no memory.
    pub fn find(&self, key: &Key) -> &[usize]
        ensures { result.now ≡ places_of self.now key.now }
    {
        if is_kept(self.nulls, key) {
            self.rows.find(key)
        } else {
            &[]
        }
    }
}

// Whether a key may have a match.
fn is_kept(nulls: Nulls, key: &Key) -> bool
    ensures { result ≡ is_kept nulls key.now }
{
    match (nulls, key) {
        (Nulls::Skip, Key::Null) => false,
        _ => true,
    }
}
