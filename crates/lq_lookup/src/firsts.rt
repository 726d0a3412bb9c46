//! The first place of each key.
ghost use Rattle.std.specs.Prelude.{◌≡◌, IfOk};
ghost use Rattle.lq_value.specs.KeyTests.{key_is};
ghost use Rattle.lq_value.specs.Lookups.{first_places};

use indexmap::IndexSet;
use lq_value::Key;
use std::alloc::{AllocError, Global};
use std::marker::Model;

// Keys that were seen, each once, in the order in which they came.
#[derive(Drop)]
struct Seen<'a> {
    keys: IndexSet<&'a Key>,
}

impl<'a> Model for Seen<'a> {
    ghost use Rattle.std.specs.Prelude.{List, map};
    ghost use Rattle.lq_value.specs.declared.key.Key.{Key as KeyValue};

    ghost Value = { List KeyValue };

    ghost view = { λ s. map (λ key. key.now) s.keys.keys };
}

impl<'a> Seen<'a> {
    ghost use Rattle.std.specs.Prelude.{◌≡◌, [], not, IfOk, OnOk};
    ghost use Rattle.std.specs.List.{list_any};
    ghost use Rattle.lq_value.specs.KeyTests.{key_is};
    ghost use Rattle.lq_value.specs.Lookups.{with_key};

    // No keys, with room for `room` of them.
    fn new(alloc: Global, room: usize) -> Result<Seen<'a>, AllocError>
        ensures { IfOk result (λ keys. keys ≡ []) }
    {
        Ok(Seen {
            keys: IndexSet::with_capacity(alloc, room)?,
        })
    }

    // Puts a key after the others, unless it was seen; says whether it is new.
    fn add(&mut self, key: &'a Key) -> Result<bool, AllocError>
        ensures new { IfOk result (λ is_new. is_new ≡ not (list_any (key_is key.now) self.old)) }
        ensures keys { OnOk result (self.new ≡ with_key key_is self.old key.now) }
    {
        Ok(self.keys.insert(key)?)
    }
}

/// The place of the first appearance of each key, in order.
pub fn distinct(alloc: Global, keys: &[Key]) -> Result<Vec<usize>, AllocError>
    ensures { IfOk result (λ firsts. firsts.items ≡ first_places key_is keys.now) }
{
    let mut seen = Seen::new(alloc, keys.len())?;
    let mut firsts = Vec::new(alloc);
    for (place, key) in keys.iter().enumerate() {
        if seen.add(key)? {
            firsts.push(place)?;
        }
    }
    Ok(firsts)
}
