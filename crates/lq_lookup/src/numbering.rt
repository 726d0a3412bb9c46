//! Keys by number, one after another.
use indexmap::IndexSet;
use lq_value::Key;
use std::alloc::{AllocError, Global};
use std::marker::Model;

/// Keys, each once, in order of first appearance: the number of a key is how many others came before
/// it. Each key is hashed once, and moved and not copied.
#[derive(Drop)]
pub struct Numbering {
    keys: IndexSet<Key>,
}

impl Model for Numbering {
    ghost use Rattle.std.specs.Prelude.{List};
    ghost use Rattle.lq_value.specs.declared.key.Key.{Key as KeyValue};

    ghost Value = { List KeyValue };

    ghost view = { λ n. n.keys.keys };
}

impl Numbering {
    ghost use Rattle.std.specs.Prelude.{◌≡◌, [], not, IfOk, OnOk, OnErr};
    ghost use Rattle.std.specs.List.{list_any, position_or_len};
    ghost use Rattle.lq_value.specs.KeyTests.{key_is};
    ghost use Rattle.lq_value.specs.Lookups.{with_key};

    /// No keys, with room for `room` of them.
    pub fn new(alloc: Global, room: usize) -> Result<Numbering, AllocError>
        ensures { IfOk result (λ keys. keys ≡ []) }
    {
        Ok(Numbering {
            keys: IndexSet::with_capacity(alloc, room)?,
        })
    }

    /// The number of a key, and whether it is new: then it is put after the others. Refused memory
    /// leaves the keys as they were.
    pub fn number(&mut self, key: Key) -> Result<(usize, bool), AllocError>
        ensures number { IfOk result (λ answer. answer.0 ≡ position_or_len (key_is key) self.old) }
        ensures new { IfOk result (λ answer. answer.1 ≡ not (list_any (key_is key) self.old)) }
        ensures keys { OnOk result (self.new ≡ with_key key_is self.old key) }
        ensures refused { OnErr result (self.new ≡ self.old) }
    {
        Ok(self.keys.insert_full(key)?)
    }
}
