//! Keys with their places.
ghost use Rattle.std.specs.Prelude.{◌≡◌, length};
ghost use Rattle.lq_lookup.specs.Chains.{IsCut, IsCutAt, block};

use crate::blocks::spread;
use crate::numbers::numbered;
use indexmap::IndexSet;
use lq_value::Key;
use std::alloc::{AllocError, Global};
use std::marker::Model;

// The keys in order of first appearance, each with its places: keys by number, where the places of
// each begin in the list of all, and that list.
#[derive(Drop)]
pub(crate) struct Rows {
    keys: IndexSet<Key>,
    bounds: Vec<usize>,
    places: Vec<usize>,
    ghost cut: { IsCut bounds.items places.items (length keys.keys) },
}

impl Model for Rows {
    ghost use Rattle.std.specs.Prelude.{List, ℕ};
    ghost use Rattle.lq_value.specs.declared.key.Key.{Key as KeyValue};
    ghost use Rattle.lq_lookup.specs.Finding.{rows_from};

    ghost Value = { List (KeyValue × List ℕ) };

    ghost view = { λ r. rows_from 0 r.keys.keys r.bounds.items r.places.items };
}

impl Rows {
    ghost use Rattle.std.specs.Prelude.{◌≡◌, IfOk, slice_get};
    ghost use Rattle.std.specs.Option.{option_map};
    ghost use Rattle.lq_value.specs.KeyTests.{key_is};
    ghost use Rattle.lq_value.specs.Lookups.{find_in, places, places_by_key};
    ghost use Rattle.lq_value.specs.declared.key.Key.{Key as KeyValue};

    // The keys of `keys`, each with its places.
    pub(crate) fn build(alloc: Global, keys: &[Key]) -> Result<Rows, AllocError>
        ensures groups { IfOk result (λ rows. rows ≡ places_by_key key_is keys.now) }
        ensures finds { IfOk result (λ rows. (q : KeyValue)
            → find_in key_is rows q ≡ places (key_is q) keys.now) }
    {
        let (firsts, numbers) = numbered(alloc, keys)?;
        let (bounds, places) = spread(alloc, numbers.as_slice(), firsts.len())?;
        Ok(Rows {
            keys: firsts,
            bounds,
            places,
        })
    }

    // The places of a key, none where it isn't there.
    pub(crate) fn find(&self, key: &Key) -> &[usize]
        ensures { result.now ≡ find_in key_is self.now key.now }
    {
        match self.keys.get_index_of(key) {
            Some(number) => cut_out(self.bounds.as_slice(), self.places.as_slice(), number),
            None => &[],
        }
    }

    // The key of a number, with its places.
    pub(crate) fn get(&self, number: usize) -> Option<(&Key, &[usize])>
        ensures { option_map (λ p. (p.0.now, p.1.now)) result ≡ slice_get self.now number }
    {
        match self.keys.get_index(number) {
            Some(key) => {
                let places = cut_out(self.bounds.as_slice(), self.places.as_slice(), number);
                Some((key, places))
            }
            None => None,
        }
    }

    // How many keys there are.
    pub(crate) fn len(&self) -> usize
        ensures { result ≡ length self.now }
    {
        self.keys.len()
    }
}

fn cut_out<'a>(bounds: &[usize], places: &'a [usize], number: usize) -> &'a [usize]
    requires { IsCutAt bounds.now places.now number }
    ensures { result.now ≡ block bounds.now places.now number }
{
    &places[bounds[number]..bounds[number + 1]]
}
