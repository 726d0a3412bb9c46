//! Hints: where a value that was met before is likely to stand.
ghost use Rattle.std.specs.Prelude.{◌<◌, length};

use lq_value::{RowRef, Scalar, Value};
use std::alloc::Global;

// The most places that hints take.
const MOST: usize = 65536;

// A place for each of the ints and texts that were met last. A hint promises nothing: who takes one asks whether it is right.
#[derive(Drop)]
pub(crate) struct Hints {
    places: Vec<usize>,
}

impl Hints {
    pub(crate) fn new(alloc: Global) -> Hints {
        Hints {
            places: Vec::new(alloc),
        }
    }

    // Where a value is likely to stand.
    #[inline]
    pub(crate) fn place<R: RowRef>(&self, value: &Value<R>) -> usize {
        match value {
            Value::Scalar(scalar) => self.scalar_place(scalar),
            _ => usize::MAX,
        }
    }

    // Where a value that is this scalar is likely to stand.
    #[inline]
    pub(crate) fn scalar_place(&self, scalar: &Scalar) -> usize {
        self.marked(mark(scalar))
    }

    #[inline]
    fn marked(&self, mark: usize) -> usize {
        match self.places.get(slot(mark, self.places.len())) {
            Some(place) => *place,
            None => usize::MAX,
        }
    }

    // From now on a value is likely to stand at this place.
    pub(crate) fn set<R: RowRef>(&mut self, alloc: Global, value: &Value<R>, place: usize) {
        match value {
            Value::Scalar(scalar) => self.set_marked(alloc, mark(scalar), place),
            _ => {}
        }
    }

    fn set_marked(&mut self, alloc: Global, mark: usize, place: usize) {
        if self.places.len() <= place && self.places.len() < MOST {
            widen(alloc, &mut self.places);
        }
        let at = slot(mark, self.places.len());
        if let Some(there) = self.places.get_mut(at) {
            *there = place;
        }
    }
}

// A number that few scalars share.
#[inline]
fn mark(scalar: &Scalar) -> usize {
    match scalar {
        Scalar::Int(int) => int.cast_unsigned() as usize,
        Scalar::Text(text) => text_mark(text.as_str()),
        Scalar::Bool(truth) => usize::from(*truth),
        Scalar::Null => 2,
    }
}

// The same of a text, by its length and its last bytes.
fn text_mark(text: &str) -> usize {
    let bytes = text.as_bytes();
    let mut mark = bytes.len();
    for byte in bytes.iter().rev().take(6) {
        mark = mark.wrapping_mul(31).wrapping_add(usize::from(*byte));
    }
    mark
}

// Room for twice as many, which forgets those that are there; where memory is refused, nothing changes.
fn widen(alloc: Global, places: &mut Vec<usize>)
    requires { length places.old.items < 65536 }
{
    let room = if places.is_empty() {
        16
    } else {
        2 * places.len()
    };
    if let Ok(wider) = Vec::from_elem(alloc, usize::MAX, room) {
        *places = wider;
    }
}

// Where the hint of a mark stands among so many, which are a power of two.
#[inline]
fn slot(mark: usize, count: usize) -> usize {
    if count == 0 {
        return 0;
    }
    mark & (count - 1)
}
