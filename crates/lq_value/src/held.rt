//! A box that contracts see as the value in it.
ghost use Rattle.std.specs.Prelude.{◌≡◌, IfOk};

use std::alloc::{AllocError, Global};
use std::marker::Model;

/// A `Box` that contracts see as the value it holds, so that a tree of them is plain data.
pub struct Held<T> {
    /// The box itself.
    pub inner: Box<T>,
}

impl<T> Model for Held<T> {
    ghost Value = { T };

    ghost coded = { T.code };

    ghost view = { λ h. h.inner.value };
}

impl<T: Drop> Drop for Held<T> {
    /// A function of its own, so that letting go of a tree takes a small frame of the stack a level, whatever a node's variants hold.
    #[inline(never)]
    fn drop(self) {
        let Held { inner } = self;
        drop(inner);
    }
}

impl<T> Held<T> {
    /// The value held.
    pub fn get(&self) -> &T
        ensures { result.now ≡ self.now }
    {
        &self.inner
    }

    /// The value, taken out of its box.
    pub fn into_inner(self) -> T
        ensures { result ≡ self }
    {
        let Held { inner } = self;
        Box::into_inner(inner)
    }
}

impl<T: Drop> Held<T> {
    /// Puts `value` in a box of its own.
    pub fn new(alloc: Global, value: T) -> Result<Held<T>, AllocError>
        ensures { IfOk result (λ holder. holder ≡ value) }
    {
        Ok(Held {
            inner: Box::new(alloc, value)?,
        })
    }
}
