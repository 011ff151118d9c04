//! A value on the heap, for types that contain themselves.

ghost use Rattle.std.specs.Prelude.{◌≡◌, IfOk};

use mufom_numbers::NoMemory;
use std::alloc::Global;
use std::marker::Model;

/// A value behind a pointer, over `Box`: the pointer itself takes eight bytes. Contracts see it as the
/// value.
///
/// It can be used in a type that contains itself. Only [`new`](Boxed::new) allocates.
#[derive(Debug, Drop)]
pub struct Boxed<T> {
    inner: Box<T>,
}

impl<T> Model for Boxed<T> {
    ghost Value = { T };

    ghost coded = { T.code };

    ghost view = { λ b. b.inner.value };
}

impl<T> Boxed<T> {
    /// The value.
    pub fn get(&self) -> &T
        ensures { result.now ≡ self.now }
    {
        &self.inner
    }

    /// The value, moved out; its allocation is freed.
    pub fn into_inner(self) -> T
        ensures { result ≡ self }
    {
        let Boxed { inner } = self;
        Box::into_inner(inner)
    }
}

impl<T: Drop> Boxed<T> {
    /// Moves the value to the heap.
    pub fn new(alloc: Global, value: T) -> Result<Boxed<T>, NoMemory>
        ensures { IfOk result (λ boxed. boxed ≡ value) }
    {
        let inner = Box::new(alloc, value)?;
        Ok(Boxed { inner })
    }
}
